//! Why a step is not taken.

ghost use Rattle.std.specs.Prelude.{◌≡◌};

use std::alloc::AllocError;
use term_core::RuleFails;
use thiserror::Error;

/// Says why a step of a proof is not taken.
///
/// Source: Alethe specification, the list of rules; the bound on numbers and out of memory are own.
#[derive(Clone, Copy, Debug, PartialEq, Eq, Error)]
pub enum RuleStop {
    /// The clause does not follow by the rule from the premises.
    #[error("the step is not right by its rule")]
    Fails,
    /// An operation by which the step is tested leaves the bound on numbers.
    #[error("the step leaves the bound on numbers")]
    Wide,
    /// Memory ran out before that was known.
    #[error("out of memory")]
    Memory,
}

impl From<AllocError> for RuleStop {
    ghost use Rattle.rule_bool.specs.declared.rule_stop.RuleStop.TheVariants as stops;

    ghost from_gives = { λ _ r. r ≡ stops.Memory };

    fn from(_error: AllocError) -> RuleStop {
        RuleStop::Memory
    }
}

impl From<RuleFails> for RuleStop {
    ghost use Rattle.rule_bool.specs.declared.rule_stop.RuleStop.TheVariants as stops;

    ghost from_gives = { λ _ r. r ≡ stops.Fails };

    fn from(_fails: RuleFails) -> RuleStop {
        RuleStop::Fails
    }
}
