//! Why a step is not logged.

ghost use Rattle.std.specs.Prelude.{◌≡◌};
ghost use Rattle.proof_log.specs.Faults.{fault_of};

use no_memory::NoMemory;
use rule_bool::RuleStop;
use std::alloc::{AllocError, AllocFailed};
use thiserror::Error;

/// Says why a step is not logged.
///
/// Source: Alethe specification, the list of rules; the bound on numbers and out of memory are own.
#[derive(Clone, Copy, Debug, PartialEq, Eq, Error)]
pub enum LogFault {
    /// The clause does not follow by the rule from the premises, or one of these is not there.
    #[error("the step is not right by its rule")]
    RuleFails,
    /// An operation by which the step is tested leaves the bound on numbers.
    #[error("the step leaves the bound on numbers")]
    Wide,
    /// Memory ran out before the step was logged.
    #[error("out of memory")]
    Memory,
}

impl From<AllocError> for LogFault {
    ghost use Rattle.proof_log.specs.declared.log_fault.LogFault.TheVariants as faults;

    ghost from_gives = { λ _ r. r ≡ faults.Memory };

    fn from(_error: AllocError) -> LogFault {
        LogFault::Memory
    }
}

impl<T: Drop> From<AllocFailed<T>> for LogFault {
    ghost use Rattle.proof_log.specs.declared.log_fault.LogFault.TheVariants as faults;

    ghost from_gives = { λ _ r. r ≡ faults.Memory };

    fn from(_error: AllocFailed<T>) -> LogFault {
        LogFault::Memory
    }
}

impl From<NoMemory> for LogFault {
    ghost use Rattle.proof_log.specs.declared.log_fault.LogFault.TheVariants as faults;

    ghost from_gives = { λ _ r. r ≡ faults.Memory };

    fn from(_error: NoMemory) -> LogFault {
        LogFault::Memory
    }
}

impl From<RuleStop> for LogFault {
    ghost from_gives = { λ s r. r ≡ fault_of s };

    fn from(stop: RuleStop) -> LogFault {
        match stop {
            RuleStop::Fails => LogFault::RuleFails,
            RuleStop::Wide => LogFault::Wide,
            RuleStop::Memory => LogFault::Memory,
        }
    }
}
