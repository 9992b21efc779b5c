//! Limits of a search and of a script, and why a check comes to no answer.

ghost use Rattle.std.specs.Prelude.{◌≡◌};

use delta_num::Delta;
use no_memory::NoMemory;
use ratio128::Wide;
use std::alloc::{AllocError, AllocFailed};
use thiserror::Error;

/// Limits what a search may spend, and how much a script may ask to be held.
///
/// Each search may spend `conflicts` anew; one that would pass it ends, and its check is answered `unknown`. A check may have several
/// searches, called rounds. `terms` is not spent: a command that would pass it is refused with the fault `Full`, and no check ends by it.
/// Source: SMT-LIB 2.6, section 4.1.7, for the option of a limit on what is spent.
#[derive(Clone, Copy, Debug, PartialEq, Eq)]
pub struct Limits {
    /// How many conflicts may be learned from, each as a clause, from 0.
    pub conflicts: u64,
    /// How many different subterms the terms of one command may have, all together; and how many names of a script may be live at once.
    /// Each from 0.
    pub terms: u64,
}

/// Has what is needed to work an overflow out again.
#[derive(Debug, PartialEq, Eq, Drop)]
pub struct Basis {
    /// The numbers of the basic variables, each from 0.
    pub variables: Vec<u64>,
    /// The value of each variable, basic or not, by its number from 0.
    pub values: Vec<Delta>,
}

/// Says which operation left the bound of 128 bits, and where.
#[derive(Debug, PartialEq, Eq, Drop)]
pub struct Strain {
    /// The operation, with its operands as they were.
    pub wide: Wide,
    /// The basic variables and the values where it was asked for.
    pub basis: Basis,
}

/// Says why a check was answered `unknown`.
///
/// Source: SMT-LIB 2.6, section 4.1.8, `:reason-unknown`.
#[derive(Debug, PartialEq, Eq, Drop)]
pub enum Reason {
    /// An operation on fractions leaves 128 bits.
    Overflow(Strain),
    /// So many conflicts were learned from, which is their limit.
    Conflicts(u64),
}

/// Says why a theory's call came to no end.
#[derive(Debug, PartialEq, Eq, Drop, Error)]
pub enum Stop {
    /// An operation on fractions leaves 128 bits.
    #[error("a number leaves 128 bits")]
    Strained(Strain),
    /// Memory ran out.
    #[error("out of memory")]
    Memory,
}

impl From<NoMemory> for Stop {
    ghost use Rattle.sat_budget.specs.declared.limits.Stop.TheVariants as stops;

    ghost from_gives = { λ _ r. r ≡ stops.Memory };

    fn from(_error: NoMemory) -> Stop {
        Stop::Memory
    }
}

/// Says why a clause is not learned.
#[derive(Clone, Copy, Debug, PartialEq, Eq, Error)]
pub enum BudgetStop {
    /// The limit, this number of conflicts, is reached.
    #[error("the budget of {0} is spent")]
    Spent(u64),
    /// Memory ran out.
    #[error("out of memory")]
    Memory,
}

impl From<AllocError> for BudgetStop {
    ghost use Rattle.sat_budget.specs.declared.limits.BudgetStop.TheVariants as stops;

    ghost from_gives = { λ _ r. r ≡ stops.Memory };

    fn from(_error: AllocError) -> BudgetStop {
        BudgetStop::Memory
    }
}

impl<T: Drop> From<AllocFailed<T>> for BudgetStop {
    ghost use Rattle.sat_budget.specs.declared.limits.BudgetStop.TheVariants as stops;

    ghost from_gives = { λ _ r. r ≡ stops.Memory };

    fn from(_error: AllocFailed<T>) -> BudgetStop {
        BudgetStop::Memory
    }
}
