//! Why the clauses of a search are not made.

ghost use Rattle.std.specs.Prelude.{◌≡◌};

use no_memory::NoMemory;
use ratio128::Wide;
use std::alloc::{AllocError, AllocFailed};
use thiserror::Error;

/// Says why the clauses of a search are not made.
#[derive(Clone, Copy, Debug, PartialEq, Eq, Error)]
pub enum ClauseStop {
    /// The first operation of the rule `la_generic` that leaves the bound on numbers.
    #[error("an operation leaves the bound on numbers")]
    Wide(Wide),
    /// Memory ran out, which says nothing of the terms.
    #[error("out of memory")]
    Memory,
}

impl From<NoMemory> for ClauseStop {
    ghost use Rattle.clausify.specs.declared.stop.ClauseStop.TheVariants.{Memory};

    ghost from_gives = { λ _ r. r ≡ Memory };

    fn from(_error: NoMemory) -> ClauseStop {
        ClauseStop::Memory
    }
}

impl From<AllocError> for ClauseStop {
    ghost use Rattle.clausify.specs.declared.stop.ClauseStop.TheVariants.{Memory};

    ghost from_gives = { λ _ r. r ≡ Memory };

    fn from(_error: AllocError) -> ClauseStop {
        ClauseStop::Memory
    }
}

impl<T: Drop> From<AllocFailed<T>> for ClauseStop {
    ghost use Rattle.clausify.specs.declared.stop.ClauseStop.TheVariants.{Memory};

    ghost from_gives = { λ _ r. r ≡ Memory };

    fn from(_error: AllocFailed<T>) -> ClauseStop {
        ClauseStop::Memory
    }
}
