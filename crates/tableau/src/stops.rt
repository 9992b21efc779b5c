//! Why a row could not be made.

use no_memory::NoMemory;
use ratio128::Wide;
use std::alloc::{AllocError, AllocFailed};

/// Says why rows could not be changed. They are as they were before the call.
#[derive(Clone, Copy, PartialEq, Eq, Debug)]
pub enum RowStop {
    /// An operation on coefficients leaves the bound on fractions.
    Wide(Wide),
    /// There is no memory.
    Memory,
}

impl From<Wide> for RowStop {
    ghost use Rattle.std.specs.Prelude.{◌≡◌};
    ghost use Rattle.tableau.specs.declared.stops.RowStop.TheVariants as stops;

    ghost from_gives = { λ w r. r ≡ stops.Wide w };

    fn from(wide: Wide) -> RowStop {
        RowStop::Wide(wide)
    }
}

impl From<NoMemory> for RowStop {
    ghost use Rattle.std.specs.Prelude.{◌≡◌};
    ghost use Rattle.tableau.specs.declared.stops.RowStop.TheVariants as stops;

    ghost from_gives = { λ _ r. r ≡ stops.Memory };

    fn from(_error: NoMemory) -> RowStop {
        RowStop::Memory
    }
}

impl From<AllocError> for RowStop {
    ghost use Rattle.std.specs.Prelude.{◌≡◌};
    ghost use Rattle.tableau.specs.declared.stops.RowStop.TheVariants as stops;

    ghost from_gives = { λ _ r. r ≡ stops.Memory };

    fn from(_error: AllocError) -> RowStop {
        RowStop::Memory
    }
}

impl<T: Drop> From<AllocFailed<T>> for RowStop {
    ghost use Rattle.std.specs.Prelude.{◌≡◌};
    ghost use Rattle.tableau.specs.declared.stops.RowStop.TheVariants as stops;

    ghost from_gives = { λ _ r. r ≡ stops.Memory };

    fn from(_error: AllocFailed<T>) -> RowStop {
        RowStop::Memory
    }
}
