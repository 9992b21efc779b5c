//! Why an atom is not placed.

ghost use Rattle.std.specs.Prelude.{◌≡◌};

use linear_form::{FormFault, FormStop};
use no_memory::NoMemory;
use ratio128::Wide;
use std::alloc::{AllocError, AllocFailed};
use tableau::RowStop;
use thiserror::Error;

/// Says why an atom is not placed.
#[derive(Clone, Copy, Debug, PartialEq, Eq, Error)]
pub enum AtomStop {
    /// An operation that leaves the bound on fractions.
    #[error("an operation leaves the bound on numbers")]
    Wide(Wide),
    /// Out of memory, which says nothing of the atom.
    #[error("out of memory")]
    Memory,
}

impl From<Wide> for AtomStop {
    ghost use Rattle.simplex_atoms.specs.declared.stop.AtomStop.TheVariants as stops;

    ghost from_gives = { λ w r. r ≡ stops.Wide w };

    fn from(wide: Wide) -> AtomStop {
        AtomStop::Wide(wide)
    }
}

impl From<NoMemory> for AtomStop {
    ghost use Rattle.simplex_atoms.specs.declared.stop.AtomStop.TheVariants as stops;

    ghost from_gives = { λ _ r. r ≡ stops.Memory };

    fn from(_error: NoMemory) -> AtomStop {
        AtomStop::Memory
    }
}

impl From<AllocError> for AtomStop {
    ghost use Rattle.simplex_atoms.specs.declared.stop.AtomStop.TheVariants as stops;

    ghost from_gives = { λ _ r. r ≡ stops.Memory };

    fn from(_error: AllocError) -> AtomStop {
        AtomStop::Memory
    }
}

impl<T: Drop> From<AllocFailed<T>> for AtomStop {
    ghost use Rattle.simplex_atoms.specs.declared.stop.AtomStop.TheVariants as stops;

    ghost from_gives = { λ _ r. r ≡ stops.Memory };

    fn from(_error: AllocFailed<T>) -> AtomStop {
        AtomStop::Memory
    }
}

impl From<RowStop> for AtomStop {
    ghost use Rattle.simplex_atoms.specs.Stops.{of_row};

    ghost from_gives = { λ s r. r ≡ of_row s };

    fn from(stop: RowStop) -> AtomStop {
        match stop {
            RowStop::Wide(wide) => AtomStop::Wide(wide),
            RowStop::Memory => AtomStop::Memory,
        }
    }
}

impl From<FormFault> for AtomStop {
    ghost use Rattle.simplex_atoms.specs.Stops.{of_fault};

    ghost from_gives = { λ s r. r ≡ of_fault s };

    fn from(fault: FormFault) -> AtomStop {
        match fault {
            FormFault::Wide(_, wide) => AtomStop::Wide(wide),
            FormFault::Memory => AtomStop::Memory,
        }
    }
}

impl From<FormStop> for AtomStop {
    ghost use Rattle.simplex_atoms.specs.Stops.{of_join};

    ghost from_gives = { λ s r. r ≡ of_join s };

    fn from(stop: FormStop) -> AtomStop {
        match stop {
            FormStop::Wide(wide) => AtomStop::Wide(wide),
            FormStop::Memory => AtomStop::Memory,
        }
    }
}
