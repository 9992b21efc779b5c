//! Why a form is not made.

ghost use Rattle.std.specs.Prelude.{◌≡◌};

use ratio128::Wide;
use std::alloc::{AllocError, AllocFailed};
use term_core::TermId;
use thiserror::Error;

/// Says why forms are not joined or changed.
#[derive(Clone, Copy, Debug, PartialEq, Eq, Error)]
pub enum FormStop {
    /// An operation that leaves the bound on fractions.
    #[error("an operation leaves the bound on numbers")]
    Wide(Wide),
    /// Out of memory, which says nothing of the form.
    #[error("out of memory")]
    Memory,
}

impl From<Wide> for FormStop {
    ghost use Rattle.linear_form.specs.declared.stop.FormStop.TheVariants as stops;

    ghost from_gives = { λ w r. r ≡ stops.Wide w };

    fn from(wide: Wide) -> FormStop {
        FormStop::Wide(wide)
    }
}

impl From<AllocError> for FormStop {
    ghost use Rattle.linear_form.specs.declared.stop.FormStop.TheVariants as stops;

    ghost from_gives = { λ _ r. r ≡ stops.Memory };

    fn from(_error: AllocError) -> FormStop {
        FormStop::Memory
    }
}

impl<T: Drop> From<AllocFailed<T>> for FormStop {
    ghost use Rattle.linear_form.specs.declared.stop.FormStop.TheVariants as stops;

    ghost from_gives = { λ _ r. r ≡ stops.Memory };

    fn from(_error: AllocFailed<T>) -> FormStop {
        FormStop::Memory
    }
}

/// Says why a term's form is not found.
#[derive(Clone, Copy, Debug, PartialEq, Eq, Error)]
pub enum FormFault {
    /// The first operation that leaves the bound on fractions, and the term whose head makes it.
    #[error("an operation leaves the bound on numbers")]
    Wide(TermId, Wide),
    /// Out of memory, which says nothing of the form.
    #[error("out of memory")]
    Memory,
}

impl From<AllocError> for FormFault {
    ghost use Rattle.linear_form.specs.declared.stop.FormFault.TheVariants as faults;

    ghost from_gives = { λ _ r. r ≡ faults.Memory };

    fn from(_error: AllocError) -> FormFault {
        FormFault::Memory
    }
}
