//! Why there are no reasons.

ghost use Rattle.std.specs.Prelude.{◌≡◌};

use ratio128::Wide;
use std::alloc::{AllocError, AllocFailed};
use thiserror::Error;

/// Says why there are no reasons.
#[derive(Clone, Copy, Debug, PartialEq, Eq, Error)]
pub enum ReasonStop {
    /// A weight that leaves the bound on fractions.
    #[error("an operation leaves the bound on numbers")]
    Wide(Wide),
    /// Out of memory, which says nothing of the bounds.
    #[error("out of memory")]
    Memory,
}

impl From<Wide> for ReasonStop {
    ghost use Rattle.simplex_explain.specs.declared.reason_stop.ReasonStop.TheVariants as stops;

    ghost from_gives = { λ w r. r ≡ stops.Wide w };

    fn from(wide: Wide) -> ReasonStop {
        ReasonStop::Wide(wide)
    }
}

impl From<AllocError> for ReasonStop {
    ghost use Rattle.simplex_explain.specs.declared.reason_stop.ReasonStop.TheVariants as stops;

    ghost from_gives = { λ _ r. r ≡ stops.Memory };

    fn from(_error: AllocError) -> ReasonStop {
        ReasonStop::Memory
    }
}

impl<T: Drop> From<AllocFailed<T>> for ReasonStop {
    ghost use Rattle.simplex_explain.specs.declared.reason_stop.ReasonStop.TheVariants as stops;

    ghost from_gives = { λ _ r. r ≡ stops.Memory };

    fn from(_error: AllocFailed<T>) -> ReasonStop {
        ReasonStop::Memory
    }
}
