//! Why a family has no line.

use no_memory::NoMemory;
use std::alloc::{AllocError, AllocFailed};
use tableau::RowStop;

/// Says why a family has no line.
#[derive(Clone, Copy)]
pub(crate) enum Fault {
    /// The arguments are not those of a family.
    Arguments,
    /// An allocation was refused.
    Memory,
    /// A table, a closure, rows or bounds cannot take what a family gives them, which no family brings about.
    Refused,
}

impl From<NoMemory> for Fault {
    fn from(_error: NoMemory) -> Fault {
        Fault::Memory
    }
}

impl From<AllocError> for Fault {
    fn from(_error: AllocError) -> Fault {
        Fault::Memory
    }
}

impl<T: Drop> From<AllocFailed<T>> for Fault {
    fn from(_error: AllocFailed<T>) -> Fault {
        Fault::Memory
    }
}

impl From<RowStop> for Fault {
    fn from(stop: RowStop) -> Fault {
        match stop {
            RowStop::Memory => Fault::Memory,
            RowStop::Wide(_) => Fault::Refused,
        }
    }
}
