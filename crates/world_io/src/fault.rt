//! Faults of reading and writing, and how they are counted.

ghost use Rattle.std.specs.Prelude.{◌≡◌};
ghost use Rattle.world_io.specs.Outside.{Rose};
ghost use Rattle.world_io.specs.Memory.{next_number};

use thiserror::Error;

/// Says that a read or a write failed.
///
/// A call answers it only where the count of faults of the object that was passed in rose in that call.
#[derive(Clone, Copy, Debug, PartialEq, Eq, Error)]
#[error("I/O failed")]
pub struct Failed;

/// Gives the next number. The greatest number stays.
pub(crate) fn one_more(number: u64) -> u64
    ensures rose { Rose number result }
    ensures next { result ≡ next_number number }
{
    number.saturating_add(1)
}

/// Counts a fault.
pub(crate) fn counted(faults: &mut u64) -> Failed
    ensures rose { Rose faults.old faults.new }
    ensures next { faults.new ≡ next_number faults.old }
{
    *faults = one_more(*faults);
    Failed
}
