//! Why a text was not read.

ghost use Rattle.std.specs.Prelude.{◌≡◌};

use spec_text::Fault;
use thiserror::Error;

/// Tells a fault of a text, and where it is.
#[derive(Clone, Copy, Debug, PartialEq, Eq)]
pub struct TermFault {
    /// The offset in the text, in bytes.
    pub offset: u64,
    /// Which fault it is.
    pub fault: Fault,
}

/// Tells why a term was not read.
#[derive(Clone, Copy, Debug, Error, PartialEq, Eq)]
pub enum ReadError {
    /// The first fault of the text.
    #[error("{0:?}")]
    Fault(TermFault),
    /// No memory was left. It says nothing of the text.
    #[error("out of memory")]
    Memory,
}

/// Makes a fault at an offset.
pub fn fault_at(offset: u64, fault: Fault) -> TermFault
    ensures { result ≡ record { offset = offset; fault = fault } }
{
    TermFault { offset, fault }
}
