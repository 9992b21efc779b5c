//! Overflows.

use crate::Ratio;
use spec_numbers::Op;

/// An operation that leaves the bound, with its operands as they were given.
#[derive(Clone, Copy, PartialEq, Eq, Hash, Debug)]
pub struct Wide {
    /// The operation.
    pub op: Op,
    /// The left operand.
    pub left: Ratio,
    /// The right operand.
    pub right: Ratio,
}
