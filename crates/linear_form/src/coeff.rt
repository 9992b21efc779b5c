//! The arguments of `la_generic`.

use ratio128::{Ratio, Wide};

/// Says what an argument of `la_generic` is.
#[derive(Clone, Copy, Debug, PartialEq, Eq)]
pub enum Coeff {
    /// A number.
    Number(Ratio),
    /// A quotient in it that leaves 128 bits.
    Wide(Wide),
    /// No number.
    Shape,
}
