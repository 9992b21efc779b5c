//! Bounds, each of which a literal states.

use delta_num::Delta;
use term_core::Lit;

/// Says which way a bound holds.
#[derive(Clone, Copy, PartialEq, Eq, Debug)]
pub enum Side {
    /// The variable is at least the value.
    Lower,
    /// The variable is at most the value.
    Upper,
}

/// Bounds a variable from one side.
#[derive(Clone, Copy, PartialEq, Eq, Debug)]
pub struct Bound {
    /// The number of the variable, from 0.
    pub variable: u64,
    /// The side.
    pub side: Side,
    /// The least value of a lower bound, or the greatest of an upper one. One that is strict has a tilt.
    pub value: Delta,
    /// The literal that states the bound.
    pub literal: Lit,
}
