//! Two literals that cannot both hold, as far as forms tell.

use ratio128::Ratio;
use term_core::Lit;

/// Holds two literals that cannot both hold, as far as their forms tell.
///
/// What the first says, and what the second says times the weight, have a sum without variables.
#[derive(Clone, Copy, Debug, PartialEq, Eq)]
pub struct BoundPair {
    /// The literal that a sum is below a cut.
    pub first: Lit,
    /// The literal that the sum is not below a cut that is not before that one.
    pub second: Lit,
    /// The weight of the second, where that of the first is 1. It is above 0.
    pub weight: Ratio,
}
