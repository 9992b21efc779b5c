//! Literals with weights.

use ratio128::Ratio;
use term_core::Lit;

/// Weighs a literal that holds: the form of what it says is multiplied by the weight in a sum.
///
/// Of an order the size of the weight counts, of an equality the weight itself. Source: Farkas 1902.
#[derive(Clone, Copy, Debug, PartialEq, Eq)]
pub struct Weighted {
    /// The literal.
    pub literal: Lit,
    /// Its weight.
    pub weight: Ratio,
}
