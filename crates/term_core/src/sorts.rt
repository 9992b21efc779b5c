//! The sorts of terms, and the ranks of symbols.

use crate::ids::SortId;

/// Says which values a term has.
///
/// Source: SMT-LIB 2.6, section 3.5, theories Core and Reals.
#[derive(Clone, Copy, Debug, PartialEq, Eq, Hash)]
pub enum Sort {
    /// Truth values.
    Bool,
    /// Numbers.
    Real,
    /// The elements of the declared sort of that number.
    Declared(SortId),
}

/// Says which sorts a symbol takes and gives.
///
/// Source: SMT-LIB 2.6, section 5.2, ranks.
#[derive(Drop)]
pub struct Rank {
    /// The sorts of its arguments, in their order.
    pub parameters: Vec<Sort>,
    /// The sort that it gives.
    pub result: Sort,
}
