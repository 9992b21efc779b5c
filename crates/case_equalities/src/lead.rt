//! That each case of a disjunction joins the same two terms.

use term_core::TermId;

/// Holds two terms that each case of a disjunction joins, with the equalities that do so.
#[derive(Drop)]
pub(crate) struct Lead {
    /// The disjunction.
    pub(crate) disjunction: TermId,
    /// The one term.
    pub(crate) left: TermId,
    /// The other, of the same declared sort, with a greater number.
    pub(crate) right: TermId,
    /// For each argument of the disjunction, in order, the equalities of a chain from the one term to the other.
    pub(crate) chains: Vec<Chain>,
}

/// Holds a case of a disjunction, with equalities that hold in it.
#[derive(Drop)]
pub(crate) struct Chain {
    /// The case.
    pub(crate) case: TermId,
    /// The equalities of a chain from one term to the other: each has the side to which those before it lead. It is the case itself, or
    /// one of the arguments where the case is a conjunction.
    pub(crate) equalities: Vec<TermId>,
}
