//! What the clauses of a search come to.

use proof_log::StepIds;
use term_core::TermId;

/// The clauses of terms in a log, and the terms that they speak of.
#[derive(Drop)]
pub struct Stated {
    /// The numbers of the clauses' steps, in order: all that came into the log.
    pub steps: StepIds,
    /// The numbers of all terms that a search of these clauses speaks of, but for those that it knew, in ascending order,
    /// each once: with each its arguments, where it did not know them.
    pub terms: Vec<TermId>,
}
