//! What a store keeps for each of its clauses.

use proof_log::StepId;
use term_core::Lit;

/// One clause of a store.
#[derive(Drop)]
pub(crate) struct StoredClause {
    /// Its literals, in the order of the step's clause.
    pub(crate) literals: Vec<Lit>,
    /// The step that derives it.
    pub(crate) step: StepId,
}
