//! What a search has in hand.

use crate::decider::Decider;
use crate::restarts::Restarts;
use clause_store::ClauseStore;
use proof_log::ProofLog;
use sat_budget::Budget;
use sat_trail::SatTrail;
use std::alloc::Global;
use term_core::TermId;

/// What a search has in hand.
#[derive(Drop)]
pub struct Search {
    /// Where its memory comes from.
    pub alloc: Global,
    /// The clauses of the terms, what was learned, and how they are derived.
    pub log: ProofLog,
    /// The clauses of the log by their literals.
    pub store: ClauseStore,
    /// The literals that hold.
    pub trail: SatTrail,
    /// The terms that the clauses and a theory speak of.
    pub terms: Vec<TermId>,
    /// Those of them that are decided: of sort Bool, and no negations.
    pub atoms: Vec<TermId>,
    /// Which variables wait to be decided, and in which order.
    pub decider: Decider,
    /// When it begins again from level 0.
    pub restarts: Restarts,
    /// The clauses that were learned and how many may be, and the exchanges that were made.
    pub budget: Budget,
    /// How many of the oldest literals that hold the theory holds.
    pub fed: u64,
    /// How many steps the log had when the present check began: what these learned, earlier checks did.
    pub since: u64,
}
