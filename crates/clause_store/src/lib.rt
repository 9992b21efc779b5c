//! The clauses of a search, each with the step that derives it, and unit propagation over them.
//!
//! Two different literals of each clause watch it: its number is in their lists. Propagation goes through the list of each
//! literal that came to be false, and through no other clauses but those that were added since.
#![tactic(auto)]

mod entry;
mod fresh;
mod keeping;
pub mod laws;
mod literals;
mod pair;
mod parts;
mod propagate;
mod store;
mod watched;

pub use pair::Pair;
pub use proof_log::StepId;
pub use propagate::Propagation;
pub use sat_trail::{Lit, SatTrail, TermId};
pub use store::ClauseStore;
