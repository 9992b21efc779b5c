//! Learning from conflicts: what a false clause depends on, and the clause of the first unique implication point.
//!
//! The analysis goes down the trail from its end to the point, and takes the reasons that it passes as premises.
#![tactic(auto)]

mod analysis;
mod dropping;
pub mod laws;
mod learned;
mod learning;
mod level;
mod lits;
mod marks;
mod meeting;
mod stated;

pub use learned::Learned;
pub use learning::{learn, refute};
pub use level::conflict_level;
pub use lits::Lits;
pub use proof_log::StepId;
pub use sat_trail::{Lit, SatTrail, TermId};
