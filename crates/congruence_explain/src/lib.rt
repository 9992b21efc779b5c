//! Why two terms are equal, as steps of a log: the path of edges between them, and why each edge is there.
//!
//! It goes from the newest edge down, since what an edge depends on is older, and explains each edge that is needed once.
#![tactic(auto)]

mod chain;
mod choosing;
mod claims;
mod collecting;
mod edges;
mod exactness;
mod explaining;
mod paths;
mod putting;
mod rules;

pub use congruence_relation::{Conflict, Truths};
pub use exactness::is_exact;
pub use explain_forest::Forest;
pub use explaining::explain;
pub use proof_log::StepId;
pub use term_core::TermId;
