//! Congruence closure with explanations, as a theory of the search.
//!
//! It holds literals of equality and uninterpreted functions over the terms that it watches. A check closes them under congruence,
//! in time in proportion to what came since, and explains a conflict by steps of the log. Going back restores what was closed.
#![tactic(auto)]

mod congruence;
mod implying;
mod parts;
mod theory;

pub use congruence::Congruence;
pub use congruence_relation::Truths;
pub use proof_log::{Theory, Verdict};
