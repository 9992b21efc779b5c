//! The clauses that rules without premises state of a term, as steps of a log, and the terms that a search speaks of besides
//! those of its check.
#![tactic(auto)]

pub mod choices;
mod head_rules;
pub mod marks;
pub mod signs;
pub mod spoken;
pub mod statements;
pub mod steps;
