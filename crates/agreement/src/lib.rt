//! Whether two theories agree on the terms that they share.
//!
//! Congruence closure says which terms are equal by classes, and simplex by values. Where they agree on each two shared terms, one
//! model serves both. Where they do not, there are pairs to split on.
//! Source: Nelson and Oppen, Simplification by Cooperating Decision Procedures, TOPLAS 1979.
#![tactic(auto)]

mod agreeing;

pub use agreeing::{Agreement, ArgumentPlace, Shared, agree};
pub use delta_num::Delta;
pub use term_core::{SymbolId, TermId};
