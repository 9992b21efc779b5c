//! For each literal the numbers of the clauses that watch it.
//!
//! The lists are in one array by the literals' codes, two for each term. An entry is taken out by its place: the last one
//! is there then.
#![tactic(auto)]

mod index;
mod lists;
mod renumbering;

pub use index::WatchIndex;
pub use renumbering::renumber;
pub use term_core::{Lit, TermId};
