//! Reads the texts of terms and definitions into a table of terms and a scope: what they are read as by the definitions,
//! or their first fault.
//!
//! A text is read from left to right. Nothing recurses: open lists are in a row.
#![tactic(auto)]

mod applied;
mod bindings;
mod defining;
mod distinct;
mod frames;
mod mentions;
mod naming;
mod reads;
mod sorted;
mod splitting;
mod walk;

pub use reads::{FunctionParts, Room, define, term, terms, terms_of_any_sort};
pub use sorted::find_room;
