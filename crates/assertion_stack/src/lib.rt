//! What a script of the whole language has stated: its names, assertions, levels and options, command by command.
//!
//! The terms are in a table of their own. A command that is refused changes neither. What is declared, defined
//! and asserted at a level goes when `pop` closes it, from the table too. Declarations and definitions that are global
//! stay, with the terms that they need.
#![tactic(auto)]

mod asserting;
mod assertions;
mod assuming;
mod declaring;
mod faults;
mod labels;
pub mod laws;
mod leveling;
mod literals;
mod marks;
mod names;
mod options;
mod printing;
mod rows;
mod settings;
mod stack;

pub use assertions::{Assertions, Written};
pub use assuming::Assumed;
pub use faults::place_in;
pub use leveling::LEVEL_LIMIT;
pub use marks::{Mark, Marks};
pub use options::Options;
pub use printing::print;
pub use rows::Rows;
pub use stack::{Effect, Stack, TERM_LIMIT};
