//! Reads a script up to a check: what the check asks about, with the terms and the names that are there.
//!
//! Commands that are refused change nothing, and are passed over. Nothing after the check is read.
#![tactic(auto)]

mod load;
mod standing;

pub use load::{Script, current_at};
pub use standing::{Expression, Standing, standing_at};
