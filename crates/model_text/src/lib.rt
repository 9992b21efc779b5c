//! Writes models of the symbols of a table of terms. No call takes memory.
#![tactic(auto)]

mod definitions;
mod models;
mod sorts;

pub use models::send;
pub use reply_text::{name, value};
pub use sorts::write_value;
