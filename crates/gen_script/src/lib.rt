//! Makes scripts of any size, whose answers are known.
#![tactic(auto)]

mod script;

pub use script::text;
