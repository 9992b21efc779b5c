//! Sessions over the whole language: commands and questions of a script one after the other, each with its response.
#![tactic(auto)]

mod mode;
mod responses;
mod script;
mod session;

pub use mode::{ExecutionMode, Mode};
pub use session::{After, Halt, Session};
