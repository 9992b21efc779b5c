//! Runs a script command by command: each is answered before more of its text is read.
#![tactic(auto)]

mod answering;
mod retried;
mod script;
mod status;
mod tries;
mod whole_text;

pub use retried::run_with_retries;
pub use script::run_script;
pub use status::Status;
pub use whole_text::run_text;
