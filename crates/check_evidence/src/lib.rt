//! A check of what a script has stated: what it finds, with what shows it, and how that is written.
#![tactic(auto)]

mod evidence;
mod sending;

pub use evidence::{Evidence, check};
pub use sending::{send_answer, send_evidence};
