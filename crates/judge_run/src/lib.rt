//! A run that judges a text against a check of a script: a proof of it, or a model. It reads both texts, and writes the
//! verdict.
#![tactic(auto)]

mod output;
mod read;
mod request;
mod run;
mod verdict;

pub use request::{JudgeRequest, Names, Subject};
pub use run::run_judge;
