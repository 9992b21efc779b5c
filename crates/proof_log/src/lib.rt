//! A log of clauses of formulas, each assumed or right by a rule from earlier ones, so that what is claimed of any of them can be shown.
//! Its terms are of every sort.
#![tactic(auto)]

mod atoms;
mod entry;
mod keeping;
pub mod laws;
mod log;
mod log_fault;
mod numbers;
mod premises;
mod reach;
mod reaching;
mod step;
mod theory;

pub use atoms::is_atom;
pub use log::ProofLog;
pub use log_fault::LogFault;
pub use numbers::Numbers;
pub use premises::{StepId, StepIds};
pub use ratio128::Ratio;
pub use reach::Reach;
pub use spec_proofs::Rule;
pub use step::Step;
pub use term_core::{Clause, TermId};
pub use theory::{Theory, Verdict};
