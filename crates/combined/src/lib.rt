//! Two theories as one: equality with functions, and linear real arithmetic.
//!
//! Each holds all literals and watches all terms. Nothing goes from one to the other, so each speaks for itself. They share terms: numbers
//! that are arguments or values of functions. Whether they agree on these is found where a search is saturated, by `agree` of `agreement`.
#![tactic(auto)]

mod combined;
mod theory;

pub use combined::Combined;
pub use congruence::Truths;
pub use proof_log::{Theory, Verdict};
