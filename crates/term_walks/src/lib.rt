//! Walks over the terms of a table: their values, what fills their parameters, and how many subterms they have.
#![tactic(auto)]

mod count;
mod heads;
mod numbers;
mod order;
mod substitution;
mod valuation;
mod values;

pub use count::fit_in;
pub use substitution::fill;
pub use valuation::value;
pub use values::{Interp, Table, Value, ValueRow, ValueStop};
