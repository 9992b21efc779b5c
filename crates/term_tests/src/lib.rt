//! Tests of terms: which nodes a table takes, their values, and how many subterms they have.
#![tactic(auto)]

#[cfg(test)]
mod node_tests;
#[cfg(test)]
mod rows;
#[cfg(test)]
mod value_tests;
