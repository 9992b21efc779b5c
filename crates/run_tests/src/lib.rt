//! Tests of whole runs over texts in memory: in what pieces a script comes and its output goes changes nothing, and where a call
//! fails, what was written is what was due.
//!
//! The scripts are a text of rows, which a helper reads; it gives the first row that is not so.
#![tactic(auto)]

#[cfg(test)]
mod devices;
#[cfg(test)]
mod failing_tests;
#[cfg(test)]
mod goes_on_tests;
#[cfg(test)]
mod piece_tests;
#[cfg(test)]
mod rows;
