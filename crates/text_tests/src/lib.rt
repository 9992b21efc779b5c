//! Tests of what no run of the program shows: bytes in and out, s-expressions and where they are settled, fractions, and the
//! texts of models and reasons.
//!
//! Each is a text of rows, which a helper reads; it gives the first row that is not so.
#![tactic(auto)]

#[cfg(test)]
mod io_tests;
#[cfg(test)]
mod model_tests;
#[cfg(test)]
mod parts;
#[cfg(test)]
mod ratio_tests;
#[cfg(test)]
mod reason_tests;
#[cfg(test)]
mod rows;
#[cfg(test)]
mod scan_tests;
#[cfg(test)]
mod sexpr_tests;
#[cfg(test)]
mod stream_tests;
