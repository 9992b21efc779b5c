//! Exact fractions in lowest terms whose parts are at most 2^127 - 1 in size.
//!
//! An operation gives the exact result, or `Wide` with its operands where a part leaves that bound. It never rounds and
//! takes no memory. What the operations are is defined in `spec_numbers`.
#![tactic(auto)]

pub mod laws;
mod order;
mod parts;
mod products;
mod quotients;
mod ratio;
mod sums;
mod wide;

pub use ratio::Ratio;
pub use spec_numbers::Op;
pub use wide::Wide;
