//! Exact numbers with an infinitesimal part, which stand for strict bounds on fractions.
//!
//! A `Delta` is `base + tilt * epsilon`, where epsilon is above 0 and below every number that counts. An operation gives the
//! exact result, or `Wide` with its operands where a part leaves the bound of `ratio128`. It takes no memory.
#![tactic(auto)]

mod delta;
pub mod laws;

pub use delta::Delta;
