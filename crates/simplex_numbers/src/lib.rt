//! Numbers in the place of the infinitesimal, at which values keep the bounds that are held.
//!
//! Values of simplex are pairs of a base and a tilt, which is how many times an infinitesimal is added. A model has
//! numbers: there the infinitesimal is a number above 0, small enough for all bounds. By the numbers that the values are
//! then, held literals hold, strict ones too. Values that are kept apart are different numbers there, if they differ.
//! Source: Dutertre and de Moura, A Fast Linear-Arithmetic Solver for DPLL(T), CAV 2006.
#![tactic(auto)]

mod apart;
pub mod laws;
mod narrowing;
mod small;
mod values;

pub use small::small_number;
pub use values::value_at;
