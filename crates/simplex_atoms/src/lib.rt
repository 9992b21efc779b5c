//! Atoms of linear arithmetic on the variables of a tableau: which variable an atom bounds, and by which value.
//!
//! The form of a watched atom is a multiple of one variable, plus a constant. Terms that are no sums become
//! variables, and other sums become rows, equal or opposite ones the same row. A literal of the atom then bounds the
//! variable.
//! Source: Dutertre and de Moura, A Fast Linear-Arithmetic Solver for DPLL(T), CAV 2006.
#![tactic(auto)]

mod atoms;
mod keys;
pub mod laws;
mod limits;
mod meanings;
mod numbering;
mod owners;
mod placing;
mod reading;
mod slack;
mod stop;
mod sums;

pub use atoms::Atoms;
pub use limits::bounds_by;
pub use reading::{AtomSides, difference_of, sides_of};
pub use slack::{Comparison, Slack};
pub use stop::AtomStop;
