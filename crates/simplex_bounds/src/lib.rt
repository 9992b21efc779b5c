//! Bounds of variables that are held for simplex, over numbers with an infinitesimal part.
//!
//! A bound comes, and goes when the search goes back. At each time the strongest bounds of a variable are at hand, and
//! the least variable whose bounds cross. Nothing here looks at rows.
//! Source: Dutertre and de Moura, A Fast Linear-Arithmetic Solver for DPLL(T), CAV 2006.
#![tactic(auto)]

mod bounds;
pub mod deltas;
mod held;
pub mod laws;
mod limits;
pub mod ranges;

pub use bounds::{Bound, Side};
pub use delta_num::Delta;
pub use held::Bounds;
pub use ranges::Range;
pub use term_core::Lit;
