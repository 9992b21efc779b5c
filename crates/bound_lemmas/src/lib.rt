//! Clauses between neighbouring bounds: which pairs of atoms they are of, and their lemmas.
//!
//! Where atoms bound one sum, the stronger bound implies the weaker. A clause that says so between each two neighbours lets one bound
//! propagate the others. Source: Dutertre and de Moura, A Fast Linear-Arithmetic Solver for DPLL(T), CAV 2006, section 5 (bound
//! propagation).
#![tactic(auto)]

mod cuts;
mod cycles;
mod neighbours;
mod orders;
mod pair;
mod stating;
mod sums;

pub use cycles::order_cycles_of;
pub use neighbours::neighbours_of;
pub use pair::BoundPair;
pub use simplex_explain::Weighted;
pub use stating::{excluding, excluding_all};
