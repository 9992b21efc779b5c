//! The feasibility check of simplex: whether rows of linear equations and bounds of their variables have a point.
//!
//! A tableau has a value of each variable. Nonbasic variables go to the bounds that they violate, and then variables
//! are exchanged as the least-variable rule says, until each bound is kept or a row shows that no point keeps them
//! all.
//! Source: Dutertre and de Moura, A Fast Linear-Arithmetic Solver for DPLL(T), CAV 2006; Bland, New finite pivoting
//! rules for the simplex method, 1977.
#![tactic(auto)]

mod assignment;
mod changes;
mod check;
mod entering;
mod moving;
mod ranges;
mod rule;
mod stepping;
mod sums;
mod suspects;

pub use assignment::RealAssignment;
pub use check::CheckOutcome;
pub use rule::Move;
