//! Cycles of orders between numbers that say together that a number is below itself.
//!
//! An order says that one point is at most another plus a number. Values of the points under which all orders hold are sought by sweeps
//! over the orders, first one way and then the other. An order that does not hold under these values makes points lower, one after the
//! other; where it comes back to its own upper point, the orders on the way are a cycle.
//! The work is bounded by a multiple of the orders and points: no answer depends on which cycles come, and what is not found is left to
//! others.
//! Source: Cotton and Maler, Fast and Flexible Difference Constraint Propagation for DPLL(T), SAT 2006; Yen, An Algorithm for Finding
//! Shortest Routes from All Source Nodes to a Given Destination in General Networks, Quarterly of Applied Mathematics 27, 1970.
#![tactic(auto)]

mod closing;
mod cycles;
mod order;
mod points;
mod settling;
mod walking;

pub use cycles::cycles_of;
pub use delta_num::Delta;
pub use order::Order;
