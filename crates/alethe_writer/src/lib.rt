//! Prints what a clause of a log over the whole language depends on as an Alethe proof.
#![tactic(auto)]

mod arguments;
mod assumes;
mod counter;
mod lines;
mod marks;
mod numbers;
mod plans;
pub mod printable;
mod proof;
mod uses;

pub use assumes::assumed_of;
pub use plans::{Plan, prepare};
pub use proof::send;
