//! The commands of a proof over the whole language: one by one from its text, each read from its tree under what is known
//! before it.
#![tactic(auto)]

mod coefficients;
mod errors;
mod naming;
mod premises;
mod proof_state;
mod reader;
mod reading;
mod shapes;
mod terms;

pub use errors::{CommandError, LocatedFault, ProofFault, ProofStop, fault};
pub use proof_state::ProofState;
pub use reader::Reader;
pub use reading::{ProofStep, ReadCommand, proof_command};
pub use shapes::{Shape, StepParts, shape_of};
