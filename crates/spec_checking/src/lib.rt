//! Definitions about proofs over the whole language: the commands of a proof, what they are read as, good and accepted
//! proofs, the first fault, and the verdict.
//!
//! Nothing here runs. The functions with empty bodies are laws and examples: what they ensure is proved of the
//! definitions in `specs/`.
#![tactic(auto)]

pub mod examples;
pub mod laws;
