//! Definitions about steps of proofs over the whole language: clauses, the rules by which a step is right, and that
//! they keep truth.
//!
//! Nothing here runs. The functions with empty bodies are laws and examples: what they ensure is proved of the
//! definitions in `specs/`.
#![tactic(auto)]

pub mod examples;
pub mod laws;
