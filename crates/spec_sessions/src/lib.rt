//! Definitions about runs of scripts over the whole language: what each command is answered, what shows that an answer
//! is right, and what is written.
//!
//! Nothing here runs. The functions with empty bodies are laws and examples: what they ensure is proved of the
//! definitions in `specs/`.
#![tactic(auto)]

pub mod examples;
pub mod laws;
