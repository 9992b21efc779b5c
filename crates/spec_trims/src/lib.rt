//! Definitions about trimmed proofs: the commands that the first empty clause of a proof rests on, and their text.
//!
//! Nothing here runs. The functions with empty bodies are laws and examples: what they ensure is proved of the
//! definitions in `specs/`.
#![tactic(auto)]

pub mod laws;
