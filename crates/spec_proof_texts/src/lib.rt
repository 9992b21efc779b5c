//! Definitions about printed proofs over the whole language: the lines of a proof, their text, what they mean, which
//! lines a derivation has, and which terms can be read back from them.
//!
//! Nothing here runs. The functions with empty bodies are laws: what they ensure is proved of the definitions in
//! `specs/`.
#![tactic(auto)]

pub mod examples;
pub mod laws;
pub mod readable_laws;
