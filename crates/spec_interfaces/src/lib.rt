//! Definitions of interface equalities: of which equalities a search speaks besides a check's terms, and of which of
//! them learned clauses may.
//!
//! Nothing here runs. The functions with empty bodies are laws: what they ensure is proved of the definitions in
//! `specs/`.
#![tactic(auto)]

pub mod laws;
