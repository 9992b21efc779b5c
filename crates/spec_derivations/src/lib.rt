//! Definitions about searches over the whole language: derivations, the clauses that a search begins with, learned
//! clauses, spent budgets, and truths that meet clauses.
//!
//! Nothing here runs. The functions with empty bodies are laws and examples: what they ensure is proved of the
//! definitions in `specs/`.
#![tactic(auto)]

pub mod chains;
pub mod checks;
pub mod examples;
pub mod growing;
pub mod keeping;
pub mod laws;
pub mod search_laws;
