//! Values of listed terms that fit together, the interpretation that they give, and where a search over equality and
//! functions is saturated.
//!
//! Nothing here runs. The functions with empty bodies are laws: what they ensure is proved of the definitions in
//! `specs/`.
#![tactic(auto)]

pub mod checks;
pub mod laws;
pub mod propositional;
