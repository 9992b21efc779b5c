//! Definitions of why a check about numbers is not decided: what simplex comes to over the check's atoms, and by which
//! operations it leaves the bound on fractions there.
//!
//! Nothing here runs. The functions with empty bodies are laws: what they ensure is proved of the definitions in
//! `specs/`.
#![tactic(auto)]

pub mod laws;
