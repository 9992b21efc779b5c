//! Definitions about the simplex method for linear real arithmetic: what literals that hold say of a point, weights
//! under which they cannot all hold, the variables of a form as entries of a tableau, and operations that leave the bound
//! on numbers.
//!
//! Nothing here runs. The functions with empty bodies are laws: what they ensure is proved of the definitions in
//! `specs/`.
#![tactic(auto)]

pub mod laws;
pub mod overflow_laws;
