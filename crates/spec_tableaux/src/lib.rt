//! Definitions about tableaux, over any ordered field: rows, the pivot of two variables, bounds, and the
//! least-variable rule, which leads from a point that violates bounds to one that keeps them, or to a row that shows
//! that there is none. Over numbers with an infinitesimal part: what a check of bounds does to rows and values, and by
//! which operations it leaves the bound on the parts of fractions.
//!
//! Nothing here runs. The functions with empty bodies are laws: what they ensure is proved of the definitions in
//! `specs/`.
#![tactic(auto)]

pub mod laws;
