//! Equalities of elements that asserted disjunctions lead to: where each case of one joins the same two terms, that these are equal
//! follows, and is stated before a search decides anything.
//!
//! So a chain of diamonds takes time in proportion to its length, where a search by cases takes a time that doubles with each. Which
//! equalities come is free: no answer depends on it. Each is a step by `resolution` from steps without premises: of the
//! disjunction, of its cases, and of the chain of equalities in each of these.
#![tactic(auto)]

mod cases;
mod casing;
mod conjuncts;
mod equalities;
mod finding;
mod forest;
mod joining;
mod judging;
mod lead;
mod logging;
mod stating;

pub use equalities::{CaseEquality, equalities_of_cases};
