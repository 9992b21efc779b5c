//! The congruence closure of held literals over listed terms, by the numbers of terms, with exact going back.
//!
//! Classes of terms are in a class table, and why terms are in one class in a forest of edges; both change side by side. A table
//! has for each key, a head with the class numbers of arguments, a listed term that has it. Where two classes join, the terms with an
//! argument in the one that was renumbered are looked at again. Keys are only ever added, so going back is to cut lists.
//! A term that takes no part, as a connective, is listed for its literals alone: it is never looked at.
//! Source: Downey, Sethi and Tarjan, JACM 1980, and Nieuwenhuis and Oliveras, Information and Computation 205, 2007.
#![tactic(auto)]

mod closure;
mod holding;
mod key_table;
mod listing;
mod looking;
mod noting;
mod parts;
mod reading;
mod saturating;
mod users;

pub use closure::Closure;
pub use congruence_relation::{Conflict, Listed, Truths};
pub use explain_forest::{Edge, Forest, Label};
pub use term_core::{Lit, Node, TermId};
