//! The congruence of held literals by the numbers of terms, and edges that represent it.
#![tactic(auto)]

mod laws;

pub use explain_forest::{Edge, Label};
pub use laws::{
    closed_edges_are_exact, facts_stay_over_more_terms, more_facts_keep_reasons,
    numbers_and_terms_agree, refutations_agree,
};
pub use term_core::{Lit, Node, TermId};

/// Names the terms `true` and `false` of a table.
#[derive(Clone, Copy, Debug, PartialEq, Eq)]
pub struct Truths {
    /// The term `true`.
    pub true_term: TermId,
    /// The term `false`.
    pub false_term: TermId,
}

/// Holds a term that is watched: its number, a copy of its head and its arguments, and whether it takes part.
#[derive(Drop)]
pub struct Listed {
    /// The term.
    pub term: TermId,
    /// What is in it.
    pub node: Node,
    /// Whether it is equal to other terms by its arguments. Connectives are not: clauses say what they mean.
    pub takes_part: bool,
}

/// Says what held literals contradict.
#[derive(Clone, Copy, Debug, PartialEq, Eq)]
pub enum Conflict {
    /// The terms `true` and `false` are equal.
    Truths,
    /// The sides of this equality are equal, and its negation is held.
    Sides(TermId),
}
