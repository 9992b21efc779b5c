//! Edges, their labels, and steps along them.

use term_core::{Lit, TermId};

/// Says why an edge is there.
#[derive(Clone, Copy, Debug, PartialEq, Eq)]
pub enum Label {
    /// A literal that is held.
    Held(Lit),
    /// Two applications with one head, whose arguments are linked one by one.
    Arguments(TermId, TermId),
}

/// Links two terms.
#[derive(Clone, Copy, Debug, PartialEq, Eq)]
pub struct Edge {
    /// The one end.
    pub a: TermId,
    /// The other end.
    pub b: TermId,
    /// Why it is there.
    pub label: Label,
}

/// Goes along an edge, from either end to the other.
#[derive(Clone, Copy, Debug, PartialEq, Eq)]
pub struct PathStep {
    /// Where the step begins.
    pub from: TermId,
    /// Where it ends.
    pub to: TermId,
    /// The edge's label.
    pub label: Label,
    /// The edge's number, from 0 for the oldest.
    pub edge: u64,
}

/// What is left of a path: a step, where there is one, and then the path between two terms.
#[derive(Clone, Copy, Debug, PartialEq, Eq)]
pub(crate) struct PathPart {
    /// What comes before the path.
    pub step: Option<PathStep>,
    /// Where the path begins.
    pub from: TermId,
    /// Where it ends.
    pub to: TermId,
}

/// How many edges and terms there were when a mark was set.
#[derive(Clone, Copy, Debug, PartialEq, Eq)]
pub(crate) struct EdgeMark {
    /// How many edges.
    pub edges: usize,
    /// How many terms.
    pub terms: usize,
}
