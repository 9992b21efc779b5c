//! Numbers of terms, symbols and sorts, and literals.

/// Names a term of a table by its number, from 0.
#[derive(Clone, Copy, Debug, Default, PartialEq, Eq, Hash)]
pub struct TermId(pub u64);

/// Names a declared symbol of a table by its number, from 0.
#[derive(Clone, Copy, Debug, Default, PartialEq, Eq, Hash)]
pub struct SymbolId(pub u64);

/// Names a declared sort of a table by its number, from 0.
#[derive(Clone, Copy, Debug, Default, PartialEq, Eq, Hash)]
pub struct SortId(pub u64);

/// Means a term as it is, or its negation.
#[derive(Clone, Copy, Debug, Default, PartialEq, Eq, Hash)]
pub struct Lit {
    /// The term.
    pub term: TermId,
    /// Whether the term is meant as it is.
    pub positive: bool,
}
