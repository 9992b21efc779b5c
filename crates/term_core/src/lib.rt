//! The terms of a script or a proof over theories Core and Reals: each term once, by its number, with its sort and its
//! literal.
#![tactic(auto)]

mod clauses;
mod facts;
mod ids;
mod name_table;
mod nodes;
mod rule_fails;
mod sorts;
mod symbols;
mod taking;
mod terms;
mod theory_heads;

pub use clauses::Clause;
pub use ids::{Lit, SortId, SymbolId, TermId};
pub use name_table::NameTable;
pub use nodes::{Arguments, Head, Node};
pub use ratio128::Ratio;
pub use rule_fails::RuleFails;
pub use sorts::{Rank, Sort};
pub use symbols::Symbols;
pub use terms::TermTable;
pub use theory_heads::{TheoryHead, head_name};
