//! Classes of terms for congruence closure, of which two can be joined, with marks to go back to.
//!
//! Each term has the number of its class, and is in a ring of the class's members. Of two classes that are joined, the
//! smaller one is renumbered, along its ring. Going back does the same the other way round, and takes no memory.
//! Source: Downey, Sethi and Tarjan, JACM 1980, for renumbering the smaller class.
#![tactic(auto)]

mod laws;
mod rings;
mod rows;
mod table;

pub use laws::{adding_adds_terms_alone, joining_joins_two_classes};
pub use table::ClassTable;
pub use term_core::TermId;
