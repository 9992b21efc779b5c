//! Literals of clauses: which they are, what an assignment says of them, and unit propagation over clauses.
//!
//! `literals_of` gives the literals of a clause of the table of terms, and `without_sign` what a term is as it is or negated. An
//! `Assignment` holds literals, oldest first, and `clause_status` says what they make of a clause. `resolves` goes on from the complements
//! of a clause's literals by units, in time in proportion to all literals. The rules judge by these, and the search goes by them.
#![tactic(auto)]

mod assignment;
mod distinct;
mod literals;
mod occurrences;
mod polarity;
mod propagation;
mod scan;
mod status;

pub use assignment::Assignment;
pub use literals::{literals_of, negated, same};
pub use polarity::{turned_without_sign, without_sign};
pub use propagation::resolves;
pub use status::{ClauseStatus, clause_status};
pub use term_core::{Lit, TermId};
