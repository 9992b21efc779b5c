//! What a search may spend, the learned clauses that it has spent it on, and the exchanges that it has made.
#![tactic(auto)]

mod budget;
mod limits;

pub use budget::Budget;
pub use delta_num::Delta;
pub use limits::{Basis, BudgetStop, Limits, Reason, Stop, Strain};
pub use ratio128::Wide;
pub use term_core::{Lit, TermId};
