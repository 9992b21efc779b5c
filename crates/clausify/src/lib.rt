//! Clauses of formulas: what a search begins with. Each term that it speaks of gets the clauses that rules without
//! premises state of it, as steps of a log, and each formula itself is assumed. Each equality of numbers gets those of
//! its orders too.
#![tactic(auto)]

mod judged;
mod known;
mod ordered;
mod orders;
mod roots;
mod sides;
mod stated;
mod stop;

pub use proof_log::StepIds;
pub use ratio128::Wide;
pub use roots::{clauses_of, clauses_of_all, clauses_of_new};
pub use stated::Stated;
pub use stop::ClauseStop;
