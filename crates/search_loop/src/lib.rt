//! The loop of conflict-driven clause learning with a theory: it propagates, asks the theory, decides, learns from conflicts and goes
//! back, and shows evidence for how it ends.
//!
//! The literals that hold are a `SatTrail`, propagation is that of a `ClauseStore`, and `learn` draws a clause from a conflict. A
//! `Decider` says what is decided next, and `Restarts` when the search begins again from level 0; no answer depends on either.
#![tactic(auto)]

mod activity;
mod atoms;
mod balances;
mod cdcl;
mod conflict;
mod decider;
mod decision;
mod feeding;
mod growing;
mod implying;
pub mod laws;
mod lemmas;
mod looking;
mod restarts;
mod resting;
mod search;
mod starting;
mod trying;
mod waiting;
mod watching;

pub use cdcl::{Answer, End};
pub use decider::Decider;
pub use restarts::Restarts;
pub use search::Search;
pub use watching::watch_all;
