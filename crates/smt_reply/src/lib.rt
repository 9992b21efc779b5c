//! What answers a question of a session, and how it is written: a model, a proof or a reason, an unsat core, the current
//! assertions, values of terms, an option, or information on the solver.
#![tactic(auto)]

mod cores;
mod found;
mod replies;
mod sending;
mod values;

pub use replies::{Reply, reply_to};
pub use sending::send_reply;
pub use values::TermValue;
