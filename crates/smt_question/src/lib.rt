//! What a session is asked, read from s-expressions by their own shape: for its model, its proof, its assertions, the
//! values of terms, an option, or information on the solver.
//!
//! What a question's parts mean is not looked at here: terms stay s-expressions, and names are those that are written.
#![tactic(auto)]

mod infos;
mod questions;
mod reading;
mod shapes;

pub use infos::Info;
pub use questions::Question;
pub use reading::question;
pub use smt_lexer::{Fault, Place, Refusal};
