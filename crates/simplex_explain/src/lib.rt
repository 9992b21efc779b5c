//! Why literals of linear arithmetic cannot all hold.
//!
//! Where bounds of the variables of a tableau cannot all be kept, the literals of these bounds get weights under which their sum is a
//! contradiction. `explain` says so as one step of a log: a clause by the rule `la_generic`, whose arguments are the weights. `refute`
//! does so for literals of which nothing is known, where the rule takes the clause. The laws say which bounds held literals state, and
//! that values that keep these make a point that keeps the literals.
//!
//! Source: Farkas 1902; Dutertre and de Moura, A Fast Linear-Arithmetic Solver for DPLL(T), CAV 2006.
#![tactic(auto)]

pub mod check_laws;
mod explaining;
mod judging;
pub mod laws;
mod putting;
mod reason_stop;
mod reasons;
mod rows;
mod stating;
mod stop;
mod sums;
mod weighted;
mod weights;

pub use explaining::explain;
pub use linear_form::ArithFault;
pub use proof_log::StepId;
pub use ratio128::{Ratio, Wide};
pub use reason_stop::ReasonStop;
pub use reasons::{crossing_reasons, row_reasons};
pub use stating::refute;
pub use stop::ExplainStop;
pub use term_core::{Lit, TermId};
pub use weighted::Weighted;
