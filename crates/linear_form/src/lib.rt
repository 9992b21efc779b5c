//! Ordered linear forms of terms, and the rules of linear arithmetic on clauses of the table.
#![tactic(auto)]

mod arith_fault;
mod clauses;
mod coeff;
mod entries;
mod form;
mod heads;
mod known;
mod literals;
mod needed;
mod numbers;
mod orders;
mod plan;
mod slots;
mod stop;
mod sums;
mod walk;

pub use arith_fault::ArithFault;
pub use clauses::la_generic;
pub use coeff::Coeff;
pub use form::{Form, FormChange, FormJoin, combine, constant_alone, made_by};
pub use orders::{la_disequality, la_totality};
pub use ratio128::{Ratio, Wide};
pub use stop::{FormFault, FormStop};
pub use term_core::{RuleFails, TermId};
pub use walk::form_of;
