//! The order in which a search decides variables: the one of greatest activity first.
//!
//! An indexed binary heap. Each variable knows its place, so that its activity may grow while it is in the order. All memory is taken by
//! `add_var`, and nothing is random.
#![tactic(auto)]

mod order;
mod places;
mod score;
mod sift;

pub use order::VariableOrder;
pub use term_core::TermId;
