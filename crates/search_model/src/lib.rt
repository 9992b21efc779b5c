//! The model of a saturated search: an interpretation by the truths of its literals and the classes of its terms.
#![tactic(auto)]

pub mod laws;
mod model;
mod rows;
mod values;

pub use model::model_of;
