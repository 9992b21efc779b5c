//! The trail of a search: the literals that hold, oldest first, with their levels and reasons.
//!
//! Values, levels and reasons are in arrays by variable, so that no call walks over the trail but to take literals off. All
//! memory is taken by `add_var`.
#![tactic(auto)]

pub mod laws;
mod trail;

pub use term_core::{Lit, TermId};
pub use trail::SatTrail;
