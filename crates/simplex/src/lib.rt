//! Linear real arithmetic as a theory of the search holds it: literals as bounds, with rows and values, and the way back.
//!
//! It holds literals that compare linear terms, and watches their atoms. Going back takes bounds back, and leaves rows and values.
#![tactic(auto)]

mod atom_lists;
mod checking;
mod due_rows;
mod hints;
mod holding;
mod implying;
mod numbers;
mod shared;
mod simplex;
mod starts;
mod theory;
mod watching;

pub use delta_num::Delta;
pub use simplex::Simplex;
pub use simplex_check::Move;
