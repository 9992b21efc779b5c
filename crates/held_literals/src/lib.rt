//! What every theory has: the literals that it holds, the terms that it watches, and marks to go back to; and the theory that has
//! no more.
#![tactic(auto)]

mod held;
mod propositional;

pub use held::HeldLiterals;
pub use propositional::PropositionalTheory;
