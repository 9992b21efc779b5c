//! A search for truths that make terms true, from the beginning to an answer, which has evidence.
//!
//! The loop is that of `search_loop`. Here are the theories that it is asked with, whether they agree where it is saturated, the model
//! there, and what is answered. The forms of arithmetic atoms are taken before a search begins.
#![tactic(auto)]

mod agreeing;
mod answering;
mod bounding;
mod cases;
mod choosing;
mod cycling;
mod equalities;
mod forms;
mod marking;
mod modelling;
mod outcome;
mod propositional;
mod sharing;
mod solver;
mod speaking;
mod truths;

pub use outcome::{Outcome, decide};
pub use search_loop::Answer;
pub use solver::Solver;
