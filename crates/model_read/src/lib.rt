//! Reads a model file: the interpretation that it says of a script's symbols, or its first fault.
//!
//! Definitions are read one by one. Nothing here recurses on how deep a text is nested.
#![tactic(auto)]

mod bodies;
mod definitions;
mod elements;
mod errors;
mod numbers;
mod parameters;
mod reader;
mod reading;
mod sorts;
mod tables;
mod values;
mod words;

pub use errors::{ModelFault, ModelStop};
pub use reading::read;
