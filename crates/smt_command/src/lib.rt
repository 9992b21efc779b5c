//! The commands of scripts of the whole language, read from s-expressions by their own shape, and the names that
//! `set-logic` and `set-option` know.
//!
//! What a command's parts mean is not looked at here: names, sorts and terms stay s-expressions.
#![tactic(auto)]

mod commands;
mod reading;
mod settings;
mod shapes;

pub use commands::{Command, FunctionText};
pub use reading::command;
pub use settings::{Logic, OptionKey, truth_in};
pub use shapes::{define_fun, is_name};
pub use smt_lexer::{Fault, Place, Refusal, Refused};
