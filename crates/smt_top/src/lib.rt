//! One run over the whole language: it reads the arguments, and runs a script, or judges a proof or a model against one,
//! or makes a script and runs it.
#![tactic(auto)]

mod answered;
mod arguments;
mod buffered;
mod check_run;
mod command_line;
mod generated;
mod goes_on;
mod goes_on_rows;
mod in_memory;
mod output;
mod program;
mod vec_sink;

pub use buffered::run_buffered;
pub use check_run::run;
pub use command_line::{CommandLine, HostCommandLine, UnreadArguments, arguments_of};
pub use generated::gen_line;
pub use goes_on::{questions_go_on, session_goes_on};
pub use in_memory::run_in_memory;
pub use program::{ProgramEnd, exit_code, run_command_line, run_program};
pub use script_run::{Status, run_text};
pub use smt_session::{After, Halt, Mode, Session};
