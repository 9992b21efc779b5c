//! How much a run writes, and the modes of a session.

ghost use Rattle.std.specs.Prelude.{◌≡◌};
ghost use Rattle.spec_commands.specs.Commands.{command_of};
ghost use Rattle.spec_sessions.specs.States.{states_nothing};
ghost use Rattle.smt_sexpr.specs.Items.{tree_of};

use smt_command::{Command, command as read};
use smt_sexpr::Sexpr;

/// How much is written for a check.
#[derive(Clone, Copy, Debug, PartialEq, Eq)]
pub enum Mode {
    /// The standard's responses alone.
    Solve,
    /// After the answer of each check a model, a proof or a reason, too.
    Certify,
}

/// The mode in which a session is. Source: SMT-LIB 2.6, section 4.1.1; that `unknown` has a mode of its own is own.
#[derive(Clone, Copy, Debug, PartialEq, Eq)]
pub enum ExecutionMode {
    /// No command has set the logic or come without one.
    Start,
    /// Something was stated or taken back since the last check, or there was none.
    Assert,
    /// The last check was answered `sat`.
    Sat,
    /// The last check was answered `unsat`.
    Unsat,
    /// The last check was answered `unknown`.
    Unknown,
}

/// Tells whether a command states nothing, nor takes anything back: the answer of the last check counts after it. It
/// takes no memory.
pub(crate) fn states_nothing(command: &Sexpr<'_>) -> bool
    ensures { result ≡ states_nothing (command_of (tree_of command.now)) }
{
    match read(command) {
        Ok(Command::SetOption(_, _)) => true,
        Ok(Command::SetInfo) => true,
        Ok(Command::Echo(_)) => true,
        Ok(Command::Exit) => true,
        Ok(_) => false,
        Err(_) => false,
    }
}
