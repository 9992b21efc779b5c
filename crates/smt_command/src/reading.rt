//! An s-expression read as a command, or its fault with its place.

ghost use Rattle.std.specs.Prelude.{◌≡◌, ◌≤◌, ◌<◌, length};
ghost use Rattle.spec_text.specs.declared.Fault.TheVariants as faults;
ghost use Rattle.spec_text.specs.Places.{IsPlaceOf};
ghost use Rattle.spec_text.specs.Trees.{offset_of};
ghost use Rattle.spec_commands.specs.Commands.{command_as, command_of, verb_of};
ghost use Rattle.smt_sexpr.specs.Items.{trees_meant, tree_meant, text_of, start_of};
ghost use Rattle.smt_command.specs.Commands.{command_view, command_in_list, Gives, ReadsScriptCommand};

use crate::commands::{Command, verb_of};
use crate::shapes::by_verb;
use smt_lexer::{Fault, Place, Refusal, Refused};
use smt_sexpr::{Sexpr, Trees, View, look, offset, split};

/// A fault of a command, by its offset.
#[derive(Clone, Copy)]
struct CommandFault {
    /// The offset in the text, in bytes.
    offset: u64,
    /// Which fault it is.
    fault: Fault,
}

/// Makes the fault of an own shape that is none of its command.
fn misshapen(at: u64) -> CommandFault
    ensures { result ≡ record { offset = at; fault = faults.BadShape } }
{
    CommandFault {
        offset: at,
        fault: Fault::BadShape,
    }
}

/// Reads the command of a list at an offset, by the first of its trees, and the others.
fn command_as<'a>(at: u64, head: Trees<'a>, rest: Trees<'a>) -> Result<Command<'a>, CommandFault>
    ensures { Gives command_view result
        (command_as at (offset_of (tree_meant head.entry)) (verb_of (tree_meant head.entry)) (trees_meant rest.entry)) }
{
    let place = offset(head);
    let Some(verb) = verb_of(head) else {
        return Err(CommandFault {
            offset: place,
            fault: Fault::UnknownCommand,
        });
    };
    match by_verb(verb, place, rest) {
        Some(command) => Ok(command),
        None => Err(misshapen(at)),
    }
}

/// Reads the command of a list at an offset.
fn in_list(at: u64, trees: Trees<'_>) -> Result<Command<'_>, CommandFault>
    ensures { Gives command_view result (command_in_list at (trees_meant trees.entry)) }
{
    match split(trees) {
        None => Err(misshapen(at)),
        Some((head, rest)) => command_as(at, head, rest),
    }
}

/// Reads the command that the first tree is.
fn first_command(trees: Trees<'_>) -> Result<Command<'_>, CommandFault>
    ensures { Gives command_view result (command_of (tree_meant trees.entry)) }
{
    match look(trees) {
        View::Atom(at, _, _) => Err(misshapen(u64::from(at))),
        View::List(at, inside, _) => in_list(u64::from(at), inside),
    }
}

/// Gives the place of an offset that is in an s-expression; of any other offset, where the s-expression begins.
fn place_in(sexpr: &Sexpr<'_>, offset: u64) -> Place
    ensures place { IsPlaceOf (text_of sexpr.now) result }
    ensures offset { start_of sexpr.now ≤ offset → offset < length (text_of sexpr.now) → result.offset ≡ offset }
{
    let start = sexpr.start();
    if start.offset <= offset && offset < sexpr.text().len() as u64 {
        return sexpr.place(offset);
    }
    start
}

/// Reads the command that an s-expression is. It takes no memory.
///
/// `Fault` has the first of these, with its place in the text: `BadShape` at an atom or at the parenthesis of an empty list;
/// `UnknownCommand` at the first of a list that is not the word of a command, or has bars; `BadShape` at the parenthesis of a
/// list whose parts are not those of its command. `Memory` never comes. Source: SMT-LIB 2.6, section 3.9.
pub fn command<'a>(sexpr: &'a Sexpr<'_>) -> Result<Command<'a>, Refused>
    ensures { ReadsScriptCommand sexpr.now result }
{
    spec_commands::faults_are_in_their_command();
    sexpr.offsets_have_places();
    match first_command(sexpr.trees()) {
        Ok(command) => Ok(command),
        Err(found) => Err(Refused::Fault(Refusal {
            place: place_in(sexpr, found.offset),
            fault: found.fault,
        })),
    }
}
