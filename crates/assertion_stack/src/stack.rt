//! The stack of a script: its names, assertions and options, and what each command makes of them.

ghost use Rattle.std.specs.Prelude.{◌≡◌, ℕ, ◌<◌, [], length, slice_index_or, Ok, OnErr};
ghost use Rattle.spec_commands.specs.Commands.{command_of};
ghost use Rattle.spec_commands.specs.Stack.{Stack as ScriptStack, empty_stack, performed, step};
ghost use Rattle.smt_command.specs.Commands.{command_view};
ghost use Rattle.smt_sexpr.specs.Items.{tree_of};
ghost use Rattle.term_core.specs.Tables.{TableView};
ghost use Rattle.assertion_stack.specs.Assertions.{no_written, written_meant};
ghost use Rattle.assertion_stack.specs.Stacks.{over_table, HasStack, IsStack, Performs, Steps, KeepsAtCheck, KeepsTableAt};

use crate::assertions::{Assertions, Written};
use crate::assuming::Assumed;
use crate::faults::place_in;
use crate::marks::Marks;
use crate::options::Options;
use crate::settings::{begin_check, set_logic, set_option};
use smt_command::{Command, command};
use smt_lexer::{Refusal, Refused};
use smt_sexpr::{Sexpr, offset};
use std::alloc::Global;
use term_core::{TermId, TermTable};
use term_reader::{ReadError, Scope};

/// The most names that a script may have, and the most different subterms that the terms of one command may have. It is own.
pub const TERM_LIMIT: u64 = 1 << 24;

/// What a script has stated: its names, its assertions, its levels, and its options. The terms are in a table of their
/// own.
///
/// Contracts see it as a `Stack` of the definitions, by the relation `IsStack`. While the table grows by terms alone, it
/// stays the same stack (`stacks_hold_in_grown_tables`). Source: SMT-LIB 2.6, section 4.1.4.
#[derive(Drop)]
pub struct Stack {
    /// The most names that a script may have, and the most different subterms of the terms of one command.
    pub limit: u64,
    /// The names, with what they stand for.
    pub scope: Scope,
    /// The assertions.
    pub assertions: Assertions,
    /// How much there was of table, names and assertions when each level was opened.
    pub marks: Marks,
    /// The options.
    pub options: Options,
    /// Whether a command has set the logic, or come without one.
    pub started: bool,
}

/// What a command that was taken is answered.
///
/// Source: SMT-LIB 2.6, section 4.1.
#[derive(Drop)]
pub enum Effect<'a> {
    /// It is done: the answer is `success`, where that is printed.
    Done,
    /// Its option is not known: the answer is `unsupported`.
    Unsupported,
    /// It asks for a check of what is asserted, by its word at this offset, with these literals assumed.
    Check(u64, Assumed),
    /// It asks for a text to be written, which is between its quotes.
    Say(&'a [u8]),
    /// It ends the script.
    Exit,
}

impl Stack {
    /// Makes the stack that nothing was stated on. It takes no memory.
    ///
    /// `limit` is the most names that may be declared and defined, and the most different subterms that the terms of one
    /// command may have.
    pub fn new(alloc: Global, limit: u64) -> Stack
        ensures { (t : TableView) → t.sorts ≡ [] → t.symbols ≡ [] → IsStack limit (over_table t result) empty_stack }
    {
        Stack {
            limit,
            scope: Scope::new(alloc),
            assertions: Assertions::new(alloc),
            marks: Marks::new(alloc),
            options: Options::new(),
            started: false,
        }
    }

    /// Lends the names, with what they stand for.
    pub fn scope(&self) -> &Scope
        ensures { result.now ≡ self.now.scope }
    {
        &self.scope
    }

    /// Lends the numbers of the asserted terms in the table, oldest first.
    pub fn current(&self) -> &[TermId]
        ensures { result.now ≡ self.now.assertions.ids }
    {
        self.assertions.as_slice()
    }

    /// Lends how an asserted term is written, by its place in `current`, from 0: the tree that was read for it, as `print`
    /// prints it, with the names that `:named` makes in it; where it is in the script; and its label.
    ///
    /// Source: SMT-LIB 2.6, sections 3.6 and 4.2.4.
    pub fn written(&self, place: usize) -> Written<'_>
        requires { place < length self.now.assertions.ids }
        ensures { written_meant result ≡ slice_index_or self.now.assertions.written place no_written }
    {
        self.assertions.written(place)
    }

    /// Counts the levels that are open above the first one.
    pub fn levels(&self) -> u64
        ensures { result ≡ length self.now.marks }
    {
        self.marks.len()
    }

    /// Takes the command that an s-expression is, and says what it is answered. The table has the terms of the stack.
    ///
    /// - `Fault` has the command's first fault, with its place in the text. It is its head (`UnknownCommand`), then its own
    ///   shape (`BadShape` at its parenthesis), then its parts in reading order. These are for a new name `Reserved` and
    ///   `Twice`; for a sort `UnknownSort`, `Reserved` and `BadShape`; for a term those of `term_reader::term`. Then come
    ///   `WrongMode` of `set-logic`, `PopTooFar` of `pop`, `BadShape` of an option's value and after it `WrongMode`, at the
    ///   parenthesis, and `UnknownLogic` at the name of a logic. `Full` at the parenthesis comes last.
    /// - `Memory` may come at any allocation, and says nothing of the command.
    ///
    /// After each of these stack and table are as they were. A check changes no more than that it ends the start.
    /// `set-option`, `set-info`, `echo` and `exit` leave the table as it was. Numbers of sorts, symbols and terms that `pop`,
    /// `reset-assertions` or `reset` takes away are given again. The time goes with no assertion that was made before, but
    /// where it is taken away. Source: SMT-LIB 2.6, sections 3.9 and 4.2.
    pub fn command<'a>(
        &mut self,
        alloc: Global,
        table: &mut TermTable,
        sexpr: &'a Sexpr<'_>,
    ) -> Result<Effect<'a>, Refused>
        requires { HasStack (over_table table.old self.old) }
        ensures steps { (limit : ℕ) (s : ScriptStack) → IsStack limit (over_table table.old self.old) s
            → Steps limit (step limit s (tree_of sexpr.now)) sexpr.now (over_table table.new self.new) result }
        ensures check { KeepsAtCheck result (over_table table.old self.old) (over_table table.new self.new) }
        ensures settings { KeepsTableAt (command_of (tree_of sexpr.now)) table.old table.new }
        ensures same { OnErr result ((self.new ≡ self.old) × (table.new ≡ table.old)) }
    {
        spec_commands::faults_are_in_their_command();
        sexpr.offsets_have_places();
        let command = match command(sexpr) {
            Ok(command) => command,
            Err(refused) => return Err(refused),
        };
        match perform(self, alloc, table, offset(sexpr.trees()), command) {
            Ok(effect) => Ok(effect),
            Err(ReadError::Fault(fault)) => Err(Refused::Fault(Refusal {
                place: place_in(sexpr, fault.offset),
                fault: fault.fault,
            })),
            Err(ReadError::Memory) => Err(Refused::Memory),
        }
    }
}

/// Performs a command at an offset.
fn perform<'a>(
    stack: &mut Stack,
    alloc: Global,
    table: &mut TermTable,
    at: u64,
    command: Command<'a>,
) -> Result<Effect<'a>, ReadError>
    requires { HasStack (over_table table.old stack.old) }
    ensures performs { (limit : ℕ) (s : ScriptStack) → IsStack limit (over_table table.old stack.old) s
        → Performs limit (performed limit at s (command_view command.entry)) (over_table table.new stack.new) result }
    ensures check { KeepsAtCheck result (over_table table.old stack.old) (over_table table.new stack.new) }
    ensures settings { KeepsTableAt (Ok (command_view command.entry)) table.old table.new }
    ensures same { OnErr result ((stack.new ≡ stack.old) × (table.new ≡ table.old)) }
{
    match command {
        Command::SetLogic(word) => set_logic(stack, at, word),
        Command::SetOption(name, value) => set_option(stack, at, name, value),
        Command::SetInfo => Ok(Effect::Done),
        Command::DeclareSort(word) => stack.declare_sort(table, at, word),
        Command::DefineSort(word, sort) => stack.name_sort(table, at, word, sort),
        Command::DeclareConst(word, sort) => stack.declare_const(table, at, word, sort),
        Command::DeclareFun(word, parameters, sort) => {
            stack.declare(alloc, table, at, word, parameters, sort)
        }
        Command::DefineFun(parts) => stack.define(alloc, table, at, parts),
        Command::Assert(tree) => stack.assert(alloc, table, at, tree),
        Command::Push(n) => stack.push(table, at, n),
        Command::Pop(n) => stack.pop(table, at, n),
        Command::CheckSat(place) => Ok(begin_check(stack, alloc, place)),
        Command::CheckSatAssuming(place, literals) => {
            stack.check_assuming(alloc, table, at, place, literals)
        }
        Command::ResetAssertions => Ok(stack.reset_assertions(alloc, table)),
        Command::Reset => Ok(stack.reset(alloc, table)),
        Command::Echo(text) => Ok(Effect::Say(text)),
        Command::Exit => Ok(Effect::Exit),
    }
}
