//! Assertions and definitions of functions: the commands that read terms.

ghost use Rattle.std.specs.Prelude.{◌≡◌, ℕ, true, Some, OnErr, OnOk};
ghost use Rattle.spec_commands.specs.Commands.{Assert, DefineFun};
ghost use Rattle.spec_commands.specs.Stack.{Stack as ScriptStack, performed};
ghost use Rattle.smt_sexpr.specs.Items.{tree_meant};
ghost use Rattle.term_reader.specs.Building.{KeepsTable};
ghost use Rattle.smt_command.specs.Commands.{parts_view};
ghost use Rattle.assertion_stack.specs.Assertions.{as_written};
ghost use Rattle.assertion_stack.specs.Stacks.{over_table, HasStack, IsStack, Performs, with_asserted};

use crate::names::in_script;
use crate::stack::{Effect, Stack};
use no_memory::NoMemory;
use smt_command::FunctionText;
use smt_sexpr::Trees;
use sort_check::{Room, define, term};
use std::alloc::Global;
use term_core::{Sort, TermId, TermTable};
use term_reader::ReadError;

/// Gives the room for the names and terms of a command at an offset.
pub(crate) fn room(stack: &Stack, at: u64) -> Room
    ensures { result ≡ record { limit = Some stack.now.limit; at = at } }
{
    Room {
        limit: Some(stack.limit),
        at,
    }
}

/// Puts the term of a number among the assertions, as the first tree is written.
fn add_written(
    stack: &mut Stack,
    alloc: Global,
    id: TermId,
    tree: Trees<'_>,
) -> Result<(), NoMemory>
    ensures added { OnOk result (stack.new ≡ with_asserted stack.old id (as_written (tree_meant tree.entry))) }
    ensures same { OnErr result (stack.new ≡ stack.old) }
{
    stack.assertions.add(alloc, id, tree)?;
    stack.started = true;
    Ok(())
}

impl Stack {
    /// Asserts the term that the first tree is, by an `assert` at an offset in bytes: `current` has it last, `written` how
    /// it is written, and the scope the names that `:named` makes in it.
    ///
    /// - `Fault` has the first fault, with its offset: of the term as `sort_check::term` tells it, `WrongSort` at the tree
    ///   where the term is not of sort Bool, then `Full` at the command where there are more names or different subterms
    ///   than the limit says.
    /// - `Memory` may come at any allocation, and says nothing of the command.
    ///
    /// After each of these stack and table are as they were. Its time goes with no assertion that was made before.
    /// Source: SMT-LIB 2.6, section 4.2.4.
    pub fn assert<'a>(
        &mut self,
        alloc: Global,
        table: &mut TermTable,
        at: u64,
        tree: Trees<'_>,
    ) -> Result<Effect<'a>, ReadError>
        requires { HasStack (over_table table.old self.old) }
        ensures performs { (limit : ℕ) (s : ScriptStack) → IsStack limit (over_table table.old self.old) s
            → Performs limit (performed limit at s (Assert (tree_meant tree.entry))) (over_table table.new self.new)
            result }
        ensures kept { OnOk result (KeepsTable table.old table.new) }
        ensures same { OnErr result ((self.new ≡ self.old) × (table.new ≡ table.old)) }
    {
        self.scope.each_name_means_something();
        let room = room(self, at);
        let terms = table.len();
        let sorts = self.scope.sorts_len();
        let functions = self.scope.len();
        match term(
            alloc,
            table,
            &mut self.scope,
            in_script(),
            Sort::Bool,
            tree,
            room,
        ) {
            Ok(id) => {
                self.scope.each_name_means_something();
                match add_written(self, alloc, id, tree) {
                    Ok(()) => Ok(Effect::Done),
                    Err(_) => {
                        self.scope.back(sorts, functions);
                        table.cut(terms);
                        Err(ReadError::Memory)
                    }
                }
            }
            Err(stop) => Err(stop),
        }
    }

    /// Defines a function, by a `define-fun` at an offset in bytes: the scope has its name last, after those that `:named`
    /// makes in its body.
    ///
    /// - `Fault` has the first fault, with its offset: of the name (`Reserved`, `Twice` at the word), of each parameter's
    ///   name and sort, of the result's sort, of the body as `sort_check::define` tells it, then `Full` at the command
    ///   where there are more names or different subterms than the limit says.
    /// - `Memory` may come at any allocation, and says nothing of the command.
    ///
    /// After each of these stack and table are as they were. Source: SMT-LIB 2.6, section 4.2.3.
    pub fn define<'a>(
        &mut self,
        alloc: Global,
        table: &mut TermTable,
        at: u64,
        parts: FunctionText<'_>,
    ) -> Result<Effect<'a>, ReadError>
        requires { HasStack (over_table table.old self.old) }
        ensures performs { (limit : ℕ) (s : ScriptStack) → IsStack limit (over_table table.old self.old) s
            → Performs limit (performed limit at s (DefineFun (parts_view parts.entry))) (over_table table.new self.new)
            result }
        ensures kept { OnOk result (KeepsTable table.old table.new) }
        ensures same { OnErr result ((self.new ≡ self.old) × (table.new ≡ table.old)) }
    {
        self.scope.each_name_means_something();
        let room = room(self, at);
        let parts = sort_check::FunctionParts {
            name: parts.name,
            parameters: parts.parameters,
            result: parts.result,
            body: parts.body,
        };
        match define(alloc, table, &mut self.scope, in_script(), parts, room) {
            Ok(()) => {
                self.started = true;
                Ok(Effect::Done)
            }
            Err(stop) => Err(stop),
        }
    }
}
