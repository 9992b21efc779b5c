//! Levels that are opened and closed, and all that is taken back.

ghost use Rattle.std.specs.Prelude.{◌≡◌, ℕ, ◌+◌, ◌<◌, length, nat_le, Ok, OnErr};
ghost use Rattle.spec_commands.specs.Commands.{Push, Pop, ResetAssertions, Reset};
ghost use Rattle.spec_commands.specs.Stack.{Stack as ScriptStack, level_limit, performed};
ghost use Rattle.term_core.specs.Uses.{UsesDeclared};
ghost use Rattle.assertion_stack.specs.Levels.{mark_of, global_mark, cut_to};
ghost use Rattle.assertion_stack.specs.Stacks.{over_table, contents, cut_back, level_mark, HasStack, IsStack, Performs};

use crate::assertions::Assertions;
use crate::faults::refused;
use crate::marks::{Mark, Marks};
use crate::stack::{Effect, Stack};
use spec_text::Fault;
use std::alloc::Global;
use term_core::TermTable;
use term_reader::{ReadError, Scope};

/// The most levels that may be open above the first one. It is own.
pub const LEVEL_LIMIT: u64 = 1_000_000;

/// Counts what there is of each list.
fn mark(stack: &Stack, table: &TermTable) -> Mark
    ensures { result ≡ mark_of (contents (over_table table.now stack.now)) }
{
    Mark {
        sort_names: stack.scope.sorts_len(),
        names: stack.scope.len(),
        sorts: table.symbols().sorts_len(),
        symbols: table.symbols().len(),
        terms: table.len(),
        assertions: stack.assertions.len(),
    }
}

/// Tells whether so many levels more may be open.
fn has_levels(stack: &Stack, n: u64) -> bool
    ensures { result ≡ nat_le (length stack.now.marks + n) level_limit }
{
    let levels = stack.marks.len();
    levels <= LEVEL_LIMIT && n <= LEVEL_LIMIT - levels
}

/// Counts what stays of each list where declarations are global and levels are closed, of which the lowest has this mark.
fn global_mark(stack: &Stack, table: &TermTable, closed: Mark) -> Mark
    ensures { result ≡ global_mark closed (contents (over_table table.now stack.now)) }
{
    let now = mark(stack, table);
    Mark {
        sort_names: now.sort_names,
        names: now.names,
        sorts: now.sorts,
        symbols: now.symbols,
        terms: closed.terms.max(stack.scope.terms_needed(now.terms)),
        assertions: closed.assertions,
    }
}

/// Counts what stays of each list up to a level, 0 for the first one, where there is one above it.
fn level_mark(stack: &Stack, table: &TermTable, level: u64) -> Mark
    requires { level < length stack.now.marks }
    ensures { result ≡ level_mark level (over_table table.now stack.now) }
{
    let closed = stack.marks.at(level);
    if stack.options.global_declarations {
        return global_mark(stack, table, closed);
    }
    closed
}

/// Keeps so much of each list, and so many levels at most.
fn cut_back(stack: &mut Stack, table: &mut TermTable, level: u64, mark: Mark)
    requires { UsesDeclared (cut_to mark (contents (over_table table.old stack.old))).table }
    ensures { over_table table.new stack.new ≡ cut_back level mark (over_table table.old stack.old) }
{
    stack.marks.back(level);
    stack.scope.back(mark.sort_names, mark.names);
    stack.assertions.cut(mark.assertions);
    table.cut(mark.terms);
    table.undeclare(mark.sorts, mark.symbols);
}

impl Stack {
    /// Opens levels, by a `push` at an offset in bytes: `levels` counts so many more. What is declared, defined and asserted
    /// from here on goes with them.
    ///
    /// - `Fault` has `Full` at the command where more than `LEVEL_LIMIT` levels would be open.
    /// - `Memory` may come where the levels find no memory, and says nothing of the command.
    ///
    /// After each of these the stack is as it was. Source: SMT-LIB 2.6, section 4.2.2.
    pub fn push<'a>(&mut self, table: &TermTable, at: u64, n: u64) -> Result<Effect<'a>, ReadError>
        ensures performs { (limit : ℕ) (s : ScriptStack) → IsStack limit (over_table table.now self.old) s
            → Performs limit (performed limit at s (Push n)) (over_table table.now self.new) result }
        ensures same { OnErr result (self.new ≡ self.old) }
    {
        self.scope.each_name_means_something();
        table.uses_what_is_declared();
        if !has_levels(self, n) {
            return Err(refused(at, Fault::Full));
        }
        let mark = mark(self, table);
        match self.marks.add(n, mark) {
            Ok(()) => {
                self.started = true;
                Ok(Effect::Done)
            }
            Err(_) => Err(ReadError::Memory),
        }
    }

    /// Closes levels, by a `pop` at an offset in bytes. What was declared, defined and asserted since the lowest of them was
    /// opened is taken away, of the table too: its sorts and symbols, and all its terms since then. Where declarations are
    /// global, they stay, with their sorts and symbols. Then the table keeps its terms up to the last that a definition
    /// needs.
    ///
    /// - `Fault` has `PopTooFar` at the command where fewer levels are open. Then stack and table are as they were.
    ///
    /// It takes no memory. Its time goes with what is taken away, and where declarations are global with their number.
    /// Source: SMT-LIB 2.6, sections 4.1.7 and 4.2.2.
    pub fn pop<'a>(
        &mut self,
        table: &mut TermTable,
        at: u64,
        n: u64,
    ) -> Result<Effect<'a>, ReadError>
        requires { HasStack (over_table table.old self.old) }
        ensures performs { (limit : ℕ) (s : ScriptStack) → IsStack limit (over_table table.old self.old) s
            → Performs limit (performed limit at s (Pop n)) (over_table table.new self.new) result }
        ensures same { OnErr result ((self.new ≡ self.old) × (table.new ≡ table.old)) }
    {
        let levels = self.marks.len();
        if n > levels {
            return Err(refused(at, Fault::PopTooFar));
        }
        if n == 0 {
            self.started = true;
            return Ok(Effect::Done);
        }
        self.scope.each_name_means_something();
        table.uses_what_is_declared();
        let level = levels - n;
        let mark = level_mark(self, table, level);
        cut_back(self, table, level, mark);
        self.started = true;
        Ok(Effect::Done)
    }

    /// Takes back all that is declared, defined and asserted, at each level, by a `reset-assertions`: names and table are
    /// empty, and no level is open. Where declarations are global, they stay, as at `pop`. The options stay, and so does the
    /// logic. It takes no memory.
    ///
    /// Source: SMT-LIB 2.6, sections 4.1.7 and 4.2.2.
    pub fn reset_assertions<'a>(&mut self, alloc: Global, table: &mut TermTable) -> Effect<'a>
        ensures performs { (limit at : ℕ) (s : ScriptStack) → IsStack limit (over_table table.old self.old) s
            → Performs limit (performed limit at s ResetAssertions) (over_table table.new self.new) (Ok result) }
    {
        if self.options.global_declarations {
            self.scope.each_name_means_something();
            table.uses_what_is_declared();
            let mark = global_mark(self, table, Mark::none());
            cut_back(self, table, 0, mark);
            return Effect::Done;
        }
        *table = TermTable::new(alloc);
        self.scope = Scope::new(alloc);
        self.assertions = Assertions::new(alloc);
        self.marks = Marks::new(alloc);
        Effect::Done
    }

    /// Takes all back, by a `reset`: stack and table are as before the first command. The limit stays. It takes no memory.
    ///
    /// Source: SMT-LIB 2.6, section 4.2.1.
    pub fn reset<'a>(&mut self, alloc: Global, table: &mut TermTable) -> Effect<'a>
        ensures performs { (limit at : ℕ) (s : ScriptStack) → IsStack limit (over_table table.old self.old) s
            → Performs limit (performed limit at s Reset) (over_table table.new self.new) (Ok result) }
    {
        *table = TermTable::new(alloc);
        *self = Stack::new(alloc, self.limit);
        Effect::Done
    }
}
