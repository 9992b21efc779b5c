//! Reads a script up to a check.

ghost use Rattle.spec_commands.specs.Stack.{empty_stack};
ghost use Rattle.spec_commands.specs.Checks.{term_limit};
ghost use Rattle.smt_sexpr.specs.Limited.{whole_of};
ghost use Rattle.assertion_stack.specs.Stacks.{over_table, IsStack};
ghost use Rattle.script_standing.specs.Loads.{Loads, Reaches};

use assertion_stack::{Assumed, Effect, Stack, TERM_LIMIT};
use no_memory::NoMemory;
use smt_lexer::{Refused, start};
use smt_sexpr::LimitedText;
use std::alloc::Global;
use term_core::TermTable;

/// Holds what is current at a check: the script's stack there, what the check assumes, and the table that has the terms of
/// both.
///
/// Source: SMT-LIB 2.6, sections 4.1.4 and 4.2.5.
#[derive(Drop)]
pub struct Script {
    /// The terms, and what is declared.
    pub table: TermTable,
    /// The names, the assertions and the options.
    pub stack: Stack,
    /// What the check assumes besides what is asserted.
    pub assumed: Assumed,
}

/// Takes the commands of a limited text up to its `at`-th check, and gives what the check assumes: `None` where
/// there is no such check. Then the stack has what is current there. Before the first command it has nothing.
fn reaches_check(
    alloc: Global,
    text: LimitedText<'_>,
    at: u64,
    table: &mut TermTable,
    stack: &mut Stack,
) -> Result<Option<Assumed>, NoMemory>
    requires { IsStack term_limit (over_table table.old stack.old) empty_stack }
    ensures { Reaches (whole_of text.entry) at result (over_table table.new stack.new) }
{
    spec_text::laws::each_text_is_read();
    let mut place = start();
    let mut left = at;
    'commands: loop {
        let (sexpr, after) = match text.next_one(alloc, place) {
            Ok(Some(read)) => read,
            Ok(None) => return Ok(None),
            Err(Refused::Fault(_)) => return Ok(None),
            Err(Refused::Memory) => return Err(NoMemory),
        };
        match stack.command(alloc, table, &sexpr) {
            Ok(Effect::Check(_, assumed)) => {
                if left == 1 {
                    return Ok(Some(assumed));
                }
                left = left.saturating_sub(1);
            }
            Ok(Effect::Exit) => return Ok(None),
            Ok(Effect::Done) => {}
            Ok(Effect::Unsupported) => {}
            Ok(Effect::Say(_)) => {}
            Err(Refused::Fault(_)) => {}
            Err(Refused::Memory) => return Err(NoMemory),
        }
        place = after;
    }
}

/// Takes the commands of a limited text up to its `at`-th check, and gives what is current there.
fn current_in(alloc: Global, text: LimitedText<'_>, at: u64) -> Result<Option<Script>, NoMemory>
    ensures { Loads (whole_of text.entry) at result }
{
    let mut table = TermTable::new(alloc);
    let mut stack = Stack::new(alloc, TERM_LIMIT);
    match reaches_check(alloc, text, at, &mut table, &mut stack) {
        Ok(Some(assumed)) => Ok(Some(Script {
            table,
            stack,
            assumed,
        })),
        Ok(None) => Ok(None),
        Err(error) => Err(error),
    }
}

/// Takes the commands of a script up to its `at`-th check, counted from 1, and gives what is current there: `None` where
/// the script ends before it, by its end, by `exit`, or by a fault after which it cannot be read on.
///
/// Commands that are refused change nothing, and are passed over. Of the script the first 2^30 bytes are read. `NoMemory`
/// may come at any allocation, and says nothing of the script. Source: SMT-LIB 2.6, sections 4.1.4 and 4.2.5.
pub fn current_at(alloc: Global, text: &[u8], at: u64) -> Result<Option<Script>, NoMemory>
    ensures { Loads text.now at result }
{
    current_in(alloc, LimitedText::new(text), at)
}
