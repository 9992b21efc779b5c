//! What a check asks about, each expression with where it is in the script.

ghost use Rattle.std.specs.Prelude.{◌≡◌, length, map, OnOk, IfOk};
ghost use Rattle.assertion_stack.specs.Assertions.{Written};
ghost use Rattle.script_standing.specs.Standings.{AddsExpressions, AreAsked, StandsAt};

use crate::load::current_at;
use assertion_stack::{Assumed, Stack};
use no_memory::NoMemory;
use std::alloc::Global;
use term_core::{TermId, TermTable};
use term_reader::Scope;

/// Says which term a check asks about, and where its expression is.
#[derive(Clone, Copy, Debug)]
pub struct Expression {
    /// The number of the term in the table.
    pub term: TermId,
    /// The offset of the first byte of its expression in the script, in bytes.
    pub at: u64,
}

/// Holds what a check of a script asks about, and what its terms and names mean.
///
/// Source: SMT-LIB 2.6, sections 4.1.4 and 4.2.5.
#[derive(Drop)]
pub struct Standing {
    /// What is asserted, the oldest first, and after it what the check assumes.
    pub expressions: Vec<Expression>,
    /// The terms, and the sorts and symbols that are declared.
    pub table: TermTable,
    /// The names, with what they stand for.
    pub scope: Scope,
}

/// Puts what is asserted last, the oldest first.
fn add_asserted(expressions: &mut Vec<Expression>, stack: &Stack) -> Result<(), NoMemory>
    ensures { OnOk result (AddsExpressions expressions.old.items stack.now.assertions.ids
        (map (λ (w : Written). w.at) stack.now.assertions.written) expressions.new.items) }
{
    stack.assertions.each_has_its_text();
    let ids = stack.current();
    'asserted: for k in 0..ids.len() {
        expressions.push(Expression {
            term: ids[k],
            at: stack.written(k).at,
        })?;
    }
    Ok(())
}

/// Puts what is assumed last, in its order.
fn add_assumed(expressions: &mut Vec<Expression>, assumed: &Assumed) -> Result<(), NoMemory>
    requires { length assumed.now.offsets.items ≡ length assumed.now.ids.items }
    ensures { OnOk result (AddsExpressions expressions.old.items assumed.now.ids.items assumed.now.offsets.items
        expressions.new.items) }
{
    'assumed: for k in 0..assumed.ids.len() {
        expressions.push(Expression {
            term: assumed.ids[k],
            at: assumed.offsets[k],
        })?;
    }
    Ok(())
}

/// Lists what a check asks about.
fn asked(alloc: Global, stack: &Stack, assumed: &Assumed) -> Result<Vec<Expression>, NoMemory>
    requires { length assumed.now.offsets.items ≡ length assumed.now.ids.items }
    ensures { IfOk result (λ v. AreAsked stack.now assumed.now v.items) }
{
    let mut expressions = Vec::new(alloc);
    add_asserted(&mut expressions, stack)?;
    add_assumed(&mut expressions, assumed)?;
    Ok(expressions)
}

/// Says what the `at`-th check of a script asks about, counted from 1: `None` where the script ends before it, by its end,
/// by `exit`, or by a fault after which it cannot be read on.
///
/// Commands that are refused are passed over. Of the script the first 2^30 bytes are read. `NoMemory` may come at any
/// allocation, and says nothing of the script. Time and memory go with the script's bytes and the terms that they are
/// read as. Source: SMT-LIB 2.6, sections 4.1.4 and 4.2.5.
pub fn standing_at(alloc: Global, script: &[u8], at: u64) -> Result<Option<Standing>, NoMemory>
    ensures { StandsAt script.now at result }
{
    match current_at(alloc, script, at) {
        Ok(Some(loaded)) => match asked(alloc, &loaded.stack, &loaded.assumed) {
            Ok(expressions) => Ok(Some(Standing {
                expressions,
                table: loaded.table,
                scope: loaded.stack.scope,
            })),
            Err(error) => Err(error),
        },
        Ok(None) => Ok(None),
        Err(error) => Err(error),
    }
}
