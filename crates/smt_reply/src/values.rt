//! The values of terms in the model of the last check.

ghost use Rattle.std.specs.Prelude.{◌≡◌, ℕ, []};
ghost use Rattle.spec_text.specs.Trees.{offset_of};
ghost use Rattle.spec_sorts.specs.Values.{Interpretation};
ghost use Rattle.spec_sorts.specs.Signatures.{Signature};
ghost use Rattle.spec_sorts.specs.BoundedValues.{bounded_value};
ghost use Rattle.spec_reading.specs.Names.{elsewhere};
ghost use Rattle.spec_reading.specs.Reading.{readings};
ghost use Rattle.spec_commands.specs.Stack.{Stack as ScriptStack};
ghost use Rattle.spec_sessions.specs.States.{State};
ghost use Rattle.spec_sessions.specs.Replies.{value_there, valued};
ghost use Rattle.smt_sexpr.specs.Items.{trees_meant, tree_meant};
ghost use Rattle.term_core.specs.Tables.{IsIn, AreIn, term_at, clause_at};
ghost use Rattle.term_walks.specs.Valuations.{HasTables, HasSymbolTables};
ghost use Rattle.term_reader.specs.Names.{setting_meant};
ghost use Rattle.term_reader.specs.Building.{KeepsTable};
ghost use Rattle.term_reader.specs.Scopes.{HasSignature, ScopeMeans};
ghost use Rattle.sat_budget.specs.Budgets.{BudgetView};
ghost use Rattle.assertion_stack.specs.Stacks.{over_table, HasStack, IsStack};
ghost use Rattle.smt_reply.specs.Replies.{IsLastAnswer, HoldsAnswer};
ghost use Rattle.smt_reply.specs.Pairs.{EndsTermsRead, EndsValue, EndsPairs, pairs_after, pairs_of};

use crate::found::{model_of, refused};
use assertion_stack::laws::stacks_hold_in_grown_tables;
use assertion_stack::{Stack, print};
use check_evidence::Evidence;
use smt_sexpr::{Trees, offset, split};
use sort_check::{Room, find_room, terms_of_any_sort};
use spec_text::Fault;
use std::alloc::Global;
use term_core::{TermId, TermTable};
use term_reader::{ReadError, Scope, Setting};
use term_walks::{Interp, Value, ValueStop, value};
use world_io::Bytes;

/// Holds a term as it is written, with its value.
///
/// Source: SMT-LIB 2.6, section 4.2.6.
#[derive(Drop)]
pub struct TermValue {
    /// The term, as `assertion_stack::print` prints it.
    pub text: Bytes,
    /// Its value.
    pub value: Value,
}

/// Says how a term is read that is neither asserted nor defined: no name may be made in it.
fn unasserted<'a>() -> Setting<'a>
    ensures { setting_meant result ≡ elsewhere }
{
    Setting {
        kept_names: false,
        may_name: false,
        own: None,
    }
}

/// Reads trees as terms of any sort: they come into the table. The scope is as it was.
fn terms_read(
    alloc: Global,
    table: &mut TermTable,
    scope: &mut Scope,
    trees: Trees<'_>,
) -> Result<Vec<TermId>, ReadError>
    requires { HasSignature table.old scope.old }
    ensures ends { (s : Signature) → ScopeMeans table.old scope.old s
        → EndsTermsRead table.new (readings elsewhere s [] (trees_meant trees.entry)) result }
    ensures keeps { KeepsTable table.old table.new }
    ensures same { scope.new ≡ scope.old }
{
    scope.each_name_means_something();
    let sorts = scope.sorts_len();
    let functions = scope.len();
    let read = terms_of_any_sort(alloc, table, scope, unasserted(), trees);
    // No name may be made in the terms, so none goes here: it shows that the scope is as it was.
    scope.back(sorts, functions);
    read
}

/// Says the value of a term, beside its text: the first tree.
fn term_value(
    alloc: Global,
    table: &TermTable,
    interp: &Interp,
    tree: Trees<'_>,
    id: TermId,
) -> Result<TermValue, ReadError>
    requires there { IsIn table.now id }
    requires tables { HasTables table.now interp.now }
    ensures { (i : Interpretation) → HasSymbolTables table.now interp.now i
        → EndsValue table.now.sorts (tree_meant tree.entry)
        (value_there (offset_of (tree_meant tree.entry)) (bounded_value i [] (term_at table.now id))) result }
{
    match value(alloc, table, interp, id) {
        Err(ValueStop::Wide(_)) => Err(refused(offset(tree), Fault::ValueWide)),
        Err(ValueStop::Memory) => Err(ReadError::Memory),
        Ok(value) => match print(alloc, tree) {
            Err(_) => Err(ReadError::Memory),
            Ok(text) => Ok(TermValue { text, value }),
        },
    }
}

/// Says the values of terms one after the other, each beside its text.
fn term_values(
    alloc: Global,
    table: &TermTable,
    interp: &Interp,
    trees: Trees<'_>,
    ids: &[TermId],
) -> Result<Vec<TermValue>, ReadError>
    requires there { AreIn table.now ids.now }
    requires tables { HasTables table.now interp.now }
    ensures { (i : Interpretation) → HasSymbolTables table.now interp.now i
        → EndsPairs table.now.sorts (valued i (trees_meant trees.entry) (clause_at table.now ids.now)) result }
{
    let mut values = Vec::new(alloc);
    let mut rest = trees;
    'ids: for id in ids.iter() {
        let Some((first, after)) = split(rest) else {
            return Ok(values);
        };
        match term_value(alloc, table, interp, first, *id) {
            Err(stop) => return Err(stop),
            Ok(value) => {
                if let Err(_) = values.push(value) {
                    return Err(ReadError::Memory);
                }
            }
        }
        rest = after;
    }
    Ok(values)
}

/// Says the values of terms where the option for models is on, and there is room for the terms.
fn enabled_values(
    alloc: Global,
    table: &TermTable,
    stack: &Stack,
    interp: &Interp,
    trees: Trees<'_>,
    ids: &[TermId],
    at: u64,
) -> Result<Vec<TermValue>, ReadError>
    requires there { AreIn table.now ids.now }
    requires tables { HasTables table.now interp.now }
    ensures { (limit : ℕ) (s : ScriptStack) (i : Interpretation) → IsStack limit (over_table table.now stack.now) s
        → HasSymbolTables table.now interp.now i → EndsPairs table.now.sorts
        (pairs_after limit at s i (trees_meant trees.entry) (clause_at table.now ids.now)) result }
{
    if !stack.options.models {
        return Err(refused(at, Fault::NotEnabled));
    }
    let room = Room {
        limit: Some(stack.limit),
        at,
    };
    match find_room(alloc, table, &stack.scope, room, ids) {
        Err(stop) => Err(stop),
        Ok(()) => term_values(alloc, table, interp, trees, ids),
    }
}

/// Reads terms, and says their values in the model of the last check. The terms come into the table, the stack is as it was.
fn values_read(
    alloc: Global,
    table: &mut TermTable,
    stack: &mut Stack,
    answer: &Option<Evidence>,
    trees: Trees<'_>,
    at: u64,
) -> Result<Vec<TermValue>, ReadError>
    requires held { HasStack (over_table table.old stack.old) }
    requires shown { HoldsAnswer table.old answer.now }
    ensures ends { (limit : ℕ) (budget : BudgetView) (s : State)
        → IsStack limit (over_table table.old stack.old) s.stack
        → IsLastAnswer table.old budget answer.now s.answer
        → EndsPairs table.old.sorts (pairs_of limit at s (trees_meant trees.entry)) result }
    ensures keeps { KeepsTable table.old table.new }
    ensures same { stack.new ≡ stack.old }
{
    stacks_hold_in_grown_tables();
    match terms_read(alloc, table, &mut stack.scope, trees) {
        Err(stop) => Err(stop),
        Ok(ids) => match model_of(answer) {
            None => Err(refused(at, Fault::WrongMode)),
            Some(interp) => enabled_values(alloc, table, stack, interp, trees, &ids, at),
        },
    }
}

/// Reads terms, and says their values in the model of the last check. Table and stack are as they were.
pub(crate) fn values(
    alloc: Global,
    table: &mut TermTable,
    stack: &mut Stack,
    answer: &Option<Evidence>,
    trees: Trees<'_>,
    at: u64,
) -> Result<Vec<TermValue>, ReadError>
    requires held { HasStack (over_table table.old stack.old) }
    requires shown { HoldsAnswer table.old answer.now }
    ensures ends { (limit : ℕ) (budget : BudgetView) (s : State)
        → IsStack limit (over_table table.old stack.old) s.stack
        → IsLastAnswer table.old budget answer.now s.answer
        → EndsPairs table.old.sorts (pairs_of limit at s (trees_meant trees.entry)) result }
    ensures table { table.new ≡ table.old }
    ensures stack { stack.new ≡ stack.old }
{
    let terms = table.len();
    let found = values_read(alloc, table, stack, answer, trees, at);
    table.cut(terms);
    found
}
