//! Unsat cores, and assumptions that a proof rests on: which of a check's terms its proof assumes.

ghost use Rattle.std.specs.Prelude.{◌≡◌, ◌<◌, ℕ, Bool, false, List, [], not, ◌&&◌, ◌||◌, length, get_or, slice_set, OnOk};
ghost use Rattle.std.specs.Prelude.{slice_index_or, option_map, IfOk};
ghost use Rattle.spec_sorts.specs.Signatures.{is_some};
ghost use Rattle.spec_sorts.specs.Terms.{Term};
ghost use Rattle.spec_sorts.specs.Subterms.{has_term};
ghost use Rattle.spec_commands.specs.Stack.{Assertion, Stack as ScriptStack, assertions_of};
ghost use Rattle.spec_sessions.specs.Cores.{unnamed, core_names, literals_from, core_literals};
ghost use Rattle.term_core.specs.Tables.{AreIn};
ghost use Rattle.proof_log.specs.Logs.{IsLogOf};
ghost use Rattle.alethe_writer.specs.Printing.{PlanFits};
ghost use Rattle.alethe_writer.specs.Assumes.{SaysWhether};
ghost use Rattle.assertion_stack.specs.Assertions.{no_written, texts_printed};
ghost use Rattle.assertion_stack.specs.Stacks.{over_table, HasStack, IsStack, AreAssumed};
ghost use Rattle.smt_reply.specs.Cores.{planned, planned_terms, counts_named, counts_unseen, striking, ListsMarked};

use alethe_writer::{Plan, assumed_of};
use assertion_stack::laws::each_assertion_has_its_text;
use assertion_stack::{Assumed, Rows, Stack};
use no_memory::NoMemory;
use proof_log::ProofLog;
use std::alloc::Global;
use term_core::{TermId, TermTable};

/// Takes the mark of a term: tells whether it is marked, and leaves it without a mark.
fn take(marks: &mut Vec<bool>, id: TermId) -> bool
    requires { id.0 < length marks.old.items }
    ensures was { result ≡ get_or marks.old.items id.0 false }
    ensures left { marks.new.items ≡ slice_set marks.old.items id.0 false }
{
    let was = marks[id.0 as usize];
    marks[id.0 as usize] = false;
    was
}

/// Lends the name of an assertion, by its place from 0.
fn name_at<'a>(stack: &'a Stack, place: usize) -> Option<&'a [u8]>
    requires { place < length stack.now.assertions.ids }
    ensures { option_map (λ b. b.now) result ≡ (slice_index_or stack.now.assertions.written place no_written).label }
{
    stack.written(place).label
}

/// Tells whether an assertion is struck: each is, or one without a name.
fn is_struck(stack: &Stack, place: usize, all: bool) -> bool
    requires { place < length stack.now.assertions.ids }
    ensures { result ≡ all || not (is_some (slice_index_or stack.now.assertions.written place no_written).label) }
{
    if all {
        return true;
    }
    match name_at(stack, place) {
        None => true,
        Some(_) => false,
    }
}

/// Takes the marks of the terms of assertions: of all, or of those without a name.
fn strike(table: &TermTable, stack: &Stack, all: bool, marks: &mut Vec<bool>)
    requires held { HasStack (over_table table.now stack.now) }
    requires as_many { length marks.old.items ≡ length table.now.terms }
    ensures left { (limit : ℕ) (s : ScriptStack) (test : Term → Bool)
        → IsStack limit (over_table table.now stack.now) s → SaysWhether table.now test marks.old.items
        → SaysWhether table.now (λ u. test u && not (has_term (striking all (assertions_of s)) u)) marks.new.items }
    ensures as_many { length marks.new.items ≡ length marks.old.items }
{
    table.ids_are_unique();
    each_assertion_has_its_text();
    let ids = stack.current();
    'assertions: for k in (0..ids.len()).rev() {
        if is_struck(stack, k, all) {
            take(marks, ids[k]);
        }
    }
}

/// Takes the mark of a term, where it has a text, and puts the text last where the term was marked.
///
/// `NoMemory` comes where memory ran out.
fn list_marked(
    text: Option<&[u8]>,
    id: TermId,
    marks: &mut Vec<bool>,
    texts: &mut Rows,
) -> Result<(), NoMemory>
    requires { id.0 < length marks.old.items }
    ensures { OnOk result (ListsMarked (option_map (λ b. b.now) text.entry) id.0 marks.old.items texts.old
        marks.new.items texts.new) }
{
    let Some(bytes) = text else {
        return Ok(());
    };
    if take(marks, id) {
        texts.add(b"", bytes)?;
    }
    Ok(())
}

/// Lists the names of the assertions whose terms are marked, in their order: of each term that of the first.
///
/// `NoMemory` comes where memory ran out.
fn names_marked(
    alloc: Global,
    table: &TermTable,
    stack: &Stack,
    marks: &mut Vec<bool>,
) -> Result<Rows, NoMemory>
    requires held { HasStack (over_table table.now stack.now) }
    requires as_many { length marks.old.items ≡ length table.now.terms }
    ensures { IfOk result (λ names. (limit : ℕ) (s : ScriptStack) (assumed : List Term)
        → IsStack limit (over_table table.now stack.now) s
        → SaysWhether table.now (counts_named assumed (unnamed (assertions_of s)) []) marks.old.items
        → names ≡ core_names assumed (assertions_of s)) }
{
    table.ids_are_unique();
    each_assertion_has_its_text();
    let ids = stack.current();
    let mut names = Rows::new(alloc);
    'assertions: for k in 0..ids.len() {
        list_marked(name_at(stack, k), ids[k], marks, &mut names)?;
    }
    Ok(names)
}

/// Lists the texts of the literals whose terms are marked, in their order: of each term that of the first.
///
/// `NoMemory` comes where memory ran out.
fn literals_marked(
    alloc: Global,
    table: &TermTable,
    assumed: &Assumed,
    marks: &mut Vec<bool>,
) -> Result<Rows, NoMemory>
    requires inside { AreIn table.now assumed.now.ids.items }
    requires texts { length assumed.now.texts ≡ length assumed.now.ids.items }
    requires as_many { length marks.old.items ≡ length table.now.terms }
    ensures { IfOk result (λ texts. (terms seen : List Term) (ls : List Assertion)
        → AreAssumed table.now assumed.now.ids.items ls → assumed.now.texts ≡ texts_printed ls
        → SaysWhether table.now (counts_unseen terms seen) marks.old.items
        → texts ≡ texts_printed (literals_from terms seen ls)) }
{
    table.ids_are_unique();
    let mut texts = Rows::new(alloc);
    'literals: for k in 0..assumed.ids.len() {
        list_marked(
            Some(assumed.texts.row(k)),
            assumed.ids[k],
            marks,
            &mut texts,
        )?;
    }
    Ok(texts)
}

/// Lists the names of the unsat core of a check, by its proof: the assertions of the stack are those of the check.
///
/// Its time goes with the table, what is printed of the proof, and the names. `NoMemory` comes where memory ran out.
pub(crate) fn core_names(
    alloc: Global,
    table: &TermTable,
    stack: &Stack,
    log: &ProofLog,
    plan: &Plan,
) -> Result<Rows, NoMemory>
    requires held { HasStack (over_table table.now stack.now) }
    requires log { IsLogOf table.now log.now }
    requires fits { PlanFits table.now log.now plan.now }
    ensures { IfOk result (λ names. (limit : ℕ) (s : ScriptStack) → IsStack limit (over_table table.now stack.now) s
        → names ≡ core_names (planned_terms table.now (planned log.now plan.now)) (assertions_of s)) }
{
    let mut marks = assumed_of(alloc, plan, log, table)?;
    strike(table, stack, false, &mut marks);
    let names = names_marked(alloc, table, stack, &mut marks)?;
    Ok(names)
}

/// Lists the texts of the assumptions of a check that its proof rests on; the assertions of the stack are those of the
/// check.
///
/// Its time goes with the table, what is printed of the proof, the assertions and the assumptions. `NoMemory` comes where
/// memory ran out.
pub(crate) fn assumptions_used(
    alloc: Global,
    table: &TermTable,
    stack: &Stack,
    assumed: &Assumed,
    log: &ProofLog,
    plan: &Plan,
) -> Result<Rows, NoMemory>
    requires held { HasStack (over_table table.now stack.now) }
    requires inside { AreIn table.now assumed.now.ids.items }
    requires texts { length assumed.now.texts ≡ length assumed.now.ids.items }
    requires log { IsLogOf table.now log.now }
    requires fits { PlanFits table.now log.now plan.now }
    ensures { IfOk result (λ texts. (limit : ℕ) (s : ScriptStack) (ls : List Assertion)
        → IsStack limit (over_table table.now stack.now) s
        → AreAssumed table.now assumed.now.ids.items ls → assumed.now.texts ≡ texts_printed ls
        → texts ≡ texts_printed (core_literals (planned_terms table.now (planned log.now plan.now)) (assertions_of s) ls)) }
{
    let mut marks = assumed_of(alloc, plan, log, table)?;
    strike(table, stack, true, &mut marks);
    let texts = literals_marked(alloc, table, assumed, &mut marks)?;
    Ok(texts)
}
