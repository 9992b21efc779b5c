//! Which clauses a clause depends on, and which terms are printed for them.

ghost use Rattle.std.specs.Prelude.{◌≡◌, ℕ, ◌+◌, ◌<◌, ◌≤◌, length, All, IfOk, MatchBool};
ghost use Rattle.term_core.specs.Tables.{TableView};
ghost use Rattle.proof_log.specs.Logs.{IsLogOf, logged_at, named, premises_in, derivation_in, numbers_of};
ghost use Rattle.spec_proof_texts.specs.Plans.{IsSupport};
ghost use Rattle.alethe_writer.specs.Marks.{MarksNumbers, IsNumberMarked, AreOfClauses, ArePrintedFor, Closes, plain_numbers};

use no_memory::NoMemory;
use proof_log::{ProofLog, StepId};
use std::alloc::Global;
use term_core::{TermId, TermTable};

/// Marks the numbers of the clauses that a clause depends on, its own among them.
///
/// It goes from the greatest number down, since premises have smaller ones.
pub(crate) fn support_of(alloc: Global, log: &ProofLog, step: StepId) -> Result<Vec<bool>, NoMemory>
    requires { step.0 < length log.now }
    ensures { IfOk result (λ marks. (t : TableView) → IsSupport (derivation_in t log.now) step.0 marks.items) }
{
    let clauses = log.len();
    prove!(step.0 < clauses);
    let mut marks = vec![in alloc; false; step.0 as usize + 1]?;
    mark_support(log, step, &mut marks);
    Ok(marks)
}

/// Marks the clauses that a clause depends on, where nothing is marked.
fn mark_support(log: &ProofLog, step: StepId, marks: &mut [bool])
    requires there { step.0 < length log.now }
    requires up_to { length marks.old ≡ step.0 + 1 }
    requires none { (k : ℕ) → IsNumberMarked marks.old k → ⊥ }
    ensures { (t : TableView) → IsSupport (derivation_in t log.now) step.0 marks.new }
{
    log.premises_are_earlier();
    mark_steps(marks, &[step]);
    'steps: for number in (0..marks.len()).rev() {
        if marks[number] {
            mark_premises(log, StepId(number as u64), marks);
        }
    }
}

/// Marks the premises of a clause.
fn mark_premises(log: &ProofLog, step: StepId, marks: &mut [bool])
    requires { All (λ p. p.0 < length marks.old) (premises_in (logged_at log.now step)) }
    ensures { MarksNumbers marks.old (numbers_of (premises_in (logged_at log.now step))) marks.new }
{
    if let Some(step) = log.step(step) {
        mark_steps(marks, step.premises.as_slice());
    }
}

/// Marks these clauses.
fn mark_steps(marks: &mut [bool], ids: &[StepId])
    requires { All (λ id. id.0 < length marks.old) ids.now }
    ensures { MarksNumbers marks.old (numbers_of ids.now) marks.new }
{
    'ids: for id in ids.iter() {
        marks[id.0 as usize] = true;
    }
}

/// Marks the numbers of the terms that are printed for marked clauses: their terms, and all subterms of these.
///
/// It goes from the greatest number down, since arguments have smaller ones.
pub(crate) fn printed_of(
    alloc: Global,
    log: &ProofLog,
    table: &TermTable,
    support: &[bool],
) -> Result<Vec<bool>, NoMemory>
    requires log { IsLogOf table.now log.now }
    requires short { length support.now ≤ length log.now }
    ensures as_many { IfOk result (λ marks. length marks.items ≡ length table.now.terms) }
    ensures printed { IfOk result (λ marks. ArePrintedFor table.now log.now support.now marks.items) }
{
    let mut marks = vec![in alloc; false; table.len() as usize]?;
    mark_printed(log, table, support, &mut marks);
    Ok(marks)
}

/// Marks the terms that are printed for marked clauses, where nothing is marked.
fn mark_printed(log: &ProofLog, table: &TermTable, support: &[bool], marks: &mut [bool])
    requires log { IsLogOf table.now log.now }
    requires short { length support.now ≤ length log.now }
    requires as_many { length marks.old ≡ length table.now.terms }
    requires none { (k : ℕ) → IsNumberMarked marks.old k → ⊥ }
    ensures printed { ArePrintedFor table.now log.now support.now marks.new }
    ensures as_many { length marks.new ≡ length marks.old }
{
    table.ids_are_unique();
    table.terms_are_closed();
    mark_clauses(log, table, support, marks);
    mark_arguments(table, marks);
}

/// Marks the terms of marked clauses, where nothing is marked.
fn mark_clauses(log: &ProofLog, table: &TermTable, support: &[bool], marks: &mut [bool])
    requires log { IsLogOf table.now log.now }
    requires short { length support.now ≤ length log.now }
    requires as_many { length marks.old ≡ length table.now.terms }
    requires none { (k : ℕ) → IsNumberMarked marks.old k → ⊥ }
    ensures { AreOfClauses table.now log.now support.now marks.new }
{
    'clauses: for number in 0..support.len() {
        mark_clause(log, table, StepId(number as u64), support[number], marks);
    }
}

/// Marks the terms of a clause, where they are wanted.
pub(crate) fn mark_clause(
    log: &ProofLog,
    table: &TermTable,
    id: StepId,
    wanted: bool,
    marks: &mut [bool],
)
    requires there { id.0 < length log.now }
    requires log { IsLogOf table.now log.now }
    requires as_many { length marks.old ≡ length table.now.terms }
    ensures { MatchBool wanted (MarksNumbers marks.old (plain_numbers (named (logged_at log.now id))) marks.new)
        (marks.new ≡ marks.old) }
{
    let _ = table;
    if !wanted {
        return;
    }
    mark_terms(marks, log.clause(id));
}

/// Marks the subterms of marked terms.
fn mark_arguments(table: &TermTable, marks: &mut [bool])
    requires { length marks.old ≡ length table.now.terms }
    ensures { Closes table.now marks.old marks.new }
{
    table.ids_are_unique();
    'terms: for number in (0..marks.len()).rev() {
        if marks[number] {
            mark_terms(
                marks,
                table.node(TermId(number as u64)).arguments.as_slice(),
            );
        }
    }
}

/// Marks these terms.
fn mark_terms(marks: &mut [bool], ids: &[TermId])
    requires { All (λ id. id.0 < length marks.old) ids.now }
    ensures { MarksNumbers marks.old (plain_numbers ids.now) marks.new }
{
    'ids: for id in ids.iter() {
        marks[id.0 as usize] = true;
    }
}
