//! Which terms are assumed in what is printed.

ghost use Rattle.std.specs.Prelude.{◌≡◌, [], IfOk};
ghost use Rattle.spec_sorts.specs.Subterms.{has_term};
ghost use Rattle.spec_proof_texts.specs.Plans.{terms_planned};
ghost use Rattle.proof_log.specs.Logs.{IsLogOf, logged_at, derivation_in};
ghost use Rattle.alethe_writer.specs.Printing.{PlanFits, clause_number};
ghost use Rattle.alethe_writer.specs.Assumes.{SaysWhether, is_printed_assume};

use crate::marks::mark_clause;
use crate::plans::Plan;
use no_memory::NoMemory;
use proof_log::{ProofLog, StepId};
use std::alloc::Global;
use term_core::TermTable;

/// Tells whether a clause is printed as an assume.
fn is_printed_assume(plan: &Plan, log: &ProofLog, id: StepId) -> bool
    ensures { result ≡ is_printed_assume (clause_number plan.now id) (logged_at log.now id) }
{
    match plan.clause(id) {
        None => false,
        Some(_) => match log.step(id) {
            None => true,
            Some(_) => false,
        },
    }
}

/// Tells of each term of a table, by its number, whether what is printed by a plan assumes it.
///
/// The plan is one of the log. It takes time in proportion to the table and the plan, and a byte for each term.
/// `NoMemory` comes where memory ran out.
pub fn assumed_of(
    alloc: Global,
    plan: &Plan,
    log: &ProofLog,
    table: &TermTable,
) -> Result<Vec<bool>, NoMemory>
    requires log { IsLogOf table.now log.now }
    requires fits { PlanFits table.now log.now plan.now }
    ensures { IfOk result (λ marks. SaysWhether table.now
        (has_term (terms_planned (derivation_in table.now log.now) plan.now.inferences)) marks.items) }
{
    let mut marks = vec![in alloc; false; table.len() as usize]?;
    mark_assumed(plan, log, table, &mut marks);
    Ok(marks)
}

/// Marks the terms that what is printed assumes, where nothing is marked.
fn mark_assumed(plan: &Plan, log: &ProofLog, table: &TermTable, marks: &mut [bool])
    requires log { IsLogOf table.now log.now }
    requires fits { PlanFits table.now log.now plan.now }
    requires none { SaysWhether table.now (has_term []) marks.old }
    ensures { SaysWhether table.now (has_term (terms_planned (derivation_in table.now log.now) plan.now.inferences))
        marks.new }
{
    table.ids_are_unique();
    'clauses: for number in (0..plan.steps_len() as usize).rev() {
        let id = StepId(number as u64);
        let printed = is_printed_assume(plan, log, id);
        mark_clause(log, table, id, printed, marks);
    }
}
