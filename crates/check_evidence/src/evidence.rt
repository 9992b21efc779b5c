//! What a check finds, with what shows it.

ghost use Rattle.std.specs.Prelude.{◌≡◌, ◌++◌, List, IfOk, OnErr};
ghost use Rattle.spec_sorts.specs.Terms.{Term};
ghost use Rattle.spec_sorts.specs.Signatures.{symbols_in};
ghost use Rattle.spec_commands.specs.Stack.{signature_of};
ghost use Rattle.spec_commands.specs.Checks.{Check};
ghost use Rattle.spec_proof_texts.specs.Readable.{AreReadable};
ghost use Rattle.spec_sessions.specs.Evidence.{Limits as SpokenLimits};
ghost use Rattle.spec_sessions.specs.Meaning.{IsKeptCheck};
ghost use Rattle.sat_budget.specs.declared.limits.Limits.{Limits as CodeLimits};
ghost use Rattle.term_reader.specs.Building.{KeepsTable};
ghost use Rattle.assertion_stack.specs.Stacks.{over_table};
ghost use Rattle.search_loop.specs.Rounds.{HasLimit};
ghost use Rattle.solve_core.specs.Decisions.{HasDecision};
ghost use Rattle.check_evidence.specs.Evidence.{limits_meant, IsHeldCheck, HoldsCheck, Decides, IsShown, Checks};

use alethe_writer::printable::{logs_are_over_their_terms, terms_are_printable};
use alethe_writer::{Plan, prepare};
use assertion_stack::Stack;
use assertion_stack::laws::stacks_hold_in_grown_tables;
use no_memory::NoMemory;
use proof_log::ProofLog;
use ratio128::laws::ratios_are_fractions;
use sat_budget::{Budget, Limits, Reason};
use solve_core::{Answer, Outcome, decide};
use spec_causes::laws::causes_are_overflows;
use spec_derivations::search_laws::whole_clauses_are_over_whole_terms;
use spec_proof_texts::laws::well_sorted_terms_are_printable;
use spec_proof_texts::readable_laws::{
    linear_terms_with_decimals_are_readable, read_numbers_are_decimals, search_makes_readable_terms,
};
use std::alloc::Global;
use term_core::{TermId, TermTable};
use term_walks::Interp;

/// What a check found, with what shows it.
///
/// Contracts see it as what was found, by the relation `IsEvidence`. Source: SMT-LIB 2.6, section 4.2.5.
#[derive(Drop)]
pub enum Evidence {
    /// Tables under which all that is asserted or assumed is true.
    Model(Interp),
    /// A log with a clause that is empty, and what is printed for it.
    Proof(ProofLog, Plan),
    /// Why there is no answer.
    Reason(Reason),
}

/// Checks what is asserted, with these terms of the table assumed, and keeps what was learned in the budget.
///
/// The assumed terms count for this check alone. The table grows by terms that the search and its lemmas speak of. The
/// budget is then that of the decision, under the limit on conflicts. `NoMemory` comes where memory ran out; table and
/// budget are then as they were.
pub fn check(
    alloc: Global,
    table: &mut TermTable,
    stack: &Stack,
    assumed: &[TermId],
    budget: &mut Budget,
    limits: &Limits,
) -> Result<Evidence, NoMemory>
    requires held { HoldsCheck limits.now.terms (over_table table.old stack.now) assumed.now }
    ensures checks { (c : Check) → IsHeldCheck limits.now.terms (over_table table.old stack.now) assumed.now c
        → Checks (limits_meant limits.now) c result (over_table table.new stack.now) budget.new }
    ensures limit { IfOk result (λ _. HasLimit limits.now budget.new) }
    ensures grows { IfOk result (λ _. KeepsTable table.old table.new) }
    ensures table { OnErr result (table.new ≡ table.old) }
    ensures budget { OnErr result (budget.new ≡ budget.old) }
{
    read_numbers_are_decimals();
    stacks_hold_in_grown_tables();
    let roots = roots_of(alloc, stack, assumed)?;
    let len = table.len();
    let outcome = decide(alloc, table, &roots, limits)?;
    match evidence_of(alloc, table, outcome) {
        Ok((evidence, learned)) => {
            *budget = learned;
            Ok(evidence)
        }
        Err(NoMemory) => {
            table.cut(len);
            Err(NoMemory)
        }
    }
}

/// Lists the terms that a check asks about: those that are asserted, and after them those that are assumed.
///
/// `NoMemory` comes where memory ran out.
fn roots_of(alloc: Global, stack: &Stack, assumed: &[TermId]) -> Result<Vec<TermId>, NoMemory>
    ensures { IfOk result (λ ids. ids.items ≡ stack.now.assertions.ids ++ assumed.now) }
{
    let mut ids = Vec::from_slice(alloc, stack.assertions.as_slice())?;
    ids.extend_from_slice(assumed)?;
    Ok(ids)
}

/// Keeps of an outcome what shows its answer, and prepares the printing of a proof. It takes time and memory in
/// proportion to the log and the table.
///
/// `NoMemory` comes where memory ran out.
fn evidence_of(
    alloc: Global,
    table: &TermTable,
    outcome: Outcome,
) -> Result<(Evidence, Budget), NoMemory>
    requires { (terms : List Term) × (limits : CodeLimits) × HasDecision table.now terms limits outcome }
    ensures shown { IfOk result (λ x. (limits : SpokenLimits) (c : Check)
        → IsKeptCheck limits.terms c → AreReadable (signature_of c.stack)
        → symbols_in (signature_of c.stack) ≡ table.now.symbols → Decides limits table.now c outcome
        → IsShown limits table.now c x.0 outcome) }
    ensures budget { IfOk result (λ x. x.1 ≡ outcome.budget) }
{
    read_numbers_are_decimals();
    search_makes_readable_terms();
    linear_terms_with_decimals_are_readable();
    causes_are_overflows();
    ratios_are_fractions();
    whole_clauses_are_over_whole_terms();
    well_sorted_terms_are_printable();
    logs_are_over_their_terms();
    terms_are_printable(table);
    let Outcome {
        answer,
        log,
        budget,
    } = outcome;
    match answer {
        Answer::Sat(interp) => Ok((Evidence::Model(interp), budget)),
        Answer::Unsat(step) => {
            let plan = prepare(alloc, &log, table, step)?;
            Ok((Evidence::Proof(log, plan), budget))
        }
        Answer::Unknown(reason) => Ok((Evidence::Reason(reason), budget)),
    }
}
