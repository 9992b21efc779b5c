//! The step of the clause that not all of some literals hold, where the rule `la_generic` takes it.

ghost use Rattle.std.specs.Prelude.{◌≡◌, List, map, All, Ok, Err, IfOk, IfErr, OnOk, OnErr, MatchResult};
ghost use Rattle.spec_sorts.specs.Terms.{Term};
ghost use Rattle.spec_arithmetic.specs.Contradictions.{given, la_generic};
ghost use Rattle.linear_form.specs.Sums.{JudgesSum};
ghost use Rattle.term_core.specs.Tables.{clause_at};
ghost use Rattle.term_core.specs.declared.ids.Lit.{Lit as LitView};
ghost use Rattle.rule_bool.specs.Arguments.{fractions_of};
ghost use Rattle.proof_log.specs.Logs.{IsFormulaIn, AreFormulasIn, IsLogOf, logged_at, inference_of};
ghost use Rattle.proof_log.specs.Adding.{IsAdded};
ghost use Rattle.proof_log.specs.Clashes.{IsClash};
ghost use Rattle.proof_log.specs.Theories.{DerivesLemmas, derived};
ghost use Rattle.term_clauses.specs.Stating.{Widens};
ghost use Rattle.simplex_explain.specs.Reasons.{AreAtomReasons, AreHeld, weights_of};
ghost use Rattle.simplex_explain.specs.Steps.{judged, refuting, refutation, LogsRefutation};

use crate::judging::judge;
use crate::putting::negations;
use crate::weighted::Weighted;
use linear_form::ArithFault;
use no_memory::NoMemory;
use proof_log::laws::logs_hold_in_grown_tables;
use proof_log::{Clause, Numbers, ProofLog, Rule, Step, StepId, StepIds};
use ratio128::Ratio;
use ratio128::laws::ratios_are_fractions;
use std::alloc::{AllocError, Global};
use term_core::{TermId, TermTable};

/// Lists the weights, in their order.
fn weights_of(alloc: Global, reasons: &[Weighted]) -> Result<Vec<Ratio>, AllocError>
    ensures { IfOk result (λ v. v.items ≡ weights_of reasons.now) }
{
    let mut weights = Vec::new(alloc);
    for reason in reasons {
        weights.push(reason.weight)?;
    }
    Ok(weights)
}

/// Logs the step of a clause that the rule takes with these weights.
fn state(
    alloc: Global,
    table: &TermTable,
    log: &mut ProofLog,
    clause: Vec<TermId>,
    weights: Vec<Ratio>,
) -> Result<StepId, NoMemory>
    requires log { IsLogOf table.now log.old }
    requires clause { AreFormulasIn table.now clause.items }
    requires taken { la_generic (clause_at table.now clause.items) (map given (fractions_of weights.items)) ≡ Ok tt }
    ensures { MatchResult result (λ id. IsAdded table.now log.old (refuting weights.items clause.items) id log.new)
        (λ _. log.new ≡ log.old) }
{
    ratios_are_fractions();
    let step = Step {
        rule: Rule::LaGeneric,
        premises: StepIds::from(Vec::new(alloc)),
        arguments: Numbers::from(weights),
        clause: Clause::from(clause),
    };
    log.add_right(table, step)
}

/// Logs that not all of some literals hold, where the rule takes that clause with their weights. On a fault the terms
/// that it has put stay, and no step is there.
fn stated(
    alloc: Global,
    table: &mut TermTable,
    log: &mut ProofLog,
    reasons: &[Weighted],
) -> Result<StepId, ArithFault>
    requires log { IsLogOf table.old log.old }
    requires formulas { All (λ r. IsFormulaIn table.old r.literal.term) reasons.now }
    ensures wider { Widens table.old table.new }
    ensures stated { IfOk result (LogsRefutation table.old table.new log.old log.new reasons.now) }
    ensures same { OnErr result (log.new ≡ log.old) }
    ensures fault { IfErr result (λ fault. JudgesSum (judged table.old reasons.now) (Err fault)) }
{
    logs_hold_in_grown_tables();
    let Ok(clause) = negations(alloc, table, reasons) else {
        return Err(ArithFault::Memory);
    };
    judge(alloc, table, &clause, reasons)?;
    let weights = weights_of(alloc, reasons)?;
    match state(alloc, table, log, clause, weights) {
        Ok(step) => Ok(step),
        Err(NoMemory) => Err(ArithFault::Memory),
    }
}

/// Logs that not all of some literals hold, where the rule `la_generic` takes that clause with their weights, and gives the number of
/// the step, whose clause is false where they hold.
///
/// The step is as that of `explain`. That the literals cannot all hold need not be known: the rule decides. `NoContradiction` comes where
/// it does not take the clause, `Shape` where a literal is one by which the rule does not sum, and `Wide` with its first operation that
/// leaves the bound on numbers. `Memory` comes where a term, a form or the step finds no memory. After each, table and log are as they
/// were. Time and memory go in proportion to the forms.
pub fn refute(
    alloc: Global,
    table: &mut TermTable,
    log: &mut ProofLog,
    reasons: &[Weighted],
) -> Result<StepId, ArithFault>
    ghost terms: { List Term }
    requires log { IsLogOf table.old log.old }
    requires reasons { AreAtomReasons terms table.old reasons.now }
    ensures derives { OnOk result (DerivesLemmas terms (derived table.old log.old) (derived table.new log.new)) }
    ensures step { IfOk result (λ step. inference_of table.new (logged_at log.new step)
        ≡ refutation table.old reasons.now) }
    ensures clash { IfOk result (λ step. (held : List LitView) → AreHeld held reasons.now
        → IsClash table.new log.new held step) }
    ensures same { OnErr result ((table.new ≡ table.old) × (log.new ≡ log.old)) }
    ensures fault { IfErr result (λ fault. JudgesSum (judged table.old reasons.now) (Err fault)) }
{
    let terms = table.len();
    match stated(alloc, table, log, reasons) {
        Ok(step) => {
            table.ids_are_unique();
            Ok(step)
        }
        Err(fault) => {
            table.cut(terms);
            Err(fault)
        }
    }
}
