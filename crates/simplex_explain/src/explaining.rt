//! The step of the clause that not all of some literals hold, which cannot all hold by their weights.

ghost use Rattle.std.specs.Prelude.{◌≡◌, List, IfOk, IfErr, OnOk, OnErr};
ghost use Rattle.spec_sorts.specs.Terms.{Term};
ghost use Rattle.term_core.specs.declared.ids.Lit.{Lit as LitView};
ghost use Rattle.proof_log.specs.Logs.{IsLogOf, logged_at, inference_of};
ghost use Rattle.proof_log.specs.Clashes.{IsClash};
ghost use Rattle.proof_log.specs.Theories.{DerivesLemmas, derived};
ghost use Rattle.simplex_explain.specs.Reasons.{AreAtomReasons, AreHeld, Refutes};
ghost use Rattle.simplex_explain.specs.Steps.{judged, refutation, IsCause};

use crate::stating::refute;
use crate::stop::ExplainStop;
use crate::weighted::Weighted;
use linear_form::ArithFault;
use proof_log::{ProofLog, StepId};
use spec_simplex::laws::weights_refute_constraints;
use std::alloc::Global;
use term_core::TermTable;

/// Logs that not all of some literals hold, which cannot all hold by their weights, and gives the number of the step,
/// whose clause is false where they hold.
///
/// The step is one by `la_generic`, without premises. Its clause has the negation of each literal, in their order, and
/// its arguments are the weights, as they are given: of an order the size alone counts. Negations that the clause needs
/// come into the table. The rule is tried once, before the step is logged.
///
/// Conditions: the log is right over the table, and the literals are of atoms of the table that are among the watched
/// terms. Each says how a form compares with 0. The sum of the forms, each times its weight, is one number, whatever the
/// variables are: above 0, or 0 where a strict order has a weight other than 0.
///
/// `Wide` comes where an operation of the rule leaves the bound on numbers, with the first one: the forms are within it,
/// a multiple or a sum of them may not be. `Memory` comes where a term, a form or the step finds no memory. After each,
/// table and log are as they were. Time and memory go in proportion to the forms.
/// Source: Farkas 1902; Dutertre and de Moura, CAV 2006; Alethe specification, rule `la_generic`.
pub fn explain(
    alloc: Global,
    table: &mut TermTable,
    log: &mut ProofLog,
    reasons: &[Weighted],
) -> Result<StepId, ExplainStop>
    ghost terms: { List Term }
    requires log { IsLogOf table.old log.old }
    requires reasons { AreAtomReasons terms table.old reasons.now }
    requires refutes { Refutes table.old reasons.now }
    ensures derives { OnOk result (DerivesLemmas terms (derived table.old log.old) (derived table.new log.new)) }
    ensures step { IfOk result (λ step. inference_of table.new (logged_at log.new step)
        ≡ refutation table.old reasons.now) }
    ensures clash { IfOk result (λ step. (held : List LitView) → AreHeld held reasons.now
        → IsClash table.new log.new held step) }
    ensures same { OnErr result ((table.new ≡ table.old) × (log.new ≡ log.old)) }
    ensures cause { IfErr result (IsCause (judged table.old reasons.now)) }
{
    weights_refute_constraints();
    match refute(alloc, table, log, reasons) {
        Ok(step) => Ok(step),
        Err(ArithFault::Wide(wide)) => Err(ExplainStop::Wide(wide)),
        Err(ArithFault::Memory) => Err(ExplainStop::Memory),
        Err(ArithFault::Shape) => unreachable!(),
        Err(ArithFault::NoContradiction) => unreachable!(),
    }
}
