//! Single steps of a batch of lemmas.

ghost use Rattle.std.specs.Prelude.{◌≡◌, [], ◌∷◌, IfOk, IfSome};
ghost use Rattle.std.specs.Option.{IfNone};
ghost use Rattle.proof_log.specs.Theories.{derived};
ghost use Rattle.congruence_explain.specs.Choosing.{IsNotFound};
ghost use Rattle.case_equalities.specs.Stating.{Batch, Continues, GoesOn, AreMade, IsNotTaken, IsStepOf, AreStepsIn, StatesBoth};

use congruence_explain::is_exact;
use no_memory::NoMemory;
use proof_log::{Clause, LogFault, Numbers, ProofLog, Rule, Step, StepId, StepIds};
use std::alloc::Global;
use term_core::{TermId, TermTable};

/// Logs a clause by a rule without premises, and gives the step's number; nothing where the rule does not take it, or its numbers are too
/// wide to tell. Then the log is as it was.
pub(crate) fn log_alone(
    alloc: Global,
    table: &TermTable,
    log: &mut ProofLog,
    rule: Rule,
    clause: Vec<TermId>,
) -> Result<Option<StepId>, NoMemory>
    ghost batch: { Batch }
    requires derives { Continues batch (derived table.now log.old) }
    requires clause { AreMade batch table.now clause.items }
    ensures goes { GoesOn batch (derived table.now log.old) (derived table.now log.new) }
    ensures put { IfOk result (λ found. IfSome found (IsStepOf batch log.new)) }
    ensures missed { IfOk result (λ found. IfNone found
        ((log.new ≡ log.old) × IsNotTaken table.now log.old rule clause.items)) }
{
    let step = Step {
        rule,
        premises: StepIds::from(Vec::new(alloc)),
        arguments: Numbers::from(Vec::new(alloc)),
        clause: Clause::from(clause),
    };
    match log.add(table, step) {
        Ok(id) => Ok(Some(id)),
        Err(LogFault::Memory) => Err(NoMemory),
        Err(LogFault::RuleFails) => Ok(None),
        Err(LogFault::Wide) => Ok(None),
    }
}

/// Logs a clause of two terms that follows by `resolution` from steps of the batch, and gives the step's number; nothing where a chain of
/// resolutions gives less, or none is found. Then the log is as it was.
pub(crate) fn resolve(
    alloc: Global,
    table: &TermTable,
    log: &mut ProofLog,
    steps: Vec<StepId>,
    one: TermId,
    other: TermId,
) -> Result<Option<StepId>, NoMemory>
    ghost batch: { Batch }
    requires derives { Continues batch (derived table.now log.old) }
    requires clause { AreMade batch table.now (one ∷ other ∷ []) }
    requires steps { AreStepsIn batch log.old steps.items }
    ensures goes { GoesOn batch (derived table.now log.old) (derived table.now log.new) }
    ensures put { IfOk result (λ found. IfSome found (StatesBoth batch log.new one other)) }
    ensures missed { IfOk result (λ found. IfNone found
        ((log.new ≡ log.old) × IsNotFound table.now log.old steps.items (one ∷ other ∷ []))) }
{
    let clause = vec![in alloc; one, other]?;
    if !is_exact(alloc, table, log, &steps, &clause)? {
        return Ok(None);
    }
    let step = Step {
        rule: Rule::Resolution,
        premises: StepIds::from(steps),
        arguments: Numbers::from(Vec::new(alloc)),
        clause: Clause::from(clause),
    };
    let id = log.add_right(table, step)?;
    Ok(Some(id))
}
