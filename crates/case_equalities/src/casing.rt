//! The steps by which one case leads to an equality.

ghost use Rattle.std.specs.Prelude.{IfOk, IfSome};
ghost use Rattle.proof_log.specs.Theories.{derived};
ghost use Rattle.term_clauses.specs.Stating.{Widens};
ghost use Rattle.case_equalities.specs.Stating.{Batch, Continues, GoesOn, IsMade, AreMade, IsDenialOf, IsStepOf, AreStepsIn, IsChainOf};

use crate::lead::Chain;
use crate::logging::{log_alone, resolve};
use no_memory::NoMemory;
use proof_log::{ProofLog, Rule, StepId};
use std::alloc::Global;
use term_clauses::signs::signed;
use term_core::{TermId, TermTable};

/// Puts the negation of a formula, or finds it.
pub(crate) fn denial(alloc: Global, table: &mut TermTable, id: TermId) -> Result<TermId, NoMemory>
    ghost batch: { Batch }
    requires { IsMade batch table.old id }
    ensures wider { Widens table.old table.new }
    ensures means { IfOk result (IsDenialOf batch table.new id) }
{
    signed(alloc, table, id, false)
}

/// Puts the clause that one of the equalities of a chain is false, or the last one true.
fn chain_clause(
    alloc: Global,
    table: &mut TermTable,
    chain: &Chain,
    equality: TermId,
) -> Result<Vec<TermId>, NoMemory>
    ghost batch: { Batch }
    requires chain { IsChainOf batch chain.now }
    requires since { Widens batch.start.table table.old }
    requires equality { IsMade batch table.old equality }
    ensures wider { Widens table.old table.new }
    ensures made { IfOk result (λ clause. AreMade batch table.new clause.items) }
{
    let mut clause = Vec::new(alloc);
    'equalities: for id in chain.equalities.iter() {
        let denied = denial(alloc, table, *id)?;
        clause.push(denied)?;
    }
    clause.push(equality)?;
    Ok(clause)
}

/// Tells whether a chain is an equality alone.
fn is_alone(chain: &Chain, equality: TermId) -> bool {
    chain.equalities.len() == 1 && chain.equalities[0] == equality
}

/// Logs by `eq_transitive` that a chain leads to an equality, unless it is that one alone.
fn join(
    alloc: Global,
    table: &mut TermTable,
    log: &mut ProofLog,
    chain: &Chain,
    equality: TermId,
) -> Result<Option<Vec<StepId>>, NoMemory>
    ghost batch: { Batch }
    requires derives { Continues batch (derived table.old log.old) }
    requires chain { IsChainOf batch chain.now }
    requires equality { IsMade batch table.old equality }
    ensures goes { GoesOn batch (derived table.old log.old) (derived table.new log.new) }
    ensures put { IfOk result (λ found. IfSome found (λ steps. AreStepsIn batch log.new steps.items)) }
{
    let mut steps = Vec::new(alloc);
    if is_alone(chain, equality) {
        return Ok(Some(steps));
    }
    let clause = chain_clause(alloc, table, chain, equality)?;
    let Some(step) = log_alone(alloc, table, log, Rule::EqTransitive, clause)? else {
        return Ok(None);
    };
    steps.push(step)?;
    Ok(Some(steps))
}

/// Logs by `and_pos` that a case has each equality of its chain but itself, and lists these steps after others.
fn take_apart(
    alloc: Global,
    table: &TermTable,
    log: &mut ProofLog,
    steps: Vec<StepId>,
    chain: &Chain,
    denied: TermId,
) -> Result<Option<Vec<StepId>>, NoMemory>
    ghost batch: { Batch }
    requires derives { Continues batch (derived table.now log.old) }
    requires steps { AreStepsIn batch log.old steps.items }
    requires chain { IsChainOf batch chain.now }
    requires denied { IsMade batch table.now denied }
    ensures goes { GoesOn batch (derived table.now log.old) (derived table.now log.new) }
    ensures put { IfOk result (λ found. IfSome found (λ steps. AreStepsIn batch log.new steps.items)) }
{
    let mut steps = steps;
    'equalities: for id in chain.equalities.iter() {
        if *id == chain.case {
            continue;
        }
        let clause = vec![in alloc; denied, *id]?;
        let Some(step) = log_alone(alloc, table, log, Rule::AndPos, clause)? else {
            return Ok(None);
        };
        steps.push(step)?;
    }
    Ok(Some(steps))
}

/// Logs that a case, which is not an equality itself, is false or the equality true, and gives the step's number; nothing where a step is
/// not right by its rule.
///
/// The step of the chain comes before those of its equalities, so that each of these is the next when the last step is judged.
pub(crate) fn state_case(
    alloc: Global,
    table: &mut TermTable,
    log: &mut ProofLog,
    chain: &Chain,
    equality: TermId,
) -> Result<Option<StepId>, NoMemory>
    ghost batch: { Batch }
    requires derives { Continues batch (derived table.old log.old) }
    requires chain { IsChainOf batch chain.now }
    requires equality { IsMade batch table.old equality }
    ensures goes { GoesOn batch (derived table.old log.old) (derived table.new log.new) }
    ensures put { IfOk result (λ found. IfSome found (IsStepOf batch log.new)) }
{
    let denied = denial(alloc, table, chain.case)?;
    let Some(joined) = join(alloc, table, log, chain, equality)? else {
        return Ok(None);
    };
    let Some(steps) = take_apart(alloc, table, log, joined, chain, denied)? else {
        return Ok(None);
    };
    if steps.len() == 1 {
        return Ok(Some(steps[0]));
    }
    resolve(alloc, table, log, steps, denied, equality)
}
