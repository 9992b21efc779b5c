//! The steps by which a disjunction leads to an equality.

ghost use Rattle.std.specs.Prelude.{◌≡◌, IfOk, IfSome, All};
ghost use Rattle.proof_log.specs.Logs.{AreFormulasIn};
ghost use Rattle.proof_log.specs.Theories.{derived};
ghost use Rattle.term_clauses.specs.Stating.{Widens};
ghost use Rattle.case_equalities.specs.Leads.{IsLeadOver, IsCaseEquality};
ghost use Rattle.case_equalities.specs.Stating.{Batch, Origin, batch_of, Continues, GoesOn, IsMade, AreMade, AreStepsIn, IsChainOf};

use crate::casing::{denial, state_case};
use crate::equalities::CaseEquality;
use crate::lead::{Chain, Lead};
use crate::logging::{log_alone, resolve};
use no_memory::NoMemory;
use proof_log::{ProofLog, Rule, StepId};
use std::alloc::Global;
use term_clauses::choices::equality;
use term_core::{TermId, TermTable};

/// Lists the terms of the clause that a disjunction is false or one of its cases true.
fn cases_of(
    alloc: Global,
    table: &TermTable,
    chains: &[Chain],
    denied: TermId,
) -> Result<Vec<TermId>, NoMemory>
    ghost batch: { Batch }
    requires since { Widens batch.start.table table.now }
    requires chains { All (IsChainOf batch) chains.now }
    requires denied { IsMade batch table.now denied }
    ensures { IfOk result (λ clause. AreMade batch table.now clause.items) }
{
    let _ = table;
    let mut clause = Vec::new(alloc);
    clause.push(denied)?;
    'chains: for chain in chains {
        clause.push(chain.case)?;
    }
    Ok(clause)
}

/// Logs by `or_pos` that a disjunction has its cases, and of each case but the equality itself that it is false or the equality true, and
/// lists these steps; nothing where a step is not right by its rule.
fn state_cases(
    alloc: Global,
    table: &mut TermTable,
    log: &mut ProofLog,
    chains: &[Chain],
    denied: TermId,
    equality: TermId,
) -> Result<Option<Vec<StepId>>, NoMemory>
    ghost batch: { Batch }
    requires derives { Continues batch (derived table.old log.old) }
    requires chains { All (IsChainOf batch) chains.now }
    requires denied { IsMade batch table.old denied }
    requires equality { IsMade batch table.old equality }
    ensures goes { GoesOn batch (derived table.old log.old) (derived table.new log.new) }
    ensures put { IfOk result (λ found. IfSome found (λ steps. AreStepsIn batch log.new steps.items)) }
{
    let mut steps = Vec::new(alloc);
    let clause = cases_of(alloc, table, chains, denied)?;
    let Some(first) = log_alone(alloc, table, log, Rule::OrPos, clause)? else {
        return Ok(None);
    };
    steps.push(first)?;
    'chains: for chain in chains {
        if chain.case == equality {
            continue;
        }
        let Some(step) = state_case(alloc, table, log, chain, equality)? else {
            return Ok(None);
        };
        steps.push(step)?;
    }
    Ok(Some(steps))
}

/// Logs that the disjunction of a lead is false or the two terms are equal, and gives that equality; nothing where a step is not right
/// by its rule, or the last takes more than it needs.
///
/// `NoMemory` comes where memory ran out. Steps that came stay.
fn state(
    alloc: Global,
    table: &mut TermTable,
    log: &mut ProofLog,
    lead: &Lead,
) -> Result<Option<CaseEquality>, NoMemory>
    ghost origin: { Origin }
    requires derives { Continues (batch_of origin) (derived table.old log.old) }
    requires roots { AreFormulasIn origin.start.table origin.roots }
    requires lead { IsLeadOver origin.start.table origin.roots lead.now }
    ensures goes { GoesOn (batch_of origin) (derived table.old log.old) (derived table.new log.new) }
    ensures found { IfOk result (λ found. IfSome found (IsCaseEquality table.new log.new origin.roots)) }
{
    let equality = equality(alloc, table, lead.left, lead.right)?;
    let denied = denial(alloc, table, lead.disjunction)?;
    let Some(steps) = state_cases(alloc, table, log, &lead.chains, denied, equality)? else {
        return Ok(None);
    };
    let Some(step) = resolve(alloc, table, log, steps, denied, equality)? else {
        return Ok(None);
    };
    Ok(Some(CaseEquality {
        disjunction: lead.disjunction,
        equality,
        step,
    }))
}

/// Logs this of each lead, and lists the equalities that are given.
///
/// `NoMemory` comes where memory ran out. Steps that came stay.
pub(crate) fn state_all(
    alloc: Global,
    table: &mut TermTable,
    log: &mut ProofLog,
    roots: &[TermId],
    leads: &[Lead],
) -> Result<Vec<CaseEquality>, NoMemory>
    ghost origin: { Origin }
    requires derives { Continues (batch_of origin) (derived table.old log.old) }
    requires asserted { origin.roots ≡ roots.now }
    requires roots { AreFormulasIn origin.start.table origin.roots }
    requires leads { All (IsLeadOver origin.start.table origin.roots) leads.now }
    ensures goes { GoesOn (batch_of origin) (derived table.old log.old) (derived table.new log.new) }
    ensures found { IfOk result (λ found. All (IsCaseEquality table.new log.new roots.now) found.items) }
{
    let _ = roots;
    let mut found = Vec::new(alloc);
    'leads: for lead in leads {
        let Some(equality) = state(alloc, table, log, lead)? else {
            continue;
        };
        found.push(equality)?;
    }
    Ok(found)
}
