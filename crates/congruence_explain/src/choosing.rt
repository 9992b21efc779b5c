//! The last step: its clause has the literals that a chain of resolutions over the other steps needs, and no others.

ghost use Rattle.std.specs.Prelude.{◌≡◌, ◌≤◌, length, map, All, IfOk};
ghost use Rattle.term_core.specs.Tables.{AreIn, clause_at};
ghost use Rattle.clause_literals.specs.Literals.{lists};
ghost use Rattle.rule_bool.specs.Resolvents.{MeansEach};
ghost use Rattle.proof_log.specs.Logs.{IsLogOf, AreStepsOf, clauses_in};
ghost use Rattle.proof_log.specs.Theories.{derived};
ghost use Rattle.congruence_explain.specs.Claims.{IsClaimOf, claim_as_term};
ghost use Rattle.congruence_explain.specs.Steps.{Start, spoken, Explains, steps_since, all_denied, AreNumbersFrom};
ghost use Rattle.congruence_explain.specs.Needing.{HasFalsePremise};
ghost use Rattle.congruence_explain.specs.Choosing.{AreKept, IsChosen, HasPutSome};

use crate::chain::needed_of;
use crate::claims::SignedClaim;
use crate::putting::{put, terms_of};
use clause_literals::{Assignment, literals_of};
use no_memory::NoMemory;
use proof_log::{ProofLog, Rule, StepId};
use std::alloc::Global;
use term_core::{Lit, TermId, TermTable};

/// The premises and the claims of a last step.
#[derive(Drop)]
struct LastStep {
    /// The premises.
    steps: Vec<StepId>,
    /// The claims.
    kept: Vec<SignedClaim>,
}

/// Lists the numbers of the steps from one on.
fn steps_from(alloc: Global, log: &ProofLog, from: u64) -> Result<Vec<StepId>, NoMemory>
    requires { from ≤ length log.now }
    ensures { IfOk result (λ steps. AreNumbersFrom log.now from steps.items) }
{
    let mut steps = Vec::new(alloc);
    'steps: for number in from..log.len() {
        steps.push(StepId(number))?;
    }
    Ok(steps)
}

/// Gives the literals of each step.
pub(crate) fn clauses_of(
    alloc: Global,
    table: &TermTable,
    log: &ProofLog,
    steps: &[StepId],
) -> Result<Vec<Vec<Lit>>, NoMemory>
    requires log { IsLogOf table.now log.now }
    requires there { AreStepsOf log.now steps.now }
    ensures { IfOk result (λ v. MeansEach table.now (lists v.items)
        (map (clause_at table.now) (clauses_in log.now steps.now))) }
{
    let mut clauses = Vec::new(alloc);
    'steps: for step in steps {
        clauses.push(literals_of(alloc, table, log.clause(*step))?)?;
    }
    Ok(clauses)
}

/// Keeps the claims whose literals are needed.
fn kept_of(
    alloc: Global,
    needed: &Assignment,
    literals: &[Lit],
    clause: &[SignedClaim],
) -> Result<Vec<SignedClaim>, NoMemory>
    requires { length literals.now ≡ length clause.now }
    ensures { IfOk result (λ kept. AreKept needed.now literals.now clause.now kept.items) }
{
    let mut kept = Vec::new(alloc);
    'claims: for i in 0..clause.len() {
        if !needed.contains(literals[i]) {
            continue;
        }
        kept.push(clause[i])?;
    }
    Ok(kept)
}

/// Chooses the premises and the claims of a step, whose clause would follow with all of these.
fn last_step(
    alloc: Global,
    table: &TermTable,
    log: &ProofLog,
    from: u64,
    clause: &[SignedClaim],
    terms: &[TermId],
) -> Result<LastStep, NoMemory>
    ghost start: { Start }
    requires derives { Explains start (derived table.now log.now) }
    requires from { from ≡ length start.log }
    requires claims { All (λ s. IsClaimOf (spoken start) start.table s.claim) clause.now }
    requires terms { AreIn table.now terms.now }
    requires means { clause_at table.now terms.now ≡ map (claim_as_term start.table) clause.now }
    requires refuted { HasFalsePremise (steps_since start (derived table.now log.now))
        (all_denied start.table clause.now) }
    ensures { IfOk result (λ c. IsChosen start (derived table.now log.now) clause.now c.steps.items c.kept.items) }
{
    table.ids_are_unique();
    let literals = literals_of(alloc, table, terms)?;
    let steps = steps_from(alloc, log, from)?;
    let premises = clauses_of(alloc, table, log, &steps)?;
    let needed = needed_of(alloc, table, premises, &literals)?;
    let kept = kept_of(alloc, &needed, &literals, clause)?;
    Ok(LastStep { steps, kept })
}

/// Logs a clause that follows by `resolution` from the steps since the start, without the literals that no chain needs, and gives the
/// step's number.
pub(crate) fn put_needed(
    alloc: Global,
    table: &mut TermTable,
    log: &mut ProofLog,
    from: u64,
    clause: &[SignedClaim],
) -> Result<StepId, NoMemory>
    ghost start: { Start }
    requires derives { Explains start (derived table.old log.old) }
    requires from { from ≡ length start.log }
    requires claims { All (λ s. IsClaimOf (spoken start) start.table s.claim) clause.now }
    requires refuted { HasFalsePremise (steps_since start (derived table.old log.old))
        (all_denied start.table clause.now) }
    ensures derives { Explains start (derived table.new log.new) }
    ensures put { IfOk result (HasPutSome start (derived table.new log.new) clause.now) }
{
    let terms = terms_of(alloc, table, clause)?;
    let last = last_step(alloc, table, log, from, clause, &terms)?;
    put(alloc, table, log, Rule::Resolution, last.steps, &last.kept)
}
