//! Judges a step by its rule.

ghost use Rattle.spec_text.specs.Trees.{Trees};
ghost use Rattle.term_core.specs.Tables.{AreIn, clause_at};
ghost use Rattle.alethe_reader.specs.Holding.{clauses_numbered, AreNumbers};
ghost use Rattle.alethe_reader.specs.Reads.{IsReadyStep, step_view};
ghost use Rattle.rule_bool.specs.Arguments.{WritesCoefficients};
ghost use Rattle.alethe_check.specs.Stating.{HasClauses, TakesFew, TakesLiterals, JudgesResolvent, JudgesBy, JudgesStep};

use crate::premises::{distinct_clauses, fronts_of, one_or_none};
use alethe_reader::{ProofState, ProofStep};
use linear_form::Coeff;
use rule_bool::{RuleStop, judge, resolution};
use spec_proofs::Rule;
use std::alloc::Global;
use term_core::TermId;

/// Judges by resolution whether a clause follows from the clauses of numbers, each of which is taken once.
fn is_resolved(
    alloc: Global,
    state: &ProofState,
    premises: &[u64],
    clause: &[TermId],
) -> Result<(), RuleStop>
    requires clauses { HasClauses state.now }
    requires premises { AreNumbers state.now premises.now }
    requires clause { AreIn state.now.table clause.now }
    ensures { JudgesResolvent (clauses_numbered state.now premises.now) (clause_at state.now.table clause.now) result }
{
    let clauses = distinct_clauses(alloc, state, premises)?;
    resolution(alloc, &state.table, &clauses, clause)
}

/// Judges by a rule that takes one premise at most whether a clause follows from the clauses of numbers.
fn is_judged(
    alloc: Global,
    state: &ProofState,
    rule: Rule,
    premises: &[u64],
    coefficients: &[Coeff],
    clause: &[TermId],
) -> Result<(), RuleStop>
    requires rule { TakesFew rule }
    requires clauses { HasClauses state.now }
    requires premises { AreNumbers state.now premises.now }
    requires clause { AreIn state.now.table clause.now }
    ensures { (texts : Trees) → WritesCoefficients texts coefficients.now
        → JudgesBy rule (clauses_numbered state.now premises.now) texts (clause_at state.now.table clause.now) result }
{
    let Some(clauses) = one_or_none(state, premises) else {
        return Err(RuleStop::Fails);
    };
    judge(alloc, &state.table, rule, clauses, coefficients, clause)
}

/// Judges by a rule that takes of each premise nothing but its one literal whether a clause follows from the clauses of numbers.
/// The two first terms of each are copied.
fn is_equated(
    alloc: Global,
    state: &ProofState,
    rule: Rule,
    premises: &[u64],
    coefficients: &[Coeff],
    clause: &[TermId],
) -> Result<(), RuleStop>
    requires rule { TakesLiterals rule }
    requires clauses { HasClauses state.now }
    requires premises { AreNumbers state.now premises.now }
    requires clause { AreIn state.now.table clause.now }
    ensures { (texts : Trees) → WritesCoefficients texts coefficients.now
        → JudgesBy rule (clauses_numbered state.now premises.now) texts (clause_at state.now.table clause.now) result }
{
    let fronts = fronts_of(alloc, state, premises)?;
    judge(alloc, &state.table, rule, &fronts, coefficients, clause)
}

/// Judges a step by its rule. The clauses of its premises are lent where its rule takes one at most; of `trans` and `cong` their
/// beginnings are copied; else each different one is copied once.
pub(crate) fn follows(
    alloc: Global,
    state: &ProofState,
    step: &ProofStep<'_>,
) -> Result<(), RuleStop>
    requires clauses { HasClauses state.now }
    requires ready { IsReadyStep state.now step.now }
    ensures { JudgesStep (step_view state.now step.now) result }
{
    match step.rule {
        Rule::Resolution => is_resolved(alloc, state, &step.premises, &step.clause),
        Rule::ThResolution => is_resolved(alloc, state, &step.premises, &step.clause),
        Rule::Trans => is_equated(
            alloc,
            state,
            step.rule,
            &step.premises,
            &step.coefficients,
            &step.clause,
        ),
        Rule::Cong => is_equated(
            alloc,
            state,
            step.rule,
            &step.premises,
            &step.coefficients,
            &step.clause,
        ),
        _ => is_judged(
            alloc,
            state,
            step.rule,
            &step.premises,
            &step.coefficients,
            &step.clause,
        ),
    }
}
