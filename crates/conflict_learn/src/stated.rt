//! The step of a learned clause.

ghost use Rattle.std.specs.Prelude.{◌≡◌, [], map, All, IfOk, MatchResult};
ghost use Rattle.spec_sorts.specs.Terms.{negated};
ghost use Rattle.spec_proofs.specs.declared.Rule.TheVariants.{Resolution};
ghost use Rattle.spec_derivations.specs.Derivations.{FollowsFrom};
ghost use Rattle.term_core.specs.Tables.{IsIn, declared_in, term_at, literal_at, Extends};
ghost use Rattle.proof_log.specs.Logs.{IsFormulaIn, AreFormulasIn, stepped, inference_of, derivation_in, IsLogOf};
ghost use Rattle.proof_log.specs.Adding.{IsAdded};
ghost use Rattle.conflict_learn.specs.Analyses.{IsBare, StatesLiteral, StateAll};

use no_memory::NoMemory;
use proof_log::{Clause, Numbers, ProofLog, Rule, Step, StepId, StepIds};
use std::alloc::Global;
use term_core::{Head, Lit, Node, TermId, TermTable};

/// Gives the negation of a formula, which is put where it is not there.
fn negation(alloc: Global, table: &mut TermTable, id: TermId) -> Result<TermId, NoMemory>
    requires { IsFormulaIn table.old id }
    ensures grown { Extends table.old table.new }
    ensures declared { declared_in table.new ≡ declared_in table.old }
    ensures means { IfOk result (λ n. IsIn table.new n
        × (term_at table.new n ≡ negated (term_at table.old id))) }
{
    let node = Node::new(alloc, Head::Not, &[id])?;
    table.put(node)
}

/// Gives the term of a literal: its own, or its negation, which is put where it is not there.
fn term_of(alloc: Global, table: &mut TermTable, l: Lit) -> Result<TermId, NoMemory>
    requires { IsBare table.old l }
    ensures grown { Extends table.old table.new }
    ensures declared { declared_in table.new ≡ declared_in table.old }
    ensures states { IfOk result (StatesLiteral table.new (literal_at table.old l)) }
{
    if l.positive {
        return Ok(l.term);
    }
    negation(alloc, table, l.term)
}

/// Gives the terms of literals, in their order.
pub(crate) fn terms_of(
    alloc: Global,
    table: &mut TermTable,
    clause: &[Lit],
) -> Result<Vec<TermId>, NoMemory>
    requires { All (IsBare table.old) clause.now }
    ensures grown { Extends table.old table.new }
    ensures declared { declared_in table.new ≡ declared_in table.old }
    ensures states { IfOk result (λ terms. StateAll table.new (map (literal_at table.old) clause.now) terms.items) }
{
    let mut terms = Vec::new(alloc);
    for l in clause {
        let term = term_of(alloc, table, *l)?;
        terms.push(term)?;
    }
    Ok(terms)
}

/// Logs a clause as a step by `resolution`.
pub(crate) fn log_step(
    alloc: Global,
    table: &TermTable,
    log: &mut ProofLog,
    premises: Vec<StepId>,
    clause: Vec<TermId>,
) -> Result<StepId, NoMemory>
    requires log { IsLogOf table.now log.old }
    requires clause { AreFormulasIn table.now clause.items }
    requires follows { FollowsFrom (derivation_in table.now log.old)
        (inference_of table.now (stepped Resolution premises.items [] clause.items)) }
    ensures { MatchResult result
        (λ id. IsAdded table.now log.old (stepped Resolution premises.items [] clause.items) id log.new)
        (λ _. log.new ≡ log.old) }
{
    let step = Step {
        rule: Rule::Resolution,
        premises: StepIds::from(premises),
        arguments: Numbers::from(Vec::new(alloc)),
        clause: Clause::from(clause),
    };
    log.add_right(table, step)
}
