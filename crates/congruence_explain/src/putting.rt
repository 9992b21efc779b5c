//! Steps of the log, whose terms are put with them.

ghost use Rattle.proof_log.specs.Theories.{derived};
ghost use Rattle.std.specs.Prelude.{◌≡◌, ◌≤◌, [], length, map, All, IfOk};
ghost use Rattle.spec_text.specs.Trees.{none};
ghost use Rattle.spec_rules.specs.Rules.{IsRight};
ghost use Rattle.spec_rules.specs.Schemes.{signed_term};
ghost use Rattle.spec_derivations.specs.Derivations.{by_rule, FollowsFrom};
ghost use Rattle.spec_derivations.specs.Lemmas.{TakesNoMore};
ghost use Rattle.term_core.specs.Tables.{term_at, clause_at};
ghost use Rattle.proof_log.specs.Logs.{IsFormulaIn, AreFormulasIn, numbers_of, derivation_in};
ghost use Rattle.term_clauses.specs.Stating.{Widens};
ghost use Rattle.congruence_explain.specs.Claims.{IsClaimIn, IsClaimOf, IsClaimPut, term_claimed, claim_as_term, claim_as_literal};
ghost use Rattle.congruence_explain.specs.Steps.{Start, spoken, Explains, HasPut};

use crate::claims::{Claim, SignedClaim};
use no_memory::NoMemory;
use proof_log::{Clause, Numbers, ProofLog, Rule, Step, StepId, StepIds};
use std::alloc::Global;
use term_core::{Head, Node, TermId, TermTable};

/// Puts the formula of a claim, or finds it.
fn formula_of(alloc: Global, table: &mut TermTable, claim: Claim) -> Result<TermId, NoMemory>
    requires { IsClaimIn table.old claim }
    ensures wider { Widens table.old table.new }
    ensures means { IfOk result (IsClaimPut table.new (term_claimed table.old claim)) }
{
    match claim {
        Claim::Atom(id) => Ok(id),
        Claim::Equality(a, b) => {
            let node = Node::new(alloc, Head::Equal, &[a, b])?;
            table.put(node)
        }
    }
}

/// Gives a formula as it is, or puts its negation.
fn signed_of(
    alloc: Global,
    table: &mut TermTable,
    id: TermId,
    positive: bool,
) -> Result<TermId, NoMemory>
    requires { IsFormulaIn table.old id }
    ensures wider { Widens table.old table.new }
    ensures means { IfOk result (IsClaimPut table.new (signed_term positive (term_at table.old id))) }
{
    if positive {
        return Ok(id);
    }
    let node = Node::new(alloc, Head::Not, &[id])?;
    table.put(node)
}

/// Puts the term of a literal, or finds it.
fn term_of(
    alloc: Global,
    table: &mut TermTable,
    signed_claim: SignedClaim,
) -> Result<TermId, NoMemory>
    requires { IsClaimIn table.old signed_claim.claim }
    ensures wider { Widens table.old table.new }
    ensures means { IfOk result (IsClaimPut table.new (claim_as_term table.old signed_claim)) }
{
    let formula = formula_of(alloc, table, signed_claim.claim)?;
    signed_of(alloc, table, formula, signed_claim.positive)
}

/// Puts the terms of literals, in their order.
pub(crate) fn terms_of(
    alloc: Global,
    table: &mut TermTable,
    clause: &[SignedClaim],
) -> Result<Vec<TermId>, NoMemory>
    requires { All (λ s. IsClaimIn table.old s.claim) clause.now }
    ensures wider { Widens table.old table.new }
    ensures means { IfOk result (λ ids. AreFormulasIn table.new ids.items
        × (clause_at table.new ids.items ≡ map (claim_as_term table.old) clause.now)) }
{
    let mut terms = Vec::new(alloc);
    for signed_claim in clause {
        let term = term_of(alloc, table, *signed_claim)?;
        terms.push(term)?;
    }
    Ok(terms)
}

/// Logs a clause that follows by a rule from premises that came since the start, and gives the step's number. With premises, it is what a
/// chain of resolutions over them gives.
///
/// `NoMemory` comes where a term or the step finds no memory. Then the table may have more terms.
pub(crate) fn put(
    alloc: Global,
    table: &mut TermTable,
    log: &mut ProofLog,
    rule: Rule,
    premises: Vec<StepId>,
    clause: &[SignedClaim],
) -> Result<StepId, NoMemory>
    ghost start: { Start }
    requires derives { Explains start (derived table.old log.old) }
    requires clause { All (λ s. IsClaimOf (spoken start) start.table s.claim) clause.now }
    requires follows { FollowsFrom (derivation_in table.old log.old)
        (by_rule rule (numbers_of premises.items) none (map (claim_as_term start.table) clause.now)) }
    requires since { All (λ p. length start.log ≤ p.0) premises.items }
    requires exact { TakesNoMore (derivation_in table.old log.old)
        (by_rule rule (numbers_of premises.items) none (map (claim_as_term start.table) clause.now)) }
    ensures derives { Explains start (derived table.new log.new) }
    ensures put { IfOk result (HasPut start (derived table.old log.old) (derived table.new log.new)
        (map (claim_as_literal start.table) clause.now)) }
{
    let terms = terms_of(alloc, table, clause)?;
    let step = Step {
        rule,
        premises: StepIds::from(premises),
        arguments: Numbers::from(Vec::new(alloc)),
        clause: Clause::from(terms),
    };
    log.add_right(table, step)
}

/// Logs a clause that is right by a rule without premises, and gives the step's number. It is `put` else.
pub(crate) fn put_alone(
    alloc: Global,
    table: &mut TermTable,
    log: &mut ProofLog,
    rule: Rule,
    clause: &[SignedClaim],
) -> Result<StepId, NoMemory>
    ghost start: { Start }
    requires derives { Explains start (derived table.old log.old) }
    requires clause { All (λ s. IsClaimOf (spoken start) start.table s.claim) clause.now }
    requires right { IsRight rule [] none (map (claim_as_term start.table) clause.now) }
    ensures derives { Explains start (derived table.new log.new) }
    ensures put { IfOk result (HasPut start (derived table.old log.old) (derived table.new log.new)
        (map (claim_as_literal start.table) clause.now)) }
{
    put(alloc, table, log, rule, Vec::new(alloc), clause)
}
