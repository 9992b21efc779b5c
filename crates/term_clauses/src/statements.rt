//! The clauses of a term, stated by its rules without premises.

ghost use Rattle.std.specs.Prelude.{List, [], ◌∷◌, length, map, Contains, OnOk};
ghost use Rattle.spec_sorts.specs.Terms.{Term};
ghost use Rattle.spec_text.specs.Trees.{none};
ghost use Rattle.spec_sorts.specs.Subsets.{arguments_of};
ghost use Rattle.spec_sorts.specs.WellSorted.{IsWellSorted};
ghost use Rattle.spec_rules.specs.Schemes.{signed_term, innermost, rests_of, clauses_by};
ghost use Rattle.spec_rules.specs.Rules.{IsRight};
ghost use Rattle.spec_derivations.specs.Base.{clauses_of};
ghost use Rattle.term_core.specs.Tables.{term_at, IsIn};
ghost use Rattle.rule_bool.specs.Schemes.{HasPlaces};
ghost use Rattle.proof_log.specs.Logs.{IsLogOf};
ghost use Rattle.term_clauses.specs.Growth.{Grows};
ghost use Rattle.term_clauses.specs.Stating.{JoinsFormulas, ComesBefore, listed_steps, Tells, head_of, scheme_by, IsRuleOf, IsSingle, single, before};

use crate::head_rules::rules_of;
use crate::signs::{argument_count, innermost, signed, with_rest};
use crate::steps::state;
use no_memory::NoMemory;
use proof_log::{ProofLog, Rule, StepId};
use rule_bool::{are_formulas, scheme_of};
use spec_proofs::{ArgumentLiteral, Rest};
use std::alloc::Global;
use term_core::{TermId, TermTable};

/// States the clauses that a term gives by its rules without premises; it has none where an argument is not of sort Bool.
pub fn state_term(
    alloc: Global,
    table: &mut TermTable,
    log: &mut ProofLog,
    steps: &mut Vec<StepId>,
    id: TermId,
) -> Result<(), NoMemory>
    requires there { IsIn table.old id }
    requires sorted { IsWellSorted table.old.symbols [] (term_at table.old id) }
    requires log { IsLogOf table.old log.old }
    ensures grows { Grows [] table.old table.new log.old log.new }
    ensures tells { OnOk result (Tells (listed_steps table.old log.old steps.old.items)
        (listed_steps table.new log.new steps.new.items) (clauses_of (term_at table.old id))) }
{
    let node = table.node(id);
    if !are_formulas(table, node.arguments.as_slice()) {
        return Ok(());
    }
    let list = rules_of(node.head);
    'rules: for rule in list.iter() {
        state_scheme(alloc, table, log, steps, id, *rule)?;
    }
    Ok(())
}

/// States the clauses that a term gives by one rule.
fn state_scheme(
    alloc: Global,
    table: &mut TermTable,
    log: &mut ProofLog,
    steps: &mut Vec<StepId>,
    id: TermId,
    rule: Rule,
) -> Result<(), NoMemory>
    requires there { JoinsFormulas table.old id }
    requires log { IsLogOf table.old log.old }
    requires rule { IsRuleOf (head_of (term_at table.old id)) rule }
    requires places { HasPlaces (length (arguments_of (term_at table.old id))) (scheme_by rule).rest }
    ensures grows { Grows [] table.old table.new log.old log.new }
    ensures tells { OnOk result (Tells (listed_steps table.old log.old steps.old.items)
        (listed_steps table.new log.new steps.new.items) (clauses_by (scheme_by rule) (term_at table.old id))) }
{
    proof_log::laws::logs_hold_in_grown_tables();
    let _ = table.node(id);
    let Some(scheme) = scheme_of(rule) else {
        unreachable!();
    };
    let front = signed(alloc, table, id, scheme.positive)?;
    state_rests(alloc, table, log, steps, id, front, rule, scheme.rest)
}

/// States the clauses that have a first term and after it what a scheme says by the arguments of a term.
fn state_rests(
    alloc: Global,
    table: &mut TermTable,
    log: &mut ProofLog,
    steps: &mut Vec<StepId>,
    id: TermId,
    front: TermId,
    rule: Rule,
    rest: Rest,
) -> Result<(), NoMemory>
    requires there { ComesBefore table.old id front }
    requires log { IsLogOf table.old log.old }
    requires places { HasPlaces (length (arguments_of (term_at table.old id))) rest }
    requires right { (ls : List Term) → Contains (rests_of rest (arguments_of (term_at table.old id))) ls
        → IsRight rule [] none (term_at table.old front ∷ ls) }
    ensures grows { Grows [] table.old table.new log.old log.new }
    ensures tells { OnOk result (Tells (listed_steps table.old log.old steps.old.items)
        (listed_steps table.new log.new steps.new.items)
        (before (term_at table.old front) (rests_of rest (arguments_of (term_at table.old id))))) }
{
    match rest {
        Rest::AnyOne(positive) => { state_any(alloc, table, log, steps, id, front, rule, positive) }
        Rest::Innermost => state_innermost(alloc, table, log, steps, id, front, rule),
        _ => state_single(alloc, table, log, steps, id, front, rule, rest),
    }
}

/// States the one clause that has a first term and after it what a scheme says by the arguments of a term.
fn state_single(
    alloc: Global,
    table: &mut TermTable,
    log: &mut ProofLog,
    steps: &mut Vec<StepId>,
    id: TermId,
    front: TermId,
    rule: Rule,
    rest: Rest,
) -> Result<(), NoMemory>
    requires there { ComesBefore table.old id front }
    requires log { IsLogOf table.old log.old }
    requires places { HasPlaces (length (arguments_of (term_at table.old id))) rest }
    requires one { IsSingle rest }
    requires right { IsRight rule [] none
        (term_at table.old front ∷ single rest (arguments_of (term_at table.old id))) }
    ensures grows { Grows [] table.old table.new log.old log.new }
    ensures tells { OnOk result (Tells (listed_steps table.old log.old steps.old.items)
        (listed_steps table.new log.new steps.new.items)
        ((term_at table.old front ∷ single rest (arguments_of (term_at table.old id))) ∷ [])) }
{
    proof_log::laws::logs_hold_in_grown_tables();
    let clause = with_rest(alloc, table, id, front, rest)?;
    state(alloc, table, log, steps, rule, clause)
}

/// States the clause of a term and what the argument of a term, a negation, negates, if it is one.
fn state_innermost(
    alloc: Global,
    table: &TermTable,
    log: &mut ProofLog,
    steps: &mut Vec<StepId>,
    id: TermId,
    front: TermId,
    rule: Rule,
) -> Result<(), NoMemory>
    requires there { ComesBefore table.now id front }
    requires log { IsLogOf table.now log.old }
    requires right { (ls : List Term) → Contains (innermost (arguments_of (term_at table.now id))) ls
        → IsRight rule [] none (term_at table.now front ∷ ls) }
    ensures grows { Grows [] table.now table.now log.old log.new }
    ensures tells { OnOk result (Tells (listed_steps table.now log.old steps.old.items)
        (listed_steps table.now log.new steps.new.items)
        (before (term_at table.now front) (innermost (arguments_of (term_at table.now id))))) }
{
    let Some(inner) = innermost(table, id) else {
        return Ok(());
    };
    let clause = vec![in alloc; front, inner]?;
    state(alloc, table, log, steps, rule, clause)
}

/// States the clauses that have a first term and after it one of the arguments of a term, or its negation.
fn state_any(
    alloc: Global,
    table: &mut TermTable,
    log: &mut ProofLog,
    steps: &mut Vec<StepId>,
    id: TermId,
    front: TermId,
    rule: Rule,
    positive: bool,
) -> Result<(), NoMemory>
    requires there { ComesBefore table.old id front }
    requires log { IsLogOf table.old log.old }
    requires right { (u : Term) → Contains (arguments_of (term_at table.old id)) u
        → IsRight rule [] none (term_at table.old front ∷ signed_term positive u ∷ []) }
    ensures grows { Grows [] table.old table.new log.old log.new }
    ensures tells { OnOk result (Tells (listed_steps table.old log.old steps.old.items)
        (listed_steps table.new log.new steps.new.items)
        (before (term_at table.old front)
        (map (λ u. signed_term positive u ∷ []) (arguments_of (term_at table.old id))))) }
{
    let count = argument_count(table, id);
    'places: for place in 0..count {
        let rest = Rest::One(ArgumentLiteral { place, positive });
        state_single(alloc, table, log, steps, id, front, rule, rest)?;
    }
    Ok(())
}
