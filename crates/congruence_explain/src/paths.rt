//! Steps that say that linked terms are equal, where the edges between them are explained.

ghost use Rattle.proof_log.specs.Theories.{derived};
ghost use Rattle.std.specs.Prelude.{◌≡◌, ◌≢◌, ℕ, ◌<◌, true, [], ◌∷◌, ◌++◌, map, length, get_or, All, Contains, IfOk, OnOk};
ghost use Rattle.spec_equality.specs.Reasons.{equal as equal_terms};
ghost use Rattle.term_core.specs.Tables.{term_at, IsIn};
ghost use Rattle.congruence_explain.specs.Claims.{IsClaimIn, IsOneEquality, denied_step, unequal, all_unequal, no_term_id};
ghost use Rattle.congruence_explain.specs.Basis.{IsBasis, AreLinkedIn, AreLinkedOr};
ghost use Rattle.congruence_explain.specs.Steps.{Start, spoken, Explains, setting, notes, AddsEdges, edges_on, TellsPair, TellsPairs};

use crate::claims::{Claim, SignedClaim, claim_of, equality, unequality};
use crate::putting::put_alone;
use crate::rules::rule_of_path;
use congruence_relation::Truths;
use explain_forest::{Forest, PathStep};
use no_memory::NoMemory;
use proof_log::ProofLog;
use std::alloc::Global;
use std::collections::BTreeSet;
use term_core::{Head, TermId, TermTable};

/// Denies what the edges of a path say, and puts these among the edges that are needed.
fn deny_path(
    alloc: Global,
    truths: Truths,
    path: &[PathStep],
    needed: &mut BTreeSet<u64>,
) -> Result<Vec<SignedClaim>, NoMemory>
    ensures clause { IfOk result (λ c. c.items ≡ map (denied_step truths) path.now) }
    ensures needed { OnOk result (AddsEdges needed.old.keys (edges_on path.now) needed.new.keys) }
{
    let mut clause = Vec::new(alloc);
    'path: for s in path {
        clause.push(SignedClaim {
            claim: claim_of(truths, s.label, s.from, s.to),
            positive: false,
        })?;
        needed.insert(s.edge)?;
    }
    Ok(clause)
}

/// Tells whether a term is the equality of two others, in this order.
fn is_equality(table: &TermTable, id: TermId, x: TermId, y: TermId) -> bool
    requires { IsIn table.now id }
    ensures { result ≡ true → term_at table.now id ≡ equal_terms (term_at table.now x) (term_at table.now y) }
{
    let node = table.node(id);
    match (node.head, node.arguments.as_slice()) {
        (Head::Equal, [a, b]) => a.0 == x.0 && b.0 == y.0,
        _ => false,
    }
}

/// Tells whether a clause has one literal, whose formula is the equality of two terms, in this order.
fn is_claimed(table: &TermTable, clause: &[SignedClaim], x: TermId, y: TermId) -> bool
    requires { All (λ s. IsClaimIn table.now s.claim) clause.now }
    ensures { result ≡ true → IsOneEquality table.now clause.now x y }
{
    match clause {
        [signed_claim] => match signed_claim.claim {
            Claim::Equality(a, b) => a.0 == x.0 && b.0 == y.0,
            Claim::Atom(id) => is_equality(table, id, x, y),
        },
        _ => false,
    }
}

/// Logs that two linked terms are equal, and puts the edges between them among those that are needed.
///
/// The step is one by `eq_transitive`, for a term with itself by `eq_reflexive`. There is none where the path is an edge that says so.
pub(crate) fn tell(
    alloc: Global,
    table: &mut TermTable,
    log: &mut ProofLog,
    forest: &Forest,
    truths: Truths,
    x: TermId,
    y: TermId,
    needed: &mut BTreeSet<u64>,
) -> Result<(), NoMemory>
    ghost start: { Start }
    requires derives { Explains start (derived table.old log.old) }
    requires basis { IsBasis start.table truths forest.now.now start.facts }
    requires linked { AreLinkedIn (spoken start) start.table forest.now.now x y }
    ensures derives { Explains start (derived table.new log.new) }
    ensures told { OnOk result (TellsPair (setting start.table truths forest.now.now)
        (notes start (derived table.old log.old) needed.old.keys [])
        (notes start (derived table.new log.new) needed.new.keys []) x y) }
{
    forest.paths_lead();
    let path = forest.explain(x, y)?;
    let mut clause = deny_path(alloc, truths, &path, needed)?;
    if is_claimed(table, &clause, x, y) {
        return Ok(());
    }
    clause.push(equality(x, y))?;
    put_alone(alloc, table, log, rule_of_path(x, y), &clause)?;
    Ok(())
}

/// Logs that one argument is equal to another, and denies it in the clause, unless the two are one.
fn tell_pair(
    alloc: Global,
    table: &mut TermTable,
    log: &mut ProofLog,
    forest: &Forest,
    truths: Truths,
    x: TermId,
    y: TermId,
    needed: &mut BTreeSet<u64>,
    clause: &mut Vec<SignedClaim>,
) -> Result<(), NoMemory>
    ghost start: { Start }
    requires derives { Explains start (derived table.old log.old) }
    requires basis { IsBasis start.table truths forest.now.now start.facts }
    requires linked { AreLinkedOr (spoken start) start.table forest.now.now x y }
    ensures derives { Explains start (derived table.new log.new) }
    ensures clause { OnOk result (clause.new.items ≡ clause.old.items ++ all_unequal (x ∷ []) (y ∷ [])) }
    ensures told { OnOk result (TellsPairs (setting start.table truths forest.now.now)
        (notes start (derived table.old log.old) needed.old.keys [])
        (notes start (derived table.new log.new) needed.new.keys []) (x ∷ []) (y ∷ [])) }
{
    if x.0 == y.0 {
        return Ok(());
    }
    tell(alloc, table, log, forest, truths, x, y, needed)?;
    clause.push(unequality(x, y))?;
    Ok(())
}

/// Tells whether a clause denies last that two terms are equal that differ.
fn denies_last(clause: &[SignedClaim], x: TermId, y: TermId) -> bool
    ensures { result ≡ true → (x.0 ≢ y.0) × Contains clause.now (unequal x y) }
{
    if x.0 == y.0 {
        return false;
    }
    let Some((last, _)) = clause.split_last() else {
        return false;
    };
    if last.positive {
        return false;
    }
    match last.claim {
        Claim::Equality(a, b) => a.0 == x.0 && b.0 == y.0,
        Claim::Atom(_) => false,
    }
}

/// Logs that arguments are equal to others, one by one, and gives the clause that denies it of each two that differ.
///
/// A pair that is the same as the one before is explained once.
pub(crate) fn tell_pairs(
    alloc: Global,
    table: &mut TermTable,
    log: &mut ProofLog,
    forest: &Forest,
    truths: Truths,
    xs: &[TermId],
    ys: &[TermId],
    needed: &mut BTreeSet<u64>,
) -> Result<Vec<SignedClaim>, NoMemory>
    ghost start: { Start }
    requires derives { Explains start (derived table.old log.old) }
    requires basis { IsBasis start.table truths forest.now.now start.facts }
    requires lengths { length xs.now ≡ length ys.now }
    requires linked { (i : ℕ) → i < length xs.now → AreLinkedOr (spoken start) start.table forest.now.now
        (get_or xs.now i no_term_id) (get_or ys.now i no_term_id) }
    ensures derives { Explains start (derived table.new log.new) }
    ensures clause { IfOk result (λ c. c.items ≡ all_unequal xs.now ys.now) }
    ensures told { OnOk result (TellsPairs (setting start.table truths forest.now.now)
        (notes start (derived table.old log.old) needed.old.keys [])
        (notes start (derived table.new log.new) needed.new.keys []) xs.now ys.now) }
{
    let mut clause = Vec::new(alloc);
    'pairs: for i in 0..xs.len() {
        if denies_last(&clause, xs[i], ys[i]) {
            clause.push(unequality(xs[i], ys[i]))?;
            continue;
        }
        tell_pair(
            alloc,
            table,
            log,
            forest,
            truths,
            xs[i],
            ys[i],
            needed,
            &mut clause,
        )?;
    }
    Ok(clause)
}
