//! Why an edge is there, as steps.

ghost use Rattle.proof_log.specs.Theories.{derived};
ghost use Rattle.std.specs.Prelude.{◌≡◌, ℕ, ◌<◌, true, false, List, [], ◌∷◌, ◌++◌, length, All, IfOk, OnOk};
ghost use Rattle.spec_sorts.specs.Subsets.{arguments_of};
ghost use Rattle.term_core.specs.Tables.{term_at, IsIn, clause_at};
ghost use Rattle.explain_forest.specs.declared.types.Edge.{Edge as EdgeView};
ghost use Rattle.explain_forest.specs.Forest.{numbered};
ghost use Rattle.congruence_relation.specs.Relation.{truth_of};
ghost use Rattle.explain_forest.specs.declared.types.Label.TheVariants.{Held};
ghost use Rattle.congruence_explain.specs.Claims.{denied, joins};
ghost use Rattle.congruence_explain.specs.Basis.{IsBasis, IsAtomLiteral, IsByArguments};
ghost use Rattle.congruence_explain.specs.Steps.{Start, spoken, Explains, setting, notes, steps_since, decision, TellsEdge, GoesOn};

use crate::claims::{SignedClaim, denial, equality, is_between, truth, value_claimed};
use crate::paths::tell_pairs;
use crate::putting::put_alone;
use crate::rules::{rule_of_arguments, rule_of_decided, rule_of_value};
use congruence_relation::{Edge, Label, Truths};
use explain_forest::Forest;
use no_memory::NoMemory;
use proof_log::ProofLog;
use std::alloc::Global;
use std::collections::BTreeSet;
use term_core::{Lit, TermId, TermTable};

/// Copies the arguments of a term.
fn arguments_of(alloc: Global, table: &TermTable, id: TermId) -> Result<Vec<TermId>, NoMemory>
    requires { IsIn table.now id }
    ensures there { IfOk result (λ ids. All (λ x. x.0 < id.0) ids.items) }
    ensures means { IfOk result (λ ids. clause_at table.now ids.items ≡ arguments_of (term_at table.now id)) }
{
    let copy = Vec::from_slice(alloc, table.node(id).arguments.as_slice())?;
    Ok(copy)
}

/// Logs that two terms are equal whose arguments are linked, and that these are.
///
/// The step is one by `eq_congruent`. Terms without arguments are one, by `eq_reflexive`.
fn tell_arguments(
    alloc: Global,
    table: &mut TermTable,
    log: &mut ProofLog,
    forest: &Forest,
    truths: Truths,
    k: u64,
    needed: &mut BTreeSet<u64>,
) -> Result<(), NoMemory>
    ghost start: { Start }
    requires derives { Explains start (derived table.old log.old) }
    requires basis { IsBasis start.table truths forest.now.now start.facts }
    requires k { k < length forest.now.now.edges }
    requires label { IsByArguments forest.now.now.edges k }
    ensures derives { Explains start (derived table.new log.new) }
    ensures told { OnOk result (TellsEdge (setting start.table truths forest.now.now) k
        (notes start (derived table.old log.old) needed.old.keys [])
        (notes start (derived table.new log.new) needed.new.keys [])) }
{
    table.ids_are_unique();
    let edge = forest.edge(k);
    let xs = arguments_of(alloc, table, edge.a)?;
    let ys = arguments_of(alloc, table, edge.b)?;
    let mut clause = tell_pairs(alloc, table, log, forest, truths, &xs, &ys, needed)?;
    clause.push(equality(edge.a, edge.b))?;
    put_alone(alloc, table, log, rule_of_arguments(&xs), &clause)?;
    Ok(())
}

/// Logs that the term of a literal is equal to its truth value, or that the literal does not hold.
///
/// The value is stated by `true` or `false`. That the term has it is by `equiv_neg1` or `equiv_neg2`.
fn tell_decided(
    alloc: Global,
    table: &mut TermTable,
    log: &mut ProofLog,
    truths: Truths,
    l: Lit,
) -> Result<(), NoMemory>
    ghost start: { Start }
    requires derives { Explains start (derived table.old log.old) }
    requires decided { IsAtomLiteral (spoken start) start.table truths l }
    ensures derives { Explains start (derived table.new log.new) }
    ensures steps { OnOk result (steps_since start (derived table.new log.new)
        ≡ steps_since start (derived table.old log.old) ++ decision start.table truths l) }
{
    let value = truth(truths, l.positive);
    let holds = [value_claimed(value, l.positive)];
    put_alone(alloc, table, log, rule_of_value(l.positive), &holds)?;
    let clause = [
        equality(l.term, value),
        denial(l),
        value_claimed(value, !l.positive),
    ];
    put_alone(alloc, table, log, rule_of_decided(l.positive), &clause)?;
    Ok(())
}

/// Denies a held literal, which explains the edge that it labels.
///
/// Such an edge is between the literal's term and its truth value, or between the sides of an equality.
fn tell_held(
    alloc: Global,
    table: &mut TermTable,
    log: &mut ProofLog,
    truths: Truths,
    edge: Edge,
    l: Lit,
    stated: &mut Vec<SignedClaim>,
) -> Result<(), NoMemory>
    ghost start: { Start }
    requires derives { Explains start (derived table.old log.old) }
    requires decided { IsAtomLiteral (spoken start) start.table truths l }
    requires label { edge.label ≡ Held l }
    requires positive { joins edge.a edge.b l.term (truth_of truths l.positive) ≡ false → l.positive ≡ true }
    ensures derives { Explains start (derived table.new log.new) }
    ensures stated { OnOk result (stated.new.items ≡ stated.old.items ++ denied l ∷ []) }
    ensures told { OnOk result ((es : List EdgeView) (k : ℕ) (needed : List ℕ) → numbered es k ≡ edge
        → TellsEdge (record { table = start.table; truths = truths; edges = es }) k
        (notes start (derived table.old log.old) needed stated.old.items)
        (notes start (derived table.new log.new) needed stated.new.items)) }
{
    stated.push(denial(l))?;
    if !is_between(edge.a, edge.b, l.term, truth(truths, l.positive)) {
        return Ok(());
    }
    tell_decided(alloc, table, log, truths, l)?;
    Ok(())
}

/// Explains the edge of a number. The edges that this depends on are older.
pub(crate) fn turn(
    alloc: Global,
    table: &mut TermTable,
    log: &mut ProofLog,
    forest: &Forest,
    truths: Truths,
    k: u64,
    needed: &mut BTreeSet<u64>,
    stated: &mut Vec<SignedClaim>,
) -> Result<(), NoMemory>
    ghost start: { Start }
    requires derives { Explains start (derived table.old log.old) }
    requires basis { IsBasis start.table truths forest.now.now start.facts }
    requires k { k < length forest.now.now.edges }
    ensures derives { Explains start (derived table.new log.new) }
    ensures on { OnOk result (GoesOn (setting start.table truths forest.now.now) k
        (notes start (derived table.old log.old) needed.old.keys stated.old.items)
        (notes start (derived table.new log.new) needed.new.keys stated.new.items)) }
{
    let edge = forest.edge(k);
    match edge.label {
        Label::Arguments(_, _) => {
            tell_arguments(alloc, table, log, forest, truths, k, needed)?;
            Ok(())
        }
        Label::Held(l) => {
            tell_held(alloc, table, log, truths, edge, l, stated)?;
            Ok(())
        }
    }
}
