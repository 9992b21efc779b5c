//! Equalities of the table, by the numbers of their sides.

ghost use Rattle.std.specs.Prelude.{[], ◌∷◌, ◌≡◌, ◌≢◌, MatchBool, MatchOption, Some};
ghost use Rattle.spec_sorts.specs.Terms.{Truth, Term, sort_of};
ghost use Rattle.spec_equality.specs.Reasons.{denied, alone, Joins};
ghost use Rattle.term_core.specs.declared.ids.TermId.{TermId as Number};
ghost use Rattle.term_core.specs.Tables.{IsIn, AreIn, term_at, clause_at};
ghost use Rattle.clause_literals.specs.Literals.{Tests};
ghost use Rattle.rule_eq.specs.Reasoning.{GivesTerm, HasNoSides, AreSides, JoinsIn};

use clause_literals::without_sign;
use term_core::{Clause, Head, Sort, TermId, TermTable};

/// Tells whether two numbers are one.
pub(crate) fn same_number(a: TermId, b: TermId) -> bool
    ensures { MatchBool result (a ≡ b) (a ≢ b) }
{
    a == b
}

/// Tells whether each of two numbers is the other of its pair.
fn are_pairs(a: TermId, b: TermId, c: TermId, d: TermId) -> bool
    ensures { MatchBool result ((a ≡ b) × (c ≡ d)) ((a ≡ b) × (c ≡ d) → ⊥) }
{
    if same_number(a, b) {
        return same_number(c, d);
    }
    false
}

/// Tells whether a term has the sort Bool.
pub(crate) fn is_formula(table: &TermTable, id: TermId) -> bool
    requires { IsIn table.now id }
    ensures { MatchBool result (sort_of (term_at table.now id) ≡ Truth) (sort_of (term_at table.now id) ≢ Truth) }
{
    table.sort(id) == Sort::Bool
}

/// Gives the two sides of an equality, or nothing where the term is none.
pub(crate) fn sides(table: &TermTable, id: TermId) -> Option<(TermId, TermId)>
    requires { IsIn table.now id }
    ensures { MatchOption result (HasNoSides (term_at table.now id)) (AreSides table.now (term_at table.now id)) }
{
    let node = table.node(id);
    let [one, other] = node.arguments.as_slice() else {
        return None;
    };
    match node.head {
        Head::Equal => Some((*one, *other)),
        _ => None,
    }
}

/// Gives the term that a literal denies, or nothing where it is no negation.
pub(crate) fn denied(table: &TermTable, id: TermId) -> Option<TermId>
    requires { IsIn table.now id }
    ensures { GivesTerm table.now (denied (term_at table.now id)) result }
{
    without_sign(table, false, id)
}

/// Gives the one term of a clause, or nothing where it has none or several.
pub(crate) fn alone(table: &TermTable, clause: &[TermId]) -> Option<TermId>
    requires { AreIn table.now clause.now }
    ensures { GivesTerm table.now (alone (clause_at table.now clause.now)) result }
{
    let [id] = clause else {
        return None;
    };
    Some(*id)
}

/// Tells whether a term is an equality of two others, in either direction.
pub(crate) fn joins(table: &TermTable, reason: TermId, one: TermId, other: TermId) -> bool
    requires reason { IsIn table.now reason }
    requires one { IsIn table.now one }
    requires other { IsIn table.now other }
    ensures { Tests (JoinsIn table.now reason one other) result }
{
    table.ids_are_unique();
    let Some((left, right)) = sides(table, reason) else {
        return false;
    };
    if are_pairs(left, one, right, other) {
        return true;
    }
    are_pairs(left, other, right, one)
}

/// Gives the other side of an equality that has the term on one of its sides, or nothing where the reason is none.
pub(crate) fn other_side(table: &TermTable, reason: TermId, from: TermId) -> Option<TermId>
    requires reason { IsIn table.now reason }
    requires from { IsIn table.now from }
    ensures { MatchOption result
        ((next : Term) → Joins (Some (term_at table.now reason)) (term_at table.now from) next → ⊥)
        (λ next. IsIn table.now next × JoinsIn table.now reason from next) }
{
    table.ids_are_unique();
    let Some((left, right)) = sides(table, reason) else {
        return None;
    };
    if same_number(left, from) {
        return Some(right);
    }
    if same_number(right, from) {
        return Some(left);
    }
    None
}

/// Gives the two terms of a list, or nothing where it has not two.
pub(crate) fn both(ids: &[TermId]) -> Option<(TermId, TermId)>
    ensures { MatchOption result ((a b : Number) → ids.now ≢ a ∷ b ∷ []) (λ p. ids.now ≡ p.0 ∷ p.1 ∷ []) }
{
    let [one, other] = ids else {
        return None;
    };
    Some((*one, *other))
}

/// Gives the one term of the one premise, or nothing where there is no such.
pub(crate) fn premise_alone(premises: &[Clause]) -> Option<TermId>
    ensures { MatchOption result ((u : Number) → premises.now ≢ (u ∷ []) ∷ []) (λ u. premises.now ≡ (u ∷ []) ∷ []) }
{
    let [premise] = premises else {
        return None;
    };
    let [id] = premise.as_slice() else {
        return None;
    };
    Some(*id)
}
