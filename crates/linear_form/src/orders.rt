//! Rules of the order of numbers.

ghost use Rattle.std.specs.Prelude.{◌≡◌, MatchOption, MatchResult};
ghost use Rattle.spec_sorts.specs.Terms.{Or, Equal, AtMost, Not, negated};
ghost use Rattle.spec_arithmetic.specs.ArithmeticRules.{at_most, split, order, IsOfNumbers};
ghost use Rattle.term_core.specs.Tables.{IsIn, AreIn, term_at, clause_at};
ghost use Rattle.linear_form.specs.Orders.{Tests, IsNoPair, IsBinaryTerm, IsNoTriple, IsTriple, IsNoNegation, IsNegation};

use crate::literals::are_numbers;
use term_core::{Head, RuleFails, TermId, TermTable};

/// Gives the two sides of an equality, or nothing where the term is none.
fn equality_sides(table: &TermTable, id: TermId) -> Option<(TermId, TermId)>
    requires { IsIn table.now id }
    ensures { MatchOption result (IsNoPair Equal (term_at table.now id))
        (IsBinaryTerm table.now Equal (term_at table.now id)) }
{
    let node = table.node(id);
    let [left, right] = node.arguments.as_slice() else {
        return None;
    };
    match node.head {
        Head::Equal => Some((*left, *right)),
        _ => None,
    }
}

/// Gives the two sides of `<=`, or nothing where the term is none.
fn order_sides(table: &TermTable, id: TermId) -> Option<(TermId, TermId)>
    requires { IsIn table.now id }
    ensures { MatchOption result (IsNoPair AtMost (term_at table.now id))
        (IsBinaryTerm table.now AtMost (term_at table.now id)) }
{
    let node = table.node(id);
    let [left, right] = node.arguments.as_slice() else {
        return None;
    };
    match node.head {
        Head::AtMost => Some((*left, *right)),
        _ => None,
    }
}

/// Gives the two terms of a disjunction, or nothing where the term is none of two.
fn two_of(table: &TermTable, id: TermId) -> Option<(TermId, TermId)>
    requires { IsIn table.now id }
    ensures { MatchOption result (IsNoPair Or (term_at table.now id))
        (IsBinaryTerm table.now Or (term_at table.now id)) }
{
    let node = table.node(id);
    let [left, right] = node.arguments.as_slice() else {
        return None;
    };
    match node.head {
        Head::Or => Some((*left, *right)),
        _ => None,
    }
}

/// Gives the three terms of a disjunction, or nothing where the term is none of three.
fn three_of(table: &TermTable, id: TermId) -> Option<(TermId, TermId, TermId)>
    requires { IsIn table.now id }
    ensures { MatchOption result (IsNoTriple Or (term_at table.now id))
        (IsTriple table.now Or (term_at table.now id)) }
{
    let node = table.node(id);
    let [one, two, three] = node.arguments.as_slice() else {
        return None;
    };
    match node.head {
        Head::Or => Some((*one, *two, *three)),
        _ => None,
    }
}

/// Gives the term that a negation negates, or nothing where the term is none.
fn negated(table: &TermTable, id: TermId) -> Option<TermId>
    requires { IsIn table.now id }
    ensures { MatchOption result (IsNoNegation (term_at table.now id)) (IsNegation table.now (term_at table.now id)) }
{
    let node = table.node(id);
    let [inner] = node.arguments.as_slice() else {
        return None;
    };
    match node.head {
        Head::Not => Some(*inner),
        _ => None,
    }
}

/// Tells whether a term says that one number is at most the other.
fn is_at_most(table: &TermTable, id: TermId, left: TermId, right: TermId) -> bool
    requires there { IsIn table.now id }
    requires left { IsIn table.now left }
    requires right { IsIn table.now right }
    ensures { Tests (term_at table.now id ≡ at_most (term_at table.now left) (term_at table.now right)) result }
{
    table.ids_are_unique();
    let Some((one, other)) = order_sides(table, id) else {
        return false;
    };
    if one == left {
        return other == right;
    }
    false
}

/// Tells whether a term denies that one number is at most the other.
fn is_not_at_most(table: &TermTable, id: TermId, left: TermId, right: TermId) -> bool
    requires there { IsIn table.now id }
    requires left { IsIn table.now left }
    requires right { IsIn table.now right }
    ensures { Tests (term_at table.now id ≡ negated (at_most (term_at table.now left) (term_at table.now right)))
        result }
{
    let Some(inner) = negated(table, id) else {
        return false;
    };
    is_at_most(table, inner, left, right)
}

/// Judges a step of the rule `la_disequality`, by which numbers are equal, or one of them is not at most the other.
///
/// No premise and no argument; the conclusion is `(cl (or (= s t) (not (<= s t)) (not (<= t s))))`, for `s` and `t` of sort Real. It is
/// sound, since the order of numbers is total and antisymmetric. It takes no memory, and the same time for all terms.
///
/// Source: Alethe specification, rule `la_disequality`.
pub fn la_disequality(table: &TermTable, clause: &[TermId]) -> Result<(), RuleFails>
    requires there { AreIn table.now clause.now }
    ensures exact { MatchResult result (λ _. IsOfNumbers split (clause_at table.now clause.now))
        (λ _. IsOfNumbers split (clause_at table.now clause.now) → ⊥) }
{
    let [id] = clause else {
        return Err(RuleFails);
    };
    let Some((equality, less, more)) = three_of(table, *id) else {
        return Err(RuleFails);
    };
    let Some((left, right)) = equality_sides(table, equality) else {
        return Err(RuleFails);
    };
    if !are_numbers(table, left, right) {
        return Err(RuleFails);
    }
    if !is_not_at_most(table, less, left, right) {
        return Err(RuleFails);
    }
    if is_not_at_most(table, more, right, left) {
        return Ok(());
    }
    Err(RuleFails)
}

/// Judges a step of the rule `la_totality`, by which one of two numbers is at most the other.
///
/// No premise and no argument; the conclusion is `(cl (or (<= s t) (<= t s)))`, for `s` and `t` of sort Real. It is sound, since the
/// order of numbers is total. It takes no memory, and the same time for all terms.
///
/// Source: Alethe specification, rule `la_totality`.
pub fn la_totality(table: &TermTable, clause: &[TermId]) -> Result<(), RuleFails>
    requires there { AreIn table.now clause.now }
    ensures exact { MatchResult result (λ _. IsOfNumbers order (clause_at table.now clause.now))
        (λ _. IsOfNumbers order (clause_at table.now clause.now) → ⊥) }
{
    let [id] = clause else {
        return Err(RuleFails);
    };
    let Some((less, more)) = two_of(table, *id) else {
        return Err(RuleFails);
    };
    let Some((left, right)) = order_sides(table, less) else {
        return Err(RuleFails);
    };
    if !are_numbers(table, left, right) {
        return Err(RuleFails);
    }
    if is_at_most(table, more, right, left) {
        return Ok(());
    }
    Err(RuleFails)
}
