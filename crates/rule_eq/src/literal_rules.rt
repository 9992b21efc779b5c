//! Rules whose reasons are negated equalities of the clause.

ghost use Rattle.std.specs.Prelude.{All};
ghost use Rattle.spec_equality.specs.declared.EqualityRule.TheVariants as rules;
ghost use Rattle.term_core.specs.Tables.{AreIn, clause_at};
ghost use Rattle.clause_literals.specs.Literals.{Tests};
ghost use Rattle.rule_eq.specs.Judging.{EndsInFormulas, EndsInDenied, JudgesEquality};

use crate::endings::{are_like, denied_ending, equal_ending};
use crate::reasons::{Reasons, lead};
use crate::sides::is_formula;
use term_core::{Clause, RuleFails, TermId, TermTable};

/// Judges a step of the rule `eq_transitive`, by which terms are equal where a chain of equalities leads from one to the other.
///
/// No premise; the conclusion is `(cl (not (= t1 t2)) .. (not (= tm tn)) (= t1 tn))`, with at least one negated equality. They are
/// in the order of the chain, each in either direction. It is sound, since where all of the equalities are true, the terms of the
/// chain have one value.
///
/// Time goes in proportion to the literals.
///
/// Source: Alethe specification, rule `eq_transitive`; that directions are free is own.
pub fn rule_eq_transitive(
    table: &TermTable,
    premises: &[Clause],
    clause: &[TermId],
) -> Result<(), RuleFails>
    requires premises { All (AreIn table.now) premises.now }
    requires clause { AreIn table.now clause.now }
    ensures { JudgesEquality table.now rules.EqTransitive premises.now clause.now result }
{
    if !premises.is_empty() {
        return Err(RuleFails);
    }
    let Some(end) = equal_ending(table, clause) else {
        return Err(RuleFails);
    };
    if end.literals.is_empty() {
        return Err(RuleFails);
    }
    if lead(table, Reasons::Literals(end.literals), end.one, end.other) {
        return Ok(());
    }
    Err(RuleFails)
}

/// Judges a step of the rule `eq_congruent`, by which a head's terms are equal where its arguments are.
///
/// No premise; the conclusion is `(cl (not (= t1 u1)) .. (not (= tn un)) (= (f t1 .. tn) (f u1 .. un)))`, of one head and as many
/// arguments, at least one. The equality is last. Each argument is the same as the other of its place, or their negated equality
/// is before it, in either direction; these are in any order, and there may be other literals. It is sound, since where all
/// of the equalities are true, the head has one value.
///
/// Time goes in proportion to the literals where they are in the order of the arguments, with gaps or repeats, and is the product
/// of arguments and literals at worst.
///
/// Source: Alethe specification, rule `eq_congruent`; that order and directions are free, and so are further literals, is own.
pub fn rule_eq_congruent(
    table: &TermTable,
    premises: &[Clause],
    clause: &[TermId],
) -> Result<(), RuleFails>
    requires premises { All (AreIn table.now) premises.now }
    requires clause { AreIn table.now clause.now }
    ensures { JudgesEquality table.now rules.EqCongruent premises.now clause.now result }
{
    if !premises.is_empty() {
        return Err(RuleFails);
    }
    let Some(end) = equal_ending(table, clause) else {
        return Err(RuleFails);
    };
    if are_like(table, end) {
        return Ok(());
    }
    Err(RuleFails)
}

/// Tells whether a clause ends in an equality of formulas that its literals make congruent.
fn ends_in_formulas(table: &TermTable, clause: &[TermId]) -> bool
    requires { AreIn table.now clause.now }
    ensures { Tests (EndsInFormulas (clause_at table.now clause.now)) result }
{
    let Some(end) = equal_ending(table, clause) else {
        return false;
    };
    if is_formula(table, end.one) {
        return are_like(table, end);
    }
    false
}

/// Tells whether a clause ends in a negated term and one that its literals make congruent.
fn ends_in_denied(table: &TermTable, clause: &[TermId]) -> bool
    requires { AreIn table.now clause.now }
    ensures { Tests (EndsInDenied (clause_at table.now clause.now)) result }
{
    let Some(end) = denied_ending(table, clause) else {
        return false;
    };
    are_like(table, end)
}

/// Judges a step of the rule `eq_congruent_pred`, by which a head's formulas are equal where its arguments are.
///
/// No premise; the conclusion is as that of `eq_congruent` (`rule_eq_congruent`), with terms of sort Bool. Or it ends in
/// `(not (f t1 .. tn)) (f u1 .. un)` in the place of their equality. It is sound, since where all of the equalities are true, the
/// head has one value.
///
/// Time goes in proportion to the literals where they are in the order of the arguments, with gaps or repeats, and is the product
/// of arguments and literals at worst.
///
/// Source: Alethe specification, rule `eq_congruent_pred`, and for the other form earlier texts of it; that order and directions
/// are free, and so are further literals, is own.
pub fn rule_eq_congruent_pred(
    table: &TermTable,
    premises: &[Clause],
    clause: &[TermId],
) -> Result<(), RuleFails>
    requires premises { All (AreIn table.now) premises.now }
    requires clause { AreIn table.now clause.now }
    ensures { JudgesEquality table.now rules.EqCongruentPred premises.now clause.now result }
{
    if !premises.is_empty() {
        return Err(RuleFails);
    }
    if ends_in_formulas(table, clause) {
        return Ok(());
    }
    if ends_in_denied(table, clause) {
        return Ok(());
    }
    Err(RuleFails)
}
