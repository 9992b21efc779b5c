//! Rules by which a choice is one of its branches.

ghost use Rattle.std.specs.Prelude.{All, MatchOption};
ghost use Rattle.spec_equality.specs.declared.EqualityRule.TheVariants as rules;
ghost use Rattle.term_core.specs.Tables.{IsIn, AreIn, term_at};
ghost use Rattle.rule_eq.specs.Judging.{IsNoChoice, IsIteEquality, JudgesEquality};

use crate::sides::{both, denied, is_formula, same_number, sides};
use term_core::{Clause, Head, RuleFails, TermId, TermTable};

/// Holds the terms of an equality of a choice with another term.
#[derive(Clone, Copy)]
pub(crate) struct IteEquality {
    /// The condition.
    pub condition: TermId,
    /// The branch that is chosen where it holds.
    pub first: TermId,
    /// The branch that is chosen where it does not.
    pub second: TermId,
    /// The other side of the equality.
    pub side: TermId,
}

/// Gives the terms of an equality of a choice with a term of another sort than Bool, or nothing where the term is none.
fn choice_of(table: &TermTable, id: TermId) -> Option<IteEquality>
    requires { IsIn table.now id }
    ensures { MatchOption result (IsNoChoice (term_at table.now id)) (IsIteEquality table.now (term_at table.now id)) }
{
    let Some((one, side)) = sides(table, id) else {
        return None;
    };
    if is_formula(table, side) {
        return None;
    }
    let node = table.node(one);
    let [condition, first, second] = node.arguments.as_slice() else {
        return None;
    };
    match node.head {
        Head::Ite => Some(IteEquality {
            condition: *condition,
            first: *first,
            second: *second,
            side,
        }),
        _ => None,
    }
}

/// Judges a step of the rule `x_ite_then`, by which a choice is its first branch where its condition holds.
///
/// No premise; the conclusion is `(cl (not c) (= (ite c s t) s))`, for `s` of another sort than Bool. It is sound, since where its
/// condition is true, a choice has the value of its first branch.
pub fn rule_x_ite_then(
    table: &TermTable,
    premises: &[Clause],
    clause: &[TermId],
) -> Result<(), RuleFails>
    requires premises { All (AreIn table.now) premises.now }
    requires clause { AreIn table.now clause.now }
    ensures { JudgesEquality table.now rules.IteThen premises.now clause.now result }
{
    table.ids_are_unique();
    if !premises.is_empty() {
        return Err(RuleFails);
    }
    let Some((literal, equality)) = both(clause) else {
        return Err(RuleFails);
    };
    let Some(condition) = denied(table, literal) else {
        return Err(RuleFails);
    };
    let Some(choice) = choice_of(table, equality) else {
        return Err(RuleFails);
    };
    if !same_number(choice.condition, condition) {
        return Err(RuleFails);
    }
    if same_number(choice.first, choice.side) {
        return Ok(());
    }
    Err(RuleFails)
}

/// Judges a step of the rule `x_ite_else`, by which a choice is its second branch where its condition does not hold.
///
/// No premise; the conclusion is `(cl c (= (ite c s t) t))`, for `t` of another sort than Bool. It is sound, since where its
/// condition is not true, a choice has the value of its second branch.
pub fn rule_x_ite_else(
    table: &TermTable,
    premises: &[Clause],
    clause: &[TermId],
) -> Result<(), RuleFails>
    requires premises { All (AreIn table.now) premises.now }
    requires clause { AreIn table.now clause.now }
    ensures { JudgesEquality table.now rules.IteElse premises.now clause.now result }
{
    table.ids_are_unique();
    if !premises.is_empty() {
        return Err(RuleFails);
    }
    let Some((condition, equality)) = both(clause) else {
        return Err(RuleFails);
    };
    let Some(choice) = choice_of(table, equality) else {
        return Err(RuleFails);
    };
    if !same_number(choice.condition, condition) {
        return Err(RuleFails);
    }
    if same_number(choice.second, choice.side) {
        return Ok(());
    }
    Err(RuleFails)
}
