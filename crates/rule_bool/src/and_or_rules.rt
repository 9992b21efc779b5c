//! Rules on conjunctions and disjunctions.

ghost use Rattle.std.specs.Prelude.{All};
ghost use Rattle.spec_proofs.specs.declared.Rule.TheVariants as rules;
ghost use Rattle.term_core.specs.Tables.{AreIn};
ghost use Rattle.rule_bool.specs.Schemes.{JudgesRule};

use crate::schemes::by_scheme;
use spec_proofs::Rule;
use term_core::{Clause, RuleFails, TermId, TermTable};

/// Judges a step of the rule `and_pos`, which takes an argument out of a conjunction.
///
/// No premise; the conclusion is `(cl (not (and a1 .. an)) ak)`, for any of the arguments. It is sound, since where a conjunction
/// is true, each of its arguments is.
///
/// Time goes in proportion to the arguments.
///
/// Source: Alethe specification, rule `and_pos`; that the place of the argument is not asked for is own.
pub fn rule_and_pos(
    table: &TermTable,
    premises: &[Clause],
    clause: &[TermId],
) -> Result<(), RuleFails>
    requires premises { All (AreIn table.now) premises.now }
    requires clause { AreIn table.now clause.now }
    ensures { JudgesRule table.now rules.AndPos premises.now clause.now result }
{
    by_scheme(table, Rule::AndPos, premises, clause)
}

/// JudgesRule a step of the rule `and_neg`, which makes a conjunction of its arguments.
///
/// No premise; the conclusion is `(cl (and a1 .. an) (not a1) .. (not an))`, the arguments in their order. It is sound, since a
/// conjunction is true, or one of its arguments is not.
///
/// Time goes in proportion to the arguments.
///
/// Source: Alethe specification, rule `and_neg`.
pub fn rule_and_neg(
    table: &TermTable,
    premises: &[Clause],
    clause: &[TermId],
) -> Result<(), RuleFails>
    requires premises { All (AreIn table.now) premises.now }
    requires clause { AreIn table.now clause.now }
    ensures { JudgesRule table.now rules.AndNeg premises.now clause.now result }
{
    by_scheme(table, Rule::AndNeg, premises, clause)
}

/// JudgesRule a step of the rule `and`, which takes an argument out of a conjunction.
///
/// One premise, whose one term is `(and a1 .. an)`; the conclusion is `(cl ak)`, for any of the arguments. It is sound, since
/// where a conjunction is true, each of its arguments is.
///
/// Time goes in proportion to the arguments.
///
/// Source: Alethe specification, rule `and`; that the place of the argument is not asked for is own, and so is that the premise
/// may be under two negations.
pub fn rule_and(table: &TermTable, premises: &[Clause], clause: &[TermId]) -> Result<(), RuleFails>
    requires premises { All (AreIn table.now) premises.now }
    requires clause { AreIn table.now clause.now }
    ensures { JudgesRule table.now rules.And premises.now clause.now result }
{
    by_scheme(table, Rule::And, premises, clause)
}

/// JudgesRule a step of the rule `not_and`, which opens the negation of a conjunction.
///
/// One premise, whose one term is `(not (and a1 .. an))`; the conclusion is `(cl (not a1) .. (not an))`, the arguments in their
/// order. It is sound, since where a conjunction is not true, one of its arguments is not.
///
/// Time goes in proportion to the arguments.
///
/// Source: Alethe specification, rule `not_and`.
pub fn rule_not_and(
    table: &TermTable,
    premises: &[Clause],
    clause: &[TermId],
) -> Result<(), RuleFails>
    requires premises { All (AreIn table.now) premises.now }
    requires clause { AreIn table.now clause.now }
    ensures { JudgesRule table.now rules.NotAnd premises.now clause.now result }
{
    by_scheme(table, Rule::NotAnd, premises, clause)
}

/// JudgesRule a step of the rule `or_pos`, which opens a disjunction.
///
/// No premise; the conclusion is `(cl (not (or a1 .. an)) a1 .. an)`, the arguments in their order. It is sound, since where a
/// disjunction is true, one of its arguments is.
///
/// Time goes in proportion to the arguments.
///
/// Source: Alethe specification, rule `or_pos`.
pub fn rule_or_pos(
    table: &TermTable,
    premises: &[Clause],
    clause: &[TermId],
) -> Result<(), RuleFails>
    requires premises { All (AreIn table.now) premises.now }
    requires clause { AreIn table.now clause.now }
    ensures { JudgesRule table.now rules.OrPos premises.now clause.now result }
{
    by_scheme(table, Rule::OrPos, premises, clause)
}

/// JudgesRule a step of the rule `or_neg`, which makes a disjunction of one of its arguments.
///
/// No premise; the conclusion is `(cl (or a1 .. an) (not ak))`, for any of the arguments. It is sound, since where one of its
/// arguments is true, a disjunction is.
///
/// Time goes in proportion to the arguments.
///
/// Source: Alethe specification, rule `or_neg`; that the place of the argument is not asked for is own.
pub fn rule_or_neg(
    table: &TermTable,
    premises: &[Clause],
    clause: &[TermId],
) -> Result<(), RuleFails>
    requires premises { All (AreIn table.now) premises.now }
    requires clause { AreIn table.now clause.now }
    ensures { JudgesRule table.now rules.OrNeg premises.now clause.now result }
{
    by_scheme(table, Rule::OrNeg, premises, clause)
}

/// JudgesRule a step of the rule `not_or`, which takes an argument out of the negation of a disjunction.
///
/// One premise, whose one term is `(not (or a1 .. an))`; the conclusion is `(cl (not ak))`, for any of the arguments. It is
/// sound, since where a disjunction is not true, none of its arguments is.
///
/// Time goes in proportion to the arguments.
///
/// Source: Alethe specification, rule `not_or`; that the place of the argument is not asked for is own.
pub fn rule_not_or(
    table: &TermTable,
    premises: &[Clause],
    clause: &[TermId],
) -> Result<(), RuleFails>
    requires premises { All (AreIn table.now) premises.now }
    requires clause { AreIn table.now clause.now }
    ensures { JudgesRule table.now rules.NotOr premises.now clause.now result }
{
    by_scheme(table, Rule::NotOr, premises, clause)
}
