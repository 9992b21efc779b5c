//! Rules on equalities of truth values.

ghost use Rattle.std.specs.Prelude.{All};
ghost use Rattle.spec_proofs.specs.declared.Rule.TheVariants as rules;
ghost use Rattle.term_core.specs.Tables.{AreIn};
ghost use Rattle.rule_bool.specs.Schemes.{JudgesRule};

use crate::schemes::by_scheme;
use spec_proofs::Rule;
use term_core::{Clause, RuleFails, TermId, TermTable};

/// Judges a step of the rule `equiv_pos1`, which opens an equality from right to left.
///
/// No premise; the conclusion is `(cl (not (= a b)) a (not b))`, for `a` and `b` of sort Bool. It is sound, since where terms of
/// sort Bool are equal, both are true or neither is.
///
/// Source: Alethe specification, rule `equiv_pos1`.
pub fn rule_equiv_pos1(
    table: &TermTable,
    premises: &[Clause],
    clause: &[TermId],
) -> Result<(), RuleFails>
    requires premises { All (AreIn table.now) premises.now }
    requires clause { AreIn table.now clause.now }
    ensures { JudgesRule table.now rules.EquivPos1 premises.now clause.now result }
{
    by_scheme(table, Rule::EquivPos1, premises, clause)
}

/// JudgesRule a step of the rule `equiv_pos2`, which opens an equality from left to right.
///
/// No premise; the conclusion is `(cl (not (= a b)) (not a) b)`, for `a` and `b` of sort Bool. It is sound, since where terms of
/// sort Bool are equal, both are true or neither is.
///
/// Source: Alethe specification, rule `equiv_pos2`.
pub fn rule_equiv_pos2(
    table: &TermTable,
    premises: &[Clause],
    clause: &[TermId],
) -> Result<(), RuleFails>
    requires premises { All (AreIn table.now) premises.now }
    requires clause { AreIn table.now clause.now }
    ensures { JudgesRule table.now rules.EquivPos2 premises.now clause.now result }
{
    by_scheme(table, Rule::EquivPos2, premises, clause)
}

/// JudgesRule a step of the rule `equiv_neg1`, which makes an equality of two terms that are true.
///
/// No premise; the conclusion is `(cl (= a b) (not a) (not b))`, for `a` and `b` of sort Bool. It is sound, since two terms of
/// sort Bool that are true are equal.
///
/// Source: Alethe specification, rule `equiv_neg1`.
pub fn rule_equiv_neg1(
    table: &TermTable,
    premises: &[Clause],
    clause: &[TermId],
) -> Result<(), RuleFails>
    requires premises { All (AreIn table.now) premises.now }
    requires clause { AreIn table.now clause.now }
    ensures { JudgesRule table.now rules.EquivNeg1 premises.now clause.now result }
{
    by_scheme(table, Rule::EquivNeg1, premises, clause)
}

/// JudgesRule a step of the rule `equiv_neg2`, which makes an equality of two terms that are not true.
///
/// No premise; the conclusion is `(cl (= a b) a b)`, for `a` and `b` of sort Bool. It is sound, since two terms of sort Bool
/// neither of which is true are equal.
///
/// Source: Alethe specification, rule `equiv_neg2`.
pub fn rule_equiv_neg2(
    table: &TermTable,
    premises: &[Clause],
    clause: &[TermId],
) -> Result<(), RuleFails>
    requires premises { All (AreIn table.now) premises.now }
    requires clause { AreIn table.now clause.now }
    ensures { JudgesRule table.now rules.EquivNeg2 premises.now clause.now result }
{
    by_scheme(table, Rule::EquivNeg2, premises, clause)
}

/// JudgesRule a step of the rule `equiv1`, which opens an equality from left to right.
///
/// One premise, whose one term is `(= a b)`, for `a` and `b` of sort Bool; the conclusion is `(cl (not a) b)`. It is sound, since
/// where terms of sort Bool are equal, both are true or neither is.
///
/// Source: Alethe specification, rule `equiv1`; that the premise may be under two negations is own.
pub fn rule_equiv1(
    table: &TermTable,
    premises: &[Clause],
    clause: &[TermId],
) -> Result<(), RuleFails>
    requires premises { All (AreIn table.now) premises.now }
    requires clause { AreIn table.now clause.now }
    ensures { JudgesRule table.now rules.Equiv1 premises.now clause.now result }
{
    by_scheme(table, Rule::Equiv1, premises, clause)
}

/// JudgesRule a step of the rule `equiv2`, which opens an equality from right to left.
///
/// One premise, whose one term is `(= a b)`, for `a` and `b` of sort Bool; the conclusion is `(cl a (not b))`. It is sound, since
/// where terms of sort Bool are equal, both are true or neither is.
///
/// Source: Alethe specification, rule `equiv2`; that the premise may be under two negations is own.
pub fn rule_equiv2(
    table: &TermTable,
    premises: &[Clause],
    clause: &[TermId],
) -> Result<(), RuleFails>
    requires premises { All (AreIn table.now) premises.now }
    requires clause { AreIn table.now clause.now }
    ensures { JudgesRule table.now rules.Equiv2 premises.now clause.now result }
{
    by_scheme(table, Rule::Equiv2, premises, clause)
}

/// JudgesRule a step of the rule `not_equiv1`, by which one of two terms that are not equal is true.
///
/// One premise, whose one term is `(not (= a b))`, for `a` and `b` of sort Bool; the conclusion is `(cl a b)`. It is sound, since
/// where terms of sort Bool are not equal, exactly one of them is true.
///
/// Source: Alethe specification, rule `not_equiv1`.
pub fn rule_not_equiv1(
    table: &TermTable,
    premises: &[Clause],
    clause: &[TermId],
) -> Result<(), RuleFails>
    requires premises { All (AreIn table.now) premises.now }
    requires clause { AreIn table.now clause.now }
    ensures { JudgesRule table.now rules.NotEquiv1 premises.now clause.now result }
{
    by_scheme(table, Rule::NotEquiv1, premises, clause)
}

/// JudgesRule a step of the rule `not_equiv2`, by which one of two terms that are not equal is not true.
///
/// One premise, whose one term is `(not (= a b))`, for `a` and `b` of sort Bool; the conclusion is `(cl (not a) (not b))`. It is
/// sound, since where terms of sort Bool are not equal, exactly one of them is true.
///
/// Source: Alethe specification, rule `not_equiv2`.
pub fn rule_not_equiv2(
    table: &TermTable,
    premises: &[Clause],
    clause: &[TermId],
) -> Result<(), RuleFails>
    requires premises { All (AreIn table.now) premises.now }
    requires clause { AreIn table.now clause.now }
    ensures { JudgesRule table.now rules.NotEquiv2 premises.now clause.now result }
{
    by_scheme(table, Rule::NotEquiv2, premises, clause)
}
