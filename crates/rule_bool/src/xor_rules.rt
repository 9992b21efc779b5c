//! Rules on exclusive disjunctions.

ghost use Rattle.std.specs.Prelude.{All};
ghost use Rattle.spec_proofs.specs.declared.Rule.TheVariants as rules;
ghost use Rattle.term_core.specs.Tables.{AreIn};
ghost use Rattle.rule_bool.specs.Schemes.{JudgesRule};

use crate::schemes::by_scheme;
use spec_proofs::Rule;
use term_core::{Clause, RuleFails, TermId, TermTable};

/// Judges a step of the rule `xor_pos1`, by which an argument of an exclusive disjunction is true.
///
/// No premise; the conclusion is `(cl (not (xor a b)) a b)`. It is sound, since where an exclusive disjunction is true, exactly
/// one of its arguments is.
///
/// Source: Alethe specification, rule `xor_pos1`.
pub fn rule_xor_pos1(
    table: &TermTable,
    premises: &[Clause],
    clause: &[TermId],
) -> Result<(), RuleFails>
    requires premises { All (AreIn table.now) premises.now }
    requires clause { AreIn table.now clause.now }
    ensures { JudgesRule table.now rules.XorPos1 premises.now clause.now result }
{
    by_scheme(table, Rule::XorPos1, premises, clause)
}

/// JudgesRule a step of the rule `xor_pos2`, by which an argument of an exclusive disjunction is not true.
///
/// No premise; the conclusion is `(cl (not (xor a b)) (not a) (not b))`. It is sound, since where an exclusive disjunction is
/// true, exactly one of its arguments is.
///
/// Source: Alethe specification, rule `xor_pos2`.
pub fn rule_xor_pos2(
    table: &TermTable,
    premises: &[Clause],
    clause: &[TermId],
) -> Result<(), RuleFails>
    requires premises { All (AreIn table.now) premises.now }
    requires clause { AreIn table.now clause.now }
    ensures { JudgesRule table.now rules.XorPos2 premises.now clause.now result }
{
    by_scheme(table, Rule::XorPos2, premises, clause)
}

/// JudgesRule a step of the rule `xor_neg1`, which makes an exclusive disjunction of its second argument alone.
///
/// No premise; the conclusion is `(cl (xor a b) a (not b))`. It is sound, since where its second argument alone is true, an
/// exclusive disjunction is.
///
/// Source: Alethe specification, rule `xor_neg1`.
pub fn rule_xor_neg1(
    table: &TermTable,
    premises: &[Clause],
    clause: &[TermId],
) -> Result<(), RuleFails>
    requires premises { All (AreIn table.now) premises.now }
    requires clause { AreIn table.now clause.now }
    ensures { JudgesRule table.now rules.XorNeg1 premises.now clause.now result }
{
    by_scheme(table, Rule::XorNeg1, premises, clause)
}

/// JudgesRule a step of the rule `xor_neg2`, which makes an exclusive disjunction of its first argument alone.
///
/// No premise; the conclusion is `(cl (xor a b) (not a) b)`. It is sound, since where its first argument alone is true, an
/// exclusive disjunction is.
///
/// Source: Alethe specification, rule `xor_neg2`.
pub fn rule_xor_neg2(
    table: &TermTable,
    premises: &[Clause],
    clause: &[TermId],
) -> Result<(), RuleFails>
    requires premises { All (AreIn table.now) premises.now }
    requires clause { AreIn table.now clause.now }
    ensures { JudgesRule table.now rules.XorNeg2 premises.now clause.now result }
{
    by_scheme(table, Rule::XorNeg2, premises, clause)
}

/// JudgesRule a step of the rule `xor1`, by which an argument of an exclusive disjunction is true.
///
/// One premise, whose one term is `(xor a b)`; the conclusion is `(cl a b)`. It is sound, since where an exclusive disjunction is
/// true, exactly one of its arguments is.
///
/// Source: Alethe specification, rule `xor1`; that the premise may be under two negations is own.
pub fn rule_xor1(table: &TermTable, premises: &[Clause], clause: &[TermId]) -> Result<(), RuleFails>
    requires premises { All (AreIn table.now) premises.now }
    requires clause { AreIn table.now clause.now }
    ensures { JudgesRule table.now rules.Xor1 premises.now clause.now result }
{
    by_scheme(table, Rule::Xor1, premises, clause)
}

/// JudgesRule a step of the rule `xor2`, by which an argument of an exclusive disjunction is not true.
///
/// One premise, whose one term is `(xor a b)`; the conclusion is `(cl (not a) (not b))`. It is sound, since where an exclusive
/// disjunction is true, exactly one of its arguments is.
///
/// Source: Alethe specification, rule `xor2`; that the premise may be under two negations is own.
pub fn rule_xor2(table: &TermTable, premises: &[Clause], clause: &[TermId]) -> Result<(), RuleFails>
    requires premises { All (AreIn table.now) premises.now }
    requires clause { AreIn table.now clause.now }
    ensures { JudgesRule table.now rules.Xor2 premises.now clause.now result }
{
    by_scheme(table, Rule::Xor2, premises, clause)
}

/// JudgesRule a step of the rule `not_xor1`, which opens the negation of an exclusive disjunction from right to left.
///
/// One premise, whose one term is `(not (xor a b))`; the conclusion is `(cl a (not b))`. It is sound, since where an exclusive
/// disjunction is not true, both of its arguments are true or neither is.
///
/// Source: Alethe specification, rule `not_xor1`.
pub fn rule_not_xor1(
    table: &TermTable,
    premises: &[Clause],
    clause: &[TermId],
) -> Result<(), RuleFails>
    requires premises { All (AreIn table.now) premises.now }
    requires clause { AreIn table.now clause.now }
    ensures { JudgesRule table.now rules.NotXor1 premises.now clause.now result }
{
    by_scheme(table, Rule::NotXor1, premises, clause)
}

/// JudgesRule a step of the rule `not_xor2`, which opens the negation of an exclusive disjunction from left to right.
///
/// One premise, whose one term is `(not (xor a b))`; the conclusion is `(cl (not a) b)`. It is sound, since where an exclusive
/// disjunction is not true, both of its arguments are true or neither is.
///
/// Source: Alethe specification, rule `not_xor2`.
pub fn rule_not_xor2(
    table: &TermTable,
    premises: &[Clause],
    clause: &[TermId],
) -> Result<(), RuleFails>
    requires premises { All (AreIn table.now) premises.now }
    requires clause { AreIn table.now clause.now }
    ensures { JudgesRule table.now rules.NotXor2 premises.now clause.now result }
{
    by_scheme(table, Rule::NotXor2, premises, clause)
}
