//! Rules on choices.

ghost use Rattle.std.specs.Prelude.{All};
ghost use Rattle.spec_proofs.specs.declared.Rule.TheVariants as rules;
ghost use Rattle.term_core.specs.Tables.{AreIn};
ghost use Rattle.rule_bool.specs.Schemes.{JudgesRule};

use crate::schemes::by_scheme;
use spec_proofs::Rule;
use term_core::{Clause, RuleFails, TermId, TermTable};

/// Judges a step of the rule `ite_pos1`, which opens a choice where its condition is not true.
///
/// No premise; the conclusion is `(cl (not (ite c a b)) c b)`, for `a` and `b` of sort Bool. It is sound, since a choice has the
/// value of its third argument where its first is not true.
///
/// Source: Alethe specification, rule `ite_pos1`.
pub fn rule_ite_pos1(
    table: &TermTable,
    premises: &[Clause],
    clause: &[TermId],
) -> Result<(), RuleFails>
    requires premises { All (AreIn table.now) premises.now }
    requires clause { AreIn table.now clause.now }
    ensures { JudgesRule table.now rules.ItePos1 premises.now clause.now result }
{
    by_scheme(table, Rule::ItePos1, premises, clause)
}

/// JudgesRule a step of the rule `ite_pos2`, which opens a choice where its condition is true.
///
/// No premise; the conclusion is `(cl (not (ite c a b)) (not c) a)`, for `a` and `b` of sort Bool. It is sound, since a choice
/// has the value of its second argument where its first is true.
///
/// Source: Alethe specification, rule `ite_pos2`.
pub fn rule_ite_pos2(
    table: &TermTable,
    premises: &[Clause],
    clause: &[TermId],
) -> Result<(), RuleFails>
    requires premises { All (AreIn table.now) premises.now }
    requires clause { AreIn table.now clause.now }
    ensures { JudgesRule table.now rules.ItePos2 premises.now clause.now result }
{
    by_scheme(table, Rule::ItePos2, premises, clause)
}

/// JudgesRule a step of the rule `ite_neg1`, which makes a choice where its condition is not true.
///
/// No premise; the conclusion is `(cl (ite c a b) c (not b))`, for `a` and `b` of sort Bool. It is sound, since a choice has the
/// value of its third argument where its first is not true.
///
/// Source: Alethe specification, rule `ite_neg1`.
pub fn rule_ite_neg1(
    table: &TermTable,
    premises: &[Clause],
    clause: &[TermId],
) -> Result<(), RuleFails>
    requires premises { All (AreIn table.now) premises.now }
    requires clause { AreIn table.now clause.now }
    ensures { JudgesRule table.now rules.IteNeg1 premises.now clause.now result }
{
    by_scheme(table, Rule::IteNeg1, premises, clause)
}

/// JudgesRule a step of the rule `ite_neg2`, which makes a choice where its condition is true.
///
/// No premise; the conclusion is `(cl (ite c a b) (not c) (not a))`, for `a` and `b` of sort Bool. It is sound, since a choice
/// has the value of its second argument where its first is true.
///
/// Source: Alethe specification, rule `ite_neg2`.
pub fn rule_ite_neg2(
    table: &TermTable,
    premises: &[Clause],
    clause: &[TermId],
) -> Result<(), RuleFails>
    requires premises { All (AreIn table.now) premises.now }
    requires clause { AreIn table.now clause.now }
    ensures { JudgesRule table.now rules.IteNeg2 premises.now clause.now result }
{
    by_scheme(table, Rule::IteNeg2, premises, clause)
}

/// JudgesRule a step of the rule `ite1`, which opens a choice where its condition is not true.
///
/// One premise, whose one term is `(ite c a b)`, for `a` and `b` of sort Bool; the conclusion is `(cl c b)`. It is sound, since a
/// choice has the value of its third argument where its first is not true.
///
/// Source: Alethe specification, rule `ite1`; that the premise may be under two negations is own.
pub fn rule_ite1(table: &TermTable, premises: &[Clause], clause: &[TermId]) -> Result<(), RuleFails>
    requires premises { All (AreIn table.now) premises.now }
    requires clause { AreIn table.now clause.now }
    ensures { JudgesRule table.now rules.Ite1 premises.now clause.now result }
{
    by_scheme(table, Rule::Ite1, premises, clause)
}

/// JudgesRule a step of the rule `ite2`, which opens a choice where its condition is true.
///
/// One premise, whose one term is `(ite c a b)`, for `a` and `b` of sort Bool; the conclusion is `(cl (not c) a)`. It is sound,
/// since a choice has the value of its second argument where its first is true.
///
/// Source: Alethe specification, rule `ite2`; that the premise may be under two negations is own.
pub fn rule_ite2(table: &TermTable, premises: &[Clause], clause: &[TermId]) -> Result<(), RuleFails>
    requires premises { All (AreIn table.now) premises.now }
    requires clause { AreIn table.now clause.now }
    ensures { JudgesRule table.now rules.Ite2 premises.now clause.now result }
{
    by_scheme(table, Rule::Ite2, premises, clause)
}

/// JudgesRule a step of the rule `not_ite1`, which opens the negation of a choice where its condition is not true.
///
/// One premise, whose one term is `(not (ite c a b))`, for `a` and `b` of sort Bool; the conclusion is `(cl c (not b))`. It is
/// sound, since a choice has the value of its third argument where its first is not true.
///
/// Source: Alethe specification, rule `not_ite1`.
pub fn rule_not_ite1(
    table: &TermTable,
    premises: &[Clause],
    clause: &[TermId],
) -> Result<(), RuleFails>
    requires premises { All (AreIn table.now) premises.now }
    requires clause { AreIn table.now clause.now }
    ensures { JudgesRule table.now rules.NotIte1 premises.now clause.now result }
{
    by_scheme(table, Rule::NotIte1, premises, clause)
}

/// JudgesRule a step of the rule `not_ite2`, which opens the negation of a choice where its condition is true.
///
/// One premise, whose one term is `(not (ite c a b))`, for `a` and `b` of sort Bool; the conclusion is `(cl (not c) (not a))`. It
/// is sound, since a choice has the value of its second argument where its first is true.
///
/// Source: Alethe specification, rule `not_ite2`.
pub fn rule_not_ite2(
    table: &TermTable,
    premises: &[Clause],
    clause: &[TermId],
) -> Result<(), RuleFails>
    requires premises { All (AreIn table.now) premises.now }
    requires clause { AreIn table.now clause.now }
    ensures { JudgesRule table.now rules.NotIte2 premises.now clause.now result }
{
    by_scheme(table, Rule::NotIte2, premises, clause)
}
