//! Rules on implications.

ghost use Rattle.std.specs.Prelude.{All};
ghost use Rattle.spec_proofs.specs.declared.Rule.TheVariants as rules;
ghost use Rattle.term_core.specs.Tables.{AreIn};
ghost use Rattle.rule_bool.specs.Schemes.{JudgesRule};

use crate::schemes::by_scheme;
use spec_proofs::Rule;
use term_core::{Clause, RuleFails, TermId, TermTable};

/// Judges a step of the rule `implies_pos`, which opens an implication.
///
/// No premise; the conclusion is `(cl (not (=> a b)) (not a) b)`. It is sound, since where an implication is true, its first
/// argument is not, or its second is.
///
/// Source: Alethe specification, rule `implies_pos`.
pub fn rule_implies_pos(
    table: &TermTable,
    premises: &[Clause],
    clause: &[TermId],
) -> Result<(), RuleFails>
    requires premises { All (AreIn table.now) premises.now }
    requires clause { AreIn table.now clause.now }
    ensures { JudgesRule table.now rules.ImpliesPos premises.now clause.now result }
{
    by_scheme(table, Rule::ImpliesPos, premises, clause)
}

/// JudgesRule a step of the rule `implies_neg1`, by which an implication is true, or its first argument.
///
/// No premise; the conclusion is `(cl (=> a b) a)`. It is sound, since where its first argument is not true, an implication is.
///
/// Source: Alethe specification, rule `implies_neg1`.
pub fn rule_implies_neg1(
    table: &TermTable,
    premises: &[Clause],
    clause: &[TermId],
) -> Result<(), RuleFails>
    requires premises { All (AreIn table.now) premises.now }
    requires clause { AreIn table.now clause.now }
    ensures { JudgesRule table.now rules.ImpliesNeg1 premises.now clause.now result }
{
    by_scheme(table, Rule::ImpliesNeg1, premises, clause)
}

/// JudgesRule a step of the rule `implies_neg2`, by which an implication is true, or its second argument is not.
///
/// No premise; the conclusion is `(cl (=> a b) (not b))`. It is sound, since where its second argument is true, an implication
/// is.
///
/// Source: Alethe specification, rule `implies_neg2`.
pub fn rule_implies_neg2(
    table: &TermTable,
    premises: &[Clause],
    clause: &[TermId],
) -> Result<(), RuleFails>
    requires premises { All (AreIn table.now) premises.now }
    requires clause { AreIn table.now clause.now }
    ensures { JudgesRule table.now rules.ImpliesNeg2 premises.now clause.now result }
{
    by_scheme(table, Rule::ImpliesNeg2, premises, clause)
}

/// JudgesRule a step of the rule `implies`, which opens an implication.
///
/// One premise, whose one term is `(=> a b)`; the conclusion is `(cl (not a) b)`. It is sound, since where an implication is
/// true, its first argument is not, or its second is.
///
/// Source: Alethe specification, rule `implies`; that the premise may be under two negations is own.
pub fn rule_implies(
    table: &TermTable,
    premises: &[Clause],
    clause: &[TermId],
) -> Result<(), RuleFails>
    requires premises { All (AreIn table.now) premises.now }
    requires clause { AreIn table.now clause.now }
    ensures { JudgesRule table.now rules.Implies premises.now clause.now result }
{
    by_scheme(table, Rule::Implies, premises, clause)
}

/// JudgesRule a step of the rule `not_implies1`, which takes the first argument out of the negation of an implication.
///
/// One premise, whose one term is `(not (=> a b))`; the conclusion is `(cl a)`. It is sound, since where an implication is not
/// true, its first argument is.
///
/// Source: Alethe specification, rule `not_implies1`.
pub fn rule_not_implies1(
    table: &TermTable,
    premises: &[Clause],
    clause: &[TermId],
) -> Result<(), RuleFails>
    requires premises { All (AreIn table.now) premises.now }
    requires clause { AreIn table.now clause.now }
    ensures { JudgesRule table.now rules.NotImplies1 premises.now clause.now result }
{
    by_scheme(table, Rule::NotImplies1, premises, clause)
}

/// JudgesRule a step of the rule `not_implies2`, which takes the second argument out of the negation of an implication.
///
/// One premise, whose one term is `(not (=> a b))`; the conclusion is `(cl (not b))`. It is sound, since where an implication is
/// not true, its second argument is not.
///
/// Source: Alethe specification, rule `not_implies2`.
pub fn rule_not_implies2(
    table: &TermTable,
    premises: &[Clause],
    clause: &[TermId],
) -> Result<(), RuleFails>
    requires premises { All (AreIn table.now) premises.now }
    requires clause { AreIn table.now clause.now }
    ensures { JudgesRule table.now rules.NotImplies2 premises.now clause.now result }
{
    by_scheme(table, Rule::NotImplies2, premises, clause)
}
