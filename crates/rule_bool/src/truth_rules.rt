//! Rules on the truth values, and on three negations.

ghost use Rattle.std.specs.Prelude.{All};
ghost use Rattle.spec_proofs.specs.declared.Rule.TheVariants as rules;
ghost use Rattle.term_core.specs.Tables.{AreIn};
ghost use Rattle.rule_bool.specs.Schemes.{JudgesRule};

use crate::schemes::by_scheme;
use spec_proofs::Rule;
use term_core::{Clause, RuleFails, TermId, TermTable};

/// Judges a step of the rule `true`, which states that true is true.
///
/// No premise; the conclusion is `(cl true)`. It is sound, since `true` is true under every interpretation.
///
/// Source: Alethe specification, rule `true`.
pub fn rule_true(table: &TermTable, premises: &[Clause], clause: &[TermId]) -> Result<(), RuleFails>
    requires premises { All (AreIn table.now) premises.now }
    requires clause { AreIn table.now clause.now }
    ensures { JudgesRule table.now rules.True premises.now clause.now result }
{
    by_scheme(table, Rule::True, premises, clause)
}

/// JudgesRule a step of the rule `false`, which states that false is not true.
///
/// No premise; the conclusion is `(cl (not false))`. It is sound, since `false` is true under no interpretation.
///
/// Source: Alethe specification, rule `false`.
pub fn rule_false(
    table: &TermTable,
    premises: &[Clause],
    clause: &[TermId],
) -> Result<(), RuleFails>
    requires premises { All (AreIn table.now) premises.now }
    requires clause { AreIn table.now clause.now }
    ensures { JudgesRule table.now rules.False premises.now clause.now result }
{
    by_scheme(table, Rule::False, premises, clause)
}

/// JudgesRule a step of the rule `not_not`, which takes two of three negations away.
///
/// No premise; the conclusion is `(cl (not (not (not a))) a)`. It is sound, since where `(not (not a))` is true, so is `a`.
///
/// Source: Alethe specification, rule `not_not`.
pub fn rule_not_not(
    table: &TermTable,
    premises: &[Clause],
    clause: &[TermId],
) -> Result<(), RuleFails>
    requires premises { All (AreIn table.now) premises.now }
    requires clause { AreIn table.now clause.now }
    ensures { JudgesRule table.now rules.NotNot premises.now clause.now result }
{
    by_scheme(table, Rule::NotNot, premises, clause)
}
