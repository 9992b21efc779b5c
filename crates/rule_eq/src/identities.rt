//! Rules by which a term is equal to itself.

ghost use Rattle.std.specs.Prelude.{map, All};
ghost use Rattle.spec_equality.specs.declared.EqualityRule.TheVariants as rules;
ghost use Rattle.spec_equality.specs.EqualityRules.{IsReflexive};
ghost use Rattle.term_core.specs.Tables.{AreIn, clause_at};
ghost use Rattle.rule_eq.specs.Judging.{IsExactly, JudgesEquality};

use crate::sides::{same_number, sides};
use term_core::{Clause, RuleFails, TermId, TermTable};

/// Judges whether there is no premise, and the clause is a term's equality with itself.
fn reflexive(table: &TermTable, premises: &[Clause], clause: &[TermId]) -> Result<(), RuleFails>
    requires clause { AreIn table.now clause.now }
    ensures { IsExactly (IsReflexive (map (clause_at table.now) premises.now) (clause_at table.now clause.now)) result }
{
    table.ids_are_unique();
    if !premises.is_empty() {
        return Err(RuleFails);
    }
    let [id] = clause else {
        return Err(RuleFails);
    };
    let Some((one, other)) = sides(table, *id) else {
        return Err(RuleFails);
    };
    if same_number(one, other) {
        return Ok(());
    }
    Err(RuleFails)
}

/// Judges a step of the rule `eq_reflexive`, by which a term is equal to itself.
///
/// No premise; the conclusion is `(cl (= t t))`. It is sound, since each value is the same as itself.
///
/// Source: Alethe specification, rule `eq_reflexive`.
pub fn rule_eq_reflexive(
    table: &TermTable,
    premises: &[Clause],
    clause: &[TermId],
) -> Result<(), RuleFails>
    requires premises { All (AreIn table.now) premises.now }
    requires clause { AreIn table.now clause.now }
    ensures { JudgesEquality table.now rules.EqReflexive premises.now clause.now result }
{
    reflexive(table, premises, clause)
}

/// JudgesEquality a step of the rule `refl`, by which a term is equal to itself.
///
/// No premise; the conclusion is `(cl (= t t))`. It is sound, since each value is the same as itself.
///
/// Source: Alethe specification, rule `refl`, outside of anchors.
pub fn rule_refl(table: &TermTable, premises: &[Clause], clause: &[TermId]) -> Result<(), RuleFails>
    requires premises { All (AreIn table.now) premises.now }
    requires clause { AreIn table.now clause.now }
    ensures { JudgesEquality table.now rules.Refl premises.now clause.now result }
{
    reflexive(table, premises, clause)
}

/// JudgesEquality a step of the rule `distinct_elim`, by which `distinct` is equal to what it means.
///
/// No premise; the conclusion is `(cl (= t t))`: a term of `distinct` is read as the negated equalities that it means, so that both
/// sides are one term. It is sound, since each value is the same as itself.
///
/// Source: Alethe specification, rule `distinct_elim`; that the sides are compared as they are read is own.
pub fn rule_distinct_elim(
    table: &TermTable,
    premises: &[Clause],
    clause: &[TermId],
) -> Result<(), RuleFails>
    requires premises { All (AreIn table.now) premises.now }
    requires clause { AreIn table.now clause.now }
    ensures { JudgesEquality table.now rules.DistinctElim premises.now clause.now result }
{
    reflexive(table, premises, clause)
}
