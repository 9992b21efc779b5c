//! Rules whose reasons are premises of one equality each.

ghost use Rattle.std.specs.Prelude.{All};
ghost use Rattle.spec_equality.specs.declared.EqualityRule.TheVariants as rules;
ghost use Rattle.term_core.specs.Tables.{AreIn};
ghost use Rattle.rule_eq.specs.Judging.{JudgesEquality};

use crate::joined::are_congruent;
use crate::reasons::{Reasons, lead};
use crate::sides::{alone, joins, premise_alone, sides};
use term_core::{Clause, RuleFails, TermId, TermTable};

/// Judges a step of the rule `symm`, which turns an equality round.
///
/// One premise `(cl (= t u))`; the conclusion is `(cl (= u t))`, or the premise's clause. It is sound, since a value that is the same
/// as another is so in either direction.
///
/// Source: Alethe specification, rule `symm`; that the conclusion may be the premise is own.
pub fn rule_symm(table: &TermTable, premises: &[Clause], clause: &[TermId]) -> Result<(), RuleFails>
    requires premises { All (AreIn table.now) premises.now }
    requires clause { AreIn table.now clause.now }
    ensures { JudgesEquality table.now rules.Symm premises.now clause.now result }
{
    let Some(stated) = premise_alone(premises) else {
        return Err(RuleFails);
    };
    let Some((one, other)) = sides(table, stated) else {
        return Err(RuleFails);
    };
    let Some(id) = alone(table, clause) else {
        return Err(RuleFails);
    };
    if joins(table, id, one, other) {
        return Ok(());
    }
    Err(RuleFails)
}

/// Judges a step of the rule `trans`, by which terms are equal where a chain of equalities leads from one to the other.
///
/// Premises `(cl (= t1 t2))` .. `(cl (= tm tn))`, at least one; the conclusion is `(cl (= t1 tn))`. They are in the order of the
/// chain, each in either direction. It is sound, since the terms of the chain have one value.
///
/// Time goes in proportion to the premises.
///
/// Source: Alethe specification, rule `trans`; that directions are free is own.
pub fn rule_trans(
    table: &TermTable,
    premises: &[Clause],
    clause: &[TermId],
) -> Result<(), RuleFails>
    requires premises { All (AreIn table.now) premises.now }
    requires clause { AreIn table.now clause.now }
    ensures { JudgesEquality table.now rules.Trans premises.now clause.now result }
{
    let [id] = clause else {
        return Err(RuleFails);
    };
    let Some((from, to)) = sides(table, *id) else {
        return Err(RuleFails);
    };
    if premises.is_empty() {
        return Err(RuleFails);
    }
    if lead(table, Reasons::Premises(premises), from, to) {
        return Ok(());
    }
    Err(RuleFails)
}

/// Judges a step of the rule `cong`, by which a head's terms are equal where its arguments are.
///
/// The conclusion is `(cl (= (f t1 .. tn) (f u1 .. un)))`, of one head and as many arguments, at least one. Each argument is the
/// same as the other of its place, or a premise is their equality alone, in either direction; premises are in any order, and there
/// may be others. It is sound, since a head gives one value at arguments of the same values.
///
/// Time goes in proportion to arguments and premises where the premises are in the order of the arguments, with gaps or repeats,
/// and is their product at worst.
///
/// Source: Alethe specification, rule `cong`; that order and directions are free, and so are further premises, is own.
pub fn rule_cong(table: &TermTable, premises: &[Clause], clause: &[TermId]) -> Result<(), RuleFails>
    requires premises { All (AreIn table.now) premises.now }
    requires clause { AreIn table.now clause.now }
    ensures { JudgesEquality table.now rules.Cong premises.now clause.now result }
{
    let [id] = clause else {
        return Err(RuleFails);
    };
    let Some((one, other)) = sides(table, *id) else {
        return Err(RuleFails);
    };
    if are_congruent(table, Reasons::Premises(premises), one, other) {
        return Ok(());
    }
    Err(RuleFails)
}
