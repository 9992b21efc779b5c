//! Rules on one premise.

ghost use Rattle.std.specs.Prelude.{map, All, MatchOption};
ghost use Rattle.spec_proofs.specs.declared.Rule.TheVariants as rules;
ghost use Rattle.spec_rules.specs.Rules.{IsWeakening};
ghost use Rattle.term_core.specs.Tables.{AreIn, clause_at};
ghost use Rattle.rule_bool.specs.Premises.{IsDisjunctionAlone, HasNoDisjunctionAlone};
ghost use Rattle.rule_bool.specs.Schemes.{IsExact, JudgesRule};

use crate::within::has_each;
use term_core::{Clause, Head, Node, RuleFails, TermId, TermTable};

/// Gives the node of the one literal of the one premise where that is a disjunction, or else nothing.
fn disjunction<'a>(table: &'a TermTable, premises: &[Clause]) -> Option<&'a Node>
    requires { All (AreIn table.now) premises.now }
    ensures { MatchOption result (HasNoDisjunctionAlone table.now premises.now)
        (λ node. IsDisjunctionAlone table.now premises.now node.now.arguments.items) }
{
    let [premise] = premises else {
        return None;
    };
    let [id] = premise.as_slice() else {
        return None;
    };
    let node = table.node(*id);
    match node.head {
        Head::Or => Some(node),
        _ => None,
    }
}

/// Judges a step of the rule `or`, which opens a disjunction into its arguments.
///
/// One premise, whose one literal is a term `(or t1 .. tn)` as it is, with one argument or more; the conclusion has each of
/// them, in any order, maybe more than once, and maybe others. It is sound, since where the disjunction is true, one of its
/// arguments is, and with it the conclusion.
///
/// Time goes in proportion to the lengths where the terms are in the clause's order, with gaps or repeats, and is their product
/// at worst.
///
/// Source: Alethe specification, rule `or`; that order, repeats and further literals are free is own.
pub fn rule_or(table: &TermTable, premises: &[Clause], clause: &[TermId]) -> Result<(), RuleFails>
    requires premises { All (AreIn table.now) premises.now }
    requires clause { AreIn table.now clause.now }
    ensures { JudgesRule table.now rules.Or premises.now clause.now result }
{
    table.ids_are_unique();
    let Some(node) = disjunction(table, premises) else {
        return Err(RuleFails);
    };
    if has_each(clause, node.arguments.as_slice()) {
        return Ok(());
    }
    Err(RuleFails)
}

/// Judges whether there is one premise, whose literals the clause has.
fn keeps_literals(
    table: &TermTable,
    premises: &[Clause],
    clause: &[TermId],
) -> Result<(), RuleFails>
    requires premises { All (AreIn table.now) premises.now }
    requires clause { AreIn table.now clause.now }
    ensures { IsExact (IsWeakening (map (clause_at table.now) premises.now) (clause_at table.now clause.now)) result }
{
    table.ids_are_unique();
    let [premise] = premises else {
        return Err(RuleFails);
    };
    if has_each(clause, premise.as_slice()) {
        return Ok(());
    }
    Err(RuleFails)
}

/// Judges a step of the rule `contraction`, which leaves out literals that occur twice.
///
/// One premise; the conclusion has each of its literals, as the same terms, in any order, and maybe others. It is sound, since
/// where the premise is true, one of its literals is, and with it the conclusion.
///
/// Time goes in proportion to the lengths where the terms are in the clause's order, with gaps or repeats, and is their product
/// at worst.
///
/// Source: Alethe specification, rule `contraction`; that order and further literals are free is own.
pub fn rule_contraction(
    table: &TermTable,
    premises: &[Clause],
    clause: &[TermId],
) -> Result<(), RuleFails>
    requires premises { All (AreIn table.now) premises.now }
    requires clause { AreIn table.now clause.now }
    ensures { JudgesRule table.now rules.Contraction premises.now clause.now result }
{
    keeps_literals(table, premises, clause)
}

/// JudgesRule a step of the rule `reordering`, which gives the literals in another order.
///
/// One premise; the conclusion has each of its literals, as the same terms, and maybe others. It is sound, since where the
/// premise is true, one of its literals is, and with it the conclusion.
///
/// Time goes in proportion to the lengths where the terms are in the clause's order, with gaps or repeats, and is their product
/// at worst.
///
/// Source: Alethe specification, rule `reordering`; that repeats and further literals are free is own.
pub fn rule_reordering(
    table: &TermTable,
    premises: &[Clause],
    clause: &[TermId],
) -> Result<(), RuleFails>
    requires premises { All (AreIn table.now) premises.now }
    requires clause { AreIn table.now clause.now }
    ensures { JudgesRule table.now rules.Reordering premises.now clause.now result }
{
    keeps_literals(table, premises, clause)
}

/// JudgesRule a step of the rule `weakening`, which adds literals.
///
/// One premise; the conclusion has each of its literals, as the same terms, at any places among others. It is sound, since where
/// the premise is true, one of its literals is, and with it the conclusion.
///
/// Time goes in proportion to the lengths where the terms are in the clause's order, with gaps or repeats, and is their product
/// at worst.
///
/// Source: Alethe specification, rule `weakening`; that the added literals may be anywhere, and that repeats may be left out,
/// is own.
pub fn rule_weakening(
    table: &TermTable,
    premises: &[Clause],
    clause: &[TermId],
) -> Result<(), RuleFails>
    requires premises { All (AreIn table.now) premises.now }
    requires clause { AreIn table.now clause.now }
    ensures { JudgesRule table.now rules.Weakening premises.now clause.now result }
{
    keeps_literals(table, premises, clause)
}
