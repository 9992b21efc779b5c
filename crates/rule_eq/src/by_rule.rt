//! Judges a step by the rule of equality that it names.

ghost use Rattle.std.specs.Prelude.{All};
ghost use Rattle.term_core.specs.Tables.{AreIn};
ghost use Rattle.rule_eq.specs.Judging.{JudgesEquality};

use crate::choices::{rule_x_ite_else, rule_x_ite_then};
use crate::identities::{rule_distinct_elim, rule_eq_reflexive, rule_refl};
use crate::literal_rules::{rule_eq_congruent, rule_eq_congruent_pred, rule_eq_transitive};
use crate::premise_rules::{rule_cong, rule_symm, rule_trans};
use spec_equality::EqualityRule;
use term_core::{Clause, RuleFails, TermId, TermTable};

/// Judges a step by its rule, whichever of equality that is.
///
/// What premises and conclusion a rule asks for says its own function (`rule_` with the rule's name).
///
/// `RuleFails` comes exactly where the step is not right. Nothing is changed, and no memory is taken.
/// Source: Alethe specification, the list of rules.
pub fn judge_equality(
    table: &TermTable,
    rule: EqualityRule,
    premises: &[Clause],
    clause: &[TermId],
) -> Result<(), RuleFails>
    requires premises { All (AreIn table.now) premises.now }
    requires clause { AreIn table.now clause.now }
    ensures { JudgesEquality table.now rule premises.now clause.now result }
{
    match rule {
        EqualityRule::EqReflexive => rule_eq_reflexive(table, premises, clause),
        EqualityRule::EqTransitive => rule_eq_transitive(table, premises, clause),
        EqualityRule::EqCongruent => rule_eq_congruent(table, premises, clause),
        EqualityRule::EqCongruentPred => rule_eq_congruent_pred(table, premises, clause),
        EqualityRule::Refl => rule_refl(table, premises, clause),
        EqualityRule::Symm => rule_symm(table, premises, clause),
        EqualityRule::Trans => rule_trans(table, premises, clause),
        EqualityRule::Cong => rule_cong(table, premises, clause),
        EqualityRule::DistinctElim => rule_distinct_elim(table, premises, clause),
        EqualityRule::IteThen => rule_x_ite_then(table, premises, clause),
        EqualityRule::IteElse => rule_x_ite_else(table, premises, clause),
    }
}
