//! Judges a step by the rule that it names.

ghost use Rattle.std.specs.Prelude.{◌≢◌, All, Err};
ghost use Rattle.spec_text.specs.Trees.{Trees};
ghost use Rattle.spec_proofs.specs.declared.Rule.TheVariants as rules;
ghost use Rattle.term_core.specs.Tables.{AreIn};
ghost use Rattle.rule_bool.specs.declared.rule_stop.RuleStop.TheVariants as stops;
ghost use Rattle.rule_bool.specs.Arguments.{WritesCoefficients};
ghost use Rattle.rule_bool.specs.Schemes.{JudgesRule, JudgesOrStops};

use crate::arithmetic_rules::{rule_la_disequality, rule_la_generic, rule_la_totality};
use crate::resolvent::resolution;
use crate::rule_stop::RuleStop;
use crate::rules::{rule_contraction, rule_or, rule_reordering, rule_weakening};
use crate::scheme_table::equality_of;
use crate::schemes::by_scheme;
use linear_form::Coeff;
use rule_eq::judge_equality;
use spec_proofs::Rule;
use std::alloc::Global;
use term_core::{Clause, RuleFails, TermId, TermTable};

/// Judges a step by a rule that takes no memory. It is right or not whatever its arguments are.
fn judge_alone(
    table: &TermTable,
    rule: Rule,
    premises: &[Clause],
    clause: &[TermId],
) -> Result<(), RuleFails>
    requires resolution { rule ≢ rules.Resolution }
    requires th_resolution { rule ≢ rules.ThResolution }
    requires generic { rule ≢ rules.LaGeneric }
    requires premises { All (AreIn table.now) premises.now }
    requires clause { AreIn table.now clause.now }
    ensures { JudgesRule table.now rule premises.now clause.now result }
{
    if let Some(equality) = equality_of(rule) {
        return judge_equality(table, equality, premises, clause);
    }
    match rule {
        Rule::Or => rule_or(table, premises, clause),
        Rule::Contraction => rule_contraction(table, premises, clause),
        Rule::Reordering => rule_reordering(table, premises, clause),
        Rule::Weakening => rule_weakening(table, premises, clause),
        Rule::LaDisequality => rule_la_disequality(table, premises, clause),
        Rule::LaTotality => rule_la_totality(table, premises, clause),
        _ => by_scheme(table, rule, premises, clause),
    }
}

/// Judges a step by its rule, whichever that is.
///
/// What premises and conclusion a rule asks for says its own function (`resolution`, or `rule_` with the rule's name, which is in
/// `rule_eq` where the rule is one of equality). `arguments` are what the texts of the step's `:args` write; `la_generic` alone takes them.
///
/// `la_generic` and the two rules of resolution take memory from `alloc`; no other does.
///
/// `Fails` comes exactly where the step is not right, and no operation leaves the bound on numbers; `Wide` exactly where one does, and so
/// with `la_generic` alone; `Memory` where one of the three runs out of memory, which tells nothing of the step, and with no other rule.
/// Nothing is changed. Source: Alethe specification, the list of rules; the bound on numbers is own.
pub fn judge(
    alloc: Global,
    table: &TermTable,
    rule: Rule,
    premises: &[Clause],
    arguments: &[Coeff],
    clause: &[TermId],
) -> Result<(), RuleStop>
    requires premises { All (AreIn table.now) premises.now }
    requires clause { AreIn table.now clause.now }
    ensures exact { (texts : Trees) → WritesCoefficients texts arguments.now
        → JudgesOrStops table.now rule premises.now texts clause.now result }
    ensures alone { rule ≢ rules.Resolution → rule ≢ rules.ThResolution → rule ≢ rules.LaGeneric
        → result ≢ Err stops.Memory }
{
    match rule {
        Rule::Resolution => resolution(alloc, table, premises, clause),
        Rule::ThResolution => resolution(alloc, table, premises, clause),
        Rule::LaGeneric => rule_la_generic(alloc, table, premises, arguments, clause),
        _ => Ok(judge_alone(table, rule, premises, clause)?),
    }
}
