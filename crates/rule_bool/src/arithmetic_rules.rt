//! Rules of linear arithmetic.

ghost use Rattle.std.specs.Prelude.{All};
ghost use Rattle.spec_text.specs.Trees.{Trees};
ghost use Rattle.spec_proofs.specs.declared.Rule.TheVariants as rules;
ghost use Rattle.term_core.specs.Tables.{AreIn};
ghost use Rattle.rule_bool.specs.Arguments.{WritesCoefficients};
ghost use Rattle.rule_bool.specs.Schemes.{JudgesRule, JudgesOrStops};

use crate::rule_stop::RuleStop;
use linear_form::{ArithFault, Coeff, la_disequality, la_generic, la_totality};
use std::alloc::Global;
use term_core::{Clause, RuleFails, TermId, TermTable};

/// Judges a step of the rule `la_generic`, which states that numbers cannot be so.
///
/// No premise, and as many arguments as literals: literal numbers, `(- c)` and `(/ c d)` of such. The conclusion is `(cl l1 .. ln)`, each
/// literal an order of numbers, its negation or a negated equality of numbers. The negations of the literals, multiplied by the
/// arguments and added, come to a number that the sum cannot be. Of an order's argument the size counts, and of equalities the
/// arguments as given or all with the other sign. It is sound, since where no literal is true the negations hold, and so does their sum.
///
/// Time and memory go in proportion to the terms and their forms, as far as look-ups by hash take a time of their own.
///
/// `Fails` comes exactly where the step is not right and no number leaves the bound; `Wide` where one does: in an argument, a form or
/// a sum; `Memory` where memory runs out, which tells nothing of the step. Nothing is changed. Source: Alethe specification, rule
/// `la_generic`; that either sign of equalities is taken and the bound are own.
pub fn rule_la_generic(
    alloc: Global,
    table: &TermTable,
    premises: &[Clause],
    arguments: &[Coeff],
    clause: &[TermId],
) -> Result<(), RuleStop>
    requires premises { All (AreIn table.now) premises.now }
    requires clause { AreIn table.now clause.now }
    ensures { (texts : Trees) → WritesCoefficients texts arguments.now
        → JudgesOrStops table.now rules.LaGeneric premises.now texts clause.now result }
{
    if !premises.is_empty() {
        return Err(RuleStop::Fails);
    }
    match la_generic(alloc, table, clause, arguments) {
        Ok(()) => Ok(()),
        Err(ArithFault::Shape) => Err(RuleStop::Fails),
        Err(ArithFault::NoContradiction) => Err(RuleStop::Fails),
        Err(ArithFault::Wide(_)) => Err(RuleStop::Wide),
        Err(ArithFault::Memory) => Err(RuleStop::Memory),
    }
}

/// Judges a step of the rule `la_disequality`, which states that numbers are equal, or one of them is not at most the other.
///
/// No premise; the conclusion is `(cl (or (= s t) (not (<= s t)) (not (<= t s))))`, s and t of sort Real. It is sound, since two
/// numbers that are each at most the other are equal.
///
/// Source: Alethe specification, rule `la_disequality`.
pub fn rule_la_disequality(
    table: &TermTable,
    premises: &[Clause],
    clause: &[TermId],
) -> Result<(), RuleFails>
    requires premises { All (AreIn table.now) premises.now }
    requires clause { AreIn table.now clause.now }
    ensures { JudgesRule table.now rules.LaDisequality premises.now clause.now result }
{
    if !premises.is_empty() {
        return Err(RuleFails);
    }
    la_disequality(table, clause)
}

/// Judges a step of the rule `la_totality`, which states that one of two numbers is at most the other.
///
/// No premise; the conclusion is `(cl (or (<= s t) (<= t s)))`, s and t of sort Real. It is sound, since the order of numbers is total.
///
/// Source: Alethe specification, rule `la_totality`.
pub fn rule_la_totality(
    table: &TermTable,
    premises: &[Clause],
    clause: &[TermId],
) -> Result<(), RuleFails>
    requires premises { All (AreIn table.now) premises.now }
    requires clause { AreIn table.now clause.now }
    ensures { JudgesRule table.now rules.LaTotality premises.now clause.now result }
{
    if !premises.is_empty() {
        return Err(RuleFails);
    }
    la_totality(table, clause)
}
