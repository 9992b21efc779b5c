//! The weight of the literal of a bound.

ghost use Rattle.std.specs.Prelude.{◌≡◌, IfOk, IfErr, Err, false};
ghost use Rattle.spec_numbers.specs.Bounds.{divided};
ghost use Rattle.spec_arithmetic.specs.Signs as signs;
ghost use Rattle.spec_tableaux.specs.Numbers.{numbers};
ghost use Rattle.ratio128.specs.Meant.{fraction, overflow};
ghost use Rattle.tableau.specs.Numbers.{number_of};
ghost use Rattle.tableau.specs.Entries.{entry_of};
ghost use Rattle.simplex_bounds.specs.Held as held;
ghost use Rattle.simplex_atoms.specs.Slacks.{relation_by};
ghost use Rattle.spec_causes.specs.Reasons as causes;
ghost use Rattle.simplex_explain.specs.Stops as stops;
ghost use Rattle.simplex_explain.specs.Stops.{AreStated, HaveFactors, IsStopped};
ghost use Rattle.simplex_explain.specs.BoundReasons.{weight_by, footing, IsBoundReason, OverflowsReason};

use crate::Weighted;
use ratio128::{Ratio, Wide};
use simplex_atoms::{Atoms, Comparison, Slack};
use simplex_bounds::{Bound, Bounds, Lit, Side};
use tableau::Entry;
use tableau::numbers::{is_negative, negative, quotient};

/// Gives the size of a number.
fn size(a: Ratio) -> Ratio
    ensures { fraction result ≡ signs.size (fraction a) }
{
    if is_negative(a) { negative(a) } else { a }
}

/// Gives the weight of a literal with which the variable of its place has the weight `s`.
///
/// The error comes where `s` over the factor leaves the bound on fractions.
fn weight_by(slack: Slack, literal: Lit, s: Ratio) -> Result<Ratio, Wide>
    requires { numbers.is_zero (number_of slack.factor) ≡ false }
    ensures weight { IfOk result (λ w. fraction w
        ≡ weight_by (relation_by slack.kind literal.positive) slack (number_of s)) }
    ensures wide { IfErr result (λ w. divided (fraction s) (fraction slack.factor) ≡ Err (overflow w)) }
{
    let part = quotient(s, slack.factor)?;
    Ok(match slack.kind {
        Comparison::Equal => part,
        Comparison::Less => size(part),
        Comparison::AtMost => size(part),
    })
}

/// Gives the side on which a variable with this coefficient is stopped, where the sum is to rise, or to fall if `up` is
/// false.
fn stopping_side(up: bool, coefficient: Ratio) -> Side
    ensures { result ≡ stops.stopping_side up (number_of coefficient) }
{
    let rises = if is_negative(negative(coefficient)) {
        up
    } else {
        !up
    };
    if rises { Side::Upper } else { Side::Lower }
}

/// Gives the number, or minus it where `up` is false.
fn directed(up: bool, a: Ratio) -> Ratio
    ensures { number_of result ≡ causes.directed up (number_of a) }
{
    if up { a } else { negative(a) }
}

/// Gives the strongest bound of a variable on a side.
fn strongest(bounds: &Bounds, side: Side, y: u64) -> Option<Bound>
    ensures { result ≡ held.strongest side y bounds.now.held }
{
    match side {
        Side::Lower => bounds.lower(y),
        Side::Upper => bounds.upper(y),
    }
}

/// Gives the literal of the bound that stops the variable of an entry, with its weight.
///
/// The error comes where the coefficient over the factor of the literal's place leaves the bound on fractions.
pub(crate) fn reason_for(
    bounds: &Bounds,
    atoms: &Atoms,
    up: bool,
    entry: Entry,
) -> Result<Weighted, Wide>
    requires stopped { IsStopped bounds.now.held up (entry_of entry) }
    requires stated { AreStated atoms.now.slack_list bounds.now.held }
    requires factors { HaveFactors atoms.now.slack_list }
    ensures reason { IfOk result (IsBoundReason (footing atoms.now bounds.now) up (entry_of entry)) }
    ensures wide { IfErr result (λ w. OverflowsReason (footing atoms.now bounds.now) up (entry_of entry) (overflow w)) }
{
    let side = stopping_side(up, entry.coefficient);
    let Some(bound) = strongest(bounds, side, entry.variable) else {
        unreachable!();
    };
    let Some(slack) = atoms.slack(bound.literal.term) else {
        unreachable!();
    };
    let weight = weight_by(slack, bound.literal, directed(up, entry.coefficient))?;
    Ok(Weighted {
        literal: bound.literal,
        weight,
    })
}
