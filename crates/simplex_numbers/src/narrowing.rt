//! Numbers in the place of the infinitesimal, small enough for two values or for the bounds of one.

ghost use Rattle.std.specs.Prelude.{◌≡◌, ◌⊎◌, true, false, IfOk, IfErr};
ghost use Rattle.ratio128.specs.Meant.{overflow};
ghost use Rattle.spec_tableaux.specs.Fields.{is_positive};
ghost use Rattle.spec_tableaux.specs.Ranges.{below, above};
ghost use Rattle.spec_tableaux.specs.Numbers.{numbers};
ghost use Rattle.tableau.specs.Numbers.{number_of};
ghost use Rattle.simplex_bounds.specs.Deltas.{pair_of, pair_in, range_of};
ghost use Rattle.spec_tableaux.specs.Points.{deltas};
ghost use Rattle.simplex_check.specs.Moves.{keeps};
ghost use Rattle.simplex_numbers.specs.Values.{IsSmaller, IsAboveNone, StaysLess, StaysAbove, StaysBelow, StaysOff};
ghost use Rattle.spec_tableaux.specs.Halves.{two, is_less, IsSteeper, halfway, OverflowsOrder, OverflowsLower, OverflowsUpper, OverflowsRange};
ghost use Rattle.spec_causes.specs.Causes.{IsHalfAbove, IsHalfBelow, IsHalfIn};

use delta_num::Delta;
use ratio128::{Ratio, Wide};
use simplex_bounds::Range;
use tableau::numbers::{difference, less, quotient};

/// Gives 2.
fn two() -> Ratio
    ensures { number_of result ≡ two }
{
    Ratio::of(2, 1)
}

/// Gives the lesser of two numbers above 0.
#[tactic(auto, using(crate::proofs::Orders::irreflexive, crate::proofs::Orders::asymmetric))]
fn lesser(a: Ratio, b: Ratio) -> Ratio
    requires first { is_positive numbers (number_of a) ≡ true }
    requires second { is_positive numbers (number_of b) ≡ true }
    ensures first { IsSmaller (number_of result) (number_of a) }
    ensures second { IsSmaller (number_of result) (number_of b) }
    ensures either { (result ≡ a) ⊎ (result ≡ b) }
{
    if less(b, a) { b } else { a }
}

/// Gives a number above 0 that is at most e, at which x is less than y, if it is less at all.
///
/// Where the tilt of x is not above that of y this is e. Else it is e or half of the number at which x comes to y, the lesser
/// of them. The error is the `Wide` of an operation that computes this half.
pub(crate) fn narrowed(e: Ratio, x: Delta, y: Delta) -> Result<Ratio, Wide>
    requires positive { is_positive numbers (number_of e) ≡ true }
    requires order { deltas.less (pair_of y) (pair_of x) ≡ false }
    ensures smaller { IfOk result (λ d. IsSmaller (number_of d) (number_of e)) }
    ensures less { IfOk result (λ d. StaysLess (number_of d) (pair_of x) (pair_of y)) }
    ensures is { IfOk result (λ d. (d ≡ e)
        ⊎ (IsSteeper (pair_of x) (pair_of y) × (number_of d ≡ halfway (pair_of x) (pair_of y)))) }
    ensures least { IfOk result (λ d. IsSteeper (pair_of x) (pair_of y)
        → is_less (halfway (pair_of x) (pair_of y)) (number_of d) ≡ false) }
    ensures wide { IfErr result (λ w. OverflowsOrder (pair_of x) (pair_of y) (overflow w)) }
{
    if !less(y.tilt, x.tilt) {
        return Ok(e);
    }
    let gap = difference(y.base, x.base)?;
    let steepness = difference(x.tilt, y.tilt)?;
    let meeting = quotient(gap, steepness)?;
    let half = quotient(meeting, two())?;
    Ok(lesser(half, e))
}

/// Gives a number above 0 that is at most e, at which a value is above its lower bound, if it is at all. It is at most half of
/// the number at which the bound comes to the value, if it does.
///
/// The error is the `Wide` of an operation that computes half of the number at which the bound comes to the value.
#[tactic(auto, using(crate::proofs::Orders::irreflexive))]
fn narrowed_above(e: Ratio, lower: Option<Delta>, x: Delta) -> Result<Ratio, Wide>
    requires positive { is_positive numbers (number_of e) ≡ true }
    requires within { below deltas (pair_of x) (pair_in lower) ≡ false }
    ensures smaller { IfOk result (λ d. IsSmaller (number_of d) (number_of e)) }
    ensures stays { IfOk result (λ d. StaysAbove (number_of d) (pair_in lower) (pair_of x)) }
    ensures is { IfOk result (λ d. (d ≡ e) ⊎ IsHalfAbove (pair_in lower) (pair_of x) (number_of d)) }
    ensures least { IfOk result (λ d. IsAboveNone (IsHalfAbove (pair_in lower) (pair_of x)) (number_of d)) }
    ensures wide { IfErr result (λ w. OverflowsLower (pair_in lower) (pair_of x) (overflow w)) }
{
    match lower {
        None => Ok(e),
        Some(bound) => narrowed(e, bound, x),
    }
}

/// Gives a number above 0 that is at most e, at which a value is below its upper bound, if it is at all. It is at most half of
/// the number at which the value comes to the bound, if it does.
///
/// The error is the `Wide` of an operation that computes half of the number at which the value comes to the bound.
#[tactic(auto, using(crate::proofs::Orders::irreflexive))]
fn narrowed_below(e: Ratio, upper: Option<Delta>, x: Delta) -> Result<Ratio, Wide>
    requires positive { is_positive numbers (number_of e) ≡ true }
    requires within { above deltas (pair_of x) (pair_in upper) ≡ false }
    ensures smaller { IfOk result (λ d. IsSmaller (number_of d) (number_of e)) }
    ensures stays { IfOk result (λ d. StaysBelow (number_of d) (pair_in upper) (pair_of x)) }
    ensures is { IfOk result (λ d. (d ≡ e) ⊎ IsHalfBelow (pair_in upper) (pair_of x) (number_of d)) }
    ensures least { IfOk result (λ d. IsAboveNone (IsHalfBelow (pair_in upper) (pair_of x)) (number_of d)) }
    ensures wide { IfErr result (λ w. OverflowsUpper (pair_in upper) (pair_of x) (overflow w)) }
{
    match upper {
        None => Ok(e),
        Some(bound) => narrowed(e, x, bound),
    }
}

/// Gives a number above 0 that is at most e, at which a value within a range is off each bound of it that it is off. It is at
/// most each half of a number at which the value comes to a bound.
///
/// The error is the `Wide` of an operation that computes half of the number at which a bound and the value meet.
pub(crate) fn narrowed_by(e: Ratio, range: Range, x: Delta) -> Result<Ratio, Wide>
    requires positive { is_positive numbers (number_of e) ≡ true }
    requires within { keeps (range_of range) (pair_of x) ≡ true }
    ensures smaller { IfOk result (λ d. IsSmaller (number_of d) (number_of e)) }
    ensures off { IfOk result (λ d. StaysOff (number_of d) (range_of range) (pair_of x)) }
    ensures is { IfOk result (λ d. (d ≡ e) ⊎ IsHalfIn (range_of range) (pair_of x) (number_of d)) }
    ensures least { IfOk result (λ d. IsAboveNone (IsHalfIn (range_of range) (pair_of x)) (number_of d)) }
    ensures wide { IfErr result (λ w. OverflowsRange (range_of range) (pair_of x) (overflow w)) }
{
    let small = narrowed_above(e, range.lower, x)?;
    narrowed_below(small, range.upper, x)
}
