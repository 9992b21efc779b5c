//! A number in the place of the infinitesimal at which values that differ are different numbers.

ghost use Rattle.std.specs.Prelude.{◌≡◌, ◌⊎◌, true, map, IfOk, IfErr};
ghost use Rattle.std.specs.List.Sorted.{IsPermutation, IsSortedBy};
ghost use Rattle.ratio128.specs.Meant.{overflow};
ghost use Rattle.spec_tableaux.specs.Fields.{is_positive};
ghost use Rattle.spec_tableaux.specs.Numbers.{numbers};
ghost use Rattle.tableau.specs.Numbers.{number_of};
ghost use Rattle.simplex_bounds.specs.Deltas.{pair_of};
ghost use Rattle.simplex_numbers.specs.Values.{IsSmaller, IsAboveNone, by_value};
ghost use Rattle.spec_tableaux.specs.Halves.{OverflowsApart};
ghost use Rattle.spec_causes.specs.Causes.{IsHalfAmong};

use crate::narrowing::narrowed;
use delta_num::Delta;
use ratio128::{Ratio, Wide};

/// Gives a number above 0 that is at most e, for values in order. Where the lesser of two has the greater tilt, it is at most half
/// of the number at which they meet. It looks at neighbours alone: at twice the number these are in order, and so are any two.
///
/// The error is the `Wide` of an operation that computes such a half.
fn narrowed_for_neighbours(e: Ratio, values: &[Delta]) -> Result<Ratio, Wide>
    requires positive { is_positive numbers (number_of e) ≡ true }
    requires sorted { IsSortedBy by_value values.now }
    ensures smaller { IfOk result (λ d. IsSmaller (number_of d) (number_of e)) }
    ensures is { IfOk result (λ d. (d ≡ e) ⊎ IsHalfAmong (map pair_of values.now) (number_of d)) }
    ensures least { IfOk result (λ d. IsAboveNone (IsHalfAmong (map pair_of values.now)) (number_of d)) }
    ensures wide { IfErr result (λ w. OverflowsApart (map pair_of values.now) (overflow w)) }
{
    let mut small = e;
    'slacks: for at in 1..values.len() {
        small = narrowed(small, values[at - 1], values[at])?;
    }
    Ok(small)
}

/// Gives a number above 0 that is at most e. Where the lesser of two values has the greater tilt, it is at most half of the number
/// at which they meet. So values that differ are different numbers there.
///
/// The values are sorted, as then neighbours tell of all. It takes n log n comparisons of n values. The error is the `Wide` of an
/// operation that computes half of the number at which two of them meet.
pub(crate) fn narrowed_apart(e: Ratio, values: &mut [Delta]) -> Result<Ratio, Wide>
    requires positive { is_positive numbers (number_of e) ≡ true }
    ensures permutation { IsPermutation values.old values.new }
    ensures smaller { IfOk result (λ d. IsSmaller (number_of d) (number_of e)) }
    ensures is { IfOk result (λ d. (d ≡ e) ⊎ IsHalfAmong (map pair_of values.old) (number_of d)) }
    ensures least { IfOk result (λ d. IsAboveNone (IsHalfAmong (map pair_of values.old)) (number_of d)) }
    ensures wide { IfErr result (λ w. OverflowsApart (map pair_of values.old) (overflow w)) }
{
    values.sort_unstable_by(|a, b| Delta::cmp(*a, *b));
    narrowed_for_neighbours(e, values)
}
