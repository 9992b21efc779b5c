//! Ranges of a variable's values, and what a value may do within them.

ghost use Rattle.std.specs.Prelude.{◌≡◌};
ghost use Rattle.spec_tableaux.specs.Ranges as ranges;
ghost use Rattle.tableau.specs.Numbers.{number_of};
ghost use Rattle.simplex_bounds.specs.Deltas.{pair_of, pair_in, range_of};
ghost use Rattle.spec_tableaux.specs.Points.{deltas};

use crate::deltas::less;
use delta_num::Delta;
use ratio128::Ratio;
use tableau::numbers;

/// Bounds the values of a variable: from the lower one on, and up to the upper one, each where it has one.
#[derive(Clone, Copy, PartialEq, Eq, Debug)]
pub struct Range {
    /// The least value.
    pub lower: Option<Delta>,
    /// The greatest value.
    pub upper: Option<Delta>,
}

/// Tells whether a value is below a lower bound, which it is not where there is none.
pub fn below(x: Delta, lower: Option<Delta>) -> bool
    ensures { result ≡ ranges.below deltas (pair_of x) (pair_in lower) }
{
    match lower {
        None => false,
        Some(bound) => less(x, bound),
    }
}

/// Tells whether a value is above an upper bound, which it is not where there is none.
pub fn above(x: Delta, upper: Option<Delta>) -> bool
    ensures { result ≡ ranges.above deltas (pair_of x) (pair_in upper) }
{
    match upper {
        None => false,
        Some(bound) => less(bound, x),
    }
}

/// Tells whether a value can rise within an upper bound.
pub fn can_rise(x: Delta, upper: Option<Delta>) -> bool
    ensures { result ≡ ranges.can_rise deltas (pair_of x) (pair_in upper) }
{
    match upper {
        None => true,
        Some(bound) => less(x, bound),
    }
}

/// Tells whether a value can fall within a lower bound.
pub fn can_fall(x: Delta, lower: Option<Delta>) -> bool
    ensures { result ≡ ranges.can_fall deltas (pair_of x) (pair_in lower) }
{
    match lower {
        None => true,
        Some(bound) => less(bound, x),
    }
}

/// Tells whether a lower bound is above an upper one.
pub fn crosses(lower: Option<Delta>, upper: Option<Delta>) -> bool
    ensures { result ≡ ranges.crosses deltas (pair_in lower) (pair_in upper) }
{
    match lower {
        None => false,
        Some(bound) => above(bound, upper),
    }
}

/// Tells whether a variable of the value x, which a sum has with the coefficient c, can move within its range so that
/// the sum rises, or falls where `up` is false. One that the sum does not have, with the coefficient 0, can not.
pub fn moves_by(range: Range, x: Delta, up: bool, c: Ratio) -> bool
    ensures { result ≡ ranges.moves_by deltas (range_of range) (pair_of x) up (number_of c) }
{
    if numbers::is_zero(c) {
        return false;
    }
    if numbers::is_negative(numbers::negative(c)) == up {
        can_rise(x, range.upper)
    } else {
        can_fall(x, range.lower)
    }
}
