//! What a value does within a range.

ghost use Rattle.std.specs.Prelude.{◌≡◌, ◌||◌, false, MatchOption};
ghost use Rattle.spec_tableaux.specs.Ranges as ranges;
ghost use Rattle.spec_tableaux.specs.LeastVariable as rule;
ghost use Rattle.simplex_bounds.specs.Deltas.{pair_of, range_of};
ghost use Rattle.spec_tableaux.specs.Points.{deltas};
ghost use Rattle.simplex_check.specs.Moves.{keeps};

use delta_num::Delta;
use simplex_bounds::Range;
use simplex_bounds::deltas::zero;
use simplex_bounds::ranges::{above, below};

/// Tells whether a value keeps the bounds of a range.
pub(crate) fn is_within(range: Range, x: Delta) -> bool
    ensures { result ≡ keeps (range_of range) (pair_of x) }
{
    !(below(x, range.lower) || above(x, range.upper))
}

/// Gives the bound of a range to which a value has to rise, or to fall where `up` is false, and 0 where there is none.
pub(crate) fn goal_of(range: Range, up: bool) -> Delta
    ensures { pair_of result ≡ rule.goal_of deltas (range_of range) up }
{
    let bound = if up { range.lower } else { range.upper };
    match bound {
        None => zero(),
        Some(goal) => goal,
    }
}

/// Gives the bound of a range that a value violates, if there is one.
pub(crate) fn violated(range: Range, x: Delta) -> Option<Delta>
    ensures { MatchOption result (ranges.value_in_range deltas (range_of range) (pair_of x) ≡ pair_of x)
        (λ bound. (keeps (range_of range) (pair_of x) ≡ false)
        × (pair_of bound ≡ ranges.value_in_range deltas (range_of range) (pair_of x))
        × (pair_of bound
        ≡ rule.goal_of deltas (range_of range) (ranges.below deltas (pair_of x) (range_of range).lower))) }
{
    if below(x, range.lower) {
        return Some(goal_of(range, true));
    }
    if above(x, range.upper) {
        return Some(goal_of(range, false));
    }
    None
}
