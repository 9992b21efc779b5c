//! The strongest bounds of one variable.

ghost use Rattle.std.specs.Prelude.{◌≡◌};
ghost use Rattle.simplex_bounds.specs.Deltas.{pair_of, pair_in};
ghost use Rattle.simplex_bounds.specs.Held.{is_tighter, stronger, value_in};
ghost use Rattle.simplex_bounds.specs.Limits.{limit_at, with_limit, tightened, are_crossed};

use crate::bounds::{Bound, Side};
use crate::deltas::less;
use crate::ranges::{Range, crosses};
use delta_num::Delta;

/// Holds the strongest bounds of a variable, each where it has one.
#[derive(Clone, Copy)]
pub(crate) struct VariableLimits {
    /// The strongest lower bound.
    pub(crate) lower: Option<Bound>,
    /// The strongest upper bound.
    pub(crate) upper: Option<Bound>,
}

/// Tells whether a bound is stronger than one of its side.
fn is_stronger(new: Bound, old: Bound) -> bool
    ensures { result ≡ is_tighter new.side (pair_of new.value) (pair_of old.value) }
{
    match new.side {
        Side::Lower => less(old.value, new.value),
        Side::Upper => less(new.value, old.value),
    }
}

/// Gives the stronger of a bound that was found and a new one.
fn stronger_of(found: Option<Bound>, new: Bound) -> Option<Bound>
    ensures { result ≡ stronger found new }
{
    match found {
        None => Some(new),
        Some(old) => Some(if is_stronger(new, old) { new } else { old }),
    }
}

/// Gives the value of a bound.
fn value_of(bound: Option<Bound>) -> Option<Delta>
    ensures { pair_in result ≡ value_in bound }
{
    match bound {
        None => None,
        Some(there) => Some(there.value),
    }
}

impl VariableLimits {
    /// Gives the bound of a side.
    pub(crate) fn at(self, side: Side) -> Option<Bound>
        ensures { result ≡ limit_at side self }
    {
        match side {
            Side::Lower => self.lower,
            Side::Upper => self.upper,
        }
    }

    /// Gives the limits with another bound on a side.
    pub(crate) fn with(self, side: Side, bound: Option<Bound>) -> VariableLimits
        ensures { result ≡ with_limit side bound self }
    {
        match side {
            Side::Lower => VariableLimits {
                lower: bound,
                upper: self.upper,
            },
            Side::Upper => VariableLimits {
                lower: self.lower,
                upper: bound,
            },
        }
    }

    /// Gives the limits once a bound of the variable is held.
    pub(crate) fn tightened(self, bound: Bound) -> VariableLimits
        ensures { result ≡ tightened self bound }
    {
        self.with(bound.side, stronger_of(self.at(bound.side), bound))
    }

    /// Gives the range that they leave.
    pub(crate) fn range(self) -> Range
        ensures lower { pair_in result.lower ≡ value_in self.lower }
        ensures upper { pair_in result.upper ≡ value_in self.upper }
    {
        Range {
            lower: value_of(self.lower),
            upper: value_of(self.upper),
        }
    }

    /// Tells whether the lower bound is above the upper one.
    pub(crate) fn are_crossed(self) -> bool
        ensures { result ≡ are_crossed self }
    {
        let range = self.range();
        crosses(range.lower, range.upper)
    }
}
