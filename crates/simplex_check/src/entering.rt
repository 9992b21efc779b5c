//! The variable that enters.

ghost use Rattle.std.specs.Prelude.{◌≡◌, ℕ, false, MatchOption};
ghost use Rattle.spec_tableaux.specs.Rows.{coefficient_of};
ghost use Rattle.spec_tableaux.specs.SolvedForms.{IsTidy};
ghost use Rattle.spec_tableaux.specs.Ranges as ranges;
ghost use Rattle.spec_tableaux.specs.LeastVariable.{IsLeast};
ghost use Rattle.spec_tableaux.specs.Numbers.{numbers};
ghost use Rattle.tableau.specs.Numbers.{number_of};
ghost use Rattle.tableau.specs.Entries.{entries_of};
ghost use Rattle.spec_tableaux.specs.Points.{deltas, point_in};
ghost use Rattle.simplex_bounds.specs.Held.{ranges_in};

use crate::assignment::RealAssignment;
use simplex_bounds::Bounds;
use simplex_bounds::ranges::moves_by;
use tableau::Entry;

/// Tells whether the variable of an entry can move so that the sum rises, or falls where `up` is false.
fn can_enter(assignment: &RealAssignment, bounds: &Bounds, up: bool, e: Entry) -> bool
    ensures { result
        ≡ ranges.moves_by deltas (ranges_in bounds.now.held e.variable) (point_in assignment.now.values e.variable)
        up (number_of e.coefficient) }
{
    moves_by(
        bounds.range(e.variable),
        assignment.value(e.variable),
        up,
        e.coefficient,
    )
}

/// Gives the least variable of a row that can move so that the sum rises, or falls where `up` is false.
pub(crate) fn find_entering(
    assignment: &RealAssignment,
    bounds: &Bounds,
    up: bool,
    entries: &[Entry],
) -> Option<u64>
    requires { IsTidy numbers 0 (entries_of entries.now) }
    ensures { MatchOption result
        ((y : ℕ) → ranges.moves_by deltas (ranges_in bounds.now.held y) (point_in assignment.now.values y) up
        (coefficient_of numbers y (entries_of entries.now)) ≡ false)
        (λ x. IsLeast (λ y. ranges.moves_by deltas (ranges_in bounds.now.held y) (point_in assignment.now.values y) up
        (coefficient_of numbers y (entries_of entries.now))) x) }
{
    let mut rest = entries;
    while let Some((e, more)) = rest.split_first() {
        if can_enter(assignment, bounds, up, *e) {
            return Some(e.variable);
        }
        rest = more;
    }
    None
}
