//! A number in the place of the infinitesimal for all bounds, and for values that are kept apart.

ghost use Rattle.std.specs.Prelude.{◌≡◌, ℕ, true, map, IfOk, IfErr};
ghost use Rattle.std.specs.List.Sorted.{IsPermutation};
ghost use Rattle.ratio128.specs.Meant.{overflow};
ghost use Rattle.spec_tableaux.specs.Fields.{is_positive};
ghost use Rattle.spec_tableaux.specs.Ranges.{Meets};
ghost use Rattle.spec_tableaux.specs.Numbers.{numbers};
ghost use Rattle.tableau.specs.Numbers.{number_of};
ghost use Rattle.spec_tableaux.specs.Points.{deltas, point_in};
ghost use Rattle.simplex_bounds.specs.Deltas.{pair_of};
ghost use Rattle.simplex_bounds.specs.Held.{ranges_in};
ghost use Rattle.simplex_numbers.specs.Values.{KeepsAt, KeepsApart, StaysOff};
ghost use Rattle.spec_tableaux.specs.Halves.{OverflowsNumber};
ghost use Rattle.spec_causes.specs.Causes.{IsEpsilon};

use crate::apart::narrowed_apart;
use crate::narrowing::narrowed_by;
use delta_num::Delta;
use ratio128::{Ratio, Wide};
use simplex_bounds::Bounds;
use simplex_check::RealAssignment;
use tableau::numbers::one;

/// Gives a number above 0 for the infinitesimal, so that the values of an assignment keep the bounds as numbers, where they keep
/// them as pairs. A value that is off a bound stays off it. It takes no memory.
///
/// It is the least of 1 and some halves. Each is half of a number at which a value comes to a bound of it, or at which two
/// values meet that are kept apart. A variable needs such a number where its lower bound has a greater tilt than its value,
/// or this a greater one than the upper bound. Two values need one where the lesser has the greater tilt. Values that are
/// kept apart are different numbers, if they differ; they are left in some order.
///
/// `Wide` comes where an operation that computes such a half leaves the bound on fractions.
/// Source: Dutertre and de Moura, A Fast Linear-Arithmetic Solver for DPLL(T), CAV 2006.
pub fn small_number(
    bounds: &Bounds,
    assignment: &RealAssignment,
    apart: &mut [Delta],
) -> Result<Ratio, Wide>
    requires { Meets deltas assignment.now.tableau.rows (ranges_in bounds.now.held) (point_in assignment.now.values) }
    ensures positive { IfOk result (λ e. is_positive numbers (number_of e) ≡ true) }
    ensures keeps { IfOk result (λ e. KeepsAt (number_of e) (ranges_in bounds.now.held)
        (point_in assignment.now.values)) }
    ensures off { IfOk result (λ e. (y : ℕ)
        → StaysOff (number_of e) (ranges_in bounds.now.held y) (point_in assignment.now.values y)) }
    ensures apart { IfOk result (λ e. KeepsApart (number_of e) (map pair_of apart.old)) }
    ensures is { IfOk result (λ e. IsEpsilon (ranges_in bounds.now.held) (point_in assignment.now.values)
        (map pair_of apart.old) (number_of e)) }
    ensures wide { IfErr result (λ w. OverflowsNumber (ranges_in bounds.now.held) (point_in assignment.now.values)
        (map pair_of apart.old) (overflow w)) }
    ensures permutation { IsPermutation apart.old apart.new }
{
    bounds.held_are_of_variables();
    let mut e = one();
    for y in 0..bounds.variables() {
        e = narrowed_by(e, bounds.range(y), assignment.value(y))?;
    }
    narrowed_apart(e, apart)
}
