//! Exact operations on numbers with an infinitesimal part, by the names of the space that they are values of.

ghost use Rattle.std.specs.Prelude.{◌≡◌, IfOk, IfErr, Err, false};
ghost use Rattle.ratio128.specs.Meant.{fraction, overflow};
ghost use Rattle.spec_tableaux.specs.Deltas.{delta_added, delta_subtracted, delta_scaled, delta_divided};
ghost use Rattle.delta_num.specs.Meant.{delta};
ghost use Rattle.spec_tableaux.specs.Spaces as spaces;
ghost use Rattle.spec_tableaux.specs.Numbers.{numbers};
ghost use Rattle.tableau.specs.Numbers.{number_of};
ghost use Rattle.simplex_bounds.specs.Deltas.{pair_of};
ghost use Rattle.spec_tableaux.specs.Points.{deltas};

use delta_num::Delta;
use ratio128::{Ratio, Wide};
use tableau::numbers as fractions;

/// Gives the sum. The error is the `Wide` of the sum of the bases, or else that of the sum of the tilts.
pub fn plus(a: Delta, b: Delta) -> Result<Delta, Wide>
    ensures exact { IfOk result (λ d. pair_of d ≡ deltas.plus (pair_of a) (pair_of b)) }
    ensures wide { IfErr result (λ w. delta_added (delta a) (delta b) ≡ Err (overflow w)) }
{
    Delta::add(a, b)
}

/// Gives the difference. The error is the `Wide` of the difference of the bases, or else that of the difference of the
/// tilts.
pub fn minus(a: Delta, b: Delta) -> Result<Delta, Wide>
    ensures exact { IfOk result (λ d. pair_of d ≡ spaces.space_difference deltas (pair_of a) (pair_of b)) }
    ensures wide { IfErr result (λ w. delta_subtracted (delta a) (delta b) ≡ Err (overflow w)) }
{
    Delta::sub(a, b)
}

/// Gives k times a. The error is the `Wide` of the product with the base, or else that of the product with the tilt.
pub fn scaled(k: Ratio, a: Delta) -> Result<Delta, Wide>
    ensures exact { IfOk result (λ d. pair_of d ≡ deltas.scale (number_of k) (pair_of a)) }
    ensures wide { IfErr result (λ w. delta_scaled (fraction k) (delta a) ≡ Err (overflow w)) }
{
    Delta::scale(a, k)
}

/// Gives a divided by a fraction that is not 0. The error is the `Wide` of the quotient of the base, or else that of
/// the quotient of the tilt.
pub fn divided(a: Delta, by: Ratio) -> Result<Delta, Wide>
    requires { numbers.is_zero (number_of by) ≡ false }
    ensures exact { IfOk result (λ d. pair_of d ≡ deltas.scale (numbers.inverse (number_of by)) (pair_of a)) }
    ensures wide { IfErr result (λ w. delta_divided (delta a) (fraction by) ≡ Err (overflow w)) }
{
    Delta::divide(a, by)
}

/// Tells whether a is less than b: by the bases, and where these are one, by the tilts. It never overflows.
pub fn less(a: Delta, b: Delta) -> bool
    ensures { result ≡ deltas.less (pair_of a) (pair_of b) }
{
    if a.base == b.base {
        return fractions::less(a.tilt, b.tilt);
    }
    fractions::less(a.base, b.base)
}

/// Gives the number 0, which adds nothing.
pub fn zero() -> Delta
    ensures { pair_of result ≡ deltas.origin }
{
    Delta::number(Ratio::of(0, 1))
}
