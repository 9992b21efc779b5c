//! The value of a number with an infinitesimal part.

ghost use Rattle.std.specs.Prelude.{◌≡◌, IfOk, IfErr, Err};
ghost use Rattle.ratio128.specs.Meant.{fraction, overflow};
ghost use Rattle.spec_tableaux.specs.Deltas.{delta_evaluated};
ghost use Rattle.delta_num.specs.Meant.{delta};
ghost use Rattle.tableau.specs.Numbers.{number_of};
ghost use Rattle.simplex_bounds.specs.Deltas.{pair_of};
ghost use Rattle.spec_tableaux.specs.Halves.{at_number};

use delta_num::Delta;
use ratio128::{Ratio, Wide};

/// Gives the number that a is where the infinitesimal is e. The error is the `Wide` of the product of the tilt and e, or
/// else that of the sum of the base and this product. It takes no memory.
pub fn value_at(a: Delta, e: Ratio) -> Result<Ratio, Wide>
    ensures exact { IfOk result (λ q. number_of q ≡ at_number (number_of e) (pair_of a)) }
    ensures wide { IfErr result (λ w. delta_evaluated (delta a) (fraction e) ≡ Err (overflow w)) }
{
    Delta::at(a, e)
}
