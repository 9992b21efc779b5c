//! The value of a sum.

ghost use Rattle.std.specs.Prelude.{◌≡◌, ◌<◌, length, map, IfOk, IfErr};
ghost use Rattle.ratio128.specs.Meant.{overflow};
ghost use Rattle.spec_tableaux.specs.Rows.{sum_of};
ghost use Rattle.spec_tableaux.specs.SolvedForms.{AllVariables};
ghost use Rattle.tableau.specs.Entries.{entries_of};
ghost use Rattle.simplex_bounds.specs.Deltas.{pair_of};
ghost use Rattle.spec_tableaux.specs.Points.{deltas, point_in};
ghost use Rattle.spec_tableaux.specs.BoundsOverflows.{OverflowsValue};

use crate::changes::value_at;
use delta_num::Delta;
use simplex_bounds::deltas::{plus, scaled, zero};
use tableau::{Entry, Wide};

/// Gives the sum of entries at these values.
pub(crate) fn sum_at(values: &[Delta], entries: &[Entry]) -> Result<Delta, Wide>
    requires { AllVariables (λ y. y < length values.now) (entries_of entries.now) }
    ensures value { IfOk result (λ v. pair_of v
        ≡ sum_of deltas (point_in (map pair_of values.now)) (entries_of entries.now)) }
    ensures wide { IfErr result (λ w. OverflowsValue (point_in (map pair_of values.now)) (entries_of entries.now)
        (overflow w)) }
{
    let mut sum = zero();
    let mut rest = entries;
    while let Some((e, more)) = rest.split_first() {
        let value = value_at(values, e.variable);
        let product = scaled(e.coefficient, value)?;
        sum = plus(sum, product)?;
        rest = more;
    }
    Ok(sum)
}
