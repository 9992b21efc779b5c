//! Values that change together.

ghost use Rattle.std.specs.Prelude.{◌≡◌, ◌<◌, ℕ, length, map};
ghost use Rattle.simplex_bounds.specs.Deltas.{pair_of};
ghost use Rattle.spec_tableaux.specs.Points.{point_in};
ghost use Rattle.simplex_check.specs.Changes.{ChangesAreBelow, written};

use delta_num::Delta;

/// A variable and the value that it comes to.
#[derive(Clone, Copy)]
pub(crate) struct ValueChange {
    /// The number of the variable.
    pub(crate) variable: u64,
    /// The value.
    pub(crate) value: Delta,
}

/// Gives the value of a variable.
pub(crate) fn value_at(values: &[Delta], y: u64) -> Delta
    requires { y < length values.now }
    ensures { pair_of result ≡ point_in (map pair_of values.now) y }
{
    values[y as usize]
}

/// Makes changes of values, one after the other.
pub(crate) fn write(values: &mut Vec<Delta>, changes: &[ValueChange])
    requires { ChangesAreBelow (length values.old.items) changes.now }
    ensures lengths { length values.new.items ≡ length values.old.items }
    ensures point { (y : ℕ) → point_in (map pair_of values.new.items) y
        ≡ written changes.now (point_in (map pair_of values.old.items)) y }
{
    let mut rest = changes;
    while let Some((change, more)) = rest.split_first() {
        values[change.variable as usize] = change.value;
        rest = more;
    }
}
