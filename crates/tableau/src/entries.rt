//! Entries of a row, in the order of their variables.

ghost use Rattle.std.specs.Prelude.{◌≡◌};
ghost use Rattle.spec_tableaux.specs.Rows.{coefficient_of};
ghost use Rattle.spec_tableaux.specs.Numbers.{numbers};
ghost use Rattle.tableau.specs.Numbers.{number_of};
ghost use Rattle.tableau.specs.Entries.{entries_of};

use crate::numbers::zero;
use ratio128::Ratio;

/// A variable and the coefficient before it.
#[derive(Clone, Copy, PartialEq, Eq, Debug)]
pub struct Entry {
    /// The variable, by its number.
    pub variable: u64,
    /// The coefficient. In a row it is not 0.
    pub coefficient: Ratio,
}

/// A row: the basic variable is the sum of the entries.
#[derive(Drop)]
pub struct Row {
    /// The basic variable, by its number.
    pub basic: u64,
    /// The entries, in the order of their variables.
    pub entries: Vec<Entry>,
}

/// Gives the coefficient of a variable, 0 where there is no entry of it.
pub fn coefficient(entries: &[Entry], variable: u64) -> Ratio
    ensures { number_of result ≡ coefficient_of numbers variable (entries_of entries.now) }
{
    let mut rest = entries;
    while let Some((e, more)) = rest.split_first() {
        if e.variable == variable {
            return e.coefficient;
        }
        rest = more;
    }
    zero()
}
