//! Sums in which basic variables are replaced by their rows.

ghost use Rattle.std.specs.Prelude.{◌≡◌, ◌<◌, [], length, IfOk, IfErr};
ghost use Rattle.spec_tableaux.specs.Rows as definitions;
ghost use Rattle.spec_tableaux.specs.SolvedForms.{IsTidy, AllVariables, AreTidy};
ghost use Rattle.spec_tableaux.specs.CheckOverflows.{OverflowsSum};
ghost use Rattle.spec_tableaux.specs.Numbers.{numbers};
ghost use Rattle.tableau.specs.Entries.{entry_of, entries_of, rows_of};
ghost use Rattle.tableau.specs.Flattenings.{OverflowsOne};
ghost use Rattle.tableau.specs.Kept.{ArePlaces};
ghost use Rattle.tableau.specs.Views.{OnRowOverflow, row_at};

use crate::entries::{Entry, Row};
use crate::stops::RowStop;
use crate::sums::{merge, put};
use std::alloc::Global;

/// Lends the entries of a row.
fn entries_at(rows: &[Row], number: u64) -> &[Entry]
    requires { number < length rows.now }
    ensures { entries_of result.now ≡ (row_at (rows_of rows.now) number).entries }
{
    &rows[number as usize].entries
}

/// Adds an entry to a sum, the variable by its row where it is basic.
fn with_flattened(
    alloc: Global,
    rows: &[Row],
    places: &[Option<u64>],
    es: &[Entry],
    g: Entry,
) -> Result<Vec<Entry>, RowStop>
    requires low { g.variable < length places.now }
    requires places { ArePlaces (rows_of rows.now) places.now }
    requires rows_tidy { AreTidy numbers (rows_of rows.now) }
    requires tidy { IsTidy numbers 0 (entries_of es.now) }
    ensures ok { IfOk result (λ v. entries_of v.items
        ≡ definitions.with_flattened numbers (rows_of rows.now) (entries_of es.now) (entry_of g)) }
    ensures wide { IfErr result (OnRowOverflow (OverflowsOne (rows_of rows.now) (entries_of es.now) (entry_of g))) }
{
    let Some(k) = places[g.variable as usize] else {
        return put(alloc, es, g.variable, g.coefficient);
    };
    merge(alloc, es, g.coefficient, entries_at(rows, k), false)
}

/// Sums up entries, in any order, with basic variables replaced by their rows.
pub(crate) fn flattened(
    alloc: Global,
    rows: &[Row],
    places: &[Option<u64>],
    entries: &[Entry],
) -> Result<Vec<Entry>, RowStop>
    requires low { AllVariables (λ y. y < length places.now) (entries_of entries.now) }
    requires places { ArePlaces (rows_of rows.now) places.now }
    requires rows_tidy { AreTidy numbers (rows_of rows.now) }
    ensures ok { IfOk result (λ v. entries_of v.items
        ≡ definitions.flattened numbers (rows_of rows.now) [] (entries_of entries.now)) }
    ensures wide { IfErr result (OnRowOverflow (OverflowsSum (rows_of rows.now) (entries_of entries.now))) }
{
    let mut total = Vec::new(alloc);
    let mut rest = entries;
    while let Some((g, more)) = rest.split_first() {
        total = with_flattened(alloc, rows, places, &total, *g)?;
        rest = more;
    }
    Ok(total)
}
