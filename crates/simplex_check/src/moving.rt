//! The values that follow where a nonbasic variable moves.

ghost use Rattle.std.specs.Prelude.{◌≡◌, ◌<◌, true, length, map, IfOk, IfErr};
ghost use Rattle.spec_tableaux.specs.SolvedForms.{IsNonbasic};
ghost use Rattle.spec_tableaux.specs.LeastVariable.{moved};
ghost use Rattle.tableau.specs.Views.{row_at, OnRowOverflow};
ghost use Rattle.simplex_bounds.specs.Deltas.{pair_of};
ghost use Rattle.spec_tableaux.specs.Points.{deltas, point_in, state_at};
ghost use Rattle.simplex_check.specs.Changes.{ChangesAreBelow, Lead, is_changed};
ghost use Rattle.spec_tableaux.specs.BoundsOverflows.{OverflowsMove};

use crate::changes::{ValueChange, value_at};
use delta_num::Delta;
use simplex_bounds::deltas::{plus, scaled};
use std::alloc::Global;
use tableau::{RowStop, Tableau};

/// Gives what the basic variable of a row comes to where a nonbasic variable x is greater by d.
fn follower(
    tableau: &Tableau,
    values: &[Delta],
    row: u64,
    x: u64,
    d: Delta,
) -> Result<ValueChange, RowStop>
    requires lengths { length values.now ≡ tableau.now.variables }
    requires row { row < length tableau.now.rows }
    ensures variable { IfOk result (λ c. c.variable ≡ (row_at tableau.now.rows row).basic) }
    ensures known { IfOk result (λ c. c.variable < tableau.now.variables) }
    ensures value { IfOk result (λ c. pair_of c.value
        ≡ moved deltas tableau.now.rows x (pair_of d) (point_in (map pair_of values.now)) c.variable) }
    ensures wide { IfErr result (OnRowOverflow (OverflowsMove (state_at tableau.now.rows (map pair_of values.now)) x
        (pair_of d))) }
{
    tableau.rows_are_in_solved_form();
    let variable = tableau.basic(row);
    let coefficient = tableau.entry(row, x);
    let step = scaled(coefficient, d)?;
    let old = value_at(values, variable);
    let value = plus(old, step)?;
    Ok(ValueChange { variable, value })
}

/// Gives what variables come to where a nonbasic one changes by d: first this one, then basic ones. It takes time in
/// proportion to the rows with an entry of the nonbasic variable, and their entries.
pub(crate) fn changes_of(
    alloc: Global,
    tableau: &Tableau,
    values: &[Delta],
    first: ValueChange,
    d: Delta,
) -> Result<Vec<ValueChange>, RowStop>
    requires lengths { length values.now ≡ tableau.now.variables }
    requires known { first.variable < tableau.now.variables }
    requires nonbasic { IsNonbasic tableau.now.rows first.variable }
    requires start { pair_of first.value ≡ deltas.plus (point_in (map pair_of values.now) first.variable) (pair_of d) }
    ensures known { IfOk result (λ cs. ChangesAreBelow tableau.now.variables cs.items) }
    ensures first { IfOk result (λ cs. is_changed first.variable cs.items ≡ true) }
    ensures lead { IfOk result (λ cs. Lead (point_in (map pair_of values.now))
        (moved deltas tableau.now.rows first.variable (pair_of d) (point_in (map pair_of values.now))) cs.items) }
    ensures wide { IfErr result (OnRowOverflow (OverflowsMove (state_at tableau.now.rows (map pair_of values.now))
        first.variable
        (pair_of d))) }
{
    let mut changes = Vec::new(alloc);
    changes.push(first)?;
    let column = tableau.column(first.variable);
    for row in column {
        let change = follower(tableau, values, *row, first.variable, d)?;
        changes.push(change)?;
    }
    Ok(changes)
}
