//! What an pivot of two variables makes of rows.

ghost use Rattle.std.specs.Prelude.{◌≡◌, ◌==◌, ◌++◌, ◌∷◌, [], ◌<◌, ℕ, false, length, Contains, OnOk, IfOk, IfErr};
ghost use Rattle.spec_tableaux.specs.Rows as definitions;
ghost use Rattle.spec_tableaux.specs.Rows.{coefficient_of};
ghost use Rattle.spec_tableaux.specs.SolvedForms.{IsTidy, AllVariables};
ghost use Rattle.spec_tableaux.specs.Numbers.{numbers};
ghost use Rattle.tableau.specs.Numbers.{number_of};
ghost use Rattle.tableau.specs.Entries.{entries_of, row_meant, rows_of};
ghost use Rattle.tableau.specs.Pivots.{pivot_meant, changes_meant, changes_in, with_changes, AllNumbers};
ghost use Rattle.tableau.specs.Pivots.{OverflowsQuotients, OverflowsPivot, OverflowsRow, OverflowsOther, IsTidyPivot, AreReady};
ghost use Rattle.tableau.specs.Views.{OnRowOverflow};

use crate::entries::{Entry, Row, coefficient};
use crate::numbers::{is_zero, negative, one, product, quotient};
use crate::stops::RowStop;
use crate::sums::{merge, put_new, without};
use no_memory::NoMemory;
use ratio128::Ratio;
use std::alloc::Global;

/// A row's equation divided by the coefficient of its entering variable, which is factor times the leaving variable
/// minus the sum of the others.
#[derive(Drop)]
pub(crate) struct Pivot {
    pub(crate) leaving: u64,
    pub(crate) entering: u64,
    pub(crate) factor: Ratio,
    pub(crate) others: Vec<Entry>,
}

/// A new row, with the number under which it is kept.
#[derive(Drop)]
pub(crate) struct RowChange {
    pub(crate) number: u64,
    pub(crate) row: Row,
}

/// Gives the entries with each coefficient divided by a number.
fn quotients(alloc: Global, entries: &[Entry], d: Ratio) -> Result<Vec<Entry>, RowStop>
    requires { numbers.is_zero (number_of d) ≡ false }
    ensures ok { IfOk result (λ v. entries_of v.items
        ≡ definitions.quotients numbers (number_of d) (entries_of entries.now)) }
    ensures wide { IfErr result (OnRowOverflow (OverflowsQuotients (entries_of entries.now) (number_of d))) }
{
    let mut out = Vec::new(alloc);
    out.reserve(entries.len())?;
    let mut rest = entries;
    while let Some((e, more)) = rest.split_first() {
        let divided = quotient(e.coefficient, d)?;
        out.push(Entry {
            variable: e.variable,
            coefficient: divided,
        })?;
        rest = more;
    }
    Ok(out)
}

/// Gives the entries with each coefficient negated.
fn negated(alloc: Global, entries: &[Entry]) -> Result<Vec<Entry>, NoMemory>
    ensures { IfOk result (λ v. entries_of v.items ≡ definitions.negated numbers (entries_of entries.now)) }
{
    let mut out = Vec::new(alloc);
    // One more is put in by a pivot.
    out.reserve(entries.len().saturating_add(1))?;
    let mut rest = entries;
    while let Some((e, more)) = rest.split_first() {
        out.push(Entry {
            variable: e.variable,
            coefficient: negative(e.coefficient),
        })?;
        rest = more;
    }
    Ok(out)
}

/// Solves the row `leaving = entries` for the entering variable.
pub(crate) fn pivot_of(
    alloc: Global,
    leaving: u64,
    entering: u64,
    entries: &[Entry],
) -> Result<Pivot, RowStop>
    requires { numbers.is_zero (coefficient_of numbers entering (entries_of entries.now)) ≡ false }
    ensures ok { IfOk result (λ p. pivot_meant p
        ≡ definitions.pivot_of numbers leaving entering (entries_of entries.now)) }
    ensures wide { IfErr result (OnRowOverflow (OverflowsPivot entering (entries_of entries.now))) }
{
    let d = coefficient(entries, entering);
    let factor = quotient(one(), d)?;
    let rest = without(alloc, entries, entering)?;
    let others = quotients(alloc, &rest, d)?;
    Ok(Pivot {
        leaving,
        entering,
        factor,
        others,
    })
}

/// Gives the row of the entering variable.
pub(crate) fn pivot_row(alloc: Global, pivot: &Pivot) -> Result<Row, NoMemory>
    requires { IsTidyPivot (pivot_meant pivot.now) }
    ensures { IfOk result (λ r. row_meant r ≡ definitions.pivot_row numbers (pivot_meant pivot.now)) }
{
    let mut entries = negated(alloc, &pivot.others)?;
    put_new(&mut entries, pivot.leaving, pivot.factor)?;
    Ok(Row {
        basic: pivot.entering,
        entries,
    })
}

/// Gives entries with the entering variable, whose coefficient is not 0, replaced by its sum.
fn substituted(
    alloc: Global,
    pivot: &Pivot,
    c: Ratio,
    entries: &[Entry],
) -> Result<Vec<Entry>, RowStop>
    requires ready { IsTidyPivot (pivot_meant pivot.now) }
    requires tidy { IsTidy numbers 0 (entries_of entries.now) }
    requires new { AllVariables (λ y. (y == pivot.now.leaving) ≡ false) (entries_of entries.now) }
    requires there { numbers.is_zero (number_of c) ≡ false }
    ensures ok { IfOk result (λ v. entries_of v.items
        ≡ definitions.substituted numbers (pivot_meant pivot.now) (number_of c) (entries_of entries.now)) }
    ensures wide { IfErr result (OnRowOverflow (OverflowsRow (pivot_meant pivot.now) (number_of c)
        (entries_of entries.now))) }
{
    let scaled = product(c, pivot.factor)?;
    let rest = without(alloc, entries, pivot.entering)?;
    let mut merged = merge(alloc, &rest, c, &pivot.others, true)?;
    put_new(&mut merged, pivot.leaving, scaled)?;
    Ok(merged)
}

/// Adds the new row of a number to the changes, if the exchange changes it and it is not that of the leaving variable.
fn add_change(
    alloc: Global,
    pivot: &Pivot,
    rows: &[Row],
    number: u64,
    made: &mut Vec<RowChange>,
) -> Result<(), RowStop>
    requires low { number < length rows.now }
    requires ready { AreReady (pivot_meant pivot.now) (rows_of rows.now) }
    ensures ok { OnOk result (changes_meant made.new.items ≡ changes_meant made.old.items
        ++ changes_in (pivot_meant pivot.now) (rows_of rows.now) (number ∷ [])) }
    ensures wide { IfErr result (OnRowOverflow (OverflowsOther (pivot_meant pivot.now) (rows_of rows.now))) }
{
    let row = &rows[number as usize];
    if row.basic == pivot.leaving {
        return Ok(());
    }
    let c = coefficient(&row.entries, pivot.entering);
    if is_zero(c) {
        return Ok(());
    }
    let basic = row.basic;
    let entries = substituted(alloc, pivot, c, &row.entries)?;
    made.push(RowChange {
        number,
        row: Row { basic, entries },
    })?;
    Ok(())
}

/// Gives the new rows of an exchange: that of the entering variable, which comes under a number, and those of a column
/// that the exchange changes.
pub(crate) fn changes_of(
    alloc: Global,
    pivot: &Pivot,
    rows: &[Row],
    number: u64,
    column: &[u64],
) -> Result<Vec<RowChange>, RowStop>
    requires column { (k : ℕ) → Contains column.now k → k < length rows.now }
    requires ready { AreReady (pivot_meant pivot.now) (rows_of rows.now) }
    ensures ok { IfOk result (λ made. changes_meant made.items
        ≡ record { number = number; row = definitions.pivot_row numbers (pivot_meant pivot.now) }
        ∷ changes_in (pivot_meant pivot.now) (rows_of rows.now) column.now) }
    ensures wide { IfErr result (OnRowOverflow (OverflowsOther (pivot_meant pivot.now) (rows_of rows.now))) }
{
    let row = pivot_row(alloc, pivot)?;
    let mut made = Vec::new(alloc);
    made.reserve(column.len().saturating_add(1))?;
    made.push(RowChange { number, row })?;
    let mut rest = column;
    while let Some((k, more)) = rest.split_first() {
        add_change(alloc, pivot, rows, *k, &mut made)?;
        rest = more;
    }
    Ok(made)
}

/// Puts new rows in the places of their numbers. It takes no memory.
pub(crate) fn put_changes(rows: &mut Vec<Row>, made: Vec<RowChange>)
    requires { AllNumbers (λ k. k < length rows.old.items) (changes_meant made.items) }
    ensures { rows_of rows.new.items ≡ with_changes (rows_of rows.old.items) (changes_meant made.items) }
{
    let mut left = made;
    while let Some(change) = left.pop() {
        let RowChange { number, row } = change;
        rows[number as usize] = row;
    }
}
