//! The rows with an entry of a variable.

ghost use Rattle.std.specs.Prelude.{◌≡◌, ◌≢◌, ◌<◌, ◌↔◌, ◌⊎◌, ℕ, true, List, [], OnOk, OnErr, Contains, length, slice_index_or, vec_len, vec_capacity};
ghost use Rattle.spec_tableaux.specs.SolvedForms.{AllVariables};
ghost use Rattle.tableau.specs.Entries.{entries_of, rows_of};
ghost use Rattle.tableau.specs.Pivots.{changes_meant, AllNumbers};
ghost use Rattle.tableau.specs.Kept.{column_at, HasGrown, IsNoted, AreNoted, RowsAreNoted, Forgets, AreOverColumns};

use crate::entries::{Entry, Row};
use crate::pivots::RowChange;
use indexmap::IndexSet;
use no_memory::NoMemory;
use std::alloc::Global;
use std::marker::Model;

/// Holds row numbers in the order in which they came, none twice.
#[derive(Drop)]
pub(crate) struct Column {
    numbers: IndexSet<u64>,
}

impl Model for Column {
    ghost use Rattle.std.specs.Prelude.{ℕ, List};

    ghost Value = { List ℕ };

    ghost view = { λ c. c.numbers.keys };
}

impl Column {
    /// Makes the column of no rows. It takes no memory.
    pub(crate) fn new(alloc: Global) -> Column
        ensures { result ≡ [] }
    {
        Column {
            numbers: IndexSet::new(alloc),
        }
    }

    /// Adds a row number, if it is not there. `NoMemory` comes where it finds no memory; then the column is as it was.
    pub(crate) fn insert(&mut self, number: u64) -> Result<(), NoMemory>
        ensures ok { OnOk result ((k : ℕ) → Contains self.new k ↔ (Contains self.old k ⊎ (k ≡ number))) }
        ensures err { OnErr result (self.new ≡ self.old) }
    {
        let Ok(_) = self.numbers.insert(number) else {
            return Err(NoMemory);
        };
        Ok(())
    }

    /// Takes a row number out, if it is there. It takes no memory.
    fn remove(&mut self, number: u64)
        ensures { (k : ℕ) → Contains self.new k ↔ (Contains self.old k × (k ≢ number)) }
    {
        self.numbers.swap_remove(&number);
    }

    /// Takes all row numbers out. It takes no memory.
    pub(crate) fn clear(&mut self)
        ensures { self.new ≡ [] }
    {
        self.numbers.clear();
    }

    /// Lends the row numbers.
    pub(crate) fn as_slice(&self) -> &[u64]
        ensures same { result.now ≡ self.now }
        ensures once { (i j : ℕ) → i < length self.now → j < length self.now
            → slice_index_or self.now i 0 ≡ slice_index_or self.now j 0 → i ≡ j }
    {
        self.numbers.as_slice()
    }
}

/// Adds a row number to the column of a variable.
fn note(columns: &mut Vec<Column>, variable: u64, number: u64) -> Result<(), NoMemory>
    requires { variable < length columns.old.items }
    ensures len { vec_len columns.new ≡ vec_len columns.old }
    ensures capacity { vec_capacity columns.new ≡ vec_capacity columns.old }
    ensures grown { HasGrown (λ k. k ≡ number) columns.old.items columns.new.items }
    ensures noted { OnOk result (Contains (column_at columns.new.items variable) number) }
{
    columns[variable as usize].insert(number)
}

/// Gives the entries from a variable on, where they are in the order of their variables.
fn from_variable(entries: &[Entry], variable: u64) -> &[Entry]
    ensures { (columns : List (List ℕ)) (n : ℕ) → IsNoted columns n (entries_of entries.now)
        → IsNoted columns n (entries_of result.now) }
{
    let mut rest = entries;
    while let Some((e, more)) = rest.split_first() {
        if e.variable >= variable {
            return rest;
        }
        rest = more;
    }
    rest
}

/// Tells whether the first entry is one of a variable.
fn begins_with(entries: &[Entry], variable: u64) -> bool
    ensures { result ≡ true → (columns : List (List ℕ)) (n : ℕ) → IsNoted columns n (entries_of entries.now)
        → Contains (column_at columns variable) n }
{
    match entries.split_first() {
        None => false,
        Some((e, _)) => e.variable == variable,
    }
}

/// Adds a row number to the column of a variable, but where the first of these entries, in whose columns it is, is one of it.
fn note_unless(
    columns: &mut Vec<Column>,
    variable: u64,
    number: u64,
    known: &[Entry],
) -> Result<(), NoMemory>
    requires low { variable < length columns.old.items }
    requires known { IsNoted columns.old.items number (entries_of known.now) }
    ensures len { vec_len columns.new ≡ vec_len columns.old }
    ensures capacity { vec_capacity columns.new ≡ vec_capacity columns.old }
    ensures grown { HasGrown (λ k. k ≡ number) columns.old.items columns.new.items }
    ensures noted { OnOk result (Contains (column_at columns.new.items variable) number) }
{
    if begins_with(known, variable) {
        return Ok(());
    }
    note(columns, variable, number)
}

/// Adds a row number to the column of each variable of its entries. It is there already for those of the entries that the row had.
///
/// `NoMemory` comes where a column finds no memory. Those before it have the number then.
pub(crate) fn note_row(
    columns: &mut Vec<Column>,
    number: u64,
    before: &[Entry],
    entries: &[Entry],
) -> Result<(), NoMemory>
    requires over { AllVariables (λ y. y < length columns.old.items) (entries_of entries.now) }
    requires known { IsNoted columns.old.items number (entries_of before.now) }
    ensures len { vec_len columns.new ≡ vec_len columns.old }
    ensures capacity { vec_capacity columns.new ≡ vec_capacity columns.old }
    ensures grown { HasGrown (λ k. k ≡ number) columns.old.items columns.new.items }
    ensures noted { OnOk result (IsNoted columns.new.items number (entries_of entries.now)) }
{
    let mut known = before;
    let mut rest = entries;
    while let Some((e, more)) = rest.split_first() {
        known = from_variable(known, e.variable);
        note_unless(columns, e.variable, number, known)?;
        rest = more;
    }
    Ok(())
}

/// Adds the numbers of changes to the columns of their entries' variables. They are there already for those of the rows.
///
/// `NoMemory` comes where a column finds no memory. Those before it have the numbers then.
pub(crate) fn note_changes(
    columns: &mut Vec<Column>,
    rows: &[Row],
    made: &[RowChange],
) -> Result<(), NoMemory>
    requires over { AreOverColumns (length columns.old.items) (changes_meant made.now) }
    requires known { RowsAreNoted columns.old.items (rows_of rows.now) }
    requires numbered { AllNumbers (λ k. k < length rows.now) (changes_meant made.now) }
    ensures grown { (n : ℕ) → AllNumbers (λ k. k < n) (changes_meant made.now)
        → HasGrown (λ k. k < n) columns.old.items columns.new.items }
    ensures noted { OnOk result (AreNoted columns.new.items (changes_meant made.now)) }
{
    let mut rest = made;
    while let Some((change, more)) = rest.split_first() {
        let before = &rows[change.number as usize].entries;
        note_row(columns, change.number, before, &change.row.entries)?;
        rest = more;
    }
    Ok(())
}

/// Takes a row number out of all columns. It takes no memory.
pub(crate) fn forget(columns: &mut Vec<Column>, number: u64)
    ensures { Forgets number columns.old.items columns.new.items }
{
    let mut at = 0;
    'columns: while at < columns.len() {
        columns[at].remove(number);
        at += 1;
    }
}
