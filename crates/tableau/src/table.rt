//! A tableau: rows in solved form, with the row and the column of each variable.

ghost use Rattle.std.specs.Prelude.{◌≡◌, ◌<◌, ◌↔◌, ℕ, true, false, length, Contains, vec_len, vec_capacity, OnOk, OnErr, IfOk, IfErr, MatchOption};
ghost use Rattle.spec_tableaux.specs.Spaces.{as_space};
ghost use Rattle.spec_tableaux.specs.Rows.{coefficient_of, row_of, is_basic, Solves};
ghost use Rattle.spec_tableaux.specs.SolvedForms.{AllVariables, IsPivot, IsSolved};
ghost use Rattle.spec_tableaux.specs.CheckOverflows.{OverflowsExchange, OverflowsSum};
ghost use Rattle.spec_tableaux.specs.Numbers.{Number, numbers};
ghost use Rattle.tableau.specs.Numbers.{number_of};
ghost use Rattle.tableau.specs.Entries.{entries_of, rows_of};
ghost use Rattle.tableau.specs.Views.{empty, with_variable, with_sum, with_exchange, row_at, place};
ghost use Rattle.tableau.specs.Pivots.{changes_meant, exchange_changes};
ghost use Rattle.tableau.specs.Views.{IsTableau, IsColumn, OnRowOverflow};

use crate::columns::{Column, forget, note_changes, note_row};
use crate::entries::{Entry, Row, coefficient};
use crate::flattening::flattened;
use crate::pivots::{RowChange, changes_of, pivot_of, put_changes};
use crate::stops::RowStop;
use no_memory::NoMemory;
use ratio128::Ratio;
use std::alloc::Global;
use std::marker::Model;

/// Holds rows of linear equations in solved form: each row gives a basic variable as a sum of nonbasic ones.
///
/// Variables are numbered from 0 in the order in which they came, and so are rows. A row keeps its number when its
/// basic variable changes. Contracts see how many variables there are, the rows as they were added, and those of now.
/// Source: Dutertre and de Moura, A Fast Linear-Arithmetic Solver for DPLL(T), CAV 2006.
#[derive(Drop)]
pub struct Tableau {
    alloc: Global,
    /// The rows as they were added.
    listed: Vec<Row>,
    /// The rows of now.
    rows: Vec<Row>,
    /// For each variable the number of the row in which it is basic.
    places: Vec<Option<u64>>,
    /// For each variable the rows with an entry of it, and maybe more.
    columns: Vec<Column>,
}

impl Model for Tableau {
    ghost use Rattle.tableau.specs.Views.{TableauView};
    ghost use Rattle.tableau.specs.Kept.{tableau_view, TableauFits};

    ghost Value = { TableauView };

    ghost view = { tableau_view };

    ghost invariant = { TableauFits };
}

/// Gives the new rows of an exchange. The row of the leaving variable has the number that is given, and each row with
/// an entry of the entering one is in the column.
fn changes(
    alloc: Global,
    rows: &[Row],
    column: &[u64],
    number: u64,
    leaving: u64,
    entering: u64,
) -> Result<Vec<RowChange>, RowStop>
    requires solved { IsSolved numbers (rows_of rows.now) }
    requires pivot { IsPivot numbers (rows_of rows.now) leaving entering }
    requires low { number < length rows.now }
    requires row { row_of leaving (rows_of rows.now) ≡ row_at (rows_of rows.now) number }
    requires column { (k : ℕ) → Contains column.now k → k < length rows.now }
    ensures ok { IfOk result (λ made. changes_meant made.items
        ≡ exchange_changes (rows_of rows.now) column.now number leaving entering) }
    ensures wide { IfErr result (OnRowOverflow (OverflowsExchange (rows_of rows.now) leaving entering)) }
{
    let pivot = pivot_of(alloc, leaving, entering, &rows[number as usize].entries)?;
    changes_of(alloc, &pivot, rows, number, column)
}

/// Takes the memory for one row and one variable more.
fn reserve_one(
    listed: &mut Vec<Row>,
    rows: &mut Vec<Row>,
    places: &mut Vec<Option<u64>>,
    columns: &mut Vec<Column>,
) -> Result<(), NoMemory>
    ensures listed { listed.new.items ≡ listed.old.items }
    ensures rows { rows.new.items ≡ rows.old.items }
    ensures places { places.new.items ≡ places.old.items }
    ensures columns { columns.new.items ≡ columns.old.items }
    ensures listed_room { OnOk result (vec_len listed.new < vec_capacity listed.new) }
    ensures rows_room { OnOk result (vec_len rows.new < vec_capacity rows.new) }
    ensures places_room { OnOk result (vec_len places.new < vec_capacity places.new) }
    ensures columns_room { OnOk result (vec_len columns.new < vec_capacity columns.new) }
{
    listed.reserve(1)?;
    rows.reserve(1)?;
    places.reserve(1)?;
    columns.reserve(1)?;
    Ok(())
}

impl Tableau {
    /// Makes a tableau without variables and rows. It takes no memory.
    pub fn new(alloc: Global) -> Tableau
        ensures { result ≡ empty }
    {
        Tableau {
            alloc,
            listed: Vec::new(alloc),
            rows: Vec::new(alloc),
            places: Vec::new(alloc),
            columns: Vec::new(alloc),
        }
    }

    /// States that the rows are in solved form, over the variables, and have the solutions of those that were added.
    pub fn rows_are_in_solved_form(&self)
        ensures { IsTableau self.now }
    {
        let _ = &self.rows;
    }

    /// Counts the variables.
    pub fn variables_len(&self) -> u64
        ensures { result ≡ self.now.variables }
    {
        self.places.len() as u64
    }

    /// Counts the rows.
    pub fn rows_len(&self) -> u64
        ensures { result ≡ length self.now.rows }
    {
        self.rows.len() as u64
    }

    /// Gives the basic variable of a row.
    pub fn basic(&self, row: u64) -> u64
        requires { row < length self.now.rows }
        ensures { result ≡ (row_at self.now.rows row).basic }
    {
        self.rows[row as usize].basic
    }

    /// Lends the entries of a row, in the order of their variables. None of them is 0.
    pub fn entries(&self, row: u64) -> &[Entry]
        requires { row < length self.now.rows }
        ensures { entries_of result.now ≡ (row_at self.now.rows row).entries }
    {
        &self.rows[row as usize].entries
    }

    /// Gives the coefficient of a variable in a row, 0 where the row has no entry of it. It takes time in proportion to
    /// the row.
    pub fn entry(&self, row: u64, variable: u64) -> Ratio
        requires { row < length self.now.rows }
        ensures { number_of result ≡ coefficient_of numbers variable (row_at self.now.rows row).entries }
    {
        coefficient(self.entries(row), variable)
    }

    /// Gives the number of the row in which a variable is basic, None where it is nonbasic. It takes the same time for
    /// each.
    pub fn row_of(&self, variable: u64) -> Option<u64>
        ensures place { result ≡ place variable self.now.rows }
        ensures row { MatchOption result (is_basic variable self.now.rows ≡ false) (λ k.
            (k < length self.now.rows) × (is_basic variable self.now.rows ≡ true)
            × (row_of variable self.now.rows ≡ row_at self.now.rows k)) }
    {
        if variable < self.places.len() as u64 {
            return self.places[variable as usize];
        }
        None
    }

    /// Lends the numbers of rows, none twice, among which is each row with an entry of a variable.
    pub fn column(&self, variable: u64) -> &[u64]
        ensures { IsColumn self.now.rows variable result.now }
    {
        if variable < self.columns.len() as u64 {
            return self.columns[variable as usize].as_slice();
        }
        &[]
    }

    /// Adds a nonbasic variable, which is in no row. Its number is how many variables there were.
    ///
    /// `NoMemory` comes where there is no memory; then the tableau is as it was.
    pub fn add_var(&mut self) -> Result<(), NoMemory>
        ensures ok { OnOk result (self.new ≡ with_variable self.old) }
        ensures err { OnErr result (self.new ≡ self.old) }
    {
        self.places.reserve(1)?;
        self.columns.reserve(1)?;
        self.places.push_reserved(None);
        self.columns.push_reserved(Column::new(self.alloc));
        Ok(())
    }

    /// Adds a variable that is the sum of entries, which are in any order, and its row, in which it is basic. Basic
    /// variables of the entries are replaced by their rows. Gives the row's number. The variable's is how many
    /// variables there were.
    ///
    /// `Wide` comes where a coefficient on the way leaves the bound on fractions, and `Memory` where there is no memory.
    /// The tableau is then as it was.
    pub fn add_row(&mut self, entries: &[Entry]) -> Result<u64, RowStop>
        requires { AllVariables (λ y. y < self.old.variables) (entries_of entries.now) }
        ensures ok { IfOk result (λ k. (k ≡ length self.old.rows)
            × (self.new ≡ with_sum self.old (entries_of entries.now))) }
        ensures err { OnErr result (self.new ≡ self.old) }
        ensures wide { IfErr result (OnRowOverflow (OverflowsSum self.old.rows (entries_of entries.now))) }
    {
        let number = self.rows.len() as u64;
        let basic = self.places.len() as u64;
        let made = flattened(self.alloc, &self.rows, &self.places, entries)?;
        let copy = entries.to_vec(self.alloc)?;
        reserve_one(
            &mut self.listed,
            &mut self.rows,
            &mut self.places,
            &mut self.columns,
        )?;
        if note_row(&mut self.columns, number, &[], &made).is_err() {
            forget(&mut self.columns, number);
            return Err(RowStop::Memory);
        }
        self.listed.push_reserved(Row {
            basic,
            entries: copy,
        });
        self.rows.push_reserved(Row {
            basic,
            entries: made,
        });
        self.places.push_reserved(Some(number));
        self.columns.push_reserved(Column::new(self.alloc));
        Ok(number)
    }

    /// Exchanges a basic variable and a nonbasic one that its row has an entry of. Rows keep their numbers.
    ///
    /// `Wide` comes where a coefficient on the way leaves the bound on fractions, and `Memory` where there is no memory.
    /// The tableau is then as it was.
    pub fn pivot(&mut self, leaving: u64, entering: u64) -> Result<(), RowStop>
        requires { IsPivot numbers self.old.rows leaving entering }
        ensures ok { OnOk result (self.new ≡ with_exchange self.old leaving entering) }
        ensures err { OnErr result (self.new ≡ self.old) }
        ensures wide { IfErr result (OnRowOverflow (OverflowsExchange self.old.rows leaving entering)) }
        ensures variables { self.new.variables ≡ self.old.variables }
        ensures listed { self.new.listed ≡ self.old.listed }
        ensures keeps { (v : ℕ → Number) → Solves (as_space numbers) v self.new.rows
            ↔ Solves (as_space numbers) v self.old.rows }
    {
        let Some(number) = self.row_of(leaving) else {
            return Ok(());
        };
        let made = changes(
            self.alloc,
            &self.rows,
            self.columns[entering as usize].as_slice(),
            number,
            leaving,
            entering,
        )?;
        note_changes(&mut self.columns, &self.rows, &made)?;
        put_changes(&mut self.rows, made);
        self.places[leaving as usize] = None;
        self.places[entering as usize] = Some(number);
        self.columns[entering as usize].clear();
        Ok(())
    }
}
