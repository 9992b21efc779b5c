//! A tableau with a value of each variable.

ghost use Rattle.std.specs.Prelude.{◌≡◌, ◌<◌, OnOk, OnErr, IfOk, IfErr};
ghost use Rattle.spec_tableaux.specs.Rows.{is_basic};
ghost use Rattle.spec_tableaux.specs.SolvedForms.{AllVariables};
ghost use Rattle.tableau.specs.Entries.{entries_of};
ghost use Rattle.tableau.specs.Views.{OnRowOverflow};
ghost use Rattle.simplex_bounds.specs.Deltas.{pair_of};
ghost use Rattle.simplex_check.specs.Assignments.{IsRealAssignment, IsBasisOf, state_of};
ghost use Rattle.spec_tableaux.specs.Points.{point_in};
ghost use Rattle.simplex_check.specs.Assignments.{empty_assignment, assignment_with_variable, assignment_with_sum};
ghost use Rattle.spec_tableaux.specs.BoundsOverflows.{OverflowsNew};

use crate::sums::sum_at;
use delta_num::Delta;
use no_memory::NoMemory;
use sat_budget::Basis;
use simplex_bounds::deltas::zero;
use std::alloc::Global;
use std::marker::Model;
use tableau::{Entry, RowStop, Tableau};

/// Holds a tableau with a value of each variable, so that the values solve the rows.
///
/// Contracts see the tableau and the values. Bounds are given to each call that looks at them.
/// Source: Dutertre and de Moura, A Fast Linear-Arithmetic Solver for DPLL(T), CAV 2006.
#[derive(Drop)]
pub struct RealAssignment {
    pub(crate) alloc: Global,
    pub(crate) tableau: Tableau,
    /// The value of each variable.
    pub(crate) values: Vec<Delta>,
}

impl Model for RealAssignment {
    ghost use Rattle.simplex_check.specs.Assignments.{AssignmentView};

    ghost Value = { AssignmentView };

    ghost use Rattle.simplex_check.specs.Kept.{assignment_view, AssignmentFits};

    ghost view = { assignment_view };

    ghost invariant = { AssignmentFits };
}

impl RealAssignment {
    /// Makes an assignment without variables. It takes no memory.
    pub fn new(alloc: Global) -> RealAssignment
        ensures { result ≡ empty_assignment }
    {
        RealAssignment {
            alloc,
            tableau: Tableau::new(alloc),
            values: Vec::new(alloc),
        }
    }

    /// States that there is a value of each variable, and that the values solve the rows.
    pub fn values_solve_the_rows(&self)
        ensures { IsRealAssignment self.now }
    {
        let _ = &self.values;
    }

    /// Adds a nonbasic variable, which is in no row, with the value 0. Its number is how many variables there were.
    ///
    /// `NoMemory` comes where there is no memory; then the assignment is as it was.
    pub fn add_var(&mut self) -> Result<(), NoMemory>
        ensures ok { OnOk result (self.new ≡ assignment_with_variable self.old) }
        ensures err { OnErr result (self.new ≡ self.old) }
    {
        self.values.reserve(1)?;
        self.tableau.add_var()?;
        self.values.push_reserved(zero());
        Ok(())
    }

    /// Adds a basic variable that is the sum of entries, which are in any order, with the value of this sum. Gives its
    /// number, which is how many variables there were.
    ///
    /// `Wide` comes where a coefficient or a value on the way leaves the bound on fractions, and `Memory` where there
    /// is no memory. The assignment is then as it was.
    pub fn add_row(&mut self, entries: &[Entry]) -> Result<u64, RowStop>
        requires { AllVariables (λ y. y < self.old.tableau.variables) (entries_of entries.now) }
        ensures ok { IfOk result (λ y. (y ≡ self.old.tableau.variables)
            × (self.new ≡ assignment_with_sum self.old (entries_of entries.now))) }
        ensures err { OnErr result (self.new ≡ self.old) }
        ensures wide { IfErr result (OnRowOverflow (OverflowsNew (state_of self.old) (entries_of entries.now))) }
    {
        self.tableau.rows_are_in_solved_form();
        let value = sum_at(&self.values, entries)?;
        self.values.reserve(1)?;
        let variable = self.tableau.variables_len();
        self.tableau.add_row(entries)?;
        self.values.push_reserved(value);
        Ok(variable)
    }

    /// Lends the tableau.
    pub fn tableau(&self) -> &Tableau
        ensures { result.now ≡ self.now.tableau }
    {
        &self.tableau
    }

    /// Tells whether a variable is basic. It takes the same time for each.
    pub(crate) fn is_basic(&self, y: u64) -> bool
        ensures { result ≡ is_basic y self.now.tableau.rows }
    {
        match self.tableau.row_of(y) {
            None => false,
            Some(_) => true,
        }
    }

    /// Gives the value of a variable by its number, and 0 where there is none. It takes no memory.
    pub fn value(&self, y: u64) -> Delta
        ensures { pair_of result ≡ point_in self.now.values y }
    {
        match self.values.get(y as usize) {
            None => zero(),
            Some(value) => *value,
        }
    }

    /// Lists the basic variables, in the order of their rows, and the values of all variables.
    ///
    /// `NoMemory` comes where a list finds no memory.
    pub fn basis(&self) -> Result<Basis, NoMemory>
        ensures { IfOk result (λ basis. IsBasisOf self.now basis) }
    {
        let mut variables = Vec::new(self.alloc);
        for row in 0..self.tableau.rows_len() {
            variables.push(self.tableau.basic(row))?;
        }
        let values = Vec::from_slice(self.alloc, &self.values)?;
        Ok(Basis { variables, values })
    }
}
