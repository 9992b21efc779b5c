//! The steps of a check: a nonbasic variable moves, and two variables are exchanged.

ghost use Rattle.std.specs.Prelude.{◌≡◌, ◌<◌, ℕ, ◌==◌, true, false, OnOk, OnErr, IfOk, IfErr};
ghost use Rattle.spec_tableaux.specs.Rows.{is_basic};
ghost use Rattle.spec_tableaux.specs.SolvedForms.{IsNonbasic};
ghost use Rattle.spec_tableaux.specs.Ranges.{value_in_range};
ghost use Rattle.spec_tableaux.specs.LeastVariable.{RuleSays, Exchanges, exchange, distance, moved};
ghost use Rattle.tableau.specs.Numbers.{number_of};
ghost use Rattle.tableau.specs.Views.{OnRowOverflow};
ghost use Rattle.simplex_bounds.specs.Deltas.{pair_of};
ghost use Rattle.spec_tableaux.specs.Points.{deltas, point_in};
ghost use Rattle.simplex_bounds.specs.Held.{ranges_in};
ghost use Rattle.simplex_check.specs.Assignments.{IsRealAssignment, state_of};
ghost use Rattle.spec_tableaux.specs.BoundsOverflows.{coefficient_in, OverflowsMove, CheckOverflows};
ghost use Rattle.simplex_check.specs.Ends.{IsStopOf};
ghost use Rattle.simplex_check.specs.Suspects.{Suspect, SuspectBut, HaveSuspects};

use crate::assignment::RealAssignment;
use crate::changes::{ValueChange, write};
use crate::moving::changes_of;
use crate::ranges::{goal_of, violated};
use crate::suspects::Suspects;
use delta_num::Delta;
use sat_budget::{Stop, Strain};
use simplex_bounds::Bounds;
use simplex_bounds::deltas::{divided, minus, plus};
use simplex_bounds::ranges::below;
use tableau::numbers::zero;
use tableau::{Ratio, RowStop};

impl RealAssignment {
    /// Lets a nonbasic variable change by d, and the basic ones follow. Each variable whose value changes is a suspect then. On a
    /// stop the assignment is as it was.
    fn shift(
        &mut self,
        first: ValueChange,
        d: Delta,
        suspects: &mut Suspects,
    ) -> Result<(), RowStop>
        requires known { first.variable < self.old.tableau.variables }
        requires nonbasic { IsNonbasic self.old.tableau.rows first.variable }
        requires start { pair_of first.value ≡ deltas.plus (point_in self.old.values first.variable) (pair_of d) }
        ensures assignment { IsRealAssignment self.new }
        ensures tableau { self.new.tableau ≡ self.old.tableau }
        ensures values { OnOk result ((y : ℕ) → point_in self.new.values y
            ≡ moved deltas self.old.tableau.rows first.variable (pair_of d) (point_in self.old.values) y) }
        ensures suspect { OnOk result (HaveSuspects self.old.values self.new.values suspects.old suspects.new) }
        ensures same { OnErr result (self.new ≡ self.old) }
        ensures wide { IfErr result (OnRowOverflow (OverflowsMove (state_of self.old) first.variable (pair_of d))) }
    {
        self.tableau.rows_are_in_solved_form();
        let changes = changes_of(self.alloc, &self.tableau, &self.values, first, d)?;
        suspects.add_all(&changes)?;
        write(&mut self.values, &changes);
        Ok(())
    }

    /// Lets a nonbasic variable go to the bound that it violates, if there is one. Each variable whose value changes is a
    /// suspect then. On a stop the assignment is as it was.
    pub(crate) fn update_one(
        &mut self,
        bounds: &Bounds,
        y: u64,
        suspects: &mut Suspects,
    ) -> Result<(), RowStop>
        requires known { y < self.old.tableau.variables }
        requires nonbasic { IsNonbasic self.old.tableau.rows y }
        ensures assignment { IsRealAssignment self.new }
        ensures tableau { self.new.tableau ≡ self.old.tableau }
        ensures nonbasic_updated { OnOk result (point_in self.new.values y
            ≡ value_in_range deltas (ranges_in bounds.now.held y) (point_in self.old.values y)) }
        ensures others { (z : ℕ) → IsNonbasic self.old.tableau.rows z → (z == y) ≡ false
            → point_in self.new.values z ≡ point_in self.old.values z }
        ensures suspect { OnOk result (HaveSuspects self.old.values self.new.values suspects.old suspects.new) }
        ensures same { OnErr result (self.new ≡ self.old) }
        ensures wide { IfErr result (OnRowOverflow (CheckOverflows (ranges_in bounds.now.held) (state_of self.old))) }
    {
        self.values_solve_the_rows();
        let value = self.value(y);
        let Some(bound) = violated(bounds.range(y), value) else {
            return Ok(());
        };
        let d = minus(bound, value)?;
        let first = ValueChange {
            variable: y,
            value: bound,
        };
        self.shift(first, d, suspects)
    }

    /// Gives the coefficient of x in the row of a basic variable.
    fn entry_in(&self, b: u64, x: u64) -> Ratio
        requires { is_basic b self.now.tableau.rows ≡ true }
        ensures { number_of result ≡ coefficient_in self.now.tableau.rows b x }
    {
        match self.tableau.row_of(b) {
            None => zero(),
            Some(row) => self.tableau.entry(row, x),
        }
    }

    /// Gives how far the entering variable has to move so that the leaving one comes to the bound that it violates.
    fn distance_of(&self, bounds: &Bounds, leaving: u64, entering: u64) -> Result<Delta, RowStop>
        requires { RuleSays deltas (ranges_in bounds.now.held) (state_of self.now) (exchange leaving entering) }
        ensures exact { IfOk result (λ d. pair_of d
            ≡ distance deltas (ranges_in bounds.now.held) (state_of self.now) leaving entering) }
        ensures wide { IfErr result (OnRowOverflow (CheckOverflows (ranges_in bounds.now.held) (state_of self.now))) }
    {
        let value = self.value(leaving);
        let range = bounds.range(leaving);
        let goal = goal_of(range, below(value, range.lower));
        let difference = minus(goal, value)?;
        let quotient = divided(difference, self.entry_in(leaving, entering))?;
        Ok(quotient)
    }

    /// Makes an exchange that the rule says: the leaving variable comes to the bound that it violates. Each variable
    /// whose value changes is a suspect then. On a stop the assignment is as it was.
    pub(crate) fn exchange(
        &mut self,
        bounds: &Bounds,
        leaving: u64,
        entering: u64,
        suspects: &mut Suspects,
    ) -> Result<(), RowStop>
        requires says { RuleSays deltas (ranges_in bounds.now.held) (state_of self.old) (exchange leaving entering) }
        requires suspect { SuspectBut (ranges_in bounds.now.held) (state_of self.old) leaving suspects.old }
        ensures suspect { OnOk result (Suspect (ranges_in bounds.now.held) (state_of self.new) suspects.new) }
        ensures variables { self.new.tableau.variables ≡ self.old.tableau.variables }
        ensures listed { self.new.tableau.listed ≡ self.old.tableau.listed }
        ensures made { OnOk result (Exchanges deltas (ranges_in bounds.now.held) (state_of self.old) leaving entering
            (state_of self.new)) }
        ensures same { OnErr result (self.new ≡ self.old) }
        ensures wide { IfErr result (OnRowOverflow (CheckOverflows (ranges_in bounds.now.held) (state_of self.old))) }
    {
        self.tableau.rows_are_in_solved_form();
        let d = self.distance_of(bounds, leaving, entering)?;
        let value = plus(self.value(entering), d)?;
        let first = ValueChange {
            variable: entering,
            value,
        };
        let changes = changes_of(self.alloc, &self.tableau, &self.values, first, d)?;
        suspects.add_all(&changes)?;
        self.tableau.pivot(leaving, entering)?;
        write(&mut self.values, &changes);
        Ok(())
    }

    /// Tells of a stop with the basic variables and the values; `Memory` where their lists find no memory.
    pub(crate) fn stop_of(&self, stop: RowStop) -> Stop
        ensures { IsStopOf self.now stop result }
    {
        match stop {
            RowStop::Memory => Stop::Memory,
            RowStop::Wide(wide) => match self.basis() {
                Ok(basis) => Stop::Strained(Strain { wide, basis }),
                Err(_) => Stop::Memory,
            },
        }
    }
}
