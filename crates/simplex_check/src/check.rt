//! The feasibility check.

ghost use Rattle.std.specs.Prelude.{◌≡◌, ◌≤◌, ◌<◌, ◌+◌, ◌^◌, ℕ, true, length, OnOk, OnErr, IfOk, IfErr};
ghost use Rattle.spec_tableaux.specs.LeastVariable.{RuleSays, Exchanges, UpdatesNonbasic, exchange};
ghost use Rattle.spec_tableaux.specs.Points.{deltas};
ghost use Rattle.spec_tableaux.specs.Runs.{CheckRepeatsNoState};
ghost use Rattle.simplex_bounds.specs.Held.{ranges_in};
ghost use Rattle.simplex_check.specs.Assignments.{IsRealAssignment, state_of};
ghost use Rattle.simplex_check.specs.Ends.{EndsCheck, StopsStep, StopsUpdating};
ghost use Rattle.simplex_check.specs.Suspects.{is_among, Suspect, SuspectBut, KeepsFirst, AreDue, LooksAt};

use crate::assignment::RealAssignment;
use crate::rule::Move;
use crate::suspects::Suspects;
use no_memory::NoMemory;
use sat_budget::{Budget, Stop};
use simplex_bounds::Bounds;

/// Says what a check found.
#[derive(Clone, Copy, PartialEq, Eq, Debug)]
pub enum CheckOutcome {
    /// The values keep each bound.
    Fine,
    /// The bounds of this variable cross; it is the least of which they do.
    Crossed(u64),
    /// This basic variable violates a bound, and no variable of its row can move, so that no values keep each bound.
    Conflict(u64),
}

impl RealAssignment {
    /// Lists the variables of the bounds from a place on. `NoMemory` comes where the list finds no memory.
    fn due(&self, bounds: &Bounds, from: u64) -> Result<Suspects, NoMemory>
        ensures due { IfOk result (λ due. AreDue from bounds.now.held due) }
        ensures known { IfOk result (λ due. (z : ℕ) → is_among z due ≡ true → z < bounds.now.variables) }
    {
        bounds.held_are_of_variables();
        let mut due = Suspects::new(self.alloc);
        for place in from..bounds.held_len() {
            due.add(bounds.held_at(place).variable)?;
        }
        Ok(due)
    }

    /// Looks at a variable: a nonbasic one goes to the bound that it violates, and a basic one is a suspect then.
    fn look_at(&mut self, bounds: &Bounds, y: u64, suspects: &mut Suspects) -> Result<(), Stop>
        requires known { y < self.old.tableau.variables }
        ensures assignment { IsRealAssignment self.new }
        ensures tableau { self.new.tableau ≡ self.old.tableau }
        ensures looked { OnOk result (LooksAt (ranges_in bounds.now.held) y (state_of self.old) (state_of self.new)
            suspects.old suspects.new) }
        ensures stops { IfErr result (λ stop. (self.new ≡ self.old)
            × StopsStep (ranges_in bounds.now.held) self.new stop) }
    {
        self.values_solve_the_rows();
        if self.is_basic(y) {
            return match suspects.add(y) {
                Ok(()) => Ok(()),
                Err(_) => Err(Stop::Memory),
            };
        }
        match self.update_one(bounds, y, suspects) {
            Ok(()) => Ok(()),
            Err(stop) => Err(self.stop_of(stop)),
        }
    }

    /// Lets each nonbasic variable that violates a bound go to it, the least first, where the values keep the first bounds, as
    /// many as `kept` says. Gives variables among which are all basic ones that violate a bound then.
    fn update_nonbasic(&mut self, bounds: &Bounds, kept: u64) -> Result<Suspects, Stop>
        requires known { bounds.now.variables ≤ self.old.tableau.variables }
        requires kept { KeepsFirst kept bounds.now.held self.old.values }
        ensures tableau { self.new.tableau ≡ self.old.tableau }
        ensures updates_nonbasic { IfOk result (λ suspects. UpdatesNonbasic deltas (ranges_in bounds.now.held)
            (state_of self.old)
            (state_of self.new) × Suspect (ranges_in bounds.now.held) (state_of self.new) suspects) }
        ensures stops { IfErr result (λ stop. StopsUpdating (ranges_in bounds.now.held) self.old self.new stop) }
    {
        self.values_solve_the_rows();
        bounds.held_are_of_variables();
        let mut due = match self.due(bounds, kept) {
            Ok(due) => due,
            Err(_) => return Err(Stop::Memory),
        };
        let mut suspects = Suspects::new(self.alloc);
        while let Some(y) = due.pop() {
            match self.look_at(bounds, y, &mut suspects) {
                Ok(()) => {}
                Err(stop) => return Err(stop),
            }
        }
        Ok(suspects)
    }

    /// Makes an exchange that the rule says, and tells of a stop.
    fn exchange_or_stop(
        &mut self,
        bounds: &Bounds,
        leaving: u64,
        entering: u64,
        suspects: &mut Suspects,
    ) -> Result<(), Stop>
        requires says { RuleSays deltas (ranges_in bounds.now.held) (state_of self.old) (exchange leaving entering) }
        requires suspect { SuspectBut (ranges_in bounds.now.held) (state_of self.old) leaving suspects.old }
        ensures suspect { OnOk result (Suspect (ranges_in bounds.now.held) (state_of self.new) suspects.new) }
        ensures variables { self.new.tableau.variables ≡ self.old.tableau.variables }
        ensures listed { self.new.tableau.listed ≡ self.old.tableau.listed }
        ensures made { OnOk result (Exchanges deltas (ranges_in bounds.now.held) (state_of self.old) leaving entering
            (state_of self.new)) }
        ensures same { OnErr result (self.new ≡ self.old) }
        ensures stops { IfErr result (λ stop. StopsStep (ranges_in bounds.now.held) self.new stop) }
    {
        match self.exchange(bounds, leaving, entering, suspects) {
            Ok(()) => Ok(()),
            Err(stop) => Err(self.stop_of(stop)),
        }
    }

    /// Looks for values that solve the rows and keep the bounds.
    ///
    /// Crossed bounds are reported first, and nothing is changed then. Else each nonbasic variable that violates a bound
    /// goes to it, and variables are exchanged as `next_move` says, until it says none. Each exchange is kept in the
    /// budget, and made then. The values keep each bound after `Fine`; after `Conflict` and `Crossed` none do.
    ///
    /// The exchanges lead to no state twice, that is to the same basic variables with the same values of the nonbasic
    /// ones, and over n variables they are fewer than 3^n. So each check comes to an end.
    ///
    /// `Strained` comes where a number leaves the bound on fractions, with the basic variables and the values at which
    /// it did; the exchange that is kept last may not have been made then. `Memory` comes where there is no memory.
    /// Source: Dutertre and de Moura, A Fast Linear-Arithmetic Solver for DPLL(T), CAV 2006; Bland, New finite pivoting
    /// rules for the simplex method, 1977.
    pub fn check(&mut self, bounds: &Bounds, budget: &mut Budget) -> Result<CheckOutcome, Stop>
        requires { bounds.now.variables ≤ self.old.tableau.variables }
        ensures ends { EndsCheck (ranges_in bounds.now.held) self.old self.new budget.old budget.new result }
        ensures variables { self.new.tableau.variables ≡ self.old.tableau.variables }
        ensures listed { self.new.tableau.listed ≡ self.old.tableau.listed }
        ensures budget { budget.new ≡ record budget.old { exchanges = budget.new.exchanges } }
        ensures no_state_twice { CheckRepeatsNoState (ranges_in bounds.now.held) (state_of self.old)
            budget.old.exchanges budget.new.exchanges }
        ensures few { length budget.new.exchanges
            < length budget.old.exchanges + 3 ^ self.old.tableau.variables }
    {
        self.check_after(bounds, 0, budget)
    }

    /// Makes the steps of `check_after`.
    fn run_after(
        &mut self,
        bounds: &Bounds,
        kept: u64,
        budget: &mut Budget,
    ) -> Result<CheckOutcome, Stop>
        requires known { bounds.now.variables ≤ self.old.tableau.variables }
        requires kept { KeepsFirst kept bounds.now.held self.old.values }
        ensures ends { EndsCheck (ranges_in bounds.now.held) self.old self.new budget.old budget.new result }
        ensures variables { self.new.tableau.variables ≡ self.old.tableau.variables }
        ensures listed { self.new.tableau.listed ≡ self.old.tableau.listed }
        ensures budget { budget.new ≡ record budget.old { exchanges = budget.new.exchanges } }
    {
        self.tableau().rows_are_in_solved_form();
        if let Some(y) = bounds.crossed() {
            return Ok(CheckOutcome::Crossed(y));
        }
        let mut suspects = match self.update_nonbasic(bounds, kept) {
            Ok(suspects) => suspects,
            Err(stop) => return Err(stop),
        };
        'steps: loop {
            match self.next_among(bounds, &mut suspects) {
                Move::Done => return Ok(CheckOutcome::Fine),
                Move::Crossed(y) => return Ok(CheckOutcome::Crossed(y)),
                Move::Conflict(b) => return Ok(CheckOutcome::Conflict(b)),
                Move::Exchange(leaving, entering) => {
                    match budget.exchanged(leaving, entering) {
                        Ok(()) => {}
                        Err(_) => return Err(Stop::Memory),
                    }
                    match self.exchange_or_stop(bounds, leaving, entering, &mut suspects) {
                        Ok(()) => {}
                        Err(stop) => return Err(stop),
                    }
                }
            }
        }
    }

    /// Does what `check` does, where the values keep the first bounds, as many as `kept` says. It looks at no others than
    /// the variables of later bounds, and those whose values change.
    pub fn check_after(
        &mut self,
        bounds: &Bounds,
        kept: u64,
        budget: &mut Budget,
    ) -> Result<CheckOutcome, Stop>
        requires known { bounds.now.variables ≤ self.old.tableau.variables }
        requires kept { KeepsFirst kept bounds.now.held self.old.values }
        ensures ends { EndsCheck (ranges_in bounds.now.held) self.old self.new budget.old budget.new result }
        ensures variables { self.new.tableau.variables ≡ self.old.tableau.variables }
        ensures listed { self.new.tableau.listed ≡ self.old.tableau.listed }
        ensures budget { budget.new ≡ record budget.old { exchanges = budget.new.exchanges } }
        ensures no_state_twice { CheckRepeatsNoState (ranges_in bounds.now.held) (state_of self.old)
            budget.old.exchanges budget.new.exchanges }
        ensures few { length budget.new.exchanges
            < length budget.old.exchanges + 3 ^ self.old.tableau.variables }
    {
        self.tableau().rows_are_in_solved_form();
        self.run_after(bounds, kept, budget)
    }
}
