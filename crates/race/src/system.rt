//! A system: rows of linear equations, and bounds of their variables.

ghost use Rattle.std.specs.Prelude.{◌≡◌, ◌<◌, true};
ghost use Rattle.spec_tableaux.specs.SolvedForms.{AllVariables};
ghost use Rattle.tableau.specs.Entries.{entries_of};

use crate::fault::Fault;
use delta_num::Delta;
use sat_budget::{Budget, Stop};
use simplex_bounds::{Bound, Bounds, Lit, Side};
use simplex_check::{CheckOutcome, RealAssignment};
use std::alloc::Global;
use tableau::{Entry, Ratio};
use term_core::TermId;

/// Gives a whole number as a fraction.
fn whole(n: i64) -> Ratio {
    Ratio::of(i128::from(n), 1)
}

/// Gives the entry of a multiple of a variable.
pub(crate) fn times(coefficient: i64, variable: u64) -> Entry {
    Entry {
        variable,
        coefficient: whole(coefficient),
    }
}

/// Says whether each variable is below a number.
fn are_below(entries: &[Entry], number: u64) -> bool
    ensures { result ≡ true → AllVariables (λ y. y < number) (entries_of entries.now) }
{
    let mut rest = entries;
    while let Some((e, more)) = rest.split_first() {
        if e.variable >= number {
            return false;
        }
        rest = more;
    }
    true
}

/// Holds rows with a value of each variable, and bounds of the variables.
#[derive(Drop)]
pub(crate) struct System {
    pub(crate) alloc: Global,
    assignment: RealAssignment,
    bounds: Bounds,
}

impl System {
    /// Makes a system without variables.
    pub(crate) fn new(alloc: Global) -> System {
        System {
            alloc,
            assignment: RealAssignment::new(alloc),
            bounds: Bounds::new(alloc),
        }
    }

    /// Adds a variable, and gives its number.
    pub(crate) fn add_var(&mut self) -> Result<u64, Fault> {
        let variable = self.bounds.variables();
        self.assignment.add_var()?;
        self.bounds.add_var()?;
        Ok(variable)
    }

    /// Adds a variable that is the sum of entries, and gives its number.
    ///
    /// `Refused` comes where an entry's variable is not there.
    pub(crate) fn add_row(&mut self, entries: &[Entry]) -> Result<u64, Fault> {
        if !are_below(entries, self.assignment.tableau().variables_len()) {
            return Err(Fault::Refused);
        }
        let variable = self.assignment.add_row(entries)?;
        self.bounds.add_var()?;
        Ok(variable)
    }

    /// Holds a bound of a variable.
    ///
    /// `Refused` comes where the variable is not there.
    fn hold(&mut self, variable: u64, side: Side, value: i64) -> Result<(), Fault> {
        if variable >= self.bounds.variables() {
            return Err(Fault::Refused);
        }
        let literal = Lit {
            term: TermId(variable),
            positive: true,
        };
        self.bounds.reserve(1)?;
        self.bounds.hold(Bound {
            variable,
            side,
            value: Delta::number(whole(value)),
            literal,
        });
        Ok(())
    }

    /// Holds that a variable is at least a number.
    pub(crate) fn at_least(&mut self, variable: u64, value: i64) -> Result<(), Fault> {
        self.hold(variable, Side::Lower, value)
    }

    /// Holds that a variable is at most a number.
    pub(crate) fn at_most(&mut self, variable: u64, value: i64) -> Result<(), Fault> {
        self.hold(variable, Side::Upper, value)
    }

    /// Counts the variables.
    pub(crate) fn variables(&self) -> u64 {
        self.assignment.tableau().variables_len()
    }

    /// Counts the rows.
    pub(crate) fn rows(&self) -> u64 {
        self.assignment.tableau().rows_len()
    }

    /// Counts the entries of all rows.
    pub(crate) fn entries(&self) -> u64 {
        let mut count = 0u64;
        for row in 0..self.assignment.tableau().rows_len() {
            count = count.saturating_add(self.assignment.tableau().entries(row).len() as u64);
        }
        count
    }

    /// Checks the bounds.
    ///
    /// `Refused` comes where bounds are of more variables than there are.
    pub(crate) fn check(
        &mut self,
        budget: &mut Budget,
    ) -> Result<Result<CheckOutcome, Stop>, Fault> {
        if self.bounds.variables() > self.assignment.tableau().variables_len() {
            return Err(Fault::Refused);
        }
        Ok(self.assignment.check(&self.bounds, budget))
    }
}
