//! Rows, bounds and checks of an assignment, and counts of how checks ended.

ghost use Rattle.std.specs.Prelude.{◌≡◌, ◌<◌, true};
ghost use Rattle.spec_tableaux.specs.SolvedForms.{AllVariables};
ghost use Rattle.tableau.specs.Entries.{entries_of};

use sat_budget::{Budget, Limits, Stop};
use simplex_bounds::{Bound, Bounds};
use simplex_check::{CheckOutcome, RealAssignment};
use std::alloc::Global;
use tableau::Entry;

/// Says how a check ended, and how many exchanges it made.
pub(crate) type Ended = (Result<CheckOutcome, Stop>, u64);

/// Counts how checks ended, and their exchanges.
#[derive(Clone, Copy, PartialEq, Eq, Debug)]
pub(crate) struct Tally {
    pub(crate) fine: u64,
    pub(crate) crossed: u64,
    pub(crate) conflicts: u64,
    pub(crate) exchanges: u64,
}

impl Tally {
    /// Makes one of nothing.
    pub(crate) fn new() -> Tally {
        Tally {
            fine: 0,
            crossed: 0,
            conflicts: 0,
            exchanges: 0,
        }
    }

    /// Tells whether there were checks of each end, and exchanges.
    pub(crate) fn is_varied(&self) -> bool {
        self.fine > 3_000 && self.crossed > 1_000 && self.conflicts > 300 && self.exchanges > 1_000
    }
}

/// Counts one more.
fn count(n: &mut u64) {
    *n = n.saturating_add(1);
}

/// Says whether each variable is below a number.
fn are_below(entries: &[Entry], number: u64) -> bool
    ensures { result ≡ true → AllVariables (λ y. y < number) (entries_of entries.now) }
{
    let mut rest = entries;
    while let Some((e, more)) = rest.split_first() {
        if e.variable >= number {
            return false;
        }
        rest = more;
    }
    true
}

/// Adds a row to an assignment, if its variables are there; gives its variable.
pub(crate) fn add_to(assignment: &mut RealAssignment, entries: &[Entry]) -> Option<u64> {
    if are_below(entries, assignment.tableau().variables_len()) {
        return assignment.add_row(entries).ok();
    }
    None
}

/// Holds a bound, if its variable is there.
pub(crate) fn hold(bounds: &mut Bounds, bound: Bound) -> Option<()> {
    if bound.variable < bounds.variables() {
        bounds.reserve(1).ok()?;
        bounds.hold(bound);
        return Some(());
    }
    None
}

/// Checks an assignment whose variables the bounds are of.
pub(crate) fn run(
    assignment: &mut RealAssignment,
    bounds: &Bounds,
    budget: &mut Budget,
) -> Option<Result<CheckOutcome, Stop>> {
    if bounds.variables() > assignment.tableau().variables_len() {
        return None;
    }
    Some(assignment.check(bounds, budget))
}

/// Makes a budget without conflicts.
pub(crate) fn new_budget(alloc: Global) -> Option<Budget> {
    let limits = Limits {
        conflicts: 0,
        terms: 0,
    };
    Budget::new(alloc, &limits).ok()
}

/// Checks an assignment with a new budget.
pub(crate) fn ended(
    alloc: Global,
    assignment: &mut RealAssignment,
    bounds: &Bounds,
) -> Option<Ended> {
    let mut budget = new_budget(alloc)?;
    let result = run(assignment, bounds, &mut budget)?;
    Some((result, budget.exchanged_len()))
}

/// Checks an assignment, and counts how it ends. Tells whether all bounds are kept, and `None` where the check stops.
pub(crate) fn check_counted(
    alloc: Global,
    assignment: &mut RealAssignment,
    bounds: &Bounds,
    tally: &mut Tally,
) -> Option<bool> {
    let (result, made) = ended(alloc, assignment, bounds)?;
    let outcome = result.ok()?;
    tally.exchanges = tally.exchanges.saturating_add(made);
    match outcome {
        CheckOutcome::Fine => count(&mut tally.fine),
        CheckOutcome::Crossed(_) => count(&mut tally.crossed),
        CheckOutcome::Conflict(_) => count(&mut tally.conflicts),
    }
    Some(outcome == CheckOutcome::Fine)
}
