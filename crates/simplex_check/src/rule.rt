//! The least-variable rule.

ghost use Rattle.std.specs.Prelude.{◌≡◌, ℕ, List, false, MatchOption};
ghost use Rattle.spec_tableaux.specs.Ranges.{is_crossed};
ghost use Rattle.spec_tableaux.specs.LeastVariable as rule;
ghost use Rattle.spec_tableaux.specs.States.{NeverReturns};
ghost use Rattle.spec_tableaux.specs.Points.{deltas};
ghost use Rattle.simplex_bounds.specs.Held.{ranges_in};
ghost use Rattle.simplex_check.specs.Assignments.{state_of};
ghost use Rattle.simplex_check.specs.Moves.{rule_move};
ghost use Rattle.simplex_check.specs.Suspects.{Suspect, SuspectBut, SuspectAfter};

use crate::assignment::RealAssignment;
use crate::entering::find_entering;
use crate::ranges::is_within;
use crate::suspects::Suspects;
use simplex_bounds::Bounds;
use simplex_bounds::ranges::below;

/// Says what the least-variable rule says at an assignment with bounds.
#[derive(Clone, Copy, PartialEq, Eq, Debug)]
pub enum Move {
    /// Each bound is kept.
    Done,
    /// The bounds of this variable cross; it is the least of which they do.
    Crossed(u64),
    /// This basic variable violates a bound, and no variable of its row can move.
    Conflict(u64),
    /// The first variable, which is basic, leaves the basis, and the second one enters it.
    Exchange(u64, u64),
}

/// Tells whether a variable is basic and violates a bound.
fn is_out(assignment: &RealAssignment, bounds: &Bounds, y: u64) -> bool
    ensures { result ≡ rule.is_out deltas (ranges_in bounds.now.held) (state_of assignment.now) y }
{
    if !assignment.is_basic(y) {
        return false;
    }
    !is_within(bounds.range(y), assignment.value(y))
}

/// Gives the least basic variable that violates a bound.
fn find_leaving(assignment: &RealAssignment, bounds: &Bounds) -> Option<u64>
    ensures { MatchOption result
        ((y : ℕ) → rule.is_out deltas (ranges_in bounds.now.held) (state_of assignment.now) y ≡ false)
        (λ b. rule.IsLeast (rule.is_out deltas (ranges_in bounds.now.held) (state_of assignment.now)) b) }
{
    assignment.tableau().rows_are_in_solved_form();
    for y in 0..assignment.tableau().variables_len() {
        if is_out(assignment, bounds, y) {
            return Some(y);
        }
    }
    None
}

/// Takes suspects out up to the least that is basic and violates a bound, and gives it.
fn pop_leaving(assignment: &RealAssignment, bounds: &Bounds, suspects: &mut Suspects) -> Option<u64>
    requires { Suspect (ranges_in bounds.now.held) (state_of assignment.now) suspects.old }
    ensures { MatchOption result
        ((y : ℕ) → rule.is_out deltas (ranges_in bounds.now.held) (state_of assignment.now) y ≡ false)
        (λ b. rule.IsLeast (rule.is_out deltas (ranges_in bounds.now.held) (state_of assignment.now)) b
        × SuspectBut (ranges_in bounds.now.held) (state_of assignment.now) b suspects.new) }
{
    while let Some(y) = suspects.pop() {
        if is_out(assignment, bounds, y) {
            return Some(y);
        }
    }
    None
}

impl RealAssignment {
    /// Gives what the least-variable rule says. It takes no memory.
    ///
    /// Where bounds cross, it is the least variable whose bounds do. Else the least basic variable that violates a
    /// bound leaves, and the least variable of its row that can move enters. So an exchange leads to no state from which
    /// the rule came here.
    /// Source: Bland, New finite pivoting rules for the simplex method, 1977.
    pub fn next_move(&self, bounds: &Bounds) -> Move
        ensures says { rule.RuleSays deltas (ranges_in bounds.now.held) (state_of self.now) (rule_move result) }
        ensures never_returns { NeverReturns deltas (ranges_in bounds.now.held) (state_of self.now) (rule_move result) }
    {
        if let Some(y) = bounds.crossed() {
            return Move::Crossed(y);
        }
        let Some(leaving) = find_leaving(self, bounds) else {
            return Move::Done;
        };
        self.move_of(bounds, leaving)
    }

    /// Gives what the rule says where this basic variable is the least that violates a bound.
    fn move_of(&self, bounds: &Bounds, leaving: u64) -> Move
        requires uncrossed { (y : ℕ) → is_crossed deltas (ranges_in bounds.now.held) y ≡ false }
        requires out { rule.IsLeast (rule.is_out deltas (ranges_in bounds.now.held) (state_of self.now)) leaving }
        ensures says { rule.RuleSays deltas (ranges_in bounds.now.held) (state_of self.now) (rule_move result) }
        ensures left { (ys : List ℕ) → SuspectBut (ranges_in bounds.now.held) (state_of self.now) leaving ys
            → SuspectAfter (ranges_in bounds.now.held) (state_of self.now) result ys }
    {
        let Some(row) = self.tableau.row_of(leaving) else {
            return Move::Done;
        };
        self.tableau.rows_are_in_solved_form();
        let up = below(self.value(leaving), bounds.range(leaving).lower);
        match find_entering(self, bounds, up, self.tableau.entries(row)) {
            None => Move::Conflict(leaving),
            Some(entering) => Move::Exchange(leaving, entering),
        }
    }

    /// Gives what the rule says where no bounds cross and each basic variable that violates a bound is a suspect.
    ///
    /// Suspects that violate none are taken out, and so is the variable that leaves.
    pub(crate) fn next_among(&self, bounds: &Bounds, suspects: &mut Suspects) -> Move
        requires uncrossed { (y : ℕ) → is_crossed deltas (ranges_in bounds.now.held) y ≡ false }
        requires suspect { Suspect (ranges_in bounds.now.held) (state_of self.now) suspects.old }
        ensures says { rule.RuleSays deltas (ranges_in bounds.now.held) (state_of self.now) (rule_move result) }
        ensures suspect { SuspectAfter (ranges_in bounds.now.held) (state_of self.now) result suspects.new }
    {
        let Some(leaving) = pop_leaving(self, bounds, suspects) else {
            return Move::Done;
        };
        self.move_of(bounds, leaving)
    }
}
