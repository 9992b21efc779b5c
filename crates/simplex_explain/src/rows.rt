//! The reasons for a row, and for bounds that cross.

ghost use Rattle.std.specs.Prelude.{◌≡◌, true, IfOk, IfErr};
ghost use Rattle.spec_tableaux.specs.Rows.{row_of};
ghost use Rattle.spec_tableaux.specs.Ranges.{is_crossed};
ghost use Rattle.spec_tableaux.specs.LeastVariable.{RuleSays, IsNonbasicFeasible, goes_up, stuck};
ghost use Rattle.spec_tableaux.specs.Points.{deltas};
ghost use Rattle.simplex_bounds.specs.Held.{ranges_in};
ghost use Rattle.simplex_check.specs.Assignments.{state_of};
ghost use Rattle.simplex_explain.specs.Stops.{AreStated, HaveFactors};
ghost use Rattle.spec_causes.specs.Reasons.{with_basic, unit_entries};
ghost use Rattle.simplex_explain.specs.BoundReasons.{footing, AreReasonsFor, AreOfHeld, OverflowsReasons, OnReasonOverflow};

use crate::Weighted;
use crate::reason_stop::ReasonStop;
use crate::sums::reasons_for;
use simplex_atoms::Atoms;
use simplex_bounds::Bounds;
use simplex_bounds::ranges::below;
use simplex_check::RealAssignment;
use std::alloc::Global;
use tableau::Entry;
use tableau::numbers::one;

/// Lists the literals for the row at which the rule is stuck, with their weights.
///
/// `Wide` comes where a weight leaves the bound on fractions, and `Memory` where there is no memory.
pub(crate) fn stuck_reasons(
    alloc: Global,
    assignment: &RealAssignment,
    bounds: &Bounds,
    atoms: &Atoms,
    b: u64,
) -> Result<Vec<Weighted>, ReasonStop>
    requires stated { AreStated atoms.now.slack_list bounds.now.held }
    requires factors { HaveFactors atoms.now.slack_list }
    requires nonbasic_updated { IsNonbasicFeasible deltas (ranges_in bounds.now.held) (state_of assignment.now) }
    requires says { RuleSays deltas (ranges_in bounds.now.held) (state_of assignment.now) (stuck b) }
    ensures reasons { IfOk result (λ reasons. AreReasonsFor (footing atoms.now bounds.now)
        (goes_up deltas (ranges_in bounds.now.held) (state_of assignment.now) b)
        (with_basic b (row_of b assignment.now.tableau.rows).entries) reasons.items) }
    ensures held { IfOk result (λ reasons. AreOfHeld bounds.now.held reasons.items) }
    ensures wide { IfErr result (OnReasonOverflow (OverflowsReasons (footing atoms.now bounds.now)
        (goes_up deltas (ranges_in bounds.now.held) (state_of assignment.now) b)
        (with_basic b (row_of b assignment.now.tableau.rows).entries))) }
{
    let tableau = assignment.tableau();
    tableau.rows_are_in_solved_form();
    let Some(row) = tableau.row_of(b) else {
        unreachable!();
    };
    let up = below(assignment.value(b), bounds.range(b).lower);
    let entries = tableau.entries(row);
    let reasons = reasons_for(alloc, bounds, atoms, up, b, entries)?;
    Ok(reasons)
}

/// Lists the literals of the lower and the upper bound of a variable, which cross, with their weights.
///
/// `Wide` comes where a weight leaves the bound on fractions, and `Memory` where there is no memory.
pub(crate) fn crossed_reasons(
    alloc: Global,
    bounds: &Bounds,
    atoms: &Atoms,
    y: u64,
) -> Result<Vec<Weighted>, ReasonStop>
    requires stated { AreStated atoms.now.slack_list bounds.now.held }
    requires factors { HaveFactors atoms.now.slack_list }
    requires crossed { is_crossed deltas (ranges_in bounds.now.held) y ≡ true }
    ensures reasons { IfOk result (λ reasons. AreReasonsFor (footing atoms.now bounds.now) true
        (with_basic y (unit_entries y)) reasons.items) }
    ensures held { IfOk result (λ reasons. AreOfHeld bounds.now.held reasons.items) }
    ensures wide { IfErr result (OnReasonOverflow (OverflowsReasons (footing atoms.now bounds.now) true
        (with_basic y (unit_entries y)))) }
{
    let unit = [Entry {
        variable: y,
        coefficient: one(),
    }];
    let reasons = reasons_for(alloc, bounds, atoms, true, y, &unit)?;
    Ok(reasons)
}
