//! Why a row is stuck, and why bounds cross.

ghost use Rattle.std.specs.Prelude.{◌≡◌, true, IfOk, IfErr};
ghost use Rattle.spec_tableaux.specs.Rows.{row_of};
ghost use Rattle.spec_tableaux.specs.Ranges.{is_crossed};
ghost use Rattle.spec_tableaux.specs.LeastVariable.{RuleSays, IsNonbasicFeasible, goes_up, stuck};
ghost use Rattle.term_core.specs.Tables.{TableView};
ghost use Rattle.spec_tableaux.specs.Points.{deltas};
ghost use Rattle.simplex_bounds.specs.Held.{ranges_in};
ghost use Rattle.simplex_check.specs.Assignments.{state_of};
ghost use Rattle.simplex_atoms.specs.Atoms.{AtomsFit};
ghost use Rattle.simplex_explain.specs.Reasons.{Refutes};
ghost use Rattle.simplex_explain.specs.Stops.{AreStated};
ghost use Rattle.spec_causes.specs.Reasons.{with_basic, unit_entries};
ghost use Rattle.simplex_explain.specs.BoundReasons.{Meaning, footing, AreReasonsFor, AreOfHeld, OverflowsReasons, OnReasonOverflow};

use crate::Weighted;
use crate::reason_stop::ReasonStop;
use crate::rows::{crossed_reasons, stuck_reasons};
use simplex_atoms::Atoms;
use simplex_atoms::laws::bounds_have_weights;
use simplex_bounds::Bounds;
use simplex_check::RealAssignment;
use std::alloc::Global;

/// Tells why a basic variable cannot keep its bounds: by literals of bounds that cannot all hold, with weights under which
/// their sum is a contradiction.
///
/// First comes the literal of the bound that the variable violates, and then for each entry of its row, in the order of the
/// variables, that of the bound that stops the variable. Where the basic variable has to rise, its own number is -1, and that
/// of an entry its coefficient; where it has to fall, minus these. The weight is this number over the factor of the place of
/// the literal's atom: of an equality with its sign, of an order without.
///
/// Conditions: the rule is stuck at the variable, nonbasic variables keep their bounds, and each bound that is held is
/// stated by its literal.
///
/// `Wide` comes only where 1 or a coefficient over a factor leaves the bound on fractions, and `Memory` where there is no
/// memory. Time goes in proportion to the row. Source: Farkas 1902; Dutertre and de Moura, A Fast Linear-Arithmetic Solver
/// for DPLL(T), CAV 2006.
pub fn row_reasons(
    alloc: Global,
    assignment: &RealAssignment,
    bounds: &Bounds,
    atoms: &Atoms,
    b: u64,
) -> Result<Vec<Weighted>, ReasonStop>
    ghost t: { TableView }
    requires right { AtomsFit t atoms.now assignment.now bounds.now }
    requires stated { AreStated atoms.now.slack_list bounds.now.held }
    requires nonbasic_updated { IsNonbasicFeasible deltas (ranges_in bounds.now.held) (state_of assignment.now) }
    requires says { RuleSays deltas (ranges_in bounds.now.held) (state_of assignment.now) (stuck b) }
    ensures reasons { IfOk result (λ reasons. AreReasonsFor (footing atoms.now bounds.now)
        (goes_up deltas (ranges_in bounds.now.held) (state_of assignment.now) b)
        (with_basic b (row_of b assignment.now.tableau.rows).entries) reasons.items) }
    ensures refutes { IfOk result (λ reasons. Refutes t reasons.items) }
    ensures held { IfOk result (λ reasons. AreOfHeld bounds.now.held reasons.items) }
    ensures wide { IfErr result (OnReasonOverflow (OverflowsReasons (footing atoms.now bounds.now)
        (goes_up deltas (ranges_in bounds.now.held) (state_of assignment.now) b)
        (with_basic b (row_of b assignment.now.tableau.rows).entries))) }
{
    bounds_have_weights();
    assignment.tableau().rows_are_in_solved_form();
    let reasons = stuck_reasons(alloc, assignment, bounds, atoms, b)?;
    Ok(reasons)
}

/// Tells why the bounds of a variable cross: by the literals of its lower and its upper bound, which cannot both hold, with
/// weights under which their sum is a contradiction.
///
/// The number of the lower bound is -1, and that of the upper one 1. The weight is this number over the factor of the place of
/// the literal's atom: of an equality with its sign, of an order without.
///
/// Conditions: the bounds cross, and each bound that is held is stated by its literal.
///
/// `Wide` comes only where 1 over a factor leaves the bound on fractions, and `Memory` where there is no memory. Source:
/// Dutertre and de Moura, A Fast Linear-Arithmetic Solver for DPLL(T), CAV 2006.
pub fn crossing_reasons(
    alloc: Global,
    bounds: &Bounds,
    atoms: &Atoms,
    y: u64,
) -> Result<Vec<Weighted>, ReasonStop>
    ghost of: { Meaning }
    requires right { AtomsFit of.table atoms.now of.assignment bounds.now }
    requires stated { AreStated atoms.now.slack_list bounds.now.held }
    requires crossed { is_crossed deltas (ranges_in bounds.now.held) y ≡ true }
    ensures reasons { IfOk result (λ reasons. AreReasonsFor (footing atoms.now bounds.now) true
        (with_basic y (unit_entries y)) reasons.items) }
    ensures refutes { IfOk result (λ reasons. Refutes of.table reasons.items) }
    ensures held { IfOk result (λ reasons. AreOfHeld bounds.now.held reasons.items) }
    ensures wide { IfErr result (OnReasonOverflow (OverflowsReasons (footing atoms.now bounds.now) true
        (with_basic y (unit_entries y)))) }
{
    bounds_have_weights();
    let reasons = crossed_reasons(alloc, bounds, atoms, y)?;
    Ok(reasons)
}
