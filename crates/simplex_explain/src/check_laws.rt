//! Laws of checks of bounds: functions with empty bodies, whose clauses are proved of the definitions.

ghost use Rattle.std.specs.Prelude.{◌≡◌, ℕ, false, List};
ghost use Rattle.spec_tableaux.specs.Ranges.{is_crossed};
ghost use Rattle.spec_tableaux.specs.LeastVariable.{IsNonbasicFeasible};
ghost use Rattle.spec_tableaux.specs.Points.{deltas, Ranges, AssignmentState};
ghost use Rattle.spec_tableaux.specs.Runs.{Ran};

/// States that nonbasic variables keep their bounds after the exchanges of a check, where no bounds cross.
pub fn checks_keep_nonbasic_bounds()
    ensures { (ranges : Ranges) (t u : AssignmentState) (old new : List (ℕ × ℕ))
        → ((y : ℕ) → is_crossed deltas ranges y ≡ false) → Ran ranges t u old new → IsNonbasicFeasible deltas ranges u }
{}
