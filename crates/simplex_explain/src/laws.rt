//! Laws of held literals and the bounds that they state: functions with empty bodies, whose clauses are proved of the
//! definitions.

ghost use Rattle.std.specs.Prelude.{◌≡◌, ℕ, List, map, All, Contains, Ok};
ghost use Rattle.spec_simplex.specs.Constraints.{HaveForms};
ghost use Rattle.spec_simplex.specs.Points.{IsFeasible, IsInfeasible};
ghost use Rattle.spec_tableaux.specs.Ranges.{Meets};
ghost use Rattle.term_core.specs.declared.ids.Lit.{Lit};
ghost use Rattle.term_core.specs.Tables.{TableView, literal_at};
ghost use Rattle.sat_budget.specs.Budgets.{BudgetView};
ghost use Rattle.proof_log.specs.Theories.{TheoryView, IsTheoryOver, terms_watched};
ghost use Rattle.simplex_bounds.specs.declared.bounds.Bound.{Bound};
ghost use Rattle.spec_tableaux.specs.Points.{deltas, point_in, Ranges};
ghost use Rattle.simplex_bounds.specs.Held.{BoundsView};
ghost use Rattle.simplex_check.specs.Assignments.{AssignmentView};
ghost use Rattle.simplex_check.specs.Ends.{EndsCheck};
ghost use Rattle.simplex_check.specs.declared.check.CheckOutcome.TheVariants.{Fine};
ghost use Rattle.simplex_atoms.specs.declared.slack.Slack.{Slack};
ghost use Rattle.simplex_atoms.specs.Atoms.{AtomsView, AtomsFit};
ghost use Rattle.simplex_explain.specs.declared.weighted.Weighted.{Weighted};
ghost use Rattle.simplex_explain.specs.Reasons.{Refutes, AreAtomReasons, AreHeld};
ghost use Rattle.simplex_explain.specs.Stops.{AreStated};
ghost use Rattle.simplex_explain.specs.BoundReasons.{AreOfHeld};
ghost use Rattle.simplex_explain.specs.Stated.{AreBoundsOf};
ghost use Rattle.simplex_explain.specs.Keeping.{KeepsHeld};

/// States that each bound of held literals is one that its literal states, and that this literal is held.
pub fn held_bounds_are_stated()
    ensures stated { (slack_list : List (ℕ × Slack)) (held : List Lit) (bounds : List Bound)
        → AreBoundsOf slack_list held bounds → AreStated slack_list bounds }
    ensures held { (slack_list : List (ℕ × Slack)) (held : List Lit) (bounds : List Bound)
        → AreBoundsOf slack_list held bounds → (b : Bound) → Contains bounds b → Contains held b.literal }
{}

/// States that the values of an assignment solve its rows and keep the bounds once a check finds nothing wrong.
pub fn checked_values_keep_bounds()
    ensures { (ranges : Ranges) (b c : AssignmentView) (old new : BudgetView) → EndsCheck ranges b c old new (Ok Fine)
        → Meets deltas c.tableau.rows ranges (point_in c.values) }
{}

/// States that where values keep the bounds that held literals state, each literal that says something of linear
/// arithmetic has a form, and there is a point that keeps all of them.
pub fn kept_bounds_are_feasible()
    ensures { (t : TableView) (a : AtomsView) (b : AssignmentView) (bounds : BoundsView) (held : List Lit)
        → KeepsHeld t a b bounds held
        → HaveForms (map (literal_at t) held) × IsFeasible (map (literal_at t) held) }
{}

/// States that no point keeps the held literals where some of them cannot all hold by their weights.
pub fn refuting_reasons_are_infeasible()
    ensures { (t : TableView) (held : List Lit) (rs : List Weighted) → Refutes t rs → AreHeld held rs
        → IsInfeasible (map (literal_at t) held) }
{}

/// States that reasons of bounds that held literals state are held literals, of atoms that are watched where those of
/// all held literals are.
pub fn reasons_are_of_watched_atoms()
    ensures reasons { (t : TableView) (view : TheoryView) (slack_list : List (ℕ × Slack)) (bounds : List Bound)
        → (rs : List Weighted) → AreBoundsOf slack_list view.held bounds → AreOfHeld bounds rs → IsTheoryOver t view
        → All (λ (l : Lit). Contains view.watched l.term) view.held → AreAtomReasons (terms_watched t view) t rs }
    ensures held { (slack_list : List (ℕ × Slack)) (held : List Lit) (bounds : List Bound) (rs : List Weighted)
        → AreBoundsOf slack_list held bounds → AreOfHeld bounds rs → AreHeld held rs }
{}

/// States that atoms that fit an assignment fit each with as many variables and the same rows added, in whatever solved form
/// these are and whatever the values.
pub fn assignments_fit_by_variables_and_rows_added()
    ensures { (t : TableView) (a : AtomsView) (b c : AssignmentView) (bounds : BoundsView) → AtomsFit t a b bounds
        → c.tableau.variables ≡ b.tableau.variables → c.tableau.listed ≡ b.tableau.listed → AtomsFit t a c bounds }
{}
