//! Laws of numbers in the place of the infinitesimal: functions with empty bodies, whose clauses are proved of the
//! definitions.

ghost use Rattle.std.specs.Prelude.{◌≡◌, ℕ, true, List, [], map, All, Contains};
ghost use Rattle.spec_sorts.specs.Terms.{Term};
ghost use Rattle.spec_sorts.specs.WellSorted.{IsWellSorted};
ghost use Rattle.spec_tableaux.specs.Fields.{is_positive};
ghost use Rattle.spec_tableaux.specs.Spaces.{Pair, as_space};
ghost use Rattle.spec_tableaux.specs.Rows.{Row, Solves};
ghost use Rattle.spec_tableaux.specs.Ranges.{is_within};
ghost use Rattle.spec_tableaux.specs.Numbers.{Number, numbers};
ghost use Rattle.spec_simplex.specs.Numbers.{HoldsAt};
ghost use Rattle.term_core.specs.declared.ids.Lit.{Lit};
ghost use Rattle.term_core.specs.Tables.{TableView, term_at, literal_at};
ghost use Rattle.simplex_bounds.specs.declared.bounds.Bound.{Bound};
ghost use Rattle.simplex_bounds.specs.Deltas.{pair_of};
ghost use Rattle.spec_tableaux.specs.Points.{deltas, point_in};
ghost use Rattle.simplex_bounds.specs.Held.{BoundsView, ranges_in};
ghost use Rattle.simplex_check.specs.Assignments.{AssignmentView};
ghost use Rattle.simplex_atoms.specs.declared.slack.Slack.{Slack};
ghost use Rattle.simplex_atoms.specs.Owners.{AreOwned};
ghost use Rattle.simplex_atoms.specs.Limits.{Limit, limits_by};
ghost use Rattle.simplex_atoms.specs.Atoms.{AtomsView};
ghost use Rattle.simplex_explain.specs.Keeping.{KeepsHeld};
ghost use Rattle.simplex_numbers.specs.Values.{flat, assignment_at_number, IsInward, IsSmaller, StaysLess, KeepsAt};
ghost use Rattle.spec_tableaux.specs.Halves.{at_number};

/// States that values that solve rows do so at each number in the place of the infinitesimal.
pub fn rows_hold_at_numbers()
    ensures { (e : Number) (v : ℕ → Pair Number) (rs : List (Row Number)) → Solves deltas v rs
        → Solves (as_space numbers) (λ y. at_number e (v y)) rs }
{}

/// States that what is less at a number in the place of the infinitesimal is so at each smaller number above 0.
pub fn smaller_numbers_keep_order()
    ensures { (e d : Number) (x y : Pair Number) → IsSmaller d e → StaysLess e x y → StaysLess d x y }
{}

/// States that values that keep the strongest bounds at a number above 0 keep all bounds as numbers, without an
/// infinitesimal part, strict ones too, where the tilts of these lead inward, as those of bounds that literals state do.
pub fn bounds_at_numbers_are_kept_strictly()
    ensures inward { (slack : Slack) (l : Lit) (b : Limit) → Contains (limits_by slack l) b
        → IsInward b.side b.value.tilt }
    ensures within { (held : List Bound) → ((b : Bound) → Contains held b → IsInward b.side (pair_of b.value).tilt)
        → (e : Number) → is_positive numbers e ≡ true → (v : ℕ → Pair Number) → KeepsAt e (ranges_in held) v
        → (y : ℕ) → is_within deltas (ranges_in held) (λ z. flat (at_number e (v z))) y ≡ true }
{}

/// States that values of an assignment that keep the bounds of held literals, and keep the strongest of them at a number above
/// 0, are values there that keep the bounds too, without an infinitesimal part.
pub fn assignments_at_numbers_keep_held_bounds()
    ensures { (t : TableView) (a : AtomsView) (b : AssignmentView) (bounds : BoundsView) (held : List Lit)
        → KeepsHeld t a b bounds held → (e : Number) → is_positive numbers e ≡ true
        → KeepsAt e (ranges_in bounds.held) (point_in b.values) → KeepsHeld t a (assignment_at_number e b) bounds held }
{}

/// States that held literals hold at numbers of terms, strict ones too, where values of an assignment keep the bounds of these,
/// and keep the strongest of them at a number above 0: each term that a variable stands for has the value of this there.
pub fn held_literals_hold_at_numbers()
    ensures { (t : TableView) (a : AtomsView) (b : AssignmentView) (bounds : BoundsView) (held : List Lit)
        → KeepsHeld t a b bounds held → (e : Number) → is_positive numbers e ≡ true
        → KeepsAt e (ranges_in bounds.held) (point_in b.values)
        → (n : Term → Number) → AreOwned t a.owners n (λ y. at_number e (point_in b.values y))
        → All (λ (l : Lit). IsWellSorted t.symbols [] (term_at t l.term)) held
        → All (HoldsAt (λ u. (n u).fraction)) (map (literal_at t) held) }
{}
