//! Laws of bounds that are held: functions with empty bodies, whose clauses are proved of the definitions.

ghost use Rattle.std.specs.Prelude.{◌≡◌, ◌↔◌, ℕ, true, List, Contains, Some};
ghost use Rattle.spec_tableaux.specs.Spaces.{Pair};
ghost use Rattle.spec_tableaux.specs.Numbers.{Number};
ghost use Rattle.spec_tableaux.specs.Ranges.{is_within};
ghost use Rattle.simplex_bounds.specs.declared.bounds.Bound.{Bound};
ghost use Rattle.simplex_bounds.specs.declared.bounds.Side.{Side};
ghost use Rattle.spec_tableaux.specs.Points.{deltas};
ghost use Rattle.simplex_bounds.specs.Held.{strongest, ranges_in, RespectsBound};

/// States that the strongest bound of a side and a variable is held, and is of that side and variable.
pub fn strongest_bounds_are_held()
    ensures { (side : Side) (y : ℕ) (held : List Bound) (b : Bound) → strongest side y held ≡ Some b
        → Contains held b × (b.side ≡ side) × (b.variable ≡ y) }
{}

/// States that values keep the ranges that bounds leave exactly where they keep each of the bounds.
pub fn ranges_are_kept_with_the_bounds()
    ensures { (held : List Bound) (v : ℕ → Pair Number) → ((y : ℕ) → is_within deltas (ranges_in held) v y ≡ true)
        ↔ ((b : Bound) → Contains held b → RespectsBound v b) }
{}
