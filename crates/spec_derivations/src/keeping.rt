//! Laws of what stays of a derivation. Each law is a function whose contract is the law; it computes nothing.

ghost use Rattle.std.specs.Prelude.{◌≡◌, ◌<◌, ℕ, List, length};
ghost use Rattle.spec_sorts.specs.Terms.{Term};
ghost use Rattle.spec_derivations.specs.Derivations.{Derivation, conclusion_at, IsDerivation, IsDerivedFrom};
ghost use Rattle.spec_derivations.specs.Keeping.{was, IsKeptOf};

/// States that what stays of a derivation is one, says what it said, and is derived from what it was derived from.
pub fn kept_derivations_stay_right()
    ensures right { (old new : Derivation) (kept : List ℕ) → IsKeptOf old kept new → IsDerivation old
        → IsDerivation new }
    ensures says { (old new : Derivation) (kept : List ℕ) (n : ℕ) → IsKeptOf old kept new → n < length new
        → conclusion_at new n ≡ conclusion_at old (was kept n) }
    ensures derived { (terms : List Term) (old new : Derivation) (kept : List ℕ) (n : ℕ) → IsKeptOf old kept new
        → n < length new → IsDerivedFrom terms old (was kept n) → IsDerivedFrom terms new n }
{}
