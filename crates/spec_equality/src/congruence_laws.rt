//! What the definitions imply. Each law is a function whose contract is the law; it computes nothing.

ghost use Rattle.std.specs.Prelude.{◌≡◌, List, []};
ghost use Rattle.spec_sorts.specs.Terms.{Term};
ghost use Rattle.spec_sorts.specs.Literals.{Literal};
ghost use Rattle.spec_sorts.specs.Values.{Interpretation};
ghost use Rattle.spec_sorts.specs.TermValues.{value_at};
ghost use Rattle.spec_equality.specs.Congruence.{IsCongruent, IsRefuted};
ghost use Rattle.spec_equality.specs.Truth.{AreTrueUnder};

/// States that terms which held literals make equal have one value, under each interpretation that makes these literals true.
/// Refuted literals are true under none. Source: SMT-LIB 2.6, section 5.3, theory Core.
pub fn congruence_is_sound()
    ensures values { (i : Interpretation) (listed : List Term) (held : List Literal) → AreTrueUnder i held
        → (t u : Term) → IsCongruent listed held t u → value_at i [] t ≡ value_at i [] u }
    ensures refuted { (i : Interpretation) (listed : List Term) (held : List Literal) → IsRefuted listed held
        → AreTrueUnder i held → ⊥ }
{}

/// States that a term is equal to itself alone where nothing is held.
pub fn nothing_follows_from_nothing()
    ensures { (listed : List Term) (t u : Term) → IsCongruent listed [] t u → t ≡ u }
{}
