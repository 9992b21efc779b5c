//! What a search's evidence says of a check of a script. Each law is a function whose contract is the law; it
//! computes nothing.

ghost use Rattle.std.specs.Prelude.{◌≡◌, ℕ, List, [], All};
ghost use Rattle.spec_sorts.specs.Terms.{Term};
ghost use Rattle.spec_sorts.specs.Signatures.{symbols_in};
ghost use Rattle.spec_sorts.specs.WellSorted.{IsFormulaOver};
ghost use Rattle.spec_commands.specs.Stack.{signature_of};
ghost use Rattle.spec_commands.specs.Checks.{Check, IsCurrent, HasNoModel};
ghost use Rattle.spec_derivations.specs.Problems.{problem_of, terms_of_problem};
ghost use Rattle.spec_derivations.specs.Derivations.{Derivation, conclusion, conclusion_at};
ghost use Rattle.spec_derivations.specs.Derivations.{IsDerivation, IsDerivedFrom};

use crate::laws::derivations_are_sound;

/// States that a check has no model where the empty clause is derived from its terms. The derivation's clauses have
/// formulas over the declared symbols. So where a search has derived that clause, `unsat` is right.
pub fn derived_empty_clauses_leave_no_model()
    ensures { (limit : ℕ) (script : List ℕ) (k : ℕ) (c : Check) (interface : List Term) (d : Derivation) (n : ℕ)
        → IsCurrent limit script k c → IsDerivation d
        → All (λ x. All (IsFormulaOver (symbols_in (signature_of c.stack))) (conclusion x)) d
        → IsDerivedFrom (terms_of_problem (problem_of c interface)) d n → conclusion_at d n ≡ []
        → HasNoModel limit script k }
{
    derivations_are_sound();
    spec_commands::texts_have_one_check_of_a_number();
    spec_commands::what_is_asked_has_its_texts_value();
}
