//! What a saturated search says of a check of a script. Each law is a function whose contract is the law; it computes
//! nothing.

ghost use Rattle.std.specs.Prelude.{◌≡◌, ℕ, true, List, All};
ghost use Rattle.spec_sorts.specs.Terms.{Term};
ghost use Rattle.spec_sorts.specs.Values.{Interpretation};
ghost use Rattle.spec_sorts.specs.Signatures.{symbols_in};
ghost use Rattle.spec_sorts.specs.Literals.{Literal};
ghost use Rattle.spec_commands.specs.Stack.{signature_of};
ghost use Rattle.spec_commands.specs.Checks.{Check, IsCurrent, MakesTrue};
ghost use Rattle.spec_rules.specs.Truths.{Truths, term_true_by};
ghost use Rattle.spec_derivations.specs.Problems.{problem_of};
ghost use Rattle.spec_valuations.specs.Saturation.{Saturated, TheoryValues, IsSaturatedOnNumbers};

use crate::laws::{saturated_searches_have_models, searches_saturated_on_numbers_have_models};

/// States that a check has a model where a saturated search of its terms makes true what the check assumes. So where a
/// search is saturated, `sat` is right.
pub fn saturated_searches_give_current_checks_models()
    ensures { (limit : ℕ) (script : List ℕ) (k : ℕ) (c : Check) (interface terms : List Term) (held : List Literal)
        (v : Truths) (class : Term → ℕ) → IsCurrent limit script k c
        → Saturated (symbols_in (signature_of c.stack)) (problem_of c interface) terms held v class
        → All (λ t. term_true_by v t ≡ true) (problem_of c interface).assumed
        → (i : Interpretation) × MakesTrue limit i script k }
{
    saturated_searches_have_models();
    spec_checking::laws::satisfied_scripts_have_a_model();
    spec_commands::assertions_have_their_texts_value();
}

/// States that a check has a model where a saturated search over equality, functions and linear arithmetic makes true
/// what the check assumes. Its theories agree on shared terms. So where it is saturated, `sat` is right. Source: Nelson and
/// Oppen 1979.
pub fn searches_saturated_on_numbers_give_current_checks_models()
    ensures { (limit : ℕ) (script : List ℕ) (k : ℕ) (c : Check) (interface terms : List Term) (held : List Literal)
        (a : TheoryValues) → IsCurrent limit script k c
        → IsSaturatedOnNumbers (symbols_in (signature_of c.stack)) (problem_of c interface) terms held a
        → All (λ t. term_true_by a.truths t ≡ true) (problem_of c interface).assumed
        → (i : Interpretation) × MakesTrue limit i script k }
{
    searches_saturated_on_numbers_have_models();
    spec_checking::laws::satisfied_scripts_have_a_model();
    spec_commands::assertions_have_their_texts_value();
}
