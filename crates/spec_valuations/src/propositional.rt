//! What the definitions imply of propositional formulas. Each law is a function whose contract is the law; it computes nothing.

ghost use Rattle.std.specs.Prelude.{◌≡◌, ℕ, true, List, [], All, Contains};
ghost use Rattle.spec_numbers.specs.Fractions.{Fraction};
ghost use Rattle.spec_sorts.specs.Terms.{Symbol, Term};
ghost use Rattle.spec_sorts.specs.Values.{Interpretation, Interprets, truth};
ghost use Rattle.spec_sorts.specs.TermValues.{value_at};
ghost use Rattle.spec_rules.specs.Truths.{Truths, term_true_by};
ghost use Rattle.spec_derivations.specs.Problems.{Problem, terms_of_problem};
ghost use Rattle.spec_valuations.specs.Tables.{IsModelBy};
ghost use Rattle.spec_valuations.specs.Classes.{value_by};
ghost use Rattle.spec_valuations.specs.Propositional.{IsPropositionallySaturated};

/// States that where a search over propositional formulas is saturated, its truths give a model. In it each symbol has its table,
/// each listed term has its value, and each asserted term is true. The assumed terms are true where the truths make them
/// so. None of the terms is a number or an element, so points and classes do not matter. Source: Tseitin 1968.
pub fn saturated_propositional_searches_have_models()
    ensures interprets { (symbols : List Symbol) (p : Problem) (terms : List Term) (v : Truths)
        (point : Term → Fraction) (class : Term → ℕ) (i : Interpretation)
        → IsPropositionallySaturated symbols p terms v
        → IsModelBy i (value_by (term_true_by v) point class) symbols terms → Interprets i symbols }
    ensures values { (symbols : List Symbol) (p : Problem) (terms : List Term) (v : Truths)
        (point : Term → Fraction) (class : Term → ℕ) (i : Interpretation)
        → IsPropositionallySaturated symbols p terms v
        → IsModelBy i (value_by (term_true_by v) point class) symbols terms
        → (t : Term) → Contains terms t → value_at i [] t ≡ value_by (term_true_by v) point class t }
    ensures asserted { (symbols : List Symbol) (p : Problem) (terms : List Term) (v : Truths)
        (point : Term → Fraction) (class : Term → ℕ) (i : Interpretation)
        → IsPropositionallySaturated symbols p terms v
        → IsModelBy i (value_by (term_true_by v) point class) symbols terms
        → All (λ t. value_at i [] t ≡ truth true) p.asserted }
    ensures all { (symbols : List Symbol) (p : Problem) (terms : List Term) (v : Truths)
        (point : Term → Fraction) (class : Term → ℕ) (i : Interpretation)
        → IsPropositionallySaturated symbols p terms v
        → IsModelBy i (value_by (term_true_by v) point class) symbols terms
        → All (λ t. term_true_by v t ≡ true) p.assumed
        → All (λ t. value_at i [] t ≡ truth true) (terms_of_problem p) }
{}
