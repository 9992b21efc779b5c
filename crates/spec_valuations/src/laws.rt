//! What the definitions imply. Each law is a function whose contract is the law; it computes nothing.

ghost use Rattle.std.specs.Prelude.{◌≡◌, ◌↔◌, ◌<◌, ℕ, Bool, true, List, [], length, get_or, All, Contains};
ghost use Rattle.spec_numbers.specs.Fractions.{Fraction};
ghost use Rattle.spec_sorts.specs.Terms.{Number, Symbol, Equal, Apply, Term, Terms, app, pair, sort_of};
ghost use Rattle.spec_sorts.specs.Values.{Interpretation, Interprets, truth};
ghost use Rattle.spec_sorts.specs.TermValues.{value_at};
ghost use Rattle.spec_sorts.specs.Literals.{Literal};
ghost use Rattle.spec_arithmetic.specs.Numbers.{number_at, IsLinear};
ghost use Rattle.spec_rules.specs.Truths.{Truths, term_true_by};
ghost use Rattle.spec_derivations.specs.Problems.{Problem, terms_of_problem, subterms_in, known_terms};
ghost use Rattle.spec_derivations.specs.Orders.{whole_terms};
ghost use Rattle.spec_valuations.specs.Tables.{Valuation, IsModelBy, AreListed, IsValuation};
ghost use Rattle.spec_valuations.specs.Classes.{value_by, class_in, IsEqualityAmong};
ghost use Rattle.spec_valuations.specs.Classes.{AreClasses, TellsNumbers, Chooses, AreJoint, AreDefined};
ghost use Rattle.spec_valuations.specs.Saturation.{Saturated, TheoryValues, values_of, IsSaturatedWithNumbers, IsSaturatedOnNumbers};

/// States that under the interpretation that values of listed terms give, each of these terms has its value.
pub fn values_are_met()
    ensures { (i : Interpretation) (v : Valuation) (symbols : List Symbol) (terms : List Term)
        → AreListed symbols terms → IsValuation v terms → IsModelBy i v symbols terms
        → (t : Term) → Contains terms t → value_at i [] t ≡ v t }
{}

/// States that the interpretation that values of listed terms give has a table for each symbol.
pub fn values_interpret()
    ensures { (i : Interpretation) (v : Valuation) (symbols : List Symbol) (terms : List Term)
        → AreListed symbols terms → IsValuation v terms → IsModelBy i v symbols terms → Interprets i symbols }
{}

/// States that truths, numbers and classes that fit together give values that do. Source: Nelson and Oppen 1979.
pub fn joint_values_are_values()
    ensures { (truths : Term → Bool) (point : Term → Fraction) (class : Term → ℕ) (symbols : List Symbol)
        (terms shared : List Term) → AreListed symbols terms → AreJoint truths point class terms shared
        → IsValuation (value_by truths point class) terms }
{}

/// States that where the clauses that define choices are met, each choice has the value of its branch.
pub fn choices_have_their_branches_value()
    ensures { (truths : Term → Bool) (point : Term → Fraction) (class : Term → ℕ) (terms : List Term)
        → AreClasses truths class terms → TellsNumbers truths point terms → AreDefined truths terms
        → Chooses truths (value_by truths point class) terms }
{}

/// States that a listed term has the class that is given for a place where it is.
pub fn listed_terms_have_their_places_class()
    ensures { (terms : List Term) (classes : List ℕ) (t : Term) → Contains terms t
        → (k : ℕ) × (k < length terms) × (get_or terms k t ≡ t) × (class_in terms classes t ≡ get_or classes k 0) }
{}

/// States that where a search over equality and functions is saturated, its truths and classes give a model. In it each symbol
/// has its table, each listed term has its value, and each asserted term is true. The assumed terms are true where the
/// truths make them so. None of the terms is a number, so their points do not matter. Source: Nelson and Oppen 1979.
pub fn saturated_searches_have_models()
    ensures interprets { (symbols : List Symbol) (p : Problem) (terms : List Term) (held : List Literal) (v : Truths)
        (class : Term → ℕ) (point : Term → Fraction) (i : Interpretation) → Saturated symbols p terms held v class
        → IsModelBy i (value_by (term_true_by v) point class) symbols terms → Interprets i symbols }
    ensures values { (symbols : List Symbol) (p : Problem) (terms : List Term) (held : List Literal) (v : Truths)
        (class : Term → ℕ) (point : Term → Fraction) (i : Interpretation) → Saturated symbols p terms held v class
        → IsModelBy i (value_by (term_true_by v) point class) symbols terms
        → (t : Term) → Contains terms t → value_at i [] t ≡ value_by (term_true_by v) point class t }
    ensures asserted { (symbols : List Symbol) (p : Problem) (terms : List Term) (held : List Literal) (v : Truths)
        (class : Term → ℕ) (point : Term → Fraction) (i : Interpretation) → Saturated symbols p terms held v class
        → IsModelBy i (value_by (term_true_by v) point class) symbols terms
        → All (λ t. value_at i [] t ≡ truth true) p.asserted }
    ensures all { (symbols : List Symbol) (p : Problem) (terms : List Term) (held : List Literal) (v : Truths)
        (class : Term → ℕ) (point : Term → Fraction) (i : Interpretation) → Saturated symbols p terms held v class
        → IsModelBy i (value_by (term_true_by v) point class) symbols terms
        → All (λ t. term_true_by v t ≡ true) p.assumed
        → All (λ t. value_at i [] t ≡ truth true) (terms_of_problem p) }
{}

/// States that where a search over equality, functions and linear arithmetic is saturated, its truths, classes and numbers give a
/// model. In it each symbol has its table, each listed term has its value, and each asserted term is true. The assumed
/// terms are true where the truths make them so. Its theories agree on shared terms: these have one number exactly where
/// they have one class. Source: Nelson and Oppen 1979.
pub fn searches_saturated_on_numbers_have_models()
    ensures interprets { (symbols : List Symbol) (p : Problem) (terms : List Term) (held : List Literal)
        (a : TheoryValues) (i : Interpretation) → IsSaturatedOnNumbers symbols p terms held a
        → IsModelBy i (values_of a) symbols terms → Interprets i symbols }
    ensures values { (symbols : List Symbol) (p : Problem) (terms : List Term) (held : List Literal)
        (a : TheoryValues) (i : Interpretation) → IsSaturatedOnNumbers symbols p terms held a
        → IsModelBy i (values_of a) symbols terms → (t : Term) → Contains terms t → value_at i [] t ≡ values_of a t }
    ensures asserted { (symbols : List Symbol) (p : Problem) (terms : List Term) (held : List Literal)
        (a : TheoryValues) (i : Interpretation) → IsSaturatedOnNumbers symbols p terms held a
        → IsModelBy i (values_of a) symbols terms → All (λ t. value_at i [] t ≡ truth true) p.asserted }
    ensures all { (symbols : List Symbol) (p : Problem) (terms : List Term) (held : List Literal)
        (a : TheoryValues) (i : Interpretation) → IsSaturatedOnNumbers symbols p terms held a
        → IsModelBy i (values_of a) symbols terms → All (λ t. term_true_by a.truths t ≡ true) p.assumed
        → All (λ t. value_at i [] t ≡ truth true) (terms_of_problem p) }
{}

/// States that where a search is saturated, its theories agree on the sides of each equality of numbers that it speaks of. These
/// have one class exactly where they have one number.
pub fn sides_of_equalities_agree()
    ensures { (symbols : List Symbol) (p : Problem) (terms : List Term) (held : List Literal) (a : TheoryValues)
        → IsSaturatedWithNumbers symbols p terms held a
        → (s t : Term) → Contains terms (pair Equal s t) → sort_of s ≡ Number
        → (a.class s ≡ a.class t) ↔ (number_at a.number s ≡ number_at a.number t) }
{}

/// States that interface equalities add no application of a declared symbol, where their sides are
/// among the subterms of these terms. Each that a search speaks of is one of these subterms.
pub fn interface_equalities_apply_nothing_more()
    ensures { (p : Problem) → ((e : Term) → Contains p.interface e → IsEqualityAmong (subterms_in p) e)
        → (f : Symbol) (us : Terms) → Contains (whole_terms p) (app (Apply f) us)
        → Contains (subterms_in p) (app (Apply f) us) }
{}

/// States that where the terms of a check and the interface equalities are linear, so are all that a search over linear
/// arithmetic speaks of.
pub fn terms_of_linear_checks_are_linear()
    ensures { (p : Problem) → All IsLinear (known_terms p)
        → (t : Term) → Contains (whole_terms p) t → IsLinear t }
{}
