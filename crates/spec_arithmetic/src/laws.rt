//! What the definitions imply. Each law is a function whose contract is the law; it computes nothing.

ghost use Rattle.std.specs.Prelude.{◌≡◌, true, false, [], List, map, Ok, All};
ghost use Rattle.std.specs.List.{list_any};
ghost use Rattle.spec_text.specs.Trees.{Trees};
ghost use Rattle.spec_numbers.specs.Fractions.{Fraction, IsReduced, minus};
ghost use Rattle.spec_sorts.specs.Terms.{Number, Symbol, Head, Term, Terms, app, list_of, sort_of};
ghost use Rattle.spec_sorts.specs.Values.{Interpretation, Interprets, number, number_in, is_true};
ghost use Rattle.spec_sorts.specs.TermValues.{head_value, value_at};
ghost use Rattle.spec_sorts.specs.Theory.{keeps_constant};
ghost use Rattle.spec_sorts.specs.WellSorted.{IsWellSorted, IsFormulaOver};
ghost use Rattle.spec_sorts.specs.Literals.{Clause};
ghost use Rattle.spec_arithmetic.specs.declared.ArithmeticRule.{ArithmeticRule};
ghost use Rattle.spec_arithmetic.specs.Forms.{Form, form, difference, form_value};
ghost use Rattle.spec_arithmetic.specs.Numbers.{number_at, IsLinearOver};
ghost use Rattle.spec_arithmetic.specs.ArithmeticRules.{IsArithmetic};

/// States that a term of sort Real has the value of its form, under each interpretation of the symbols.
pub fn forms_have_their_terms_value()
    ensures { (symbols : List Symbol) (i : Interpretation) (t : Term) (f : Form) → Interprets i symbols
        → IsWellSorted symbols [] t → sort_of t ≡ Number → form t ≡ Ok f
        → value_at i [] t ≡ number (form_value (λ u. number_in (value_at i [] u)) f) }
{}

/// States that terms of sort Real have the numbers that the heads of arithmetic give at their arguments' numbers, in lowest
/// terms, and that any other term has its own number.
pub fn numbers_obey_arithmetic()
    ensures reduced { (symbols : List Symbol) (n : Term → Fraction) (t : Term) → ((u : Term) → IsReduced (n u))
        → IsWellSorted symbols [] t → sort_of t ≡ Number → IsReduced (number_at n t) }
    ensures heads { (symbols : List Symbol) (n : Term → Fraction) (i : Interpretation) (h : Head) (ts : Terms)
        → IsWellSorted symbols [] (app h ts) → keeps_constant h ≡ true
        → number (number_at n (app h ts)) ≡ head_value i h (map (λ u. number (number_at n u)) (list_of ts)) }
    ensures others { (n : Term → Fraction) (h : Head) (ts : Terms) → keeps_constant h ≡ false
        → number_at n (app h ts) ≡ n (app h ts) }
{}

/// States that a term of sort Real has the number of its form, where the form's variables have the numbers of these terms.
/// The variables of a linear term's form have heads that are none of arithmetic: these have their own numbers.
pub fn forms_have_their_terms_number()
    ensures all { (symbols : List Symbol) (n : Term → Fraction) (t : Term) (f : Form) → ((u : Term) → IsReduced (n u))
        → IsWellSorted symbols [] t → sort_of t ≡ Number → form t ≡ Ok f → number_at n t ≡ form_value (number_at n) f }
    ensures linear { (symbols : List Symbol) (n : Term → Fraction) (t : Term) (f : Form)
        → ((u : Term) → IsReduced (n u))
        → IsLinearOver symbols t → form t ≡ Ok f → number_at n t ≡ form_value n f }
    ensures difference { (symbols : List Symbol) (n : Term → Fraction) (atom s t : Term) (f : Form)
        → ((u : Term) → IsReduced (n u)) → IsLinearOver symbols s → IsLinearOver symbols t → difference atom s t ≡ Ok f
        → form_value n f ≡ minus (number_at n s) (number_at n t) }
{}

/// States that what follows by a rule of linear arithmetic is true under each interpretation of the symbols, whose numbers
/// are fractions of any size. Source: Alethe specification, rules; Farkas 1902.
pub fn arithmetic_rules_are_sound()
    ensures { (symbols : List Symbol) (rule : ArithmeticRule) (premises : List Clause) (arguments : Trees)
        (clause : Clause)
        → (i : Interpretation) → Interprets i symbols → All (IsFormulaOver symbols) clause
        → IsArithmetic rule premises arguments clause → list_any (λ t. is_true (value_at i [] t)) clause ≡ true }
{}
