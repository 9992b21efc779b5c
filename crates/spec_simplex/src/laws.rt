//! Laws of constraints, points and weights: functions with empty bodies, whose clauses are proved of the definitions.

ghost use Rattle.std.specs.Prelude.{◌≡◌, ◌↔◌, ◌<◌, ℕ, true, List, Ok, All};
ghost use Rattle.spec_numbers.specs.Fractions.{Fraction, IsReduced, zero_fraction};
ghost use Rattle.spec_sorts.specs.Terms.{Symbol, Term};
ghost use Rattle.spec_sorts.specs.Literals.{Literal};
ghost use Rattle.spec_arithmetic.specs.Forms.{Form, variables_value, form_value};
ghost use Rattle.spec_arithmetic.specs.Numbers.{number_at, IsLinearOver};
ghost use Rattle.spec_arithmetic.specs.Contradictions.{la_generic};
ghost use Rattle.spec_tableaux.specs.Spaces.{Pair, as_space, pairs};
ghost use Rattle.spec_tableaux.specs.Rows.{Entry, sum_of};
ghost use Rattle.spec_tableaux.specs.Numbers.{Number, numbers};
ghost use Rattle.spec_simplex.specs.Constraints.{Constraint, below, equals, above, form_of};
ghost use Rattle.spec_simplex.specs.Points.{Point, bases, tilts, relates, IsFeasible, IsInfeasible};
ghost use Rattle.spec_simplex.specs.Weights.{Summand, IsSummand, CannotHold, literals_in, denials, arguments_of, IsTakenOrWide};
ghost use Rattle.spec_simplex.specs.Numbers.{Compares};
ghost use Rattle.spec_simplex.specs.Entries.{AreEntries, AreValues};

/// States that weights under which literals cannot all hold make a clause that the rule `la_generic` takes, unless one
/// of its own operations leaves 128 bits. Source: Farkas 1902.
pub fn weights_refute_constraints()
    ensures { (xs : List Summand) → All IsSummand xs → CannotHold xs
        → IsTakenOrWide (la_generic (denials xs) (arguments_of xs)) }
{}

/// States that weights under which literals cannot all hold show that no point keeps them.
pub fn weights_show_infeasibility()
    ensures { (xs : List Summand) → All IsSummand xs → CannotHold xs → IsInfeasible (literals_in xs) }
{}

/// States that a clause that the rule `la_generic` takes shows that no point keeps the literals that it denies, where
/// the constants of their forms have denominators above 0.
pub fn taken_clauses_show_infeasibility()
    ensures { (xs : List Summand) → All IsSummand xs → All (λ (x : Summand). 0 < x.form.constant.den) xs
        → la_generic (denials xs) (arguments_of xs) ≡ Ok tt → IsInfeasible (literals_in xs) }
{}

/// States that a value is below or above 0 where it is so in the order of pairs, and is 0 where it is the origin;
/// it is at most 0 where it is not above, and at least 0 where it is not below.
pub fn values_compare_in_the_order_of_pairs()
    ensures below { (x : Pair Number)
        → relates below x.base.fraction x.tilt.fraction ≡ (pairs numbers).less x (pairs numbers).origin }
    ensures above { (x : Pair Number)
        → relates above x.base.fraction x.tilt.fraction ≡ (pairs numbers).less (pairs numbers).origin x }
    ensures equals { (x : Pair Number)
        → (relates equals x.base.fraction x.tilt.fraction ≡ true) ↔ (x ≡ (pairs numbers).origin) }
{}

/// States that literals that a point keeps are not infeasible.
pub fn feasible_literals_are_not_infeasible()
    ensures { (ls : List Literal) → IsFeasible ls → IsInfeasible ls → ⊥ }
{}

/// States that a form's variables have the value that the sum of its entries has in a tableau: over numbers, and over
/// numbers with an infinitesimal part, whose bases and tilts are each the value of the variables.
pub fn forms_are_sums_of_entries()
    ensures numbers { (at : ℕ → Term) (n : Term → Number) (v : ℕ → Number) (es : List (Entry Number))
        → (xs : List (Term × Fraction)) → AreEntries at es xs → AreValues at n v es
        → variables_value (λ t. (n t).fraction) xs ≡ (sum_of (as_space numbers) v es).fraction }
    ensures bases { (at : ℕ → Term) (p : Point) (v : ℕ → Pair Number) (es : List (Entry Number))
        → (xs : List (Term × Fraction)) → AreEntries at es xs → AreValues at p v es
        → variables_value (bases p) xs ≡ (sum_of (pairs numbers) v es).base.fraction }
    ensures tilts { (at : ℕ → Term) (p : Point) (v : ℕ → Pair Number) (es : List (Entry Number))
        → (xs : List (Term × Fraction)) → AreEntries at es xs → AreValues at p v es
        → variables_value (tilts p) xs ≡ (sum_of (pairs numbers) v es).tilt.fraction }
{}

/// States that the sides of a constraint have numbers that compare as it says exactly where its form has a
/// value that compares so with 0.
pub fn forms_compare_numbers()
    ensures { (symbols : List Symbol) (n : Term → Fraction) (c : Constraint) (f : Form) → ((t : Term) → IsReduced (n t))
        → IsLinearOver symbols c.left → IsLinearOver symbols c.right → form_of c ≡ Ok f
        → Compares c.relation (number_at n c.left) (number_at n c.right)
        ↔ (relates c.relation (form_value n f) zero_fraction ≡ true) }
{}
