//! Laws of the causes of an undecided check: functions with empty bodies, whose clauses are proved of the definitions.

ghost use Rattle.std.specs.Prelude.{◌≡◌, ◌⊎◌, ℕ, List, [], Some, Ok, All};
ghost use Rattle.spec_numbers.specs.Fractions.{Fraction};
ghost use Rattle.spec_numbers.specs.Bounds.{Overflow};
ghost use Rattle.spec_sorts.specs.Terms.{Symbol, Term, sort_of};
ghost use Rattle.spec_sorts.specs.Terms.{Number as Real};
ghost use Rattle.spec_sorts.specs.WellSorted.{IsWellSorted};
ghost use Rattle.spec_sorts.specs.Literals.{Literal};
ghost use Rattle.spec_arithmetic.specs.Forms.{Form, form};
ghost use Rattle.spec_arithmetic.specs.Numbers.{number_at, IsLinearOver};
ghost use Rattle.spec_sorts.specs.Subsets.{AreAmong};
ghost use Rattle.spec_derivations.specs.Problems.{Problem};
ghost use Rattle.spec_tableaux.specs.SolvedForms.{IsSolved};
ghost use Rattle.spec_tableaux.specs.Ranges.{Meets};
ghost use Rattle.spec_tableaux.specs.Spaces.{Pair};
ghost use Rattle.spec_tableaux.specs.Numbers.{Number, numbers};
ghost use Rattle.spec_tableaux.specs.Points.{deltas, point_in, Ranges, AssignmentState};
ghost use Rattle.spec_tableaux.specs.Halves.{at_number};
ghost use Rattle.spec_simplex.specs.Numbers.{HoldsAt};
ghost use Rattle.spec_tableaux.specs.Runs.{Ran, RanShort};
ghost use Rattle.spec_simplex.specs.Overflows.{IsOverflow};
ghost use Rattle.spec_causes.specs.TermTableau.{TermTableau, owner_in, AreOwned};
ghost use Rattle.spec_causes.specs.Shared.{IsValueOf, ShareNothing};
ghost use Rattle.spec_causes.specs.Reached.{IsReached, IsStoppedAt};
ghost use Rattle.spec_causes.specs.Causes.{OverflowsAt, AreSilent};
ghost use Rattle.spec_causes.specs.Checks.{IsOverflowed};

/// States that where a search comes to an overflow, an operation on fractions leaves the bound on its operands.
pub fn causes_are_overflows()
    ensures simplex { (ts : List Term) (s : TermTableau) (o : Overflow) → OverflowsAt ts s o → IsOverflow o }
    ensures search { (p : Problem) (l : ℕ) (es : List (ℕ × ℕ)) (o : Overflow) → IsOverflowed p l es o → IsOverflow o }
{}

/// States that what simplex comes to over terms, it comes to over more of them.
pub fn more_terms_keep_causes()
    ensures reached { (ts us : List Term) → AreAmong ts us → (n : ℕ) (es : List (ℕ × ℕ)) (s : TermTableau)
        → IsReached ts n es s → IsReached us n es s }
    ensures may_overflow { (ts us : List Term) → AreAmong ts us → (s : TermTableau) (o : Overflow)
        → OverflowsAt ts s o → OverflowsAt us s o }
{}

/// States that a check of bounds which the values keep makes no exchange, and keeps none that is not made. The rows are in solved
/// form. So a run comes only where a bound came since a check that found nothing wrong, or the last one found something.
pub fn kept_bounds_make_no_run()
    ensures none { (ranges : Ranges) (t u : AssignmentState) (old new : List (ℕ × ℕ)) → IsSolved numbers t.rows
        → Meets deltas t.rows ranges t.point → Ran ranges t u old new → new ≡ old }
    ensures whole { (ranges : Ranges) (t u : AssignmentState) (old new : List (ℕ × ℕ)) → IsSolved numbers t.rows
        → Meets deltas t.rows ranges t.point → RanShort ranges t u old new → ⊥ }
{}

/// States that exchanges are counted: where no run is, none was made.
pub fn exchanges_are_counted()
    ensures { (ts : List Term) (es : List (ℕ × ℕ)) (s : TermTableau) → IsReached ts 0 es s → es ≡ [] }
{}

/// States that where no atom among terms says anything of numbers, simplex comes to no exchange over them. No operation of it
/// leaves the bound where it is stopped, if no term of sort Real is shared among the terms.
pub fn nothing_comes_of_no_numbers()
    ensures reached { (ts : List Term) → AreSilent ts → (n : ℕ) (es : List (ℕ × ℕ)) (s : TermTableau)
        → IsReached ts n es s → es ≡ [] }
    ensures may_overflow { (ts : List Term) → AreSilent ts → ShareNothing ts
        → (n : ℕ) (es : List (ℕ × ℕ)) (s : TermTableau)
        → IsReached ts n es s → (o : Overflow) → OverflowsAt ts s o → ⊥ }
    ensures stopped { (ts : List Term) → AreSilent ts → (n : ℕ) (es : List (ℕ × ℕ)) (s : TermTableau)
        → IsStoppedAt ts n es s → (es ≡ []) × (ShareNothing ts → (o : Overflow) → OverflowsAt ts s o → ⊥) }
{}

/// States that a term of sort Real whose form stays within the bound has a value in the state of simplex, and one alone where no two
/// variables stand for one term.
pub fn terms_have_one_value()
    ensures some { (symbols : List Symbol) (s : TermTableau) (u : Term) (f : Form) → IsWellSorted symbols [] u
        → sort_of u ≡ Real → form u ≡ Ok f → (p : Pair Number) × IsValueOf s u p }
    ensures one { (s : TermTableau) (u : Term) (p q : Pair Number)
        → ((y z : ℕ) (w : Term) → owner_in s.owners y ≡ Some w → owner_in s.owners z ≡ Some w → y ≡ z)
        → IsValueOf s u p → IsValueOf s u q → p ≡ q }
{}

/// States that a linear term has, at each number in the place of the infinitesimal, the number of its value in the state of simplex, where
/// variables have the numbers of the terms that they stand for, and each other term 0. So a shared term has the number of its head at
/// its arguments' numbers.
pub fn values_are_numbers_of_terms()
    ensures { (e : Number) (s : TermTableau) (n : Term → Number)
        → AreOwned s.owners n (λ y. at_number e (point_in s.values y))
        → ((u : Term) → ((y : ℕ) → owner_in s.owners y ≡ Some u → ⊥) → n u ≡ numbers.zero)
        → (symbols : List Symbol) (u : Term) (p : Pair Number) → IsLinearOver symbols u → IsValueOf s u p
        → number_at (λ w. (n w).fraction) u ≡ (at_number e p).fraction }
{}

/// States that literals hold as well where some terms have the numbers of their heads at their arguments' numbers, instead of their
/// own ones.
pub fn numbers_of_heads_may_be_taken()
    ensures { (m n : Term → Fraction) → ((u : Term) → (m u ≡ n u) ⊎ (m u ≡ number_at n u))
        → (ls : List Literal) → All (HoldsAt n) ls → All (HoldsAt m) ls }
{}
