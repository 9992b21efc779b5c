//! Laws of overflows: functions with empty bodies, whose clauses are proved of the definitions. What computes with
//! numbers fails only by an operation that leaves the bound on its own operands.

ghost use Rattle.std.specs.Prelude.{◌≡◌, ℕ, List, Err, map, Contains};
ghost use Rattle.spec_numbers.specs.Fractions.{Fraction};
ghost use Rattle.spec_numbers.specs.Bounds.{Overflow, added, subtracted, multiplied, divided};
ghost use Rattle.spec_sorts.specs.Terms.{Term};
ghost use Rattle.spec_arithmetic.specs.Forms.{Fault, form, difference};
ghost use Rattle.spec_arithmetic.specs.Contradictions.{Coefficient, given, too_wide, wide, la_generic};
ghost use Rattle.spec_tableaux.specs.Rows.{Entry, Row};
ghost use Rattle.spec_tableaux.specs.Numbers.{Number};
ghost use Rattle.spec_tableaux.specs.CheckOverflows.{Overflows, OverflowsExchange, OverflowsSum};
ghost use Rattle.spec_simplex.specs.Constraints.{Constraint, form_of};
ghost use Rattle.spec_simplex.specs.Overflows.{IsOverflow};

/// States that an operation on fractions that does not give its exact result leaves the bound.
pub fn operations_fail_by_overflows()
    ensures sum { (x y : Fraction) (o : Overflow) → added x y ≡ Err o → IsOverflow o }
    ensures difference { (x y : Fraction) (o : Overflow) → subtracted x y ≡ Err o → IsOverflow o }
    ensures product { (x y : Fraction) (o : Overflow) → multiplied x y ≡ Err o → IsOverflow o }
    ensures quotient { (x y : Fraction) (o : Overflow) → divided x y ≡ Err o → IsOverflow o }
{}

/// States that a term without a form has an operation that leaves the bound, and so have a difference of terms and a
/// constraint.
pub fn forms_fail_by_overflows()
    ensures terms { (t : Term) (e : Fault) → form t ≡ Err e → IsOverflow e.overflow }
    ensures differences { (atom s t : Term) (e : Fault) → difference atom s t ≡ Err e → IsOverflow e.overflow }
    ensures constraints { (c : Constraint) (e : Fault) → form_of c ≡ Err e → IsOverflow e.overflow }
{}

/// States that where the rule `la_generic` is too wide, an operation leaves the bound: of arguments that are numbers,
/// and of arguments whose quotients leave it where they are too wide.
pub fn rules_fail_by_overflows()
    ensures numbers { (clause : List Term) (weights : List Fraction) (o : Overflow)
        → la_generic clause (map given weights) ≡ Err (wide o) → IsOverflow o }
    ensures arguments { (clause : List Term) (arguments : List Coefficient) (o : Overflow)
        → ((w : Overflow) → Contains arguments (too_wide w) → IsOverflow w)
        → la_generic clause arguments ≡ Err (wide o) → IsOverflow o }
{}

/// States that an operation on numbers of a tableau that comes to an overflow leaves the bound.
pub fn numbers_fail_by_overflows()
    ensures sum { (x y : Number) (o : Overflow) → Overflows added x y o → IsOverflow o }
    ensures difference { (x y : Number) (o : Overflow) → Overflows subtracted x y o → IsOverflow o }
    ensures product { (x y : Number) (o : Overflow) → Overflows multiplied x y o → IsOverflow o }
    ensures quotient { (x y : Number) (o : Overflow) → Overflows divided x y o → IsOverflow o }
{}

/// States that where an pivot of two variables comes to an overflow, or a row more does, an operation leaves the
/// bound.
pub fn tableaux_fail_by_overflows()
    ensures exchange { (rs : List (Row Number)) (b x : ℕ) (o : Overflow) → OverflowsExchange rs b x o → IsOverflow o }
    ensures row { (rs : List (Row Number)) (gs : List (Entry Number)) (o : Overflow) → OverflowsSum rs gs o
        → IsOverflow o }
{}
