//! Laws of fractions: functions with empty bodies, whose clauses are proved of the definitions.

ghost use Rattle.std.specs.Prelude.{◌≡◌, ◌≢◌, ℕ, ◌<◌, ◌<ℤ◌, ℤ, pos};
ghost use Rattle.std.specs.Int.{IsGcd};
ghost use Rattle.std.specs.Ordering.{ordering_reverse};
ghost use Rattle.std.proofs.Common.{Less, Equal};
ghost use Rattle.spec_numbers.specs.Fractions.{Fraction, gcd, IsReduced, SameValue, lowest, zero_fraction, one_fraction};
ghost use Rattle.spec_numbers.specs.Fractions.{plus, minus, opposite, times, inverse, divide, compare};

/// States that `gcd` is the greatest common divisor: each common divisor divides it.
pub fn gcd_is_greatest()
    ensures { (a b : ℕ) → IsGcd a b (gcd a b) }
{}

/// States that two fractions in lowest terms with one value are the same.
pub fn lowest_terms_are_unique()
    ensures { (x y : Fraction) → IsReduced x → IsReduced y → SameValue x y → x ≡ y }
{}

/// States that a whole number over one above 0 has a fraction in lowest terms with its value.
pub fn each_value_has_lowest_terms()
    ensures reduced { (z : ℤ) (d : ℕ) → 0 < d → IsReduced (lowest z d) }
    ensures value { (z : ℤ) (d : ℕ) → 0 < d → SameValue (lowest z d) (record { num = z; den = d }) }
{}

/// States that the operations on fractions in lowest terms give fractions in lowest terms.
pub fn results_are_in_lowest_terms()
    ensures sum { (x y : Fraction) → IsReduced x → IsReduced y → IsReduced (plus x y) }
    ensures difference { (x y : Fraction) → IsReduced x → IsReduced y → IsReduced (minus x y) }
    ensures product { (x y : Fraction) → IsReduced x → IsReduced y → IsReduced (times x y) }
    ensures quotient { (x y : Fraction) → IsReduced x → IsReduced y → IsReduced (divide x y) }
    ensures opposite { (x : Fraction) → IsReduced x → IsReduced (opposite x) }
    ensures inverse { (x : Fraction) → IsReduced x → IsReduced (inverse x) }
{}

/// States that fractions in lowest terms are a field with `plus` and `times`.
pub fn fractions_are_a_field()
    ensures sum_associative { (x y z : Fraction) → plus (plus x y) z ≡ plus x (plus y z) }
    ensures sum_commutative { (x y : Fraction) → plus x y ≡ plus y x }
    ensures zero { (x : Fraction) → IsReduced x → plus x zero_fraction ≡ x }
    ensures opposite { (x : Fraction) → IsReduced x → plus x (opposite x) ≡ zero_fraction }
    ensures product_associative { (x y z : Fraction) → times (times x y) z ≡ times x (times y z) }
    ensures product_commutative { (x y : Fraction) → times x y ≡ times y x }
    ensures one { (x : Fraction) → IsReduced x → times x one_fraction ≡ x }
    ensures inverse { (x : Fraction) → IsReduced x → x ≢ zero_fraction → times x (inverse x) ≡ one_fraction }
    ensures distributive { (x y z : Fraction) → 0 < z.den → times (plus x y) z ≡ plus (times x z) (times y z) }
{}

/// States that `compare` is a total order on fractions in lowest terms, and fits the operations of the field.
pub fn fractions_are_ordered()
    ensures equal { (x y : Fraction) → IsReduced x → IsReduced y → compare x y ≡ Equal → x ≡ y }
    ensures reversed { (x y : Fraction) → compare x y ≡ ordering_reverse (compare y x) }
    ensures transitive { (x y z : Fraction) → IsReduced x → IsReduced y → IsReduced z
        → compare x y ≡ Less → compare y z ≡ Less → compare x z ≡ Less }
    ensures sum { (x y z : Fraction) → IsReduced x → IsReduced y → IsReduced z
        → compare (plus x z) (plus y z) ≡ compare x y }
    ensures product { (x y z : Fraction) → IsReduced x → IsReduced y → IsReduced z → pos 0 <ℤ z.num
        → compare (times x z) (times y z) ≡ compare x y }
{}
