//! Laws of numbers with an infinitesimal part: functions with empty bodies, whose clauses are proved of the definitions.

ghost use Rattle.std.specs.Prelude.{◌≡◌, List, Contains, IfOk};
ghost use Rattle.std.specs.Ordering.{ordering_reverse};
ghost use Rattle.std.proofs.Common.{Less, Equal};
ghost use Rattle.spec_numbers.specs.Fractions.{Fraction, IsReduced, plus, minus, times, compare};
ghost use Rattle.spec_tableaux.specs.Deltas.{Delta, AreReduced, number, IsPositive, AllAgreeUpTo, delta_added, delta_subtracted, delta_scaled, delta_divided, delta_evaluated, delta_plus, delta_minus, delta_times, delta_over, delta_at, delta_compare};

/// States that a result within the bound is the exact one.
pub fn bounded_results_are_exact()
    ensures sum { (x y : Delta) → IfOk (delta_added x y) (λ z. z ≡ delta_plus x y) }
    ensures difference { (x y : Delta) → IfOk (delta_subtracted x y) (λ z. z ≡ delta_minus x y) }
    ensures product { (k : Fraction) (x : Delta) → IfOk (delta_scaled k x) (λ z. z ≡ delta_times k x) }
    ensures quotient { (x : Delta) (k : Fraction) → IfOk (delta_divided x k) (λ z. z ≡ delta_over x k) }
    ensures value { (x : Delta) (eps : Fraction) → IfOk (delta_evaluated x eps) (λ v. v ≡ delta_at x eps) }
{}

/// States that the operations on numbers in lowest terms give numbers in lowest terms.
pub fn results_are_in_lowest_terms()
    ensures sum { (x y : Delta) → AreReduced x → AreReduced y → AreReduced (delta_plus x y) }
    ensures difference { (x y : Delta) → AreReduced x → AreReduced y → AreReduced (delta_minus x y) }
    ensures product { (k : Fraction) (x : Delta) → IsReduced k → AreReduced x → AreReduced (delta_times k x) }
    ensures quotient { (x : Delta) (k : Fraction) → AreReduced x → IsReduced k → AreReduced (delta_over x k) }
    ensures value { (x : Delta) (eps : Fraction) → AreReduced x → IsReduced eps → IsReduced (delta_at x eps) }
{}

/// States that `delta_compare` is a total order on numbers in lowest terms, and fits sums, and products by a fraction that
/// is above 0.
pub fn deltas_are_ordered()
    ensures equal { (x y : Delta) → AreReduced x → AreReduced y → delta_compare x y ≡ Equal → x ≡ y }
    ensures reversed { (x y : Delta) → delta_compare x y ≡ ordering_reverse (delta_compare y x) }
    ensures transitive { (x y z : Delta) → AreReduced x → AreReduced y → AreReduced z
        → delta_compare x y ≡ Less → delta_compare y z ≡ Less → delta_compare x z ≡ Less }
    ensures sum { (x y z : Delta) → AreReduced x → AreReduced y → AreReduced z
        → delta_compare (delta_plus x z) (delta_plus y z) ≡ delta_compare x y }
    ensures product { (k : Fraction) (x y : Delta) → IsPositive k → AreReduced x → AreReduced y
        → delta_compare (delta_times k x) (delta_times k y) ≡ delta_compare x y }
{}

/// States that the value of a fraction is itself, and that those of sums and products are sums and products of values.
pub fn values_follow_the_operations()
    ensures number { (x eps : Fraction) → IsReduced x → IsReduced eps → delta_at (number x) eps ≡ x }
    ensures sum { (x y : Delta) (eps : Fraction) → IsReduced eps
        → delta_at (delta_plus x y) eps ≡ plus (delta_at x eps) (delta_at y eps) }
    ensures product { (k : Fraction) (x : Delta) (eps : Fraction) → IsReduced k
        → delta_at (delta_times k x) eps ≡ times k (delta_at x eps) }
{}

/// States when values compare as their numbers do.
///
/// Two values compare as the difference of the tilts times epsilon does with the difference of the bases, taken the other
/// way round. So numbers with one base compare as their values do for each epsilon above 0, and for each list of numbers
/// there is a fraction above 0 up to which each epsilon above 0 will do. A strict bound that is kept by numbers is kept by
/// their values there.
/// Source: Dutertre and de Moura, A Fast Linear-Arithmetic Solver for DPLL(T), CAV 2006.
pub fn small_values_compare_alike()
    ensures exactly { (x y : Delta) (eps : Fraction) → AreReduced x → AreReduced y → IsReduced eps
        → compare (delta_at x eps) (delta_at y eps) ≡ compare (times (minus x.tilt y.tilt) eps) (minus y.base x.base) }
    ensures one_base { (x y : Delta) (eps : Fraction) → AreReduced x → AreReduced y → IsPositive eps → x.base ≡ y.base
        → compare (delta_at x eps) (delta_at y eps) ≡ delta_compare x y }
    ensures up_to_some { (xs : List Delta) → ((x : Delta) → Contains xs x → AreReduced x)
        → (e : Fraction) × IsPositive e × AllAgreeUpTo e xs }
{}
