//! Exact operations on fractions, by the names of the field's operations.

ghost use Rattle.std.specs.Prelude.{◌≡◌, IfOk, IfErr, Err, false};
ghost use Rattle.spec_numbers.specs.Bounds.{added, subtracted, multiplied, divided};
ghost use Rattle.ratio128.specs.Meant.{fraction, overflow};
ghost use Rattle.spec_tableaux.specs.Numbers.{numbers};
ghost use Rattle.tableau.specs.Numbers.{number_of};

use ratio128::{Ratio, Wide};
use std::cmp::Ordering;

/// Gives the product. The error is `Wide` where `Ratio::mul` has it.
pub fn product(a: Ratio, b: Ratio) -> Result<Ratio, Wide>
    ensures ok { IfOk result (λ r. number_of r ≡ numbers.times (number_of a) (number_of b)) }
    ensures wide { IfErr result (λ w. multiplied (fraction a) (fraction b) ≡ Err (overflow w)) }
{
    Ratio::mul(a, b)
}

/// Gives the sum. The error is `Wide` where `Ratio::add` has it.
pub fn sum(a: Ratio, b: Ratio) -> Result<Ratio, Wide>
    ensures ok { IfOk result (λ r. number_of r ≡ numbers.plus (number_of a) (number_of b)) }
    ensures wide { IfErr result (λ w. added (fraction a) (fraction b) ≡ Err (overflow w)) }
{
    Ratio::add(a, b)
}

/// Gives the first number minus the second. The error is `Wide` where `Ratio::sub` has it.
pub fn difference(a: Ratio, b: Ratio) -> Result<Ratio, Wide>
    ensures ok { IfOk result (λ r. number_of r ≡ numbers.plus (number_of a) (numbers.opposite (number_of b))) }
    ensures wide { IfErr result (λ w. subtracted (fraction a) (fraction b) ≡ Err (overflow w)) }
{
    Ratio::sub(a, b)
}

/// Gives the first number over the second, which is not 0. The error is `Wide` where `Ratio::div` has it.
pub fn quotient(a: Ratio, d: Ratio) -> Result<Ratio, Wide>
    requires { numbers.is_zero (number_of d) ≡ false }
    ensures ok { IfOk result (λ r. number_of r ≡ numbers.times (number_of a) (numbers.inverse (number_of d))) }
    ensures wide { IfErr result (λ w. divided (fraction a) (fraction d) ≡ Err (overflow w)) }
{
    Ratio::div(a, d)
}

/// Gives the number with the other sign.
pub fn negative(a: Ratio) -> Ratio
    ensures { number_of result ≡ numbers.opposite (number_of a) }
{
    a.neg()
}

/// Says whether the number is 0.
pub fn is_zero(a: Ratio) -> bool
    ensures { result ≡ numbers.is_zero (number_of a) }
{
    a.is_zero()
}

/// Says whether the number is below 0.
pub fn is_negative(a: Ratio) -> bool
    ensures { result ≡ numbers.is_negative (number_of a) }
{
    a.num() < 0
}

/// Says whether the first number is less than the second. It never overflows.
pub fn less(a: Ratio, b: Ratio) -> bool
    ensures { result ≡ numbers.is_negative (numbers.plus (number_of a) (numbers.opposite (number_of b))) }
{
    match Ratio::cmp(&a, &b) {
        Ordering::Less => true,
        Ordering::Equal => false,
        Ordering::Greater => false,
    }
}

/// Gives 0.
pub fn zero() -> Ratio
    ensures { number_of result ≡ numbers.zero }
{
    Ratio::of(0, 1)
}

/// Gives 1.
pub fn one() -> Ratio
    ensures { number_of result ≡ numbers.one }
{
    Ratio::of(1, 1)
}
