//! Arithmetic on the parts of fractions, within the bound 2^127 - 1.

ghost use Rattle.std.specs.Prelude.{◌≡◌, ◌*◌, ◌/◌, ◌^◌, ◌<◌, ℤ, pos, ◌+ℤ◌, ◌*ℤ◌, unsigned_abs};
ghost use Rattle.std.specs.Option.{SomeIff};
ghost use Rattle.std.specs.Ordering.{nat_cmp};
ghost use Rattle.spec_numbers.specs.Fractions.{gcd, over, signed_integer};

use std::cmp::Ordering;

const MOST: u128 = i128::MAX as u128;

// Up to it, numbers are short: each fits into 64 bits, and the product of two of them into 128.
const SHORT: u128 = i64::MAX as u128;

/// Gives the greatest common divisor of two numbers, the second above 0.
///
/// Where both are short it is found in 64 bits, and where the second is 1 without a division.
pub(crate) fn gcd_of(a: u128, b: u128) -> u128
    requires { 0 < b }
    ensures value { result ≡ gcd a b }
    ensures positive { 0 < result }
{
    if b == 1 {
        return 1;
    }
    if a <= SHORT && b <= SHORT {
        return short_gcd_of(a as u64, b as u64) as u128;
    }
    long_gcd_of(a, b)
}

// The same by Euclid's algorithm.
fn long_gcd_of(a: u128, b: u128) -> u128
    requires { 0 < b }
    ensures value { result ≡ gcd a b }
    ensures positive { 0 < result }
{
    let mut x = a;
    let mut y = b;
    while y != 0 {
        let rest = x % y;
        x = y;
        y = rest;
    }
    x
}

// The same of short numbers.
fn short_gcd_of(a: u64, b: u64) -> u64
    requires { 0 < b }
    ensures value { result ≡ gcd a b }
    ensures positive { 0 < result }
{
    let mut x = a;
    let mut y = b;
    while y != 0 {
        let rest = x % y;
        x = y;
        y = rest;
    }
    x
}

/// Gives a size over another one, without a division where that is 1, and in 64 bits where both are short.
pub(crate) fn quotient_of(size: u128, by: u128) -> u128
    requires { 0 < by }
    ensures { result ≡ size / by }
{
    if by == 1 {
        return size;
    }
    if size <= SHORT && by <= SHORT {
        return (size as u64 / by as u64) as u128;
    }
    size / by
}

/// Gives a signed number over one of its divisors.
pub(crate) fn cut(num: i128, by: u128) -> i128
    requires positive { 0 < by }
    requires small { unsigned_abs num < 2 ^ 127 }
    ensures { result ≡ over num by }
{
    signed(num < 0, quotient_of(num.unsigned_abs(), by))
}

/// Gives the number of a sign and a size.
pub(crate) fn signed(negative: bool, size: u128) -> i128
    requires { size < 2 ^ 127 }
    ensures { result ≡ signed_integer negative size }
{
    if negative {
        -(size as i128)
    } else {
        size as i128
    }
}

/// Gives the product of two sizes, where it is within the bound.
pub(crate) fn narrow_product(a: u128, b: u128) -> Option<u128>
    ensures { SomeIff result (a * b < 2 ^ 127) (a * b) }
{
    let product = a.checked_mul(b)?;
    if product <= MOST { Some(product) } else { None }
}

// A signed number, where it is within the bound.
fn narrow(num: i128) -> Option<i128>
    ensures { SomeIff result (unsigned_abs num < 2 ^ 127) num }
{
    if num == i128::MIN { None } else { Some(num) }
}

/// Gives the product of two signed numbers, where it is within the bound.
pub(crate) fn narrow_signed_product(a: i128, b: i128) -> Option<i128>
    ensures { SomeIff result (unsigned_abs (a *ℤ b) < 2 ^ 127) (a *ℤ b) }
{
    narrow(a.checked_mul(b)?)
}

/// Gives a signed number times a size within the bound, where the product is within the bound too.
pub(crate) fn narrow_multiple(num: i128, by: u128) -> Option<i128>
    requires { by < 2 ^ 127 }
    ensures { SomeIff result (unsigned_abs (num *ℤ pos by) < 2 ^ 127) (num *ℤ pos by) }
{
    narrow_signed_product(num, by as i128)
}

/// Gives the sum of two signed numbers, where it is within the bound.
pub(crate) fn narrow_sum(a: i128, b: i128) -> Option<i128>
    ensures { SomeIff result (unsigned_abs (a +ℤ b) < 2 ^ 127) (a +ℤ b) }
{
    narrow(a.checked_add(b)?)
}

/// Compares two products of sizes exactly, by all 256 bits of each.
pub(crate) fn order_of_products(a: u128, b: u128, c: u128, d: u128) -> Ordering
    ensures { result ≡ nat_cmp (a * b) (c * d) }
{
    let (left_low, left_high) = a.carrying_mul(b, 0);
    let (right_low, right_high) = c.carrying_mul(d, 0);
    match left_high.cmp(&right_high) {
        Ordering::Equal => left_low.cmp(&right_low),
        other => other,
    }
}
