//! The numbers that numerals and decimals write.

ghost use Rattle.std.specs.Prelude.{◌≡◌, ◌≤◌, ◌<◌, ◌*◌, ◌+◌, ◌-◌, ◌^◌, [], pos, length};
ghost use Rattle.std.specs.Option.{SomeIff};
ghost use Rattle.spec_text.specs.Bytes.{is_digit};
ghost use Rattle.spec_numbers.specs.Fractions.{lowest};
ghost use Rattle.spec_sorts.specs.Numerals.{whole_digits, trimmed, point_digits, number_after};
ghost use Rattle.spec_sorts.specs.Terms.{Literal, of};
ghost use Rattle.spec_reading.specs.Reading.{literal};
ghost use Rattle.ratio128.specs.Meant.{fraction};
ghost use Rattle.term_reader.specs.Names.{answered};
ghost use Rattle.term_reader.specs.Numbers.{IsNumber};

use crate::faults::{TermFault, fault_at};
use ratio128::Ratio;
use spec_text::Fault;

const MOST: u128 = i128::MAX as u128;

/// How many digits may be after the point, without the zeros at their end.
const MOST_PLACES: usize = 38;

fn is_digit(b: u8) -> bool
    ensures { result ≡ is_digit b }
{
    b.is_ascii_digit()
}

// How many digits are before the point of a literal.
fn count_whole(literal: &[u8]) -> usize
    ensures length { result ≡ length (whole_digits literal.now) }
    ensures within { result ≤ length literal.now }
{
    let mut n = 0;
    for b in literal {
        if !is_digit(*b) {
            return n;
        }
        n += 1;
    }
    n
}

#[tactic(auto, using(smt_lexer::proofs::Runs::front_is_taken))]
fn whole_digits(literal: &[u8]) -> &[u8]
    ensures { result.now ≡ whole_digits literal.now }
{
    &literal[..count_whole(literal)]
}

// The digits without the zeros at their end.
#[tactic(auto, using(crate::proofs::Digits::trimmed_zero, spec_sorts::proofs::General::trimmed_other))]
fn trimmed(digits: &[u8]) -> &[u8]
    ensures { result.now ≡ trimmed digits.now }
{
    let mut rest = digits;
    'zeros: while let Some((last, front)) = rest.split_last() {
        if *last != b'0' {
            return rest;
        }
        rest = front;
    }
    rest
}

fn point_digits(literal: &[u8]) -> &[u8]
    ensures { result.now ≡ point_digits literal.now }
{
    let whole = count_whole(literal);
    if whole < literal.len() {
        return trimmed(&literal[whole + 1..]);
    }
    &[]
}

// The number that one digit more writes, where it is within the bound.
fn with_digit(number: u128, digit: u8) -> Option<u128>
    requires { number < 2 ^ 127 }
    ensures { SomeIff result (number * 10 + (digit - 48) < 2 ^ 127) (number * 10 + (digit - 48)) }
{
    let tens = number.checked_mul(10)?;
    let sum = tens.checked_add(u128::from(digit.saturating_sub(48)))?;
    if sum <= MOST { Some(sum) } else { None }
}

// The number that digits write after others that wrote `start`, where it is within the bound.
#[tactic(auto, using(crate::proofs::Digits::number_grows))]
fn number_after(start: u128, digits: &[u8]) -> Option<u128>
    requires { start < 2 ^ 127 }
    ensures { SomeIff result (number_after start digits.now < 2 ^ 127) (number_after start digits.now) }
{
    let mut number = start;
    let mut rest = digits;
    'digits: while let Some((digit, after)) = rest.split_first() {
        number = with_digit(number, *digit)?;
        rest = after;
    }
    Some(number)
}

#[tactic(auto, using(crate::proofs::Digits::ten_is_small, crate::proofs::Digits::ten_is_positive))]
fn power_of_ten(exponent: usize) -> u128
    requires { exponent ≤ 38 }
    ensures value { result ≡ 10 ^ exponent }
    ensures positive { 0 < result }
    ensures small { result < 2 ^ 127 }
{
    10u128.pow(exponent as u32)
}

// The fraction of a whole number over a power of ten.
fn over_power(number: u128, exponent: usize) -> Ratio
    requires number { number < 2 ^ 127 }
    requires exponent { exponent ≤ 38 }
    ensures { fraction result ≡ lowest (pos number) (10 ^ exponent) }
{
    let power = power_of_ten(exponent);
    Ratio::of(number as i128, power as i128)
}

// The number that digits write before and after the point.
fn number_of(whole: &[u8], places: &[u8]) -> Option<Ratio>
    ensures { IsNumber result whole.now places.now }
{
    if places.len() > MOST_PLACES {
        return None;
    }
    let Some(before) = number_after(0, whole) else {
        return None;
    };
    let Some(number) = number_after(before, places) else {
        return None;
    };
    Some(over_power(number, places.len()))
}

/// Gives the number that a numeral or a decimal at an offset writes, exactly.
///
/// `NumberWide` at the offset comes where its digits as one whole number, without the zeros at the end of a decimal, are
/// above 2^127 - 1, or more than 38 of them are after the point. It takes no memory.
/// Source: SMT-LIB 2.6, section 3.1 and theory Reals; the limit is own.
pub fn literal(at: u64, digits: &[u8]) -> Result<Ratio, TermFault>
    ensures { answered (λ q. of (Literal (fraction q)) []) result ≡ literal at digits.now }
{
    match number_of(whole_digits(digits), point_digits(digits)) {
        Some(number) => Ok(number),
        None => Err(fault_at(at, Fault::NumberWide)),
    }
}
