//! The numbers of elements of declared sorts, by their words.

ghost use Rattle.std.specs.Prelude.{◌≡◌, ◌<◌, ◌*◌, ◌+◌, ◌-◌, ◌^◌, option_map, MatchBool};
ghost use Rattle.std.specs.Option.{SomeIff};
ghost use Rattle.std.specs.Str.{bytes_eq};
ghost use Rattle.spec_text.specs.Bytes.{is_digit};
ghost use Rattle.spec_text.specs.Lexicon.{Consists};
ghost use Rattle.spec_sorts.specs.Numerals.{number_after};
ghost use Rattle.spec_models.specs.Values.{numeral};
ghost use Rattle.spec_models.specs.Meaning.{element_number};
ghost use Rattle.model_read.specs.Values.{element_digits, IsElementNumber};

use smt_sexpr::passes;

/// Gives the number that one digit more writes, where it is at most 2^64 - 1.
fn with_digit(number: u64, digit: u8) -> Option<u64>
    ensures { SomeIff result (number * 10 + (digit - 48) < 2 ^ 64) (number * 10 + (digit - 48)) }
{
    let tens = number.checked_mul(10)?;
    tens.checked_add(u64::from(digit.saturating_sub(48)))
}

/// Gives the number that digits write, where it is at most 2^64 - 1.
#[tactic(auto, using(term_reader::proofs::Digits::number_grows))]
fn number_of(digits: &[u8]) -> Option<u64>
    ensures { SomeIff result (number_after 0 digits.now < 2 ^ 64) (number_after 0 digits.now) }
{
    let mut number: u64 = 0;
    let mut rest = digits;
    'digits: while let Some((digit, after)) = rest.split_first() {
        number = with_digit(number, *digit)?;
        rest = after;
    }
    Some(number)
}

/// Tells whether all bytes are digits.
fn are_digits(bytes: &[u8]) -> bool
    ensures { MatchBool result (Consists is_digit bytes.now) (Consists is_digit bytes.now → ⊥) }
{
    let mut rest = bytes;
    'digits: while let Some((digit, after)) = rest.split_first() {
        if !digit.is_ascii_digit() {
            return false;
        }
        rest = after;
    }
    true
}

/// Tells whether digits are a numeral: there are some, and the first of several is not 0.
fn is_numeral(digits: &[u8]) -> bool
    ensures { result ≡ bytes_eq digits.now (numeral (number_after 0 digits.now)) }
{
    match digits.split_first() {
        Some((first, others)) => {
            if *first == b'0' {
                return others.is_empty();
            }
            are_digits(digits)
        }
        None => false,
    }
}

/// Takes the digits of the word of an element: those after `@e`, where they are a numeral.
#[tactic(auto, unfolding(crate::specs::Values::element_digits))]
fn element_digits(word: &[u8]) -> Option<&[u8]>
    ensures { option_map (λ d. d.now) result ≡ element_digits word.now }
{
    let (first, rest) = word.split_first()?;
    let (second, digits) = rest.split_first()?;
    passes(*first == b'@' && (*second == b'e' && is_numeral(digits)))?;
    Some(digits)
}

/// Gives the number of an element by its word, `@e` and a numeral: `None` where it is no such word, and `Some(None)`
/// where the number is above 2^64 - 1.
pub(crate) fn element_number(word: &[u8]) -> Option<Option<u64>>
    ensures { IsElementNumber result (element_number word.now) }
{
    match element_digits(word) {
        Some(digits) => Some(number_of(digits)),
        None => None,
    }
}
