//! Numbers in place, and as arguments of rules.

ghost use Rattle.std.specs.Prelude.{◌≡◌, ◌++◌, ◌∷◌, ◌/◌, ◌%◌, ◌^◌, ◌<◌, Some};
ghost use Rattle.spec_text.specs.Printed.{printed};
ghost use Rattle.spec_models.specs.Values.{numeral, fraction_tree};
ghost use Rattle.spec_proof_texts.specs.Decimals.{places_from, places, behind_point, literal_tree};
ghost use Rattle.ratio128.specs.Meant.{fraction};
ghost use Rattle.world_io.specs.Writing.{Sends};
ghost use Rattle.alethe_writer.specs.Digits.{IsPower, IsDecimalOf};

use itoa::Buffer;
use ratio128::Ratio;
use spec_models::laws::numerals_are_decimal;
use world_io::{Failed, Sink, write_pieces};

/// The greatest number of digits after a point.
const MOST_PLACES: u32 = 38;

/// A number in units of its last place, and how many places there are.
#[derive(Clone, Copy)]
pub(crate) struct Decimal {
    pub(crate) units: u128,
    pub(crate) places: u32,
    pub(crate) power: u128,
}

/// Writes a number in decimal after a word.
pub(crate) fn write_number<K: Sink>(before: &[u8], number: u128, out: &mut K) -> Result<(), Failed>
    ensures { Sends (before.now ++ numeral number) result (K.state out.old) (K.state out.new) }
{
    numerals_are_decimal();
    let mut buffer = Buffer::new();
    write_pieces(out, &[before, buffer.format(number).as_bytes()])
}

/// Writes a fraction after a word: a whole number alone, one below 0 by its negation, or a quotient.
pub(crate) fn write_fraction<K: Sink>(before: &[u8], q: Ratio, out: &mut K) -> Result<(), Failed>
    ensures { Sends (before.now ++ printed (fraction_tree (fraction q))) result (K.state out.old) (K.state out.new) }
{
    numerals_are_decimal();
    let mut above = Buffer::new();
    let mut below = Buffer::new();
    let num = above.format(q.num().unsigned_abs()).as_bytes();
    let den = below.format(q.den().unsigned_abs()).as_bytes();
    if q.den() == 1 {
        if q.num() < 0 {
            return write_pieces(out, &[before, b"(- ", num, b")"]);
        }
        return write_pieces(out, &[before, num]);
    }
    if q.num() < 0 {
        return write_pieces(out, &[before, b"(/ (- ", num, b") ", den, b")"]);
    }
    write_pieces(out, &[before, b"(/ ", num, b" ", den, b")"])
}

/// Counts the digits after the point of a number by its denominator: the least number of them, up to 38, at which it leaves no remainder,
/// with that power of ten.
fn places_of(den: u128) -> (u32, u128)
    requires { 0 < den }
    ensures { IsPower result.0 result.1 × (result.0 ≡ places_from 38 0 den) }
{
    let mut power: u128 = 1;
    'places: for count in 0..MOST_PLACES {
        if power % den == 0 {
            return (count, power);
        }
        power *= 10;
    }
    (MOST_PLACES, power)
}

/// Gives a number as a decimal; `None` exactly where it has none.
fn decimal_of(q: Ratio) -> Option<Decimal>
    ensures { IsDecimalOf (fraction q) result }
{
    if q.num() < 0 {
        return None;
    }
    let den = q.den().unsigned_abs();
    let (places, power) = places_of(den);
    if power % den != 0 {
        return None;
    }
    let units = q.num().unsigned_abs().checked_mul(power / den)?;
    if units >= 1 << 127 {
        return None;
    }
    Some(Decimal {
        units,
        places,
        power,
    })
}

/// Writes a decimal after a space.
fn write_decimal<K: Sink>(d: Decimal, out: &mut K) -> Result<(), Failed>
    requires power { IsPower d.places d.power }
    requires small { d.units < 2 ^ 127 }
    ensures { Sends (32 ∷ (numeral (d.units / 10 ^ d.places) ++ behind_point d.places d.units)) result
        (K.state out.old) (K.state out.new) }
{
    if d.places == 0 {
        return write_number(b" ", d.units, out);
    }
    numerals_are_decimal();
    let mut front = Buffer::new();
    let mut behind = Buffer::new();
    let whole = front.format(d.units / d.power).as_bytes();
    let digits = behind.format(d.power + d.units % d.power).as_bytes();
    write_pieces(out, &[b" ", whole, b".", &digits[1..]])
}

/// Writes a number in place after a space: as a numeral or the shortest decimal, or as its value is where it has none.
pub(crate) fn write_literal<K: Sink>(q: Ratio, out: &mut K) -> Result<(), Failed>
    ensures { Sends (32 ∷ printed (literal_tree (fraction q))) result (K.state out.old) (K.state out.new) }
{
    match decimal_of(q) {
        None => write_fraction(b" ", q, out),
        Some(decimal) => write_decimal(decimal, out),
    }
}
