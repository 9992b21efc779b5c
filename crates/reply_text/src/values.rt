//! Names, numerals and values.

ghost use Rattle.std.specs.Prelude.{◌≡◌, ◌++◌, List, pos, unsigned_abs};
ghost use Rattle.std.specs.Int.Signed.{lt_z};
ghost use Rattle.spec_text.specs.Bytes.{Name};
ghost use Rattle.spec_text.specs.Printed.{printed, printed_symbol};
ghost use Rattle.spec_models.specs.Values.{numeral, whole_tree, fraction_tree, element_tree, value_text};
ghost use Rattle.ratio128.specs.Meant.{fraction};
ghost use Rattle.term_walks.specs.Valuations.{value_meant};
ghost use Rattle.world_io.specs.Writing.{Sends};
ghost use Rattle.reply_text.specs.Values.{IsSortOf};

use itoa::Buffer;
use ratio128::Ratio;
use smt_lexer::bars_of;
use spec_models::laws::numerals_are_decimal;
use term_walks::Value;
use world_io::{Failed, Sink, write_all, write_pieces};

/// Writes a symbol by its name: with bars only where it is no symbol without them.
///
/// It takes no memory. `Failed` comes only where the sink's count of faults rose in this call; a prefix was then
/// appended.
/// Source: SMT-LIB 2.6, section 3.1.
pub fn name<K: Sink>(symbol: &[u8], out: &mut K) -> Result<(), Failed>
    ensures { Sends (printed_symbol symbol.now) result (K.state out.old) (K.state out.new) }
{
    let (before, after) = bars_of(symbol);
    write_pieces(out, &[before, symbol, after])
}

/// Writes a number in decimal, without zeros before it, between the bytes before it and those after it.
///
/// It takes no memory. `Failed` comes only where the sink's count of faults rose in this call; a prefix was then
/// appended.
pub fn write_numeral<'a, K: Sink>(
    before: &'a [u8],
    n: u128,
    after: &'a [u8],
    out: &mut K,
) -> Result<(), Failed>
    ensures { Sends (before.now ++ (numeral n ++ after.now)) result (K.state out.old) (K.state out.new) }
{
    numerals_are_decimal();
    let mut buffer = Buffer::new();
    let digits = buffer.format(n);
    write_pieces(out, &[before, digits.as_bytes(), after])
}

/// Tells whether a fraction is below 0.
fn is_below(q: Ratio) -> bool
    ensures { result ≡ lt_z (fraction q).num (pos 0) }
{
    q.num() < 0
}

/// Says the size of a fraction's numerator.
fn numerator(q: Ratio) -> u128
    ensures { unsigned_abs (fraction q).num ≡ result }
{
    q.num().unsigned_abs()
}

/// Says a fraction's denominator.
fn denominator(q: Ratio) -> u128
    ensures { result ≡ (fraction q).den }
{
    q.den().unsigned_abs()
}

/// Writes a fraction's numerator, one below 0 by its negation, between the bytes before it and those after it.
fn write_whole<'a, K: Sink>(
    before: &'a [u8],
    q: Ratio,
    after: &'a [u8],
    out: &mut K,
) -> Result<(), Failed>
    ensures { Sends (before.now ++ (printed (whole_tree (fraction q).num) ++ after.now)) result
        (K.state out.old) (K.state out.new) }
{
    if is_below(q) {
        write_all(out, before)?;
        write_numeral(b"(- ", numerator(q), b")", out)?;
        return write_all(out, after);
    }
    write_numeral(before, numerator(q), after, out)
}

/// Writes a fraction: a whole number alone, or a quotient.
pub(crate) fn write_ratio<K: Sink>(q: Ratio, out: &mut K) -> Result<(), Failed>
    ensures { Sends (printed (fraction_tree (fraction q))) result (K.state out.old) (K.state out.new) }
{
    let den = denominator(q);
    if den == 1 {
        return write_whole(b"", q, b"", out);
    }
    write_whole(b"(/ ", q, b" ", out)?;
    write_numeral(b"", den, b")", out)
}

/// Writes an element of a declared sort by its number and the sort's name.
fn write_element<K: Sink>(k: u64, sort: &[u8], out: &mut K) -> Result<(), Failed>
    ensures { Sends (printed (element_tree sort.now k)) result (K.state out.old) (K.state out.new) }
{
    write_numeral(b"(as @e", k as u128, b" ", out)?;
    name(sort, out)?;
    write_all(out, b")")
}

/// Gives the letters of a truth value.
fn letters(truth: bool) -> &'static [u8]
    ensures { (sorts : List Name) → result.now ≡ value_text (value_meant sorts (Value.Bool truth)) }
{
    if truth {
        return b"true";
    }
    b"false"
}

/// Writes a value: a truth value, a fraction in lowest terms as `(/ (- 1) 3)`, or an element as `(as @e0 U)`. `sort` is
/// the name of an element's sort, without bars; it is not looked at for other values.
///
/// It takes no memory. `Failed` comes only where the sink's count of faults rose in this call; a prefix was then
/// appended.
/// Source: SMT-LIB 2.6, section 4.2.6; the elements of a declared sort are own.
pub fn value<K: Sink>(v: Value, sort: &[u8], out: &mut K) -> Result<(), Failed>
    ensures { (sorts : List Name) → IsSortOf sorts v sort.now
        → Sends (value_text (value_meant sorts v)) result (K.state out.old) (K.state out.new) }
{
    match v {
        Value::Bool(truth) => write_all(out, letters(truth)),
        Value::Number(q) => write_ratio(q, out),
        Value::Element(_, k) => write_element(k, sort, out),
    }
}
