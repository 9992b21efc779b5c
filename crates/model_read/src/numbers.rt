//! The numbers that texts of values write.
//!
//! What is still to be done with a number is in a row, so nothing recurses on how deep a text is nested.

ghost use Rattle.std.specs.Prelude.{◌≡◌, ℕ, false, Ok};
ghost use Rattle.spec_text.specs.Trees.{list};
ghost use Rattle.spec_model_files.specs.Faults.{ReadModel};
ghost use Rattle.spec_model_files.specs.Values.{WrittenNumber, literal, literal_atom, literal_read, negation, quotient, divisor_read, number_read};
ghost use Rattle.smt_sexpr.specs.Items.{trees_meant, tree_meant, size_of};
ghost use Rattle.model_read.specs.Answers.{Answers, Gives};
ghost use Rattle.model_read.specs.Numbers.{IsNumber, is_zero_within, quotient_by, made_by, made_by_all, OpensAs, IsLeft, Descends};

use crate::errors::{LocatedFault, ReadError, fault_at};
use crate::words::{negation_in, quotient_in};
use ratio128::Ratio;
use smt_sexpr::{Kind, Trees, View, look};
use spec_model_files::ModelKind;
use std::alloc::Global;

/// Says what is done with the number of a text.
#[derive(Clone, Copy)]
enum Operation<'a> {
    /// It gets the other sign.
    Negate,
    /// It is divided by the number of this text, in a quotient at an offset.
    Divide(u64, Trees<'a>),
}

/// Says what number a text writes, as far as its own word tells.
#[derive(Clone, Copy)]
enum OpenedNumber<'a> {
    /// This one; `None` where it is beyond the bounds.
    Number(Option<Ratio>),
    /// What an operation makes of that of another text.
    Made(Operation<'a>, Trees<'a>),
}

/// Reads the digits of a numeral or a decimal: `None` where it is beyond the bound on literals.
fn literal(digits: &[u8]) -> Option<Ratio>
    ensures { IsNumber result (literal digits.now) }
{
    match term_reader::literal(0, digits) {
        Ok(number) => Some(number),
        Err(_) => None,
    }
}

/// Reads an atom, which has to be a numeral or a decimal.
pub(crate) fn literal_atom(
    at: u64,
    kind: Kind,
    digits: &[u8],
) -> Result<Option<Ratio>, LocatedFault>
    ensures { Answers IsNumber result (literal_atom at kind digits.now) }
{
    match kind {
        Kind::Numeral | Kind::Decimal => Ok(literal(digits)),
        _ => Err(fault_at(at, ModelKind::BadShape)),
    }
}

/// Gives a number with the other sign.
fn negation(number: Option<Ratio>) -> Option<Ratio>
    ensures { (x : WrittenNumber) → IsNumber number x → IsNumber result (negation x) }
{
    match number {
        Some(q) => Some(q.neg()),
        None => None,
    }
}

/// Tells whether a number is 0. One beyond the bounds is not.
fn is_zero(number: Option<Ratio>) -> bool
    ensures { (x : WrittenNumber) → IsNumber number x → result ≡ is_zero_within x }
{
    match number {
        Some(q) => q.num().unsigned_abs() == 0,
        None => false,
    }
}

/// Gives the quotient of a number by one that is not 0: `None` where one of the three is beyond the bounds.
fn quotient(number: Option<Ratio>, divisor: Option<Ratio>) -> Option<Ratio>
    requires { (y : WrittenNumber) → IsNumber divisor y → is_zero_within y ≡ false }
    ensures { (x y : WrittenNumber) → IsNumber number x → IsNumber divisor y → IsNumber result (quotient x y) }
{
    let Some(q) = number else {
        return None;
    };
    let Some(d) = divisor else {
        return None;
    };
    match q.div(d) {
        Ok(made) => Some(made),
        Err(_) => None,
    }
}

/// Reads a text, which has to be a numeral or a decimal.
fn literal_in(text: Trees<'_>) -> Result<Option<Ratio>, LocatedFault>
    ensures { Answers IsNumber result (literal_read (tree_meant text.entry)) }
{
    match look(text) {
        View::Atom(at, kind, digits) => literal_atom(u64::from(at), kind, digits),
        View::List(at, _, _) => Err(fault_at(u64::from(at), ModelKind::BadShape)),
    }
}

/// Reads a list at an offset, by the trees in it: the negation of a numeral or a decimal.
fn negated_literal(at: u64, inside: Trees<'_>) -> Result<Option<Ratio>, LocatedFault>
    ensures { (end : ℕ) → Answers IsNumber result (divisor_read (list at (trees_meant inside.entry) end)) }
{
    match negation_in(inside) {
        Some(text) => match literal_in(text) {
            Ok(number) => Ok(negation(number)),
            Err(fault) => Err(fault),
        },
        None => Err(fault_at(at, ModelKind::BadShape)),
    }
}

/// Reads the divisor of a quotient: a numeral or a decimal, or the negation of one.
fn divisor(text: Trees<'_>) -> Result<Option<Ratio>, LocatedFault>
    ensures { Answers IsNumber result (divisor_read (tree_meant text.entry)) }
{
    match look(text) {
        View::Atom(at, kind, digits) => literal_atom(u64::from(at), kind, digits),
        View::List(at, inside, _) => negated_literal(u64::from(at), inside),
    }
}

/// Opens a list at an offset by the trees in it.
fn open_list(at: u64, inside: Trees<'_>) -> Result<OpenedNumber<'_>, LocatedFault>
    ensures { (end : ℕ) → OpensAs (list at (trees_meant inside.entry) end) (size_of inside.entry) result }
{
    match negation_in(inside) {
        Some(text) => Ok(OpenedNumber::Made(Operation::Negate, text)),
        None => match quotient_in(inside) {
            Some((text, divisor)) => Ok(OpenedNumber::Made(Operation::Divide(at, divisor), text)),
            None => Err(fault_at(at, ModelKind::BadShape)),
        },
    }
}

/// Opens a text.
fn open_text(text: Trees<'_>) -> Result<OpenedNumber<'_>, LocatedFault>
    ensures { OpensAs (tree_meant text.entry) (size_of text.entry) result }
{
    match look(text) {
        View::Atom(at, kind, digits) => match literal_atom(u64::from(at), kind, digits) {
            Ok(number) => Ok(OpenedNumber::Number(number)),
            Err(fault) => Err(fault),
        },
        View::List(at, inside, _) => open_list(u64::from(at), inside),
    }
}

/// Divides a number by that of a text, in a quotient at an offset.
fn divided(at: u64, number: Option<Ratio>, text: Trees<'_>) -> Result<Option<Ratio>, LocatedFault>
    ensures { (x : WrittenNumber) → IsNumber number x
        → Answers IsNumber result (quotient_by at (tree_meant text.entry) x) }
{
    match divisor(text) {
        Ok(by) => {
            if is_zero(by) {
                return Err(fault_at(at, ModelKind::BadShape));
            }
            Ok(quotient(number, by))
        }
        Err(fault) => Err(fault),
    }
}

/// Does an operation with a number.
fn apply(operation: Operation<'_>, number: Option<Ratio>) -> Result<Option<Ratio>, LocatedFault>
    ensures { (x : WrittenNumber) → IsNumber number x → Answers IsNumber result (made_by operation.entry (Ok x)) }
{
    match operation {
        Operation::Negate => Ok(negation(number)),
        Operation::Divide(at, text) => divided(at, number, text),
    }
}

/// Goes into a text as far as its numbers come first, and gives the innermost of these. What is to be done with it
/// comes after what was pending.
fn innermost<'a>(
    pending: &mut Vec<Operation<'a>>,
    text: Trees<'a>,
) -> Result<Option<Ratio>, ReadError>
    ensures { Descends (made_by_all pending.old.items (number_read (tree_meant text.entry))) pending.new.items result }
{
    let mut inner = text;
    'texts: loop {
        match open_text(inner) {
            Ok(OpenedNumber::Number(number)) => return Ok(number),
            Ok(OpenedNumber::Made(operation, first)) => {
                pending.push(operation)?;
                inner = first;
            }
            Err(fault) => return Err(ReadError::Fault(fault)),
        }
    }
}

/// Does with a number what is pending, the last first. Nothing is pending then, or what comes after a fault.
fn finish(
    pending: &mut Vec<Operation<'_>>,
    number: Option<Ratio>,
) -> Result<Option<Ratio>, LocatedFault>
    ensures { (whole : ReadModel WrittenNumber) → IsLeft whole pending.old.items number
        → Answers IsNumber result whole }
{
    let mut made = number;
    'pending: while let Some(operation) = pending.pop() {
        match apply(operation, made) {
            Ok(next) => made = next,
            Err(fault) => return Err(fault),
        }
    }
    Ok(made)
}

/// Reads the number that a text writes: a numeral or a decimal, `(- c)`, or `(/ c d)`, with `c` such a number and `d`
/// a numeral or a decimal, or the negation of one, and not 0. `None` means that it or a number in it is beyond the
/// bounds.
///
/// - `Fault` is `BadShape`, in reading order at the first text that is no such number, of a quotient by 0 at the
///   quotient.
/// - `Memory` comes where none is left, and says nothing of the text.
///
/// Time goes with the text, memory with how deep it is nested. Source: SMT-LIB 2.6, theory Reals; the bounds are own.
pub(crate) fn number(alloc: Global, text: Trees<'_>) -> Result<Option<Ratio>, ReadError>
    ensures { Gives IsNumber result (number_read (tree_meant text.entry)) }
{
    let mut pending = Vec::new(alloc);
    let first = innermost(&mut pending, text)?;
    match finish(&mut pending, first) {
        Ok(made) => Ok(made),
        Err(fault) => Err(ReadError::Fault(fault)),
    }
}
