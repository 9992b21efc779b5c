//! Reads the numbers that the arguments of a step write, as `la_generic` takes them.
//!
//! Texts that are open are in a row with what is still to be done, so nothing recurses.

ghost use Rattle.std.specs.Prelude.{◌≡◌, ℕ, ◌+◌, ◌<◌, false, IfOk};
ghost use Rattle.spec_text.specs.Trees.{list};
ghost use Rattle.smt_sexpr.specs.Items.{trees_meant, tree_meant};
ghost use Rattle.smt_sexpr.specs.Views.{word_view};
ghost use Rattle.ratio128.specs.Meant.{fraction, overflow};
ghost use Rattle.linear_form.specs.Coefficients.{coefficient_meant, coefficients_meant};
ghost use Rattle.spec_arithmetic.specs.Signs.{is_zero};
ghost use Rattle.spec_arithmetic.specs.Contradictions.{too_wide};
ghost use Rattle.spec_arithmetic.specs.Coefficients.{literal_coefficient, atom_coefficient, opposite_coefficient, quotient_unless, quotient_coefficient, coefficient_of, coefficients_of};
ghost use Rattle.alethe_reader.specs.Shapes.{given_view};
ghost use Rattle.alethe_reader.specs.Coefficients.{steps, steps_of_all, with_word, opened_number, opened_steps, resumed_by, pending_steps, Resumes};

use linear_form::Coeff;
use ratio128::laws::ratios_are_fractions;
use ratio128::{Ratio, Wide};
use smt_sexpr::{Kind, Trees, View, Word, is_word, look, split, word_first};
use std::alloc::{AllocError, Global};
use term_reader::literal;

/// Says what number a text has, as far as its own word tells.
#[derive(Clone, Copy)]
enum OpenedNumber<'a> {
    /// This one.
    Number(Coeff),
    /// That of a text, with the other sign.
    Opposite(Trees<'a>),
    /// The quotient of those of two texts.
    Quotient(Trees<'a>, Trees<'a>),
}

/// Says what is still to be done with a number.
#[derive(Clone, Copy)]
enum Pending<'a> {
    /// It gets the other sign.
    Negate,
    /// It is divided by the number of this text.
    DivideBy(Trees<'a>),
    /// It divides this number.
    Divide(Coeff),
}

/// Says where the reading is.
#[derive(Clone, Copy)]
enum Here<'a> {
    /// At a text that is still to be read.
    Text(Trees<'a>),
    /// At a number that was read.
    Read(Coeff),
}

/// Reads a literal, which has to be within the bound on numbers.
fn literal_coefficient(digits: &[u8]) -> Coeff
    ensures { coefficient_meant result ≡ literal_coefficient digits.now }
{
    match literal(0, digits) {
        Ok(number) => Coeff::Number(number),
        Err(_) => Coeff::Shape,
    }
}

/// Reads an atom: a numeral or a decimal.
fn atom_coefficient(kind: Kind, name: &[u8]) -> Coeff
    ensures { coefficient_meant result ≡ atom_coefficient kind name.now }
{
    match kind {
        Kind::Numeral | Kind::Decimal => literal_coefficient(name),
        _ => Coeff::Shape,
    }
}

/// Gives a number with the other sign.
fn opposite_coefficient(number: Coeff) -> Coeff
    ensures { coefficient_meant result ≡ opposite_coefficient (coefficient_meant number) }
{
    match number {
        Coeff::Number(q) => Coeff::Number(q.neg()),
        Coeff::Wide(w) => Coeff::Wide(w),
        Coeff::Shape => Coeff::Shape,
    }
}

/// Tells whether a number is 0.
fn is_zero(number: Ratio) -> bool
    ensures { result ≡ is_zero (fraction number) }
{
    ratios_are_fractions();
    number.is_zero()
}

/// Gives the quotient by a number that is not 0.
fn quotient_by(number: Coeff, divisor: Ratio) -> Coeff
    requires { is_zero (fraction divisor) ≡ false }
    ensures { coefficient_meant result ≡ quotient_unless false (coefficient_meant number) (fraction divisor) }
{
    match number {
        Coeff::Number(q) => match q.div(divisor) {
            Ok(quotient) => Coeff::Number(quotient),
            Err(wide) => Coeff::Wide(wide),
        },
        Coeff::Wide(w) => Coeff::Wide(w),
        Coeff::Shape => Coeff::Shape,
    }
}

/// Gives the quotient by one that leaves the bound on numbers.
fn quotient_by_wide(number: Coeff, divisor: Wide) -> Coeff
    ensures { coefficient_meant result
        ≡ quotient_coefficient (coefficient_meant number) (too_wide (overflow divisor)) }
{
    match number {
        Coeff::Number(_) => Coeff::Wide(divisor),
        Coeff::Wide(w) => Coeff::Wide(w),
        Coeff::Shape => Coeff::Shape,
    }
}

/// Gives the quotient of two numbers: none where one is malformed, else the first that leaves the bound on numbers.
fn quotient_coefficient(number: Coeff, divisor: Coeff) -> Coeff
    ensures { coefficient_meant result
        ≡ quotient_coefficient (coefficient_meant number) (coefficient_meant divisor) }
{
    match divisor {
        Coeff::Number(d) => {
            if is_zero(d) {
                return Coeff::Shape;
            }
            quotient_by(number, d)
        }
        Coeff::Wide(w) => quotient_by_wide(number, w),
        Coeff::Shape => Coeff::Shape,
    }
}

/// Opens a list by its first word and what follows this.
fn open_by<'a>(word: Word<'a>, arguments: Trees<'a>) -> OpenedNumber<'a>
    ensures number { (at end : ℕ) → opened_number result
        ≡ coefficient_of (list at (with_word (word_view word.entry) (trees_meant arguments.entry)) end) }
    ensures less { opened_steps result < 3 + steps_of_all (trees_meant arguments.entry) }
{
    let Some((first, rest)) = split(arguments) else {
        return OpenedNumber::Number(Coeff::Shape);
    };
    let Some((second, others)) = split(rest) else {
        if is_word(b"-", word) {
            return OpenedNumber::Opposite(first);
        }
        return OpenedNumber::Number(Coeff::Shape);
    };
    match split(others) {
        Some(_) => OpenedNumber::Number(Coeff::Shape),
        None => {
            if is_word(b"/", word) {
                return OpenedNumber::Quotient(first, second);
            }
            OpenedNumber::Number(Coeff::Shape)
        }
    }
}

/// Opens a list by the trees in it.
fn open_list(inside: Trees<'_>) -> OpenedNumber<'_>
    ensures number { (at end : ℕ) → opened_number result
        ≡ coefficient_of (list at (trees_meant inside.entry) end) }
    ensures less { opened_steps result < 2 + steps_of_all (trees_meant inside.entry) }
{
    match word_first(inside) {
        Some((word, arguments)) => open_by(word, arguments),
        None => OpenedNumber::Number(Coeff::Shape),
    }
}

/// Opens a text.
fn open_text(text: Trees<'_>) -> OpenedNumber<'_>
    ensures number { opened_number result ≡ coefficient_of (tree_meant text.entry) }
    ensures less { opened_steps result < steps (tree_meant text.entry) }
{
    match look(text) {
        View::Atom(_, kind, name) => OpenedNumber::Number(atom_coefficient(kind, name)),
        View::List(_, inside, _) => open_list(inside),
    }
}

/// Reads a text, or goes into it where it is a list.
fn go_down<'a>(pending: &mut Vec<Pending<'a>>, text: Trees<'a>) -> Result<Here<'a>, AllocError>
    ensures { IfOk result (λ next. Resumes pending.old.items (coefficient_of (tree_meant text.entry))
        (steps (tree_meant text.entry)) pending.new.items next) }
{
    match open_text(text) {
        OpenedNumber::Number(number) => Ok(Here::Read(number)),
        OpenedNumber::Opposite(first) => {
            pending.push(Pending::Negate)?;
            Ok(Here::Text(first))
        }
        OpenedNumber::Quotient(first, second) => {
            pending.push(Pending::DivideBy(second))?;
            Ok(Here::Text(first))
        }
    }
}

/// Does with a number what was pending last.
fn go_up<'a>(
    pending: &mut Vec<Pending<'a>>,
    last: Pending<'a>,
    number: Coeff,
) -> Result<Here<'a>, AllocError>
    ensures { IfOk result (λ next. Resumes pending.old.items (resumed_by last.entry (coefficient_meant number))
        (pending_steps last.entry) pending.new.items next) }
{
    match last {
        Pending::Negate => Ok(Here::Read(opposite_coefficient(number))),
        Pending::DivideBy(text) => {
            pending.push(Pending::Divide(number))?;
            Ok(Here::Text(text))
        }
        Pending::Divide(dividend) => Ok(Here::Read(quotient_coefficient(dividend, number))),
    }
}

/// Reads the number that a text writes.
fn coefficient_of(alloc: Global, text: Trees<'_>) -> Result<Coeff, AllocError>
    ensures { IfOk result (λ number. coefficient_meant number ≡ coefficient_of (tree_meant text.entry)) }
{
    let mut pending = Vec::new(alloc);
    let mut here = Here::Text(text);
    'steps: loop {
        match here {
            Here::Text(inner) => here = go_down(&mut pending, inner)?,
            Here::Read(number) => {
                let Some(last) = pending.pop() else {
                    return Ok(number);
                };
                here = go_up(&mut pending, last, number)?;
            }
        }
    }
}

/// Reads the numbers that texts write.
fn written(alloc: Global, texts: Trees<'_>) -> Result<Vec<Coeff>, AllocError>
    ensures { IfOk result (λ v. coefficients_meant v.items ≡ coefficients_of (trees_meant texts.entry)) }
{
    let mut found = Vec::new(alloc);
    let mut rest = texts;
    'texts: while let Some((text, others)) = split(rest) {
        found.push(coefficient_of(alloc, text)?)?;
        rest = others;
    }
    Ok(found)
}

/// Reads the arguments of a step, where they are given: numerals and decimals, `(- c)` and `(/ c d)` of such, nested to any depth.
///
/// An argument is `Shape` where its text is anything else, or has a literal beyond the bound on numbers or a quotient by 0; else it is
/// `Wide` with the first quotient that leaves 128 bits, where one does. Time goes with the texts, memory with how many they are and how
/// deep. Out of memory tells nothing of them. Source: Alethe specification, rule `la_generic`; a quotient by 0 and the bound are own.
pub(crate) fn coefficients_of(
    alloc: Global,
    given: Option<Trees<'_>>,
) -> Result<Vec<Coeff>, AllocError>
    ensures { IfOk result (λ v. coefficients_meant v.items ≡ coefficients_of (given_view given.entry)) }
{
    match given {
        Some(texts) => written(alloc, texts),
        None => Ok(Vec::new(alloc)),
    }
}
