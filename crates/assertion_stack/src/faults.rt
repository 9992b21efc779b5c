//! The faults of a command's parts, by their offset, and their places.

ghost use Rattle.std.specs.Prelude.{◌≡◌, ◌≤◌, ◌<◌, length};
ghost use Rattle.spec_text.specs.Places.{IsPlaceOf};
ghost use Rattle.smt_sexpr.specs.Items.{text_of, start_of};
ghost use Rattle.term_reader.specs.declared.faults.ReadError.TheVariants as errors;

use smt_sexpr::Sexpr;
use spec_text::{Fault, Place};
use term_reader::{ReadError, TermFault};

/// Makes the error of a fault at an offset.
pub(crate) fn refused(offset: u64, fault: Fault) -> ReadError
    ensures { result ≡ errors.Fault (record { offset = offset; fault = fault }) }
{
    ReadError::Fault(TermFault { offset, fault })
}

/// Gives the place of an offset in bytes that is in an s-expression; of any other offset, where the s-expression begins.
///
/// It takes no memory, and time linear in the bytes from where the s-expression begins.
pub fn place_in(sexpr: &Sexpr<'_>, offset: u64) -> Place
    ensures place { IsPlaceOf (text_of sexpr.now) result }
    ensures offset { start_of sexpr.now ≤ offset → offset < length (text_of sexpr.now) → result.offset ≡ offset }
{
    let start = sexpr.start();
    if start.offset <= offset && offset < sexpr.text().len() as u64 {
        return sexpr.place(offset);
    }
    start
}
