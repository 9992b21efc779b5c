//! Texts of which the first bytes are read, and no more than so many.

ghost use Rattle.std.specs.Prelude.{◌≡◌, true};
ghost use Rattle.spec_text.specs.Places.{IsPlaceOf};
ghost use Rattle.spec_text.specs.Readings.{kept, is_long, is_of_end, too_long};
ghost use Rattle.smt_sexpr.specs.Limited.{whole_of, refusal_meant, CutsOff, ReadsNextOf, ReadsOneOf};

use crate::reader::{NextSexpr, read_next};
use crate::sexpr::Sexpr;
use smt_lexer::{Fault, Place, Refusal, Refused, place_after, start};
use std::alloc::Global;

/// How many bytes of a text are read.
pub const TEXT_LIMIT: usize = 1 << 30;

/// A text of which the first 2^30 bytes are read. Where it has more, the first of them is the fault `TooLong`.
#[derive(Clone, Copy, Debug)]
pub struct LimitedText<'a> {
    /// The whole text.
    text: &'a [u8],
}

/// Lends the bytes of a text that are read.
fn kept(text: &[u8]) -> &[u8]
    ensures { result.now ≡ kept text.now }
{
    if text.len() > TEXT_LIMIT {
        return &text[..TEXT_LIMIT];
    }
    text
}

/// Tells whether a fault says what is missing at the end of a text.
fn is_of_end(fault: Fault) -> bool
    ensures { result ≡ is_of_end fault }
{
    match fault {
        Fault::UnclosedString | Fault::UnclosedQuote | Fault::UnclosedList => true,
        _ => false,
    }
}

impl<'a> LimitedText<'a> {
    /// Takes a text, to be read up to the limit.
    pub fn new(text: &'a [u8]) -> LimitedText<'a>
        ensures { whole_of result ≡ text.now }
    {
        LimitedText { text }
    }

    /// Lends the bytes that are read: the first 2^30.
    pub fn bytes(&self) -> &'a [u8]
        ensures { result.now ≡ kept (whole_of self.now) }
    {
        kept(self.text)
    }

    /// Gives the place of its first byte: offset 0, line 1 and column 1.
    pub fn start(&self) -> Place
        ensures place { IsPlaceOf (kept (whole_of self.now)) result }
        ensures offset { result.offset ≡ 0 }
    {
        start()
    }

    /// Tells whether the text has more bytes than are read.
    fn is_long(&self) -> bool
        ensures { result ≡ is_long (whole_of self.now) }
    {
        self.text.len() > TEXT_LIMIT
    }

    /// Gives the refusal of the first byte that is not read, by a place before it.
    fn too_long(&self, from: Place) -> Refusal
        requires from { IsPlaceOf (kept (whole_of self.now)) from }
        requires long { is_long (whole_of self.now) ≡ true }
        ensures is { refusal_meant result ≡ too_long }
        ensures place { IsPlaceOf (kept (whole_of self.now)) result.place }
    {
        let bytes = self.bytes();
        let distance = bytes.len() - from.offset as usize;
        Refusal {
            place: place_after(bytes, from, distance),
            fault: Fault::TooLong,
        }
    }

    /// Gives the refusal of the whole text that a refusal of the bytes that are read is, by a place before it: what is
    /// missing at their end may be among the others.
    fn cut_off(&self, from: Place, refusal: Refusal) -> Refusal
        requires { IsPlaceOf (kept (whole_of self.now)) from }
        ensures { CutsOff (whole_of self.now) refusal result }
    {
        if self.is_long() && is_of_end(refusal.fault) {
            return self.too_long(from);
        }
        refusal
    }

    /// Reads what is next from a place of the bytes on that are read, where so many lists are open: an s-expression, or
    /// the end of the innermost of them, or, where none is open, nothing but white space and comments up to the end.
    ///
    /// - `Fault` has the first fault after the place, of those that are before the end of an s-expression: a byte that
    ///   begins no token or cannot follow one (`BadChar`), a string or a quoted symbol that does not end (`UnclosedString`,
    ///   `UnclosedQuote`, at its first byte), the end of the text where a list is open (`UnclosedList`), or a closing
    ///   parenthesis where none is (`StrayClose`). Where the text has more bytes than are read, `TooLong` comes at the first
    ///   of the others in the place of the end, and of a string, a quoted symbol or a list that does not end before it.
    /// - `Memory` means that an allocation was refused. No clause says when it comes, and it says nothing of the text.
    ///
    /// The text may be read on from any place that an `Ok` has. Source: SMT-LIB 2.6, section 3.2.
    pub fn next(
        &self,
        alloc: Global,
        at: Place,
        open_lists: usize,
    ) -> Result<NextSexpr<'a>, Refused>
        requires { IsPlaceOf (kept (whole_of self.now)) at }
        ensures { ReadsNextOf (whole_of self.now) at open_lists result }
    {
        match read_next(alloc, self.bytes(), at, open_lists) {
            Ok(NextSexpr::One(s, after)) => Ok(NextSexpr::One(s, after)),
            Ok(NextSexpr::Close(after)) => Ok(NextSexpr::Close(after)),
            Ok(NextSexpr::End) => {
                if self.is_long() {
                    return Err(Refused::Fault(self.too_long(at)));
                }
                Ok(NextSexpr::End)
            }
            Err(Refused::Fault(refusal)) => Err(Refused::Fault(self.cut_off(at, refusal))),
            Err(Refused::Memory) => Err(Refused::Memory),
        }
    }

    /// Reads the next s-expression from a place of the bytes on that are read, where no list is open, and gives it with the
    /// place right after it, or `None` where only white space and comments are left. An `Err` is that of `next` with no
    /// open list.
    ///
    /// Source: SMT-LIB 2.6, section 3.2.
    pub fn next_one(&self, alloc: Global, at: Place) -> Result<Option<(Sexpr<'a>, Place)>, Refused>
        requires { IsPlaceOf (kept (whole_of self.now)) at }
        ensures { ReadsOneOf (whole_of self.now) at result }
    {
        match self.next(alloc, at, 0) {
            Ok(NextSexpr::One(s, after)) => Ok(Some((s, after))),
            Ok(NextSexpr::Close(_) | NextSexpr::End) => Ok(None),
            Err(reason) => Err(reason),
        }
    }
}
