//! The definitions of a model's text, one after the other.

ghost use Rattle.std.specs.Prelude.{◌≡◌};
ghost use Rattle.spec_text.specs.Places.{IsPlaceOf};
ghost use Rattle.spec_text.specs.Lexemes.{lexemes, lexemes_from};
ghost use Rattle.spec_text.specs.Readings.{kept};
ghost use Rattle.spec_model_files.specs.Faults.{text_fault};
ghost use Rattle.spec_model_files.specs.Texts.{behind_sat};
ghost use Rattle.smt_sexpr.specs.Limited.{whole_of, refusal_meant};
ghost use Rattle.model_read.specs.Answers.{located_view};
ghost use Rattle.model_read.specs.Endings.{FindsList, HasNoOpening, HasNoList, Leaves};

use crate::errors::{LocatedFault, ReadError, fault_at};
use smt_lexer::{Place, Refusal, Refused, TokenKind, next, start};
use smt_sexpr::{LimitedText, NextSexpr, Sexpr, is_symbol, offset, same_bytes};
use spec_model_files::ModelKind;
use std::alloc::Global;

/// A model's text, and the place in its list up to which its definitions were read.
///
/// The list is after a first word `sat` or without it. Of the text the first 2^30 bytes are read. Contracts see the
/// text and the definitions that are to come, by the relation `AreRemaining`. Source: SMT-LIB 2.6, section 4.1.8; the
/// word is own.
#[derive(Clone, Copy, Debug)]
pub(crate) struct Reader<'a> {
    /// The text.
    text: LimitedText<'a>,
    /// The place right after what was read.
    at: Place,
    /// It is a place of the bytes that are read.
    ghost inside: { IsPlaceOf (kept (whole_of text)) at },
}

/// Makes the fault of a text that cannot be read on.
fn lexical(refusal: Refusal) -> LocatedFault
    ensures { located_view result ≡ text_fault (refusal_meant refusal) }
{
    LocatedFault {
        offset: refusal.place.offset,
        kind: ModelKind::Lexical(refusal.fault),
    }
}

/// Asks that nothing follows the list: `BadShape` where a tree does, `Lexical` where what does cannot be read.
fn nothing_follows(alloc: Global, text: LimitedText<'_>, at: Place) -> Result<(), ReadError>
    requires { IsPlaceOf (kept (whole_of text)) at }
    ensures { Leaves (whole_of text.entry) (lexemes_from (kept (whole_of text.entry)) at.offset) result }
{
    match text.next_one(alloc, at) {
        Ok(None) => Ok(()),
        Ok(Some((sexpr, _))) => Err(ReadError::Fault(fault_at(
            offset(sexpr.trees()),
            ModelKind::BadShape,
        ))),
        Err(Refused::Fault(refusal)) => Err(ReadError::Fault(lexical(refusal))),
        Err(Refused::Memory) => Err(ReadError::Memory),
    }
}

/// Says what is wrong with a text that is no list from a place on: `BadShape` at the tree that is there, or at the end
/// where none is, `Lexical` where it cannot be read.
fn no_list(alloc: Global, text: LimitedText<'_>, at: Place) -> ReadError
    requires place { IsPlaceOf (kept (whole_of text)) at }
    requires none { HasNoOpening (lexemes_from (kept (whole_of text)) at.offset) }
    ensures { HasNoList (whole_of text.entry) (lexemes_from (kept (whole_of text.entry)) at.offset) result }
{
    match text.next_one(alloc, at) {
        Ok(None) => ReadError::Fault(fault_at(text.bytes().len() as u64, ModelKind::BadShape)),
        Ok(Some((sexpr, _))) => ReadError::Fault(fault_at(
            offset(sexpr.trees()),
            ModelKind::BadShape,
        )),
        Err(Refused::Fault(refusal)) => ReadError::Fault(lexical(refusal)),
        Err(Refused::Memory) => ReadError::Memory,
    }
}

/// Gives the place after a first word `sat`, or the start.
fn after_sat(text: &[u8]) -> Place
    ensures place { IsPlaceOf text.now result }
    ensures lexemes { lexemes_from text.now result.offset ≡ behind_sat (lexemes 0 0 text.now) }
{
    match next(text, start()) {
        Ok((token, after)) => match token.kind {
            TokenKind::Word(kind, bytes) => {
                if is_symbol(kind) && same_bytes(bytes, b"sat") {
                    return after;
                }
                start()
            }
            _ => start(),
        },
        Err(_) => start(),
    }
}

/// Finds the place right after the parenthesis of a list, where the text is one from a place on.
fn list_from(text: &[u8], at: Place) -> Option<Place>
    requires { IsPlaceOf text.now at }
    ensures { FindsList text.now (lexemes_from text.now at.offset) result }
{
    match next(text, at) {
        Ok((token, after)) => match token.kind {
            TokenKind::Open => Some(after),
            _ => None,
        },
        Err(_) => None,
    }
}

impl<'a> Reader<'a> {
    ghost use Rattle.model_read.specs.Remaining.{text_of, BeginsText, ReadsOn};

    /// Finds the list of definitions of a model's text, of which none was read.
    ///
    /// - `Fault` comes where the text is no list, with or without the word: `BadShape` at what is there, or at the
    ///   end of the text; `Lexical` where that cannot be read.
    /// - `Memory` may come at any call, and says nothing of the text.
    ///
    /// Source: SMT-LIB 2.6, section 4.1.8; the word and the faults are own.
    pub(crate) fn open(alloc: Global, bytes: &'a [u8]) -> Result<Reader<'a>, ReadError>
        ensures { BeginsText bytes.now result }
    {
        let text = LimitedText::new(bytes);
        let read = text.bytes();
        let at = after_sat(read);
        match list_from(read, at) {
            Some(inside) => Ok(Reader { text, at: inside }),
            None => Err(no_list(alloc, text, at)),
        }
    }

    /// Reads the s-expression of the next definition, or `None` where none is to come and the text ends as it should.
    ///
    /// - `Fault` comes where no definition is to come, and has the fault that ends them: `Lexical` where the text
    ///   cannot be read on, or has more bytes than are read; `BadShape` at the tree that follows the list.
    /// - `Memory` may come at any call, and says nothing of the text.
    ///
    /// After `None` and an error the reader is as it was. An s-expression takes memory in proportion to its bytes.
    /// Source: SMT-LIB 2.6, section 4.1.8.
    pub(crate) fn next(&mut self, alloc: Global) -> Result<Option<Sexpr<'a>>, ReadError>
        ensures text { text_of self.new ≡ text_of self.old }
        ensures next { ReadsOn self.old result self.new }
    {
        match self.text.next(alloc, self.at, 1) {
            Ok(NextSexpr::One(sexpr, after)) => {
                self.at = after;
                Ok(Some(sexpr))
            }
            Ok(NextSexpr::Close(after)) => {
                nothing_follows(alloc, self.text, after)?;
                Ok(None)
            }
            Ok(NextSexpr::End) => Ok(None),
            Err(Refused::Fault(refusal)) => Err(ReadError::Fault(lexical(refusal))),
            Err(Refused::Memory) => Err(ReadError::Memory),
        }
    }
}
