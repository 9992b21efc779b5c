//! The commands of a proof's text, one after the other.

ghost use Rattle.std.specs.Prelude.{◌≡◌, ◌∷◌, ℕ, MatchOption, true, false};
ghost use Rattle.spec_text.specs.Places.{IsPlaceOf};
ghost use Rattle.spec_text.specs.Lexemes.{lexemes, lexemes_from, opens};
ghost use Rattle.spec_text.specs.Readings.{kept};
ghost use Rattle.spec_proofs.specs.Faults.{text_fault};
ghost use Rattle.spec_proofs.specs.Texts.{behind_unsat, begins_listed};
ghost use Rattle.smt_sexpr.specs.Limited.{whole_of, refusal_meant};
ghost use Rattle.alethe_reader.specs.Reads.{located_view};
ghost use Rattle.alethe_reader.specs.Endings.{begins_parenthesis, lists_round, Leaves};

use crate::errors::{CommandError, LocatedFault, fault};
use smt_lexer::{Place, Refusal, Refused, TokenKind, next, start};
use smt_sexpr::{LimitedText, NextSexpr, Sexpr, is_symbol, offset, same_bytes};
use spec_proofs::ProofKind;
use std::alloc::Global;

/// A proof's text, and the place up to which its commands were read.
///
/// The commands are after a first word `unsat` or without it, one after the other or in one list. Of the text the first
/// 2^30 bytes are read. Contracts see the text and the commands that are to come, by the relation `AreRemaining`.
/// Source: Alethe specification, proofs.
#[derive(Clone, Copy, Debug)]
pub struct Reader<'a> {
    /// The text.
    text: LimitedText<'a>,
    /// The place right after what was read.
    at: Place,
    /// Whether the commands are in a list.
    listed: bool,
    /// It is a place of the bytes that are read.
    ghost inside: { IsPlaceOf (kept (whole_of text)) at },
}

/// Counts the lists that are open round the commands.
fn lists_round(listed: bool) -> usize
    ensures { result ≡ lists_round listed }
{
    if listed { 1 } else { 0 }
}

/// Makes the fault of a proof that cannot be read on.
fn lexical(refusal: Refusal) -> LocatedFault
    ensures { located_view result ≡ text_fault (refusal_meant refusal) }
{
    LocatedFault {
        offset: refusal.place.offset,
        kind: ProofKind::Lexical(refusal.fault),
    }
}

/// Asks that nothing follows the list of commands: `BadShape` where a tree does, `Lexical` where what does cannot be read.
fn nothing_follows(alloc: Global, text: LimitedText<'_>, at: Place) -> Result<(), CommandError>
    requires { IsPlaceOf (kept (whole_of text)) at }
    ensures { Leaves (whole_of text.entry) (lexemes_from (kept (whole_of text.entry)) at.offset) result }
{
    match text.next_one(alloc, at) {
        Ok(None) => Ok(()),
        Ok(Some((sexpr, _))) => Err(fault(offset(sexpr.trees()), ProofKind::BadShape)),
        Err(Refused::Fault(refusal)) => Err(CommandError::Fault(lexical(refusal))),
        Err(Refused::Memory) => Err(CommandError::Memory),
    }
}

/// Gives the place after a first word `unsat`, or the start.
fn after_unsat(text: &[u8]) -> Place
    ensures place { IsPlaceOf text.now result }
    ensures lexemes { lexemes_from text.now result.offset ≡ behind_unsat (lexemes 0 0 text.now) }
{
    match next(text, start()) {
        Ok((token, after)) => match token.kind {
            TokenKind::Word(kind, bytes) => {
                if is_symbol(kind) && same_bytes(bytes, b"unsat") {
                    return after;
                }
                start()
            }
            _ => start(),
        },
        Err(_) => start(),
    }
}

/// Says whether the next token is a parenthesis.
fn is_parenthesis(text: &[u8], at: Place) -> bool
    requires { IsPlaceOf text.now at }
    ensures { result ≡ begins_parenthesis (lexemes_from text.now at.offset) }
{
    match next(text, at) {
        Ok((token, _)) => match token.kind {
            TokenKind::Open | TokenKind::Close => true,
            _ => false,
        },
        Err(_) => false,
    }
}

/// Finds the place right after the parenthesis of a list of commands, where the text is one from a place on.
fn list_of_commands(text: &[u8], at: Place) -> Option<Place>
    requires { IsPlaceOf text.now at }
    ensures { MatchOption result (begins_listed (lexemes_from text.now at.offset) ≡ false)
        (λ inside. (begins_listed (lexemes_from text.now at.offset) ≡ true)
        × ((begin : ℕ) × (lexemes_from text.now at.offset ≡ (begin, opens) ∷ lexemes_from text.now inside.offset))
        × IsPlaceOf text.now inside) }
{
    match next(text, at) {
        Ok((token, after)) => match token.kind {
            TokenKind::Open => {
                if is_parenthesis(text, after) {
                    return Some(after);
                }
                None
            }
            _ => None,
        },
        Err(_) => None,
    }
}

impl<'a> Reader<'a> {
    ghost use Rattle.std.specs.Prelude.{◌↔◌};
    ghost use Rattle.spec_text.specs.Trees.{Trees};
    ghost use Rattle.spec_proofs.specs.Texts.{Ending, IsProofText};
    ghost use Rattle.alethe_reader.specs.Remaining.{text_of, AreRemaining, ReadsOn};

    /// Takes a proof's text, of which no command was read. It takes no memory.
    pub fn new(bytes: &'a [u8]) -> Reader<'a>
        ensures text { text_of result ≡ bytes.now }
        ensures all { (ts : Trees) (e : Ending) → AreRemaining result ts e ↔ IsProofText bytes.now ts e }
    {
        let text = LimitedText::new(bytes);
        let read = text.bytes();
        let at = after_unsat(read);
        let Some(inside) = list_of_commands(read, at) else {
            return Reader {
                text,
                at,
                listed: false,
            };
        };
        Reader {
            text,
            at: inside,
            listed: true,
        }
    }

    /// Reads the s-expression of the next command, or `None` where none is to come and the text ends as it should.
    ///
    /// A command borrows the texts of its arguments from its s-expression. So this gives the s-expression, and `proof_command`
    /// reads its trees under what is known by then.
    ///
    /// - `Fault` comes where no command is to come, and has the fault that ends them: `Lexical` where the text cannot be read
    ///   on, or has more bytes than are read; `BadShape` at the tree that follows the list of commands.
    /// - `Memory` may come at any call, and says nothing of the text.
    ///
    /// After `None` and an error the reader is as it was. An s-expression takes memory in proportion to its bytes.
    /// Source: Alethe specification, proofs.
    pub fn next(&mut self, alloc: Global) -> Result<Option<Sexpr<'a>>, CommandError>
        ensures text { text_of self.new ≡ text_of self.old }
        ensures next { ReadsOn self.old result self.new }
    {
        match self.text.next(alloc, self.at, lists_round(self.listed)) {
            Ok(NextSexpr::One(sexpr, after)) => {
                self.at = after;
                Ok(Some(sexpr))
            }
            Ok(NextSexpr::Close(after)) => {
                nothing_follows(alloc, self.text, after)?;
                Ok(None)
            }
            Ok(NextSexpr::End) => Ok(None),
            Err(Refused::Fault(refusal)) => Err(CommandError::Fault(lexical(refusal))),
            Err(Refused::Memory) => Err(CommandError::Memory),
        }
    }
}
