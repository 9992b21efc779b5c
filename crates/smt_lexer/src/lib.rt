//! Reads the tokens of a script, one after the other, from its bytes.
//!
//! `next` passes over white space and comments and reads one parenthesis or word as long as it can be. It takes no
//! memory, and no more time than the bytes that it passes have.
#![tactic(auto)]

ghost use Rattle.std.specs.Prelude.{◌≡◌};
ghost use Rattle.spec_text.specs.Places.{IsPlaceOf};
ghost use Rattle.smt_lexer.specs.Tokens.{IsNextToken};
ghost use Rattle.smt_lexer.specs.declared.Refused.TheVariants as reasons;

use std::alloc::{AllocError, AllocFailed};
use thiserror::Error;

mod bytes;
mod pieces;
mod places;
mod words;

use pieces::{What, piece_at};
pub use places::{place_after, place_at, start};
pub use spec_text::{Fault, Kind, Place};
pub use words::{bars_of, is_bare, is_one_of};

/// A fault with its place.
#[derive(Clone, Copy, Debug, PartialEq, Eq)]
pub struct Refusal {
    /// Where the fault is: of a byte that may not are there its own place, of a string or quoted symbol that does
    /// not end the place of its first byte.
    pub place: Place,
    /// Which fault it is.
    pub fault: Fault,
}

/// Why reading stopped.
#[derive(Debug, Drop, Error, PartialEq, Eq)]
pub enum Refused {
    /// The text has a fault: which one, and where.
    #[error("{0:?}")]
    Fault(Refusal),
    /// No memory was left. It says nothing of the text.
    #[error("out of memory")]
    Memory,
}

impl From<AllocError> for Refused {
    ghost from_gives = { λ _ r. r ≡ reasons.Memory };

    fn from(_error: AllocError) -> Refused {
        Refused::Memory
    }
}

impl<T: Drop> From<AllocFailed<T>> for Refused {
    ghost from_gives = { λ _ r. r ≡ reasons.Memory };

    fn from(_error: AllocFailed<T>) -> Refused {
        Refused::Memory
    }
}

impl From<Refusal> for Refused {
    ghost from_gives = { λ f r. r ≡ reasons.Fault f };

    fn from(refusal: Refusal) -> Refused {
        Refused::Fault(refusal)
    }
}

/// What a token is. Source: SMT-LIB 2.6, section 3.1.
#[derive(Clone, Copy, Debug)]
pub enum TokenKind<'a> {
    /// An opening parenthesis, `(`.
    Open,
    /// A closing parenthesis, `)`.
    Close,
    /// A word by its kind, and its bytes as written, but without quotes, bars or colon. Two quotes inside a string are
    /// both there.
    Word(Kind, &'a [u8]),
    /// The end of the text.
    End,
}

/// A token with the place of its first byte.
#[derive(Clone, Copy, Debug)]
pub struct Token<'a> {
    /// The place of its first byte, be it a quote, a bar or a colon; of `End`, the end of the text.
    pub place: Place,
    /// What it is.
    pub kind: TokenKind<'a>,
}

/// Reads the next token at a place of the bytes, past white space and comments, and gives it with the place right
/// after its last byte: what white space or comments follow are after that place. At the end of the bytes it gives
/// `End` with that place, again and again. The place that it reads from may be any of the bytes, also one inside a
/// token: then the rest of it is read as if it began there. An `Err` has the first lexical fault after the place,
/// where no token is before it: a byte that begins no token or cannot follow one (`BadChar`), a string
/// (`UnclosedString`) or a quoted symbol (`UnclosedQuote`) that does not end.
/// Source: SMT-LIB 2.6, section 3.1.
pub fn next<'a>(bytes: &'a [u8], at: Place) -> Result<(Token<'a>, Place), Refusal>
    requires { IsPlaceOf bytes.now at }
    ensures { IsNextToken bytes.now at result }
{
    let mut place = at;
    while place.offset < bytes.len() as u64 {
        let found = piece_at(bytes, place.offset as usize);
        let after = place_after(bytes, place, found.size);
        let kind = match found.what {
            What::Blank => {
                place = after;
                continue;
            }
            What::Wrong(fault) => {
                return Err(Refusal {
                    place: after,
                    fault,
                });
            }
            What::Open => TokenKind::Open,
            What::Close => TokenKind::Close,
            What::Word(word, name) => TokenKind::Word(word, name),
        };
        return Ok((Token { place, kind }, after));
    }
    let kind = TokenKind::End;
    Ok((Token { place, kind }, place))
}
