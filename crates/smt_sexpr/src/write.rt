//! Writes s-expressions.

ghost use Rattle.std.specs.Prelude.{◌≡◌, ◌<◌, ◌++◌, length, drop};
ghost use Rattle.spec_text.specs.Places.{IsPlaceOf};
ghost use Rattle.spec_text.specs.Trees.{Tree};
ghost use Rattle.spec_text.specs.Printed.{printed_word, printed};
ghost use Rattle.world_io.specs.Writing.{Sends};
ghost use Rattle.smt_sexpr.specs.Items.{tree_in, text_of, items_of};
ghost use Rattle.smt_sexpr.specs.Printing.{gap, token_bytes, wants_space, ends_of, IsTokenAt, IsTreeFrom};

use crate::items::Item;
use crate::sexpr::Sexpr;
use smt_lexer::{Kind, Place, TokenKind, bars_of, next};
use world_io::{Failed, Sink, write_all, write_pieces};

/// Lends what is before a word and after it: quotes, bars where the name wants them, or a colon.
fn marks_of<'a>(kind: Kind, bytes: &'a [u8]) -> (&'a [u8], &'a [u8])
    ensures { result.0.now ++ (bytes.now ++ result.1.now) ≡ printed_word kind bytes.now }
{
    match kind {
        Kind::Text => (b"\"", b"\""),
        Kind::Keyword => (b":", b""),
        Kind::Quoted => bars_of(bytes),
        _ => (b"", b""),
    }
}

/// A space, where one is wanted.
fn gap<'a>(wanted: bool) -> &'a [u8]
    ensures { result.now ≡ gap wanted }
{
    if wanted {
        return b" ";
    }
    b""
}

/// Writes a space or none, and a word between its marks.
fn write_word<'a, K: Sink>(
    space: &'a [u8],
    before: &'a [u8],
    bytes: &'a [u8],
    behind: &'a [u8],
    out: &mut K,
) -> Result<(), Failed>
    ensures { Sends (space.now ++ (before.now ++ (bytes.now ++ behind.now))) result (K.state out.old)
        (K.state out.new) }
{
    write_pieces(out, &[space, before, bytes, behind])
}

/// Writes a token, with a space before it where one is wanted.
fn write_token<K: Sink>(token: TokenKind<'_>, wanted: bool, out: &mut K) -> Result<(), Failed>
    ensures { Sends (token_bytes wanted token.entry) result (K.state out.old) (K.state out.new) }
{
    match token {
        TokenKind::Open => write_word(gap(wanted), b"", b"(", b"", out),
        TokenKind::Close => write_all(out, b")"),
        TokenKind::Word(kind, bytes) => {
            let (before, behind) = marks_of(kind, bytes);
            write_word(gap(wanted), before, bytes, behind, out)
        }
        TokenKind::End => Ok(()),
    }
}

/// Tells whether a space has to be after a token, before a word or a list.
fn wants_space(token: TokenKind<'_>) -> bool
    ensures { result ≡ wants_space token.entry }
{
    match token {
        TokenKind::Open | TokenKind::End => false,
        TokenKind::Close | TokenKind::Word(_, _) => true,
    }
}

/// The token after a place of a text, and the place right after it; `None` at the end of the text and at a fault.
fn token_at<'a>(text: &'a [u8], place: Place) -> Option<(TokenKind<'a>, Place)>
    requires { IsPlaceOf text.now place }
    ensures { IsTokenAt text.now place result }
{
    match next(text, place) {
        Err(_) => None,
        Ok((token, after)) => match token.kind {
            TokenKind::End => None,
            kind => Some((kind, after)),
        },
    }
}

/// Writes the tokens of a text from a place on up to the one at an offset.
fn write_tokens<K: Sink>(text: &[u8], first: Place, last: u64, out: &mut K) -> Result<(), Failed>
    requires { IsPlaceOf text.now first }
    ensures { (t : Tree) → IsTreeFrom text.now first.offset last t
        → Sends (printed t) result (K.state out.old) (K.state out.new) }
{
    let mut place = first;
    let mut wanted = false;
    while place.offset <= last {
        let Some((token, after)) = token_at(text, place) else {
            return Ok(());
        };
        write_token(token, wanted, out)?;
        wanted = wants_space(token);
        place = after;
    }
    Ok(())
}

/// The offsets of the first token of an item's tree, and of the last.
fn ends_of(item: Item) -> (u64, u64)
    ensures { result ≡ ends_of item }
{
    match item {
        Item::Atom(_, at, _) => (u64::from(at), u64::from(at)),
        Item::List(at, end, _) => (u64::from(at), u64::from(end)),
    }
}

/// Prints the tree of an item, counted from 0: an atom, or a list with all that is in it. One space is between
/// two trees of a list and none inside its parentheses; white space and comments of the text are left out. A word is
/// printed as it is written, a string with its quotes and a keyword with its colon, but a symbol in bars by its name: with
/// bars only where it is no symbol without them. It takes no memory, and time linear in the s-expression. `Failed` comes only
/// where the sink's count of faults rose in this call; a prefix of the printed bytes was then appended.
/// Source: SMT-LIB 2.6, sections 3.1 and 3.2.
pub fn print<K: Sink>(s: &Sexpr<'_>, item: u64, out: &mut K) -> Result<(), Failed>
    requires { item < length (items_of s.now) }
    ensures { Sends (printed (tree_in (text_of s.now) (drop item (items_of s.now)))) result (K.state out.old)
        (K.state out.new) }
{
    let (first, last) = ends_of(s.items()[item as usize]);
    write_tokens(s.text(), s.place(first), last, out)
}
