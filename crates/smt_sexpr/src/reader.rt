//! Reads s-expressions from bytes.

ghost use Rattle.std.specs.Prelude.{◌≡◌, ℕ, ◌+◌, ◌^◌, ◌<◌, ◌∷◌, [], ◌++◌, List, length, IfOk, OnOk};
ghost use Rattle.spec_text.specs.Places.{IsPlaceOf};
ghost use Rattle.spec_text.specs.Trees.{atom};
ghost use Rattle.smt_sexpr.specs.Means.{flat};
ghost use Rattle.smt_sexpr.specs.declared.items.Item.TheVariants as item;
ghost use Rattle.smt_sexpr.specs.Open.{Context, closed, HoldsContext};
ghost use Rattle.smt_sexpr.specs.Reads.{ReadsNext, ReadsList};
ghost use Rattle.smt_lexer.specs.declared.Refused.TheVariants as refused;

use crate::items::Item;
use crate::sexpr::Sexpr;
use smt_lexer::{Fault, Kind, Place, Refusal, Refused, TokenKind, next};
use std::alloc::{AllocError, Global};

/// What is next in a text. Source: SMT-LIB 2.6, section 3.2.
#[derive(Drop)]
pub enum NextSexpr<'a> {
    /// An s-expression, and the place right after it.
    One(Sexpr<'a>, Place),
    /// The parenthesis that closes the innermost open list: the place right after it.
    Close(Place),
    /// The end of the text, where no list is open.
    End,
}

/// Adds a word.
fn add_word(items: &mut Vec<Item>, at: u64, kind: Kind, bytes: &[u8]) -> Result<(), AllocError>
    requires at { at < 2 ^ 32 }
    requires size { length bytes.now < 2 ^ 32 }
    ensures { OnOk result (items.new.items ≡ items.old.items ++ flat (atom at kind bytes.now)) }
{
    items.push(Item::Atom(kind, at as u32, bytes.len() as u32))?;
    Ok(())
}

/// Begins a list, and gives the index of its item, which has no end and no number yet.
fn begin_list(items: &mut Vec<Item>, at: u64) -> Result<usize, AllocError>
    requires { at < 2 ^ 32 }
    ensures index { IfOk result (λ n. n ≡ length items.old.items) }
    ensures items { OnOk result (items.new.items ≡ items.old.items ++ item.List at 0 0 ∷ []) }
{
    let index = items.len();
    items.push(Item::List(at as u32, 0, 0))?;
    Ok(index)
}

/// Ends the list whose item has an index.
fn end_list(items: &mut Vec<Item>, index: usize, end: u64)
    requires end { end < 2 ^ 32 }
    requires few { length items.old.items < 2 ^ 32 }
    ensures ended { (context : Context) (open_at : List ℕ)
        → HoldsContext context items.old.items (open_at ++ index ∷ [])
        → HoldsContext (closed context end) items.new.items open_at }
    ensures count { length items.new.items ≡ length items.old.items }
{
    if index < items.len() {
        let below = items.len() - index - 1;
        if let Item::List(at, _, _) = items[index] {
            items[index] = Item::List(at, end as u32, below as u32);
        }
    }
}

/// A refusal at a place.
fn refused(place: Place, fault: Fault) -> Refused
    ensures { result ≡ refused.Fault (record { place = place; fault = fault }) }
{
    Refused::Fault(Refusal { place, fault })
}

/// Reads the rest of a list, of which the opening parenthesis was read, in so many others that are open. Gives its items,
/// and the place right after it.
fn read_list(
    alloc: Global,
    text: &[u8],
    start: u64,
    after: Place,
    open_lists: usize,
) -> Result<(Vec<Item>, Place), Refused>
    requires small { length text.now < 2 ^ 32 }
    requires start { start < after.offset }
    requires after { IsPlaceOf text.now after }
    ensures { ReadsList text.now open_lists start after result }
{
    let mut items = Vec::new(alloc);
    let mut outer: Vec<usize> = Vec::new(alloc);
    let mut innermost = begin_list(&mut items, start)?;
    let mut place = after;
    'tokens: loop {
        let (token, after) = match next(text, place) {
            Ok(read) => read,
            Err(refusal) => return Err(Refused::Fault(refusal)),
        };
        match token.kind {
            TokenKind::End => return Err(refused(token.place, Fault::UnclosedList)),
            TokenKind::Open => {
                outer.push(innermost)?;
                innermost = begin_list(&mut items, token.place.offset)?;
            }
            TokenKind::Close => {
                end_list(&mut items, innermost, token.place.offset);
                let Some(list) = outer.pop() else {
                    return Ok((items, after));
                };
                innermost = list;
            }
            TokenKind::Word(kind, bytes) => {
                add_word(&mut items, token.place.offset, kind, bytes)?;
            }
        }
        place = after;
    }
}

/// Gives the items of a word.
fn read_word(alloc: Global, at: u64, kind: Kind, bytes: &[u8]) -> Result<Vec<Item>, AllocError>
    requires at { at < 2 ^ 32 }
    requires size { length bytes.now < 2 ^ 32 }
    ensures { IfOk result (λ v. v.items ≡ flat (atom at kind bytes.now)) }
{
    let mut items = Vec::new(alloc);
    add_word(&mut items, at, kind, bytes)?;
    Ok(items)
}

/// Reads what is next in a text from a place on, where so many lists are open: an s-expression, or the end of the
/// innermost of them, or, where none is open, nothing but white space and comments up to the end. An `Err` has the first
/// fault after the place, of those that are before the end of an s-expression: a byte that begins no token or cannot
/// follow one (`BadChar`), a string or a quoted symbol that does not end (`UnclosedString`, `UnclosedQuote`, at its first
/// byte), the end of the text where a list is open (`UnclosedList`), or a closing parenthesis where none is
/// (`StrayClose`). Or it is out of memory, which comes at any allocation. The text may be read on from any place that an
/// `Ok` has. Items are kept small: no offset and no size may be 2^32 or more. Source: SMT-LIB 2.6, section 3.2.
pub(crate) fn read_next<'a>(
    alloc: Global,
    text: &'a [u8],
    at: Place,
    open_lists: usize,
) -> Result<NextSexpr<'a>, Refused>
    requires small { length text.now < 2 ^ 32 }
    requires place { IsPlaceOf text.now at }
    ensures { ReadsNext text.now at open_lists result }
{
    let (token, after) = match next(text, at) {
        Ok(read) => read,
        Err(refusal) => return Err(Refused::Fault(refusal)),
    };
    match token.kind {
        TokenKind::End => {
            if open_lists > 0 {
                return Err(refused(token.place, Fault::UnclosedList));
            }
            Ok(NextSexpr::End)
        }
        TokenKind::Open => {
            let start = token.place;
            match read_list(alloc, text, start.offset, after, open_lists) {
                Ok((items, end)) => Ok(NextSexpr::One(Sexpr { text, start, items }, end)),
                Err(reason) => Err(reason),
            }
        }
        TokenKind::Close => {
            if open_lists == 0 {
                return Err(refused(token.place, Fault::StrayClose));
            }
            Ok(NextSexpr::Close(after))
        }
        TokenKind::Word(kind, bytes) => {
            let start = token.place;
            let items = read_word(alloc, start.offset, kind, bytes)?;
            Ok(NextSexpr::One(Sexpr { text, start, items }, after))
        }
    }
}
