//! Where an s-expression ends.

ghost use Rattle.std.specs.Prelude.{◌≡◌, ◌+◌};
ghost use Rattle.sexpr_stream.specs.ItemEnds.{marks_around, item_end};

use smt_sexpr::{Item, Kind};

/// Counts the bytes of a word, with its quotes, bars or colon.
fn word_size(kind: Kind, size: u32) -> u64
    ensures { result ≡ size + marks_around kind }
{
    match kind {
        Kind::Text | Kind::Quoted => u64::from(size) + 2,
        Kind::Keyword => u64::from(size) + 1,
        _ => u64::from(size),
    }
}

/// Gives the offset right after the last byte of an item, a list's with all that is in it.
pub(crate) fn end_of(item: Item) -> u64
    ensures { result ≡ item_end item }
{
    match item {
        Item::Atom(kind, at, size) => u64::from(at) + word_size(kind, size),
        Item::List(_, end, _) => u64::from(end) + 1,
    }
}
