//! S-expressions as a flat list of items.

ghost use Rattle.std.specs.Prelude.{◌≡◌, ◌+◌, ◌<◌, ◌≤◌, length, take, drop, option_map, IfSome};
ghost use Rattle.smt_sexpr.specs.Means.{marks, bytes_at};
ghost use Rattle.spec_text.specs.Trees.{more, none};
ghost use Rattle.smt_sexpr.specs.Items.{trees_meant, tree_meant, size_of, split_first, two, seen, count_first, IsShorter};

use smt_lexer::Kind;

/// An item of a flat list: an atom, or a list with as many items after it as it counts. Offsets and sizes are in bytes.
#[derive(Clone, Copy, Debug, PartialEq, Eq)]
pub enum Item {
    /// The kind, the offset of the first byte, and the number of bytes without quotes, bars or colon.
    Atom(Kind, u32, u32),
    /// The offsets of both parentheses, and the number of items between them, at any depth.
    List(u32, u32, u32),
}

/// Trees of a text, one after the other: a cursor, which the functions of this crate take apart from its start.
///
/// Contracts see it as the trees that it means (`trees_meant`), or as the first of them (`tree_meant`).
#[derive(Clone, Copy, Debug)]
pub struct Trees<'a> {
    /// The whole text that they are in.
    pub(crate) text: &'a [u8],
    /// Their items, in the order of the text.
    pub(crate) items: &'a [Item],
}

/// The first of trees.
#[derive(Clone, Copy, Debug)]
pub enum View<'a> {
    /// An atom's offset, kind and own bytes.
    Atom(u32, Kind, &'a [u8]),
    /// A list's offset, the trees in it, and the offset of its end.
    List(u32, Trees<'a>, u32),
}

/// How many items the first tree has.
fn first_len(items: &[Item]) -> usize
    ensures within { result ≤ length items.now }
    ensures count { result ≡ count_first items.now }
    ensures some { 0 < length items.now → 0 < result }
{
    let Some((first, rest)) = items.split_first() else {
        return 0;
    };
    match *first {
        Item::Atom(_, _, _) => 1,
        Item::List(_, _, count) => (count as usize).min(rest.len()) + 1,
    }
}

/// Splits trees after the first: that tree alone, and the others; `None` where there is none.
pub fn split(trees: Trees<'_>) -> Option<(Trees<'_>, Trees<'_>)>
    ensures first { option_map two result ≡ split_first (trees_meant trees.entry) }
    ensures alone { IfSome result (λ x. trees_meant x.0 ≡ more (tree_meant x.0) none) }
    ensures less { IfSome result (λ x. size_of x.1 < size_of trees.entry) }
    ensures within { IfSome result (λ x. size_of x.0 ≤ size_of trees.entry) }
{
    let Trees { text, items } = trees;
    if items.is_empty() {
        return None;
    }
    let n = first_len(items);
    let first = Trees {
        text,
        items: &items[..n],
    };
    let rest = Trees {
        text,
        items: &items[n..],
    };
    Some((first, rest))
}

/// A part of a text, as far as it is there.
fn part(text: &[u8], from: usize, size: usize) -> &[u8]
    ensures { result.now ≡ take size (drop from text.now) }
{
    if from < text.len() {
        let rest = &text[from..];
        return &rest[..size.min(rest.len())];
    }
    &[]
}

/// Counts the bytes that are before a word's own.
fn marks_of(kind: Kind) -> usize
    ensures { result ≡ marks kind }
{
    match kind {
        Kind::Text | Kind::Quoted | Kind::Keyword => 1,
        _ => 0,
    }
}

/// A word's own bytes.
fn word_bytes(text: &[u8], kind: Kind, at: u32, size: u32) -> &[u8]
    ensures { result.now ≡ bytes_at text.now kind at size }
{
    part(text, at as usize + marks_of(kind), size as usize)
}

/// Looks at the first tree: an atom, or a list with the trees in it. Where there is none it gives the numeral at offset 0
/// that has no bytes, which no text has.
pub fn look(trees: Trees<'_>) -> View<'_>
    ensures seen { seen result ≡ tree_meant trees.entry }
    ensures less { IsShorter result (size_of trees.entry) }
{
    let Trees { text, items } = trees;
    match items.split_first() {
        None => View::Atom(0, Kind::Numeral, &[]),
        Some((first, rest)) => match *first {
            Item::Atom(kind, at, size) => View::Atom(at, kind, word_bytes(text, kind, at, size)),
            Item::List(at, end, count) => {
                let items = &rest[..(count as usize).min(rest.len())];
                View::List(at, Trees { text, items }, end)
            }
        },
    }
}
