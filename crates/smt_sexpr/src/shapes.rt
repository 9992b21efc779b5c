//! The steps in which trees are taken apart: each gives what they begin with, or `None`.

ghost use Rattle.std.specs.Prelude.{◌≡◌, ◌<◌, ◌≤◌, option_map, IfSome};
ghost use Rattle.std.specs.Str.{bytes_eq};
ghost use Rattle.spec_text.specs.Shapes.{passes, first_word, first_list, only_tree, no_tree, inside_of, is_word, is_keyword, is_reserved, is_simple, is_symbol, wanted, wanted_keyword};
ghost use Rattle.spec_text.specs.Trees.{offset_of};
ghost use Rattle.smt_sexpr.specs.Items.{trees_meant, tree_meant, size_of};
ghost use Rattle.smt_sexpr.specs.Views.{word_view, word_rest, list_rest, inside_view};

use crate::items::{Item, Trees, View, look, split};
use smt_lexer::Kind;

/// An atom by its offset, its kind and its own bytes. Source: SMT-LIB 2.6, section 3.1.
#[derive(Clone, Copy, Debug)]
pub struct Word<'a> {
    /// The offset of its first byte.
    pub at: u64,
    /// What it is.
    pub kind: Kind,
    /// Its bytes as written, but without quotes, bars or colon.
    pub bytes: &'a [u8],
}

/// Tells whether two lists of bytes are equal.
pub fn same_bytes(a: &[u8], b: &[u8]) -> bool
    ensures { result ≡ bytes_eq a.now b.now }
{
    a == b
}

/// Tells whether a kind is that of symbols, with bars or without. Source: SMT-LIB 2.6, section 3.1.
pub fn is_symbol(kind: Kind) -> bool
    ensures { result ≡ is_symbol kind }
{
    match kind {
        Kind::Simple | Kind::Quoted => true,
        _ => false,
    }
}

/// Tells whether a kind is that of symbols without bars. Source: SMT-LIB 2.6, section 3.1.
pub fn is_simple(kind: Kind) -> bool
    ensures { result ≡ is_simple kind }
{
    match kind {
        Kind::Simple => true,
        _ => false,
    }
}

/// Tells whether a kind is that of keywords. Source: SMT-LIB 2.6, section 3.1.
pub fn is_keyword(kind: Kind) -> bool
    ensures { result ≡ is_keyword kind }
{
    match kind {
        Kind::Keyword => true,
        _ => false,
    }
}

/// Tells whether a kind is that of reserved words. Source: SMT-LIB 2.6, section 3.1.
pub fn is_reserved(kind: Kind) -> bool
    ensures { result ≡ is_reserved kind }
{
    match kind {
        Kind::Reserved => true,
        _ => false,
    }
}

/// Asks that a test holds: `None` where it does not.
pub fn passes(test: bool) -> Option<()>
    ensures { result ≡ passes test }
{
    if test {
        return Some(());
    }
    None
}

/// Tells whether a word is this symbol, with bars or without. Source: SMT-LIB 2.6, section 3.1.
pub fn is_word(name: &[u8], word: Word<'_>) -> bool
    ensures { result ≡ is_word name.now (word_view word.entry) }
{
    is_symbol(word.kind) && same_bytes(word.bytes, name)
}

/// Asks for this symbol: `None` where a word is another.
pub fn want(name: &[u8], word: Word<'_>) -> Option<()>
    ensures { result ≡ wanted name.now (word_view word.entry) }
{
    if is_word(name, word) {
        return Some(());
    }
    None
}

/// Asks for this keyword, whose name is without its colon: `None` where a word is another.
pub fn want_keyword(name: &[u8], word: Word<'_>) -> Option<()>
    ensures { result ≡ wanted_keyword name.now (word_view word.entry) }
{
    if is_keyword(word.kind) && same_bytes(word.bytes, name) {
        return Some(());
    }
    None
}

/// Takes the first atom, and gives the trees after it too: `None` where there is no tree, or a first list.
pub fn word_first(trees: Trees<'_>) -> Option<(Word<'_>, Trees<'_>)>
    ensures gives { option_map word_rest result ≡ first_word (trees_meant trees.entry) }
    ensures less { IfSome result (λ x. size_of x.1 < size_of trees.entry) }
{
    let (first, rest) = split(trees)?;
    match look(first) {
        View::Atom(at, kind, bytes) => Some((
            Word {
                at: u64::from(at),
                kind,
                bytes,
            },
            rest,
        )),
        View::List(_, _, _) => None,
    }
}

/// Takes the first list, and gives the trees in it and those after it: `None` where there is no tree, or an atom comes
/// first.
pub fn list_first(trees: Trees<'_>) -> Option<(Trees<'_>, Trees<'_>)>
    ensures gives { option_map list_rest result ≡ first_list (trees_meant trees.entry) }
    ensures inside { IfSome result (λ x. size_of x.0 < size_of trees.entry) }
    ensures less { IfSome result (λ x. size_of x.1 < size_of trees.entry) }
{
    let (first, rest) = split(trees)?;
    match look(first) {
        View::Atom(_, _, _) => None,
        View::List(_, inside, _) => Some((inside, rest)),
    }
}

/// Gives the one tree that there is: `None` where there is none, or more than one.
pub fn tree_alone(trees: Trees<'_>) -> Option<Trees<'_>>
    ensures gives { option_map tree_meant result ≡ only_tree (trees_meant trees.entry) }
    ensures less { IfSome result (λ x. size_of x ≤ size_of trees.entry) }
{
    let (first, rest) = split(trees)?;
    match split(rest) {
        Some(_) => None,
        None => Some(first),
    }
}

/// Asks that there is nothing more: `None` where there is a tree.
pub fn want_end(trees: Trees<'_>) -> Option<()>
    ensures { result ≡ no_tree (trees_meant trees.entry) }
{
    match split(trees) {
        Some(_) => None,
        None => Some(()),
    }
}

/// Gives the offset of the first list and the trees in it: `None` where there is no tree, or an atom that comes first.
pub fn list_inside(trees: Trees<'_>) -> Option<(u64, Trees<'_>)>
    ensures gives { option_map inside_view result ≡ inside_of (tree_meant trees.entry) }
    ensures inside { IfSome result (λ x. size_of x.1 < size_of trees.entry) }
{
    match look(trees) {
        View::Atom(_, _, _) => None,
        View::List(at, inside, _) => Some((u64::from(at), inside)),
    }
}

/// Gives the offset of the first byte of the first tree; 0 where there is none.
pub fn offset(trees: Trees<'_>) -> u64
    ensures { result ≡ offset_of (tree_meant trees.entry) }
{
    match trees.items.split_first() {
        None => 0,
        Some((first, _)) => match *first {
            Item::Atom(_, at, _) => u64::from(at),
            Item::List(at, _, _) => u64::from(at),
        },
    }
}
