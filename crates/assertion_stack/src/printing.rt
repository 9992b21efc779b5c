//! Prints the trees of asserted terms.

ghost use Rattle.std.specs.Prelude.{◌≡◌, ◌∷◌, ◌++◌, IfOk, OnOk};
ghost use Rattle.spec_text.specs.Printed.{printed_word, printed_all, printed};
ghost use Rattle.smt_sexpr.specs.Items.{trees_meant, tree_meant};
ghost use Rattle.assertion_stack.specs.Printing.{printed_after, KeepsFront};

use no_memory::NoMemory;
use smt_lexer::bars_of;
use smt_sexpr::{Kind, Trees, View, look, split};
use std::alloc::Global;
use world_io::Bytes;

/// Lends what is before a word and after it: quotes, bars where the name wants them, or a colon.
fn marks_of<'a>(kind: Kind, bytes: &'a [u8]) -> (&'a [u8], &'a [u8])
    ensures { result.0.now ++ (bytes.now ++ result.1.now) ≡ printed_word kind bytes.now }
{
    match kind {
        Kind::Text => (b"\"", b"\""),
        Kind::Keyword => (b":", b""),
        Kind::Quoted => bars_of(bytes),
        _ => (b"", b""),
    }
}

/// Puts a space last, where trees come.
fn add_gap(out: &mut Vec<u8>, trees: Trees<'_>) -> Result<(), NoMemory>
    ensures added { OnOk result (out.new.items ++ printed_all (trees_meant trees.entry)
        ≡ out.old.items ++ printed_after (trees_meant trees.entry)) }
    ensures keeps { KeepsFront out.old.items out.new.items }
{
    match split(trees) {
        None => Ok(()),
        Some(_) => {
            out.push(b' ')?;
            Ok(())
        }
    }
}

/// Puts a word last.
fn add_word(out: &mut Vec<u8>, kind: Kind, bytes: &[u8]) -> Result<(), NoMemory>
    ensures added { OnOk result (out.new.items ≡ out.old.items ++ printed_word kind bytes.now) }
    ensures keeps { KeepsFront out.old.items out.new.items }
{
    let (before, behind) = marks_of(kind, bytes);
    out.extend_from_slice(before)?;
    out.extend_from_slice(bytes)?;
    out.extend_from_slice(behind)?;
    Ok(())
}

/// Ends a list, before the trees that are after it.
fn end_list(out: &mut Vec<u8>, after: Trees<'_>) -> Result<(), NoMemory>
    ensures added { OnOk result (out.new.items ++ printed_all (trees_meant after.entry)
        ≡ out.old.items ++ (41 ∷ printed_after (trees_meant after.entry))) }
    ensures keeps { KeepsFront out.old.items out.new.items }
{
    out.push(b')')?;
    add_gap(out, after)
}

/// Puts an atom last, before the trees that are after it.
fn add_atom(out: &mut Vec<u8>, kind: Kind, bytes: &[u8], after: Trees<'_>) -> Result<(), NoMemory>
    ensures added { OnOk result (out.new.items ++ printed_all (trees_meant after.entry)
        ≡ out.old.items ++ (printed_word kind bytes.now ++ printed_after (trees_meant after.entry))) }
    ensures keeps { KeepsFront out.old.items out.new.items }
{
    add_word(out, kind, bytes)?;
    add_gap(out, after)
}

/// Prints trees, one after the other, after what is there.
///
/// Lists that are open are in a row, so nothing recurses. `NoMemory` may come at any byte; then a part may be printed.
fn print_all(alloc: Global, out: &mut Vec<u8>, trees: Trees<'_>) -> Result<(), NoMemory>
    ensures added { OnOk result (out.new.items ≡ out.old.items ++ printed_all (trees_meant trees.entry)) }
    ensures keeps { KeepsFront out.old.items out.new.items }
{
    let mut open = Vec::new(alloc);
    let mut rest = trees;
    'trees: loop {
        let Some((first, others)) = split(rest) else {
            let Some(outer) = open.pop() else {
                return Ok(());
            };
            end_list(out, outer)?;
            rest = outer;
            continue;
        };
        match look(first) {
            View::Atom(_, kind, bytes) => {
                add_atom(out, kind, bytes, others)?;
                rest = others;
            }
            View::List(_, inside, _) => {
                out.push(b'(')?;
                open.push(others)?;
                rest = inside;
            }
        }
    }
}

/// Prints the first tree, as `print` does, after what is there.
///
/// `NoMemory` may come at any byte; then a part may be printed.
pub(crate) fn print_to(alloc: Global, out: &mut Vec<u8>, tree: Trees<'_>) -> Result<(), NoMemory>
    ensures added { OnOk result (out.new.items ≡ out.old.items ++ printed (tree_meant tree.entry)) }
    ensures keeps { KeepsFront out.old.items out.new.items }
{
    match split(tree) {
        None => Ok(()),
        Some((first, _)) => print_all(alloc, out, first),
    }
}

/// Prints the first tree, as `smt_sexpr::print` does: one space is between two trees of a list and none inside its
/// parentheses, white space and comments are left out, and a symbol has bars only where it is none without them.
///
/// `NoMemory` may come at any byte. Source: SMT-LIB 2.6, sections 3.1 and 3.2.
pub fn print(alloc: Global, tree: Trees<'_>) -> Result<Bytes, NoMemory>
    ensures { IfOk result (λ b. b ≡ printed (tree_meant tree.entry)) }
{
    let mut out = Vec::new(alloc);
    print_to(alloc, &mut out, tree)?;
    Ok(Bytes::from(out))
}
