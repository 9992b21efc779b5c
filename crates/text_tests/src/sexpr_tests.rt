//! Texts with the s-expressions that are in them, and what is printed of them.

use crate::rows::{are, bytes_of, number};
use no_memory::NoMemory;
use smt_lexer::place_at;
use smt_sexpr::{
    Item, Kind, LimitedText, NextSexpr, Place, Refused, Sexpr, Trees, is_keyword, is_reserved,
    is_simple, is_symbol, is_word, list_first, list_inside, offset, print, same_bytes, tree_alone,
    want, want_end, want_keyword, word_first,
};
use std::alloc::Global;
use std::test::Fail;
use world_io::MemSink;

/// A text, the offset to read from, how many lists are open, and what is there: an s-expression as it is printed, with the
/// offset, line and column of its first byte and the offset after it; the end of the innermost open list with the offset after it;
/// the end of the text; or a fault with its offset, line and column.
const NEXT: &str = "\t0\t0\tEnd\t\t
 ; a (`10`\t0\t0\tEnd\t\t
a\t0\t0\tOne\ta\t0 1 1 1
`10`  ab c\t0\t0\tOne\tab\t3 2 3 5
`10`  ab c\t5\t0\tOne\tc\t6 2 6 7
()\t0\t0\tOne\t()\t0 1 1 2
(a(b)c)d\t0\t0\tOne\t(a (b) c)\t0 1 1 7
 (a ; (`10` (b))`10`)\t0\t0\tOne\t(a (b))\t1 1 2 13
 (a ; (`10` (b))`10`)\t13\t0\tStrayClose\t\t14 3 1
 (a ; (`10` (b))`10`)\t13\t1\tClose\t\t15
a b)\t1\t1\tOne\tb\t2 1 3 3
a b)\t1\t7\tOne\tb\t2 1 3 3
a b)\t3\t1\tClose\t\t4
a b)\t4\t1\tUnclosedList\t\t4 1 5
a b)\t4\t0\tEnd\t\t
`10`;\t0\t1\tUnclosedList\t\t2 2 2
(a`10`(b) \t0\t0\tUnclosedList\t\t7 2 5
(a`10`(b) \t0\t3\tUnclosedList\t\t7 2 5
)\t0\t0\tStrayClose\t\t0 1 1
 `10`)a\t0\t0\tStrayClose\t\t2 2 1
)\t0\t1\tClose\t\t1
(a (b #) c)\t0\t0\tBadChar\t\t6 1 7
a #\t0\t0\tOne\ta\t0 1 1 1
a #\t1\t0\tBadChar\t\t2 1 3
a #\t1\t1\tBadChar\t\t2 1 3
(1.)\t0\t0\tBadChar\t\t2 1 3
(\"a`10`)\t0\t0\tUnclosedString\t\t1 1 2
(a`10`|b)\t0\t0\tUnclosedQuote\t\t3 2 1
(|a\\b\t0\t0\tBadChar\t\t3 1 4
(a))(\t0\t0\tOne\t(a)\t0 1 1 3
(\t0\t499\tUnclosedList\t\t1 1 2
(a)\t0\t499\tOne\t(a)\t0 1 1 3
 (())\t0\t18446744073709551615\tOne\t(())\t1 1 2 5
 ((a)\t0\t18446744073709551615\tUnclosedList\t\t5 1 6";

/// Lists in lists, which are read however deep they are.
const NESTED: &str = "`2000 (``2000 )`\t0\t0\tOne\t`2000 (``2000 )`\t0 1 1 4000
`2000 (`a`2000 )`b\t0\t7\tOne\t`2000 (`a`2000 )`\t0 1 1 4001
`2000 (``1999 )`a\t0\t0\tUnclosedList\t\t4000 1 4001
`2000 (`\t0\t0\tUnclosedList\t\t2000 1 2001
`2000 (``2001 )`\t4000\t0\tStrayClose\t\t4000 1 4001";

/// A text, an item of its first s-expression, and how that is printed, nothing where there is no such item. Then come the room of
/// sinks that fail, and what these get.
const PRINTED: &str = "a\t0\tall\ta
( a  b`10`(`9`c ( ) ) )\t0\tall\t(a b (c ()))
( a  b`10`(`9`c ( ) ) )\t1\tall\ta
( a  b`10`(`9`c ( ) ) )\t2\tall\tb
( a  b`10`(`9`c ( ) ) )\t3\tall\t(c ())
( a  b`10`(`9`c ( ) ) )\t4\tall\tc
( a  b`10`(`9`c ( ) ) )\t5\tall\t()
(a;b`10`;c`10`\"d;e\")\t0\tall\t(a \"d;e\")
(\"\" \"a\"\"b\"\"c\" \"(\")\t0\tall\t(\"\" \"a\"\"b\"\"c\" \"(\")
(:k:k|a|b\"c\"(d)e)\t0\tall\t(:k :k a b \"c\" (d) e)
(1 0.50 007)\t0\tall\t
(1 0.50(-7)x7)\t0\tall\t(1 0.50 (-7) x7)
(|a| |a b| || |7| |.7|)\t0\tall\t(a |a b| || |7| .7)
(|let| let |lets| |LET|)\t0\tall\t(|let| let lets LET)
(|_| _ |_a| |!| !)\t0\tall\t(|_| _ _a |!| !)
(|assert| assert |a(b| |\"|)\t0\tall\t(|assert| assert |a(b| |\"|)
(|a;b| |:a| |a`10`b|)\t0\tall\t(|a;b| |:a| |a`10`b|)
|~!@$%^&*_-+=<>.?/|\t0\tall\t~!@$%^&*_-+=<>.?/
(())(a)\t1\tall\t()
((a b)(c)d)\t1\tall\t(a b)
((a b)(c)d)\t4\tall\t(c)
((a b)(c)d)\t6\tall\td
(a|b c|())\t0\t0\t
(a|b c|())\t0\t1\t(
(a|b c|())\t0\t4\t(a |
(a|b c|())\t0\t8\t(a |b c|
(a|b c|())\t0\t9\t(a |b c| 
(a|b c|())\t0\t10\t(a |b c| (
(a|b c|())\t0\t11\t(a |b c| ()";

/// Prints an item, and tells whether all of it was written; `None` where there is no such item.
fn print_to(s: &Sexpr<'_>, item: u64, out: &mut MemSink) -> Option<bool> {
    if item >= s.items().len() as u64 {
        return None;
    }
    Some(print(s, item, out).is_ok())
}

/// Tells whether an item is printed so, to a sink with just the room for it; or to one with less, which gets so much of it.
fn is_printed(
    alloc: Global,
    s: &Sexpr<'_>,
    item: u64,
    room: &str,
    wanted: &[u8],
) -> Result<bool, NoMemory> {
    let is_all = room == "all";
    let (room, most) = if is_all {
        (wanted.len() as u64, 2)
    } else {
        (number(room), 1)
    };
    let mut out = MemSink::new(alloc, room, most, Vec::new(alloc))?;
    let is_so = match print_to(s, item, &mut out) {
        None => wanted.is_empty(),
        Some(is_done) => is_done == is_all,
    };
    Ok(is_so && out.written() == wanted)
}

/// Tells whether an s-expression is the one of a row.
fn is_one(
    alloc: Global,
    s: &Sexpr<'_>,
    after: Place,
    printed: &[u8],
    numbers: &str,
) -> Result<bool, NoMemory> {
    let at = s.start();
    Ok(
        is_printed(alloc, s, 0, "all", printed)?
            && are(&[at.offset, at.line, at.col, after.offset], numbers),
    )
}

/// Tells whether what was read is what is wanted.
fn fits(
    alloc: Global,
    read: Result<NextSexpr<'_>, Refused>,
    kind: &str,
    printed: &[u8],
    numbers: &str,
) -> Result<bool, NoMemory> {
    match read {
        Ok(NextSexpr::One(s, after)) => {
            Ok(kind == "One" && is_one(alloc, &s, after, printed, numbers)?)
        }
        Ok(NextSexpr::Close(after)) => Ok(kind == "Close" && are(&[after.offset], numbers)),
        Ok(NextSexpr::End) => Ok(kind == "End"),
        Err(Refused::Memory) => Err(NoMemory),
        Err(Refused::Fault(r)) => {
            Ok(kind == r.fault.name() && are(&[r.place.offset, r.place.line, r.place.col], numbers))
        }
    }
}

/// Tells whether a text has next what its row says.
fn has_next(alloc: Global, row: &str) -> Result<bool, NoMemory> {
    let mut parts = row.split('\t');
    let text = bytes_of(alloc, parts.next().unwrap_or(""))?;
    let from = number(parts.next().unwrap_or("")) as usize;
    let open_lists = number(parts.next().unwrap_or("")) as usize;
    let kind = parts.next().unwrap_or("");
    let printed = bytes_of(alloc, parts.next().unwrap_or(""))?;
    let numbers = parts.next().unwrap_or("");
    let limited = LimitedText::new(&text);
    let bytes = limited.bytes();
    if from > bytes.len() {
        return Ok(false);
    }
    let read = limited.next(alloc, place_at(bytes, from), open_lists);
    fits(alloc, read, kind, &printed, numbers)
}

/// Gives the first row whose text has something else next, if there is one.
fn first_other_next(alloc: Global, rows: &str) -> Result<Option<&str>, NoMemory> {
    for row in rows.lines() {
        if !has_next(alloc, row)? {
            return Ok(Some(row));
        }
    }
    Ok(None)
}

/// Tells whether an item of a text is printed as its row says.
fn prints(alloc: Global, row: &str) -> Result<bool, NoMemory> {
    let mut parts = row.split('\t');
    let text = bytes_of(alloc, parts.next().unwrap_or(""))?;
    let item = number(parts.next().unwrap_or(""));
    let room = parts.next().unwrap_or("");
    let wanted = bytes_of(alloc, parts.next().unwrap_or(""))?;
    let limited = LimitedText::new(&text);
    match limited.next_one(alloc, limited.start()) {
        Ok(Some((s, _))) => is_printed(alloc, &s, item, room, &wanted),
        Err(Refused::Memory) => Err(NoMemory),
        _ => Ok(wanted.is_empty()),
    }
}

/// Gives the first row of which something else is printed, if there is one.
fn first_other_print(alloc: Global, rows: &str) -> Result<Option<&str>, NoMemory> {
    for row in rows.lines() {
        if !prints(alloc, row)? {
            return Ok(Some(row));
        }
    }
    Ok(None)
}

/// Takes `f` and `:k` off, and gives what is left.
fn after_two_words(inside: Trees<'_>) -> Option<Trees<'_>> {
    let (f, rest) = word_first(inside)?;
    want(b"f", f)?;
    let (k, rest) = word_first(rest)?;
    want_keyword(b"k", k)?;
    let words = is_simple(f.kind) && is_keyword(k.kind) && !is_reserved(k.kind);
    if words { Some(rest) } else { None }
}

/// Tells whether a list has the words `|g|` and `"s"`.
fn has_two_words(group: Trees<'_>) -> Option<bool> {
    let (g, rest) = word_first(group)?;
    let (string, rest) = word_first(rest)?;
    want_end(rest)?;
    let first = is_word(b"g", g) && is_symbol(g.kind) && !is_simple(g.kind);
    Some(first && !is_word(b"s", string) && same_bytes(string.bytes, b"s"))
}

/// Takes `(f :k (|g| "s"))` apart, by each function that does such.
fn is_taken_apart(trees: Trees<'_>) -> Option<bool> {
    let (at, inside) = list_inside(trees)?;
    let rest = after_two_words(inside)?;
    let alone = tree_alone(rest)?;
    let (group, rest) = list_first(rest)?;
    want_end(rest)?;
    Some(at == 1 && offset(alone) == 7 && has_two_words(group)?)
}

/// Tells whether the s-expression of this text is taken apart, and has these items and places.
fn has_its_parts(alloc: Global, text: &[u8], wanted: &[Item]) -> Result<bool, NoMemory> {
    let limited = LimitedText::new(text);
    let Ok(Some((s, after))) = limited.next_one(alloc, limited.start()) else {
        return Err(NoMemory);
    };
    if is_taken_apart(s.trees()) != Some(true) || s.items() != wanted {
        return Ok(false);
    }
    if s.start().offset > 12 || s.text().len() < 12 {
        return Ok(false);
    }
    let at = s.place(12);
    Ok(
        are(&[at.offset, at.line, at.col], "12 2 6")
            && are(&[after.offset, after.line, after.col], "17 2 11"),
    )
}

#[test]
fn s_expressions_are_in_their_texts(rt: HostRuntime) -> Result<(), Fail> {
    let alloc = rt.alloc();
    assert!(rt; first_other_next(alloc, NEXT)? == None);
    assert!(rt; first_other_next(alloc, NESTED)? == None);
    assert!(rt; first_other_print(alloc, PRINTED)? == None);
    let wanted = [
        Item::List(1, 16, 5),
        Item::Atom(Kind::Simple, 2, 1),
        Item::Atom(Kind::Keyword, 4, 1),
        Item::List(7, 15, 2),
        Item::Atom(Kind::Quoted, 8, 1),
        Item::Atom(Kind::Text, 12, 1),
    ];
    assert!(rt; has_its_parts(alloc, b" (f :k\n(|g| \"s\"))", &wanted)?);
    Ok(())
}
