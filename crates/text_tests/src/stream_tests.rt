//! Texts that come one byte after the other, and what is taken of them.

use crate::rows::{are, bytes_of, number};
use no_memory::NoMemory;
use sexpr_stream::{NextItem, Stream};
use smt_sexpr::Refused;
use std::alloc::Global;
use std::test::Fail;

/// A text, the offsets after its s-expressions, how many of these are taken before the text is closed, and how it ends.
const STREAMED: &str = "\t\t0\tDone
 ; a\t\t0\tDone
a\t1\t0\tDone
ab c\t2 4\t1\tDone
(a)\t3\t1\tDone
 (a)(b)`10`;\t4 7\t2\tDone
:k|q|\"s\"\t2 5 8\t2\tDone
1.5\t3\t0\tDone
1.)\t\t0\tBadChar
a)\t1\t1\tStrayClose
a (\t1\t1\tUnclosedList
(a \"b\t\t0\tUnclosedString
(a |b\t\t0\tUnclosedQuote
(a ;)\t\t0\tUnclosedList
\"a\"\"b\"c\t6 7\t1\tDone
`2000 (`\t\t0\tUnclosedList
`2000 (``2000 )`a\t4000 4001\t1\tDone";

/// Takes the s-expression that is next, if one is, and gives the offset after it.
fn take_one(alloc: Global, stream: &mut Stream) -> Result<Option<u64>, NoMemory> {
    let after = match stream.next(alloc) {
        Ok(NextItem::Item(_, after)) => after,
        Err(Refused::Memory) => return Err(NoMemory),
        _ => return Ok(None),
    };
    stream.advance(after);
    Ok(Some(after.offset))
}

/// Takes all s-expressions that are next, and adds the offsets after them. Each has one of the bytes that are held, at least.
fn take_all(alloc: Global, stream: &mut Stream, ends: &mut Vec<u64>) -> Result<(), NoMemory> {
    for _ in 0..stream.held() {
        let Some(end) = take_one(alloc, stream)? else {
            return Ok(());
        };
        ends.push(end)?;
    }
    Ok(())
}

/// Feeds a text in pieces of one byte each, and takes what is next after each.
fn feed_bytes(
    alloc: Global,
    text: &[u8],
    stream: &mut Stream,
    ends: &mut Vec<u64>,
) -> Result<(), NoMemory> {
    for i in 0..text.len() {
        stream.feed(&text[i..i + 1])?;
        take_all(alloc, stream, ends)?;
    }
    Ok(())
}

/// Tells whether what is next is an end or a fault of this name.
fn ends_so(alloc: Global, stream: &Stream, name: &str) -> Result<bool, NoMemory> {
    match stream.next(alloc) {
        Ok(NextItem::Done) => Ok(name == "Done"),
        Err(Refused::Fault(r)) => Ok(name == r.fault.name()),
        Err(Refused::Memory) => Err(NoMemory),
        _ => Ok(false),
    }
}

/// Tells whether offsets are those that a row has, which may be none.
fn are_ends(ends: &[u64], wanted: &str) -> bool {
    if ends.is_empty() {
        return wanted.is_empty();
    }
    are(ends, wanted)
}

/// Tells whether a text is taken as its row says.
fn streams_so(alloc: Global, row: &str) -> Result<bool, NoMemory> {
    let mut parts = row.split('\t');
    let text = bytes_of(alloc, parts.next().unwrap_or(""))?;
    let wanted = parts.next().unwrap_or("");
    let early = number(parts.next().unwrap_or(""));
    let mut stream = Stream::new(alloc);
    let mut ends = Vec::new(alloc);
    feed_bytes(alloc, &text, &mut stream, &mut ends)?;
    if ends.len() as u64 != early {
        return Ok(false);
    }
    stream.close();
    take_all(alloc, &mut stream, &mut ends)?;
    let end = ends_so(alloc, &stream, parts.next().unwrap_or(""))?;
    Ok(end && are_ends(&ends, wanted))
}

/// Gives the first row whose text is taken otherwise, if there is one.
fn first_other_stream(alloc: Global, rows: &str) -> Result<Option<&str>, NoMemory> {
    for row in rows.lines() {
        if !streams_so(alloc, row)? {
            return Ok(Some(row));
        }
    }
    Ok(None)
}

#[test]
fn texts_are_taken_as_they_come(rt: HostRuntime) -> Result<(), Fail> {
    assert!(rt; first_other_stream(rt.alloc(), STREAMED)? == None);
    Ok(())
}
