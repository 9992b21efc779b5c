//! Texts with the number of bytes after which what is next in them is settled.

use crate::rows::{bytes_of, number};
use no_memory::NoMemory;
use std::alloc::Global;
use std::test::Fail;
use stream_scan::{Pending, Scan, scan_on};

/// A text, and up to which byte of it is read until what is next is settled, by their number; nothing where it is open.
const SETTLED: &str = "\t
 \t
a\t
a \t2
 ab(\t4
let)\t4
0\t
0 \t2
00\t2
10(\t3
1a\t2
1.\t
1. \t3
1.0\t
1.05 0\t5
1.0.\t4
\"a\t
\"a\"\t
\"a\" \t4
\"a\"\"b \t
\"\"\"\";\t5
|a b\t
|a b|c\t5
|a\\b|\t3
:\t
: \t2
:k0\t
:k0:\t4
; a b \t
;a`10`b \t5
;`13``10``10``9` ;(`10`b|\t11
()\t2
( (a)\t
(a (b) c)d\t9
(a 1 1.0 \"\"\"\" |)| :k)\t21
(;)`10`\")\"|\"|)\t11
)\t1
 `10`)a\t3
'\t1
(a #)\t4
(00)\t3
(1.)\t4
(1`10`:)\t5
(a(b\"c\")\t
(|a\\\t4
`2000 (`\t
`2000 (``1999 )`\t
`2000 (``2001 )`\t4000";

/// Scans one byte more. Where too many lists are open to count one more, nothing is told.
fn scan_byte(scan: Scan, b: u8) -> Option<Scan> {
    match scan {
        Scan::Settled => Some(Scan::Settled),
        Scan::Open(pending, n) if n < 1 << 32 => Some(scan_on(Scan::Open(pending, n), &[b])),
        Scan::Open(_, _) => None,
    }
}

/// Scans a text in pieces of one byte each, and counts the bytes up to the one that settles; else gives the greatest number.
fn scan_bytes(text: &[u8], start: Scan) -> Option<(Scan, u64)> {
    let mut scan = start;
    for i in 0..text.len() {
        scan = scan_byte(scan, text[i])?;
        if scan == Scan::Settled {
            return Some((scan, i as u64 + 1));
        }
    }
    Some((scan, u64::MAX))
}

/// Tells whether a text is settled after as many bytes as its row says, and is scanned alike in one piece.
fn is_settled_so(alloc: Global, row: &str) -> Result<bool, NoMemory> {
    let mut parts = row.split('\t');
    let text = bytes_of(alloc, parts.next().unwrap_or(""))?;
    let wanted = number(parts.next().unwrap_or(""));
    let start = Scan::Open(Pending::Blank, 0);
    let whole = scan_on(start, &text);
    Ok(scan_bytes(&text, start) == Some((whole, wanted)))
}

/// Gives the first row whose text is settled after another number of bytes, if there is one.
fn first_other_scan(alloc: Global, rows: &str) -> Result<Option<&str>, NoMemory> {
    for row in rows.lines() {
        if !is_settled_so(alloc, row)? {
            return Ok(Some(row));
        }
    }
    Ok(None)
}

#[test]
fn texts_are_settled_at_their_byte(rt: HostRuntime) -> Result<(), Fail> {
    assert!(rt; first_other_scan(rt.alloc(), SETTLED)? == None);
    Ok(())
}
