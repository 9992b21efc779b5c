//! Tests of the index, over one text of rows.

use no_memory::NoMemory;
use std::alloc::Global;
use std::test::Fail;
use watch_index::{Lit, TermId, WatchIndex};

/// What is done to an index of no lists, and after `=` some literals with the numbers of their lists.
///
/// A letter is a literal, a capital one its complement. A digit `n` is put into the list of the last one after `+`. After `-` the
/// entry of place `n` is taken out of it. After `>` the last entry of `n` goes there from the list of the one before, after `@` the
/// entry of place `n`. After `<` all numbers from `n` on are dropped.
const ROWS: &str = "=aAz
a0=a0Ab
A0=aA0b
a012=a012
z5a1=a1yz5Z
a0123-0=a312
a0123-1=a032
a0123-3=a012
a0123-4=a0123
a0-0=a
a0123aB>1=a032B1b
a0b5aB>0b5=aB0b5
a01210aB>1=a0120B1
a012aB>7=a012B
a012aB@0=a21B0
a012aB@2=a01B2
a012aB@3=a012B
a01b12C230<2=a01b1C0
a01b12C230<0=abC
a01b12<9=a01b12
a01<1+7=a07";

/// Gives the literal of a letter.
fn literal_of(letter: u8) -> Lit {
    Lit {
        term: TermId(letter.to_ascii_lowercase().wrapping_sub(b'a') as u64),
        positive: letter.is_ascii_lowercase(),
    }
}

/// Makes a call on the list of a literal, if there is such an entry.
fn make(index: &mut WatchIndex, verb: u8, from: Lit, lit: Lit, n: u64) -> Result<(), NoMemory> {
    match verb {
        b'-' => {
            if (n as usize) < index.list(lit).len() {
                index.take_out(lit, n as usize);
            }
            Ok(())
        }
        b'@' => {
            if (n as usize) < index.list(from).len() {
                index.move_at(from, n as usize, lit)
            } else {
                Ok(())
            }
        }
        b'>' => {
            if index.list(from).contains(&n) {
                index.move_to(from, lit, n)
            } else {
                Ok(())
            }
        }
        b'<' => {
            index.drop_above(n);
            Ok(())
        }
        _ => index.add(lit, n),
    }
}

/// Does what a row says.
fn index_of(alloc: Global, steps: &str) -> Result<WatchIndex, NoMemory> {
    let mut index = WatchIndex::new(alloc);
    let mut verb = b'+';
    let mut from = literal_of(b'a');
    let mut lit = from;
    for sign in steps.as_bytes() {
        match *sign {
            b'+' | b'-' | b'>' | b'@' | b'<' => verb = *sign,
            b'0'..=b'9' => make(&mut index, verb, from, lit, sign.wrapping_sub(b'0') as u64)?,
            letter => {
                from = lit;
                lit = literal_of(letter);
            }
        }
    }
    Ok(index)
}

/// Tells whether the number of a place of a literal's list is the digit's.
fn matches_row(index: &WatchIndex, lit: Lit, at: usize, digit: u8) -> bool {
    match index.list(lit).get(at) {
        Some(n) => *n == digit.wrapping_sub(b'0') as u64,
        None => false,
    }
}

/// Tells whether the lists are those that a row says, with no entries more.
fn holds(index: &WatchIndex, lists: &str) -> bool {
    let mut lit = literal_of(b'a');
    let mut at = index.list(lit).len();
    for sign in lists.as_bytes() {
        if sign.is_ascii_digit() {
            if !matches_row(index, lit, at, *sign) {
                return false;
            }
            at = at.wrapping_add(1);
        } else {
            if index.list(lit).len() != at {
                return false;
            }
            lit = literal_of(*sign);
            at = 0;
        }
    }
    index.list(lit).len() == at
}

/// Gives the first row whose lists are others than it says.
fn first_other(alloc: Global, rows: &str) -> Result<Option<&str>, NoMemory> {
    for row in rows.lines() {
        let Some((steps, lists)) = row.split_once('=') else {
            return Ok(Some(row));
        };
        let index = index_of(alloc, steps)?;
        if !holds(&index, lists) {
            return Ok(Some(row));
        }
    }
    Ok(None)
}

#[test]
fn numbers_are_in_the_lists_of_their_literals(rt: HostRuntime) -> Result<(), Fail> {
    assert!(rt; first_other(rt.alloc(), ROWS)? == None);
    Ok(())
}
