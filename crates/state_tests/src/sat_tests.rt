//! Tests of the trail, over one text of rows.

use no_memory::NoMemory;
use sat_trail::{Lit, SatTrail, TermId};
use std::alloc::Global;
use std::test::Fail;

/// What is done to a trail of no variables; then its literals, their levels, their reasons, its level and how many literals are marked
/// as propagated, with `|` between them.
///
/// `.` adds a variable; `?` decides and `!` implies a literal that has no value, for the reason of its place; `<` goes back to a level;
/// `*` marks all as propagated.
/// A letter is a variable, from `a` for the first; a capital one is its complement. `-` stands for no reason.
const ROWS: &str = "||||0|0
?a!b||||0|0
..!A|A|0|0|0|0
...?a!B!c|aBc|111|-12|1|0
..?a!A!B|aB|11|-1|1|0
....!d?a!B?C|daBC|0112|0-2-|2|0
....!d?a!B?C<2|daBC|0112|0-2-|2|0
....!d?a!B?C<1|daB|011|0-2|1|0
....!d?a!B?C<0|d|0|0|0|0
....!d?a!B?C<0!b?A|dbA|001|01-|1|0
....?a?b?c?d<1?C|aC|12|--|2|0
.?a.!b<0.!c|c|0|0|0|0
....?a?b<3|ab|12|--|2|0
..!a*.?b!c|abc|011|0-2|1|1
...!a*?b!c*<1|abc|011|0-2|1|3
...!a*?b!c*<0|a|0|0|0|1
...!a?b!c*<0!B|aB|00|01|0|1";

/// Gives the literal of a letter.
fn literal_of(letter: u8) -> Lit {
    Lit {
        term: TermId(letter.to_ascii_lowercase().wrapping_sub(b'a') as u64),
        positive: letter.is_ascii_lowercase(),
    }
}

/// Gives the number of a digit, and none of another sign.
fn digit_of(sign: u8) -> Option<u64> {
    if sign.is_ascii_digit() {
        Some(sign.wrapping_sub(b'0') as u64)
    } else {
        None
    }
}

/// Gives the value of a literal, and none where it has no variable.
fn value_of(trail: &SatTrail, lit: Lit) -> Option<bool> {
    if lit.term.0 < trail.vars() {
        trail.value(lit)
    } else {
        None
    }
}

/// Decides or implies a literal that has a variable and no value.
fn put(trail: &mut SatTrail, verb: u8, lit: Lit) {
    if lit.term.0 >= trail.vars() {
        return;
    }
    let place = trail.len();
    match trail.value(lit) {
        None => {
            if verb == b'?' {
                trail.decide(lit);
            } else {
                trail.imply(lit, place);
            }
        }
        Some(_) => {}
    }
}

/// Goes back to a level, if it is there.
fn go_back(trail: &mut SatTrail, level: u64) {
    if level <= trail.level() {
        trail.back_to(level);
    }
}

/// Does what a row says.
fn trail_of(alloc: Global, steps: &str) -> Result<SatTrail, NoMemory> {
    let mut trail = SatTrail::new(alloc);
    let mut verb = b'.';
    for sign in steps.as_bytes() {
        match *sign {
            b'.' => trail.add_var()?,
            b'*' => trail.mark_propagated(),
            b'?' | b'!' | b'<' => verb = *sign,
            other => match digit_of(other) {
                Some(level) => go_back(&mut trail, level),
                None => put(&mut trail, verb, literal_of(other)),
            },
        }
    }
    Ok(trail)
}

/// Tells whether the literal of a place is the letter's, with that level and reason.
fn matches_row(trail: &SatTrail, n: u64, letter: u8, level: u8, reason: u8) -> bool {
    if n >= trail.len() {
        return false;
    }
    let lit = literal_of(letter);
    if lit.term.0 >= trail.vars() {
        return false;
    }
    trail.literal(n) == lit
        && digit_of(level) == Some(trail.level_of(n))
        && digit_of(level) == Some(trail.level_by(lit))
        && digit_of(reason) == trail.reason(n)
}

/// Tells whether the values of the first four variables are those of the letters.
fn has_values(trail: &SatTrail, letters: &[u8]) -> bool {
    for letter in b"abcdABCD" {
        let wanted = if letters.contains(letter) {
            Some(true)
        } else if letters.contains(&(letter ^ 32)) {
            Some(false)
        } else {
            None
        };
        if value_of(trail, literal_of(*letter)) != wanted {
            return false;
        }
    }
    true
}

/// Tells whether a trail has the literals of a row, with their levels and reasons.
fn is_so(trail: &SatTrail, letters: &[u8], levels: &[u8], reasons: &[u8]) -> bool {
    if trail.len() != letters.len() as u64 {
        return false;
    }
    for (n, letter) in letters.iter().enumerate() {
        let level = levels.get(n).copied().unwrap_or(b'-');
        let reason = reasons.get(n).copied().unwrap_or(b'*');
        if !matches_row(trail, n as u64, *letter, level, reason) {
            return false;
        }
    }
    has_values(trail, letters)
}

/// Tells whether a text is the digit of a number.
fn says(text: &str, number: u64) -> bool {
    match text.as_bytes() {
        [digit] => digit_of(*digit) == Some(number),
        _ => false,
    }
}

/// Gives the number of the first row that is not so.
fn first_other(alloc: Global, rows: &str) -> Result<Option<usize>, NoMemory> {
    for (n, row) in rows.lines().enumerate() {
        let mut parts = row.split('|');
        let trail = trail_of(alloc, parts.next().unwrap_or(""))?;
        let letters = parts.next().unwrap_or("").as_bytes();
        let levels = parts.next().unwrap_or("").as_bytes();
        let reasons = parts.next().unwrap_or("").as_bytes();
        let level = says(parts.next().unwrap_or(""), trail.level());
        let marked = says(parts.next().unwrap_or(""), trail.propagated());
        if !(level && marked && is_so(&trail, letters, levels, reasons)) {
            return Ok(Some(n));
        }
    }
    Ok(None)
}

#[test]
fn trails_are_as_their_steps_say(rt: HostRuntime) -> Result<(), Fail> {
    assert!(rt; first_other(rt.alloc(), ROWS)? == None);
    Ok(())
}
