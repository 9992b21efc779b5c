//! Rows of the tests, as text: a row a line, with a tab between its parts.

use no_memory::NoMemory;
use std::alloc::Global;

/// Gives the bytes that a part of a row means. Between backquotes is the number of a byte, or a number, a space and what is
/// repeated so often.
pub(crate) fn bytes_of(alloc: Global, part: &str) -> Result<Vec<u8>, NoMemory> {
    let mut bytes = Vec::new(alloc);
    let mut is_quoted = false;
    for piece in part.split('`') {
        if !is_quoted {
            bytes.extend_from_slice(piece.as_bytes())?;
        } else if let Some((count, repeated)) = piece.split_once(' ') {
            for _ in 0..number(count) {
                bytes.extend_from_slice(repeated.as_bytes())?;
            }
        } else {
            bytes.push(piece.parse::<u8>().unwrap_or(0))?;
        }
        is_quoted = !is_quoted;
    }
    Ok(bytes)
}

/// Reads a number; any other text is the greatest one.
pub(crate) fn number(part: &str) -> u64 {
    part.parse::<u64>().unwrap_or(u64::MAX)
}

/// Reads numbers with a space between them; the empty text has none.
pub(crate) fn numbers(alloc: Global, part: &str) -> Result<Vec<u64>, NoMemory> {
    let mut numbers = Vec::new(alloc);
    if part != "" {
        for word in part.split(' ') {
            numbers.push(number(word))?;
        }
    }
    Ok(numbers)
}

/// Tells whether numbers are written so, with a space between them.
pub(crate) fn are(numbers: &[u64], part: &str) -> bool {
    let mut words = part.split(' ');
    for n in numbers {
        let Some(word) = words.next() else {
            return false;
        };
        if number(word) != *n {
            return false;
        }
    }
    words.next().is_none()
}
