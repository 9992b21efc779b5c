//! Tables of terms by rows: each has a head, and after a tab the numbers of its arguments. It gets the next number.

use no_memory::NoMemory;
use ratio128::Ratio;
use std::alloc::Global;
use term_core::{Head, Node, TermId, TermTable};

/// Reads the numbers of terms with a space between them; the empty text has none.
pub(crate) fn terms_of(alloc: Global, words: &str) -> Result<Vec<TermId>, NoMemory> {
    let mut terms = Vec::new(alloc);
    for word in words.split(' ') {
        if let Ok(number) = word.parse::<u64>() {
            terms.push(TermId(number))?;
        }
    }
    Ok(terms)
}

/// Gives the head of a number's literal.
fn literal_of(word: &str) -> Option<Head> {
    match word.parse::<u32>() {
        Ok(number) => Some(Head::Literal(Ratio::of(number as i128, 1))),
        Err(_) => None,
    }
}

/// Finds a head by its word, a number or a theory's name, of which the first letter tells.
fn head_of(word: &str) -> Option<Head> {
    let letters = word.as_bytes();
    match *letters.first()? {
        b't' => Some(Head::True),
        b'f' => Some(Head::False),
        b'n' => Some(Head::Not),
        b'a' => Some(Head::And),
        b'o' => Some(Head::Or),
        b'x' => Some(Head::Xor),
        b'i' => Some(Head::Ite),
        b'=' if letters.len() == 2 => Some(Head::Implies),
        b'=' => Some(Head::Equal),
        b'<' if letters.len() == 2 => Some(Head::AtMost),
        b'<' => Some(Head::Less),
        b'+' => Some(Head::Plus),
        b'-' => Some(Head::Minus),
        b'*' => Some(Head::Times),
        b'/' => Some(Head::Divide),
        _ => literal_of(word),
    }
}

/// Puts a term, if the table takes it.
fn put(
    alloc: Global,
    table: &mut TermTable,
    head: Head,
    arguments: &[TermId],
) -> Result<(), NoMemory> {
    let node = Node::new(alloc, head, arguments)?;
    if table.takes(&node) {
        table.put(node)?;
    }
    Ok(())
}

/// Puts the term of a row, if it is one.
fn put_row(alloc: Global, table: &mut TermTable, row: &str) -> Result<(), NoMemory> {
    let mut parts = row.split('\t');
    let Some(head) = head_of(parts.next().unwrap_or("")) else {
        return Ok(());
    };
    let arguments = terms_of(alloc, parts.next().unwrap_or(""))?;
    put(alloc, table, head, &arguments)
}

/// Makes the table of the terms of rows.
pub(crate) fn table_of(alloc: Global, rows: &str) -> Result<TermTable, NoMemory> {
    let mut table = TermTable::new(alloc);
    for row in rows.lines() {
        put_row(alloc, &mut table, row)?;
    }
    Ok(table)
}
