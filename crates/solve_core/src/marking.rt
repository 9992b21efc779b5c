//! Terms that are marked by their numbers. No answer depends on these marks.

use no_memory::NoMemory;
use std::alloc::Global;
use term_core::{TermId, TermTable};

/// Tells whether a term is marked.
pub(crate) fn is_marked(marks: &[bool], id: TermId) -> bool {
    match marks.get(id.0 as usize) {
        None => false,
        Some(mark) => *mark,
    }
}

/// Marks terms, by their numbers.
pub(crate) fn mark_all(marks: &mut Vec<bool>, ids: &[TermId]) {
    'ids: for id in ids.iter() {
        if (id.0 as usize) < marks.len() {
            marks[id.0 as usize] = true;
        }
    }
}

/// Marks terms, in a new list with one mark for each term of the table.
pub(crate) fn marked(
    alloc: Global,
    table: &TermTable,
    ids: &[TermId],
) -> Result<Vec<bool>, NoMemory> {
    let mut marks = vec![in alloc; false; table.len() as usize]?;
    mark_all(&mut marks, ids);
    Ok(marks)
}
