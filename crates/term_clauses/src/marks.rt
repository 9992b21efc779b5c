//! Which terms terms are made of.

ghost use Rattle.std.specs.Prelude.{ℕ, ◌<◌, ◌≤◌, length, All, IfOk};
ghost use Rattle.term_core.specs.Tables.{IsIn, AreIn};
ghost use Rattle.term_clauses.specs.Marks.{MarksTerms, IsMarked, AreMarksOf, AreMarked};

use no_memory::NoMemory;
use spec_sorts::subterms::subterms_are_least;
use std::alloc::Global;
use term_core::{TermId, TermTable};

/// Marks the numbers of terms and of all their subterms, up to the greatest of them.
///
/// It goes from the greatest number down, since the arguments of a term have smaller numbers; so it takes time in proportion to that
/// number and to the arguments of the marked terms, and a byte for each number.
pub fn marks_of(alloc: Global, table: &TermTable, roots: &[TermId]) -> Result<Vec<bool>, NoMemory>
    requires { AreIn table.now roots.now }
    ensures { IfOk result (λ marks. AreMarksOf table.now roots.now marks.items) }
{
    let mut marks = vec![in alloc; false; bound_of(table, roots) as usize]?;
    mark_subterms(table, roots, &mut marks);
    Ok(marks)
}

/// Gives a number above all of these.
fn bound_of(table: &TermTable, ids: &[TermId]) -> u64
    requires { AreIn table.now ids.now }
    ensures above { All (λ id. id.0 < result) ids.now }
    ensures within { result ≤ length table.now.terms }
{
    let mut bound = 0;
    'ids: for id in ids.iter() {
        bound = above(table, bound, *id);
    }
    bound
}

/// Gives the bound, or the next number after this one where that is greater.
fn above(table: &TermTable, bound: u64, id: TermId) -> u64
    requires there { IsIn table.now id }
    requires within { bound ≤ length table.now.terms }
    ensures { (bound ≤ result) × (id.0 < result) × (result ≤ length table.now.terms) }
{
    let terms = table.len();
    if bound <= id.0 && id.0 < terms {
        return id.0 + 1;
    }
    bound
}

/// Marks terms and their subterms, where nothing is marked.
fn mark_subterms(table: &TermTable, roots: &[TermId], marks: &mut [bool])
    requires there { AreIn table.now roots.now }
    requires short { length marks.old ≤ length table.now.terms }
    requires bound { All (λ id. id.0 < length marks.old) roots.now }
    requires none { (k : ℕ) → IsMarked marks.old k → ⊥ }
    ensures { AreMarksOf table.now roots.now marks.new }
{
    subterms_are_least();
    table.ids_are_unique();
    mark_each(marks, roots);
    'terms: for number in (0..marks.len()).rev() {
        if marks[number] {
            mark_each(
                marks,
                table.node(TermId(number as u64)).arguments.as_slice(),
            );
        }
    }
}

/// Marks these numbers.
fn mark_each(marks: &mut [bool], ids: &[TermId])
    requires { All (λ id. id.0 < length marks.old) ids.now }
    ensures { MarksTerms marks.old ids.now marks.new }
{
    'ids: for id in ids.iter() {
        marks[id.0 as usize] = true;
    }
}

/// Lists the marked numbers, in ascending order.
pub fn marked_ids(alloc: Global, marks: &[bool]) -> Result<Vec<TermId>, NoMemory>
    ensures { IfOk result (λ ids. AreMarked marks.now ids.items) }
{
    let mut ids = Vec::new(alloc);
    'marks: for number in 0..marks.len() {
        if !marks[number] {
            continue;
        }
        ids.push(TermId(number as u64))?;
    }
    Ok(ids)
}
