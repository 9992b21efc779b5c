//! The forms of arithmetic atoms, which are taken before a search begins.

ghost use Rattle.std.specs.Prelude.{IfOk};
ghost use Rattle.spec_derivations.specs.Examples.{asserting};
ghost use Rattle.term_core.specs.Tables.{IsIn, AreIn, clause_at, term_at};
ghost use Rattle.solve_core.specs.Forms.{FindsOverflow, FindsInForm};

use no_memory::NoMemory;
use ratio128::Wide;
use simplex_atoms::{AtomStop, difference_of, sides_of};
use std::alloc::Global;
use term_clauses::marks::marks_of;
use term_core::{TermId, TermTable};

/// Gives the first operation that leaves 128 bits where the form of a term is taken, if the term is an atom of linear arithmetic and
/// such an operation comes.
///
/// `NoMemory` comes where the form finds no memory.
fn form_overflow(alloc: Global, table: &TermTable, id: TermId) -> Result<Option<Wide>, NoMemory>
    requires { IsIn table.now id }
    ensures { IfOk result (FindsInForm (term_at table.now id)) }
{
    let Some(sides) = sides_of(table, id) else {
        return Ok(None);
    };
    match difference_of(alloc, table, sides) {
        Ok(_) => Ok(None),
        Err(AtomStop::Wide(wide)) => Ok(Some(wide)),
        Err(AtomStop::Memory) => Err(NoMemory),
    }
}

/// Takes the form of each atom of linear arithmetic among the subterms of terms, in ascending order of their numbers, and gives the
/// first operation that leaves 128 bits; `None` exactly where each has a form.
///
/// It takes time in proportion to the greatest number of the terms, and to the sizes of the forms. `NoMemory` comes where marks or a
/// form find no memory.
pub(crate) fn first_overflow(
    alloc: Global,
    table: &TermTable,
    roots: &[TermId],
) -> Result<Option<Wide>, NoMemory>
    requires { AreIn table.now roots.now }
    ensures { IfOk result (FindsOverflow table.now (asserting (clause_at table.now roots.now))) }
{
    table.ids_are_unique();
    let marks = marks_of(alloc, table, roots)?;
    'marks: for number in 0..marks.len() {
        if !marks[number] {
            continue;
        }
        let found = form_overflow(alloc, table, TermId(number as u64))?;
        if let Some(wide) = found {
            return Ok(Some(wide));
        }
    }
    Ok(None)
}
