//! Clauses between neighbouring bounds, which come where a search begins or grows.
//!
//! By these one bound of a sum propagates its weaker ones. No answer depends on which clauses come. Each is a step by the rule
//! `la_generic`, with weights that follow from the two forms; no theory is asked.

ghost use Rattle.std.specs.Prelude.{◌≡◌, ◌≤◌, List, length, All, OnOk};
ghost use Rattle.spec_sorts.specs.Terms.{Term};
ghost use Rattle.term_core.specs.Tables.{declared_in, Extends, clause_at};
ghost use Rattle.search_loop.specs.Search.{SearchFits};
ghost use Rattle.bound_lemmas.specs.Pairs.{IsPairOf};
ghost use Rattle.solve_core.specs.Relating.{HasRelated};

use crate::cycling::relate_cycles;
use crate::marking::{is_marked, marked};
use bound_lemmas::{BoundPair, excluding, neighbours_of};
use no_memory::NoMemory;
use search_loop::Search;
use term_core::TermTable;

/// Gives a search the clause that the two literals of a pair do not both hold, where the rule `la_generic` takes it.
///
/// `NoMemory` comes where memory ran out.
fn relate(search: &mut Search, table: &mut TermTable, pair: BoundPair) -> Result<(), NoMemory>
    ghost terms: { List Term }
    requires terms { terms ≡ clause_at table.old search.old.terms.items }
    requires ready { SearchFits table.old search.old }
    requires level { search.old.trail.level ≡ 0 }
    requires pair { IsPairOf search.old.atoms.items pair }
    ensures grown { Extends table.old table.new }
    ensures declared { declared_in table.new ≡ declared_in table.old }
    ensures related { OnOk result (HasRelated table.old table.new search.old search.new) }
{
    let Some(step) = excluding(search.alloc, table, &mut search.log, pair)? else {
        return Ok(());
    };
    search.keep(table, step)
}

/// Tells whether an atom of a pair is marked.
fn has_marked(marks: &[bool], pair: BoundPair) -> bool {
    is_marked(marks, pair.first.term) || is_marked(marks, pair.second.term)
}

/// Gives a search the clauses of those pairs of which an atom is marked. No answer depends on these marks.
fn relate_marked(
    search: &mut Search,
    table: &mut TermTable,
    pairs: &[BoundPair],
    marks: &[bool],
) -> Result<(), NoMemory>
    requires ready { SearchFits table.old search.old }
    requires level { search.old.trail.level ≡ 0 }
    requires pairs { All (IsPairOf search.old.atoms.items) pairs.now }
    ensures grown { Extends table.old table.new }
    ensures declared { declared_in table.new ≡ declared_in table.old }
    ensures related { OnOk result (HasRelated table.old table.new search.old search.new) }
{
    'pairs: for pair in pairs.iter() {
        if !has_marked(marks, *pair) {
            continue;
        }
        relate(search, table, *pair)?;
    }
    Ok(())
}

/// Gives a search at level 0 clauses between neighbouring bounds, of which one is of a term from this place on.
///
/// Where a number leaves 128 bits, no clause comes. `NoMemory` comes where memory ran out.
pub(crate) fn relate_bounds(
    search: &mut Search,
    table: &mut TermTable,
    from: usize,
) -> Result<(), NoMemory>
    requires ready { SearchFits table.old search.old }
    requires level { search.old.trail.level ≡ 0 }
    requires from { from ≤ length search.old.terms.items }
    ensures grown { Extends table.old table.new }
    ensures declared { declared_in table.new ≡ declared_in table.old }
    ensures related { OnOk result (HasRelated table.old table.new search.old search.new) }
{
    let pairs = neighbours_of(search.alloc, table, &search.atoms)?;
    let marks = marked(search.alloc, table, &search.terms[from..])?;
    relate_marked(search, table, &pairs, &marks)?;
    relate_cycles(search, table, &marks)
}
