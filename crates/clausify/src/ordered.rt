//! The terms that a search over linear arithmetic speaks of: besides those of any search, the orders of its equalities
//! of numbers.

ghost use Rattle.std.specs.Prelude.{◌≤◌, [], length, flat_map, All, IfOk, OnOk};
ghost use Rattle.spec_sorts.specs.WellSorted.{IsWellSorted};
ghost use Rattle.spec_derivations.specs.Orders.{order_facts};
ghost use Rattle.term_core.specs.Tables.{term_at};
ghost use Rattle.proof_log.specs.Logs.{AreFormulasIn};
ghost use Rattle.proof_log.specs.Theories.{IsTermIn};
ghost use Rattle.term_clauses.specs.SpokenTerms.{problem_in, HasMore};
ghost use Rattle.term_clauses.specs.Stating.{Widens};
ghost use Rattle.term_clauses.specs.Marks.{marked};
ghost use Rattle.clausify.specs.Orders.{AreOrdered};

use crate::sides::{order_fact, sides_of};
use no_memory::NoMemory;
use std::alloc::Global;
use term_clauses::marks::marks_of;
use term_clauses::spoken::spoken_of;
use term_core::{TermId, TermTable};

/// Lists formulas, the interface equalities first, after them the equalities that a search needs, and last the order fact of
/// each equality of numbers among the subterms of all these. They come into the table.
pub(crate) fn ordered_of(
    alloc: Global,
    table: &mut TermTable,
    roots: &[TermId],
    interface: &[TermId],
) -> Result<Vec<TermId>, NoMemory>
    requires roots { AreFormulasIn table.old roots.now }
    requires interface { AreFormulasIn table.old interface.now }
    ensures wider { Widens table.old table.new }
    ensures ordered { IfOk result
        (λ ids. AreOrdered table.new (problem_in table.old roots.now interface.now) ids.items) }
{
    let mut ids = spoken_of(alloc, table, roots, interface)?;
    let marks = marks_of(alloc, table, &ids)?;
    add_facts(alloc, table, &marks, &mut ids)?;
    Ok(ids)
}

/// Adds the order facts of the equalities of numbers among the marked terms.
fn add_facts(
    alloc: Global,
    table: &mut TermTable,
    marks: &[bool],
    ids: &mut Vec<TermId>,
) -> Result<(), NoMemory>
    requires short { length marks.now ≤ length table.old.terms }
    requires sorted { All (IsWellSorted table.old.symbols []) (marked marks.now table.old.terms) }
    requires ids { AreFormulasIn table.old ids.old.items }
    ensures wider { Widens table.old table.new }
    ensures more { OnOk result (HasMore table.old table.new ids.old.items ids.new.items
        (flat_map order_facts (marked marks.now table.old.terms))) }
{
    'marks: for number in 0..marks.len() {
        if !marks[number] {
            continue;
        }
        add_fact(alloc, table, ids, TermId(number as u64))?;
    }
    Ok(())
}

/// Adds the order fact of an equality of numbers; other terms have none.
fn add_fact(
    alloc: Global,
    table: &mut TermTable,
    ids: &mut Vec<TermId>,
    id: TermId,
) -> Result<(), NoMemory>
    requires there { IsTermIn table.old id }
    requires ids { AreFormulasIn table.old ids.old.items }
    ensures wider { Widens table.old table.new }
    ensures more { OnOk result (HasMore table.old table.new ids.old.items ids.new.items
        (order_facts (term_at table.old id))) }
{
    let Some(sides) = sides_of(table, id) else {
        return Ok(());
    };
    let fact = order_fact(alloc, table, id, sides)?;
    ids.push(fact)?;
    Ok(())
}
