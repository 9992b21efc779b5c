//! Equalities of shared terms, of which a search and its theories come to speak.

ghost use Rattle.std.specs.Prelude.{◌≡◌, List, IfErr, OnOk};
ghost use Rattle.spec_sorts.specs.Terms.{Term};
ghost use Rattle.term_core.specs.declared.ids.TermId.{TermId as Number};
ghost use Rattle.term_core.specs.Tables.{declared_in, Extends};
ghost use Rattle.search_loop.specs.Rounds.{KeepsLimit};
ghost use Rattle.search_loop.specs.Asking.{state};
ghost use Rattle.solve_core.specs.Answering.{IsStoppedBy};
ghost use Rattle.solve_core.specs.GoingOn.{HasRested, GoesOn};

use crate::bounding::relate_bounds;
use crate::equalities::equalities_of;
use clausify::ClauseStop;
use combined::Combined;
use proof_log::laws::logs_hold_in_grown_tables;
use sat_budget::Stop;
use search_loop::{Search, watch_all};
use term_core::{TermId, TermTable};

/// Lets a search that rests, and its theories, speak of the equalities of pairs of shared terms, of which it does not: it goes back to
/// level 0, where these come in with their orders and their clauses. So the search can go on, and of fewer pairs it does not speak.
///
/// `Memory` comes where memory ran out, and `Strained` where a number leaves 128 bits: one of a clause of an equality's orders, or of
/// a term that comes to be watched.
pub(crate) fn speak_of(
    search: &mut Search,
    table: &mut TermTable,
    theory: &mut Combined,
    pairs: &[(TermId, TermId)],
) -> Result<(), Stop>
    ghost asked: { List Term }
    requires rested { (shared : List Number)
        × HasRested asked shared (state table.old search.old) theory.old pairs.now }
    ensures grown { Extends table.old table.new }
    ensures declared { declared_in table.new ≡ declared_in table.old }
    ensures limit { OnOk result (KeepsLimit search.old.budget search.new.budget) }
    ensures goes_on { OnOk result ((shared : List Number)
        → HasRested asked shared (state table.old search.old) theory.old pairs.now
        → GoesOn asked shared (state table.old search.old) (state table.new search.new) theory.new) }
    ensures stopped { IfErr result (IsStoppedBy asked search.old.budget.limit (state table.new search.new)) }
{
    logs_hold_in_grown_tables();
    table.ids_are_unique();
    let equalities = equalities_of(search.alloc, table, pairs)?;
    search.rest(theory);
    let from = search.terms.len();
    match search.grow(table, &[], &equalities) {
        Ok(()) => {}
        Err(ClauseStop::Wide(wide)) => return Err(theory.simplex().stop_of(wide)),
        Err(ClauseStop::Memory) => return Err(Stop::Memory),
    }
    relate_bounds(search, table, from)?;
    table.ids_are_unique();
    watch_all(theory, table, &search.terms[from..])?;
    Ok(())
}
