//! Equalities of elements to which the cases of disjunctions lead, as facts of a search before it decides anything.

ghost use Rattle.std.specs.Prelude.{◌≡◌, [], List, map, All, IfOk, OnOk};
ghost use Rattle.spec_sorts.specs.Terms.{Term};
ghost use Rattle.spec_derivations.specs.Examples.{speaking};
ghost use Rattle.term_core.specs.declared.ids.TermId.{TermId as Number};
ghost use Rattle.term_core.specs.Tables.{declared_in, Extends, clause_at};
ghost use Rattle.proof_log.specs.Logs.{AreFormulasIn};
ghost use Rattle.case_equalities.specs.Leads.{IsCaseEquality};
ghost use Rattle.search_loop.specs.Search.{SearchFits};
ghost use Rattle.search_loop.specs.Rounds.{KeepsLimit};
ghost use Rattle.search_loop.specs.Asking.{state};
ghost use Rattle.search_loop.specs.Growing.{IsBegun};
ghost use Rattle.solve_core.specs.Beginning.{IsBegunFor, IsOverAtomsOf, IsStored};
ghost use Rattle.solve_core.specs.Relating.{HasRelated};

use case_equalities::{CaseEquality, equalities_of_cases};
use clausify::ClauseStop;
use no_memory::NoMemory;
use search_loop::Search;
use std::alloc::Global;
use term_core::{TermId, TermTable};

/// Lists the equalities, in their order.
fn terms_of(alloc: Global, found: &[CaseEquality]) -> Result<Vec<TermId>, NoMemory>
    ensures { IfOk result (λ ids. ids.items ≡ map (λ x. x.equality) found.now) }
{
    let mut ids = Vec::new(alloc);
    for x in found {
        ids.push(x.equality)?;
    }
    Ok(ids)
}

/// Puts the clauses by which equalities follow last in the store of a search at level 0, where they are over its atoms.
fn keep_all(search: &mut Search, table: &TermTable, found: &[CaseEquality]) -> Result<(), NoMemory>
    requires ready { SearchFits table.now search.old }
    requires level { search.old.trail.level ≡ 0 }
    requires found { (roots : List Number) × All (IsCaseEquality table.now search.old.log roots) found.now }
    requires atoms { All (IsOverAtomsOf search.old.atoms.items) found.now }
    ensures related { OnOk result (HasRelated table.now table.now search.old search.new) }
    ensures stored { OnOk result (All (IsStored table.now search.new) found.now) }
{
    table.ids_are_unique();
    'found: for x in found.iter() {
        search.keep(table, x.step)?;
    }
    Ok(())
}

/// Lets a search that begins speak of the equalities of elements to which the cases of its roots' disjunctions lead. Each is a fact: it
/// follows by unit propagation, so the search has it since level 0, and learns no clause that speaks of it.
///
/// `NoMemory` comes where memory ran out.
pub(crate) fn speak_of_cases(
    search: &mut Search,
    table: &mut TermTable,
    roots: &[TermId],
) -> Result<(), NoMemory>
    ghost asked: { List Term }
    requires asked { asked ≡ clause_at table.old roots.now }
    requires roots { AreFormulasIn table.old roots.now }
    requires begun { IsBegun table.old (speaking asked []) [] search.old }
    ensures grown { Extends table.old table.new }
    ensures declared { declared_in table.new ≡ declared_in table.old }
    ensures limit { OnOk result (KeepsLimit search.old.budget search.new.budget) }
    ensures begun { OnOk result (IsBegunFor asked (state table.new search.new)) }
{
    let found = equalities_of_cases(search.alloc, table, &mut search.log, roots)?;
    let equalities = terms_of(search.alloc, &found)?;
    match search.grow(table, &[], &equalities) {
        Ok(()) => {}
        // Equalities of elements have no orders, so this does not come. Where it did, the search would go on without them.
        Err(ClauseStop::Wide(_)) => return Ok(()),
        Err(ClauseStop::Memory) => return Err(NoMemory),
    }
    table.ids_are_unique();
    keep_all(search, table, &found)
}
