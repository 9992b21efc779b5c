//! Clauses of cycles of orders, which come where a search begins or grows.
//!
//! By these a cycle of orders is refuted by its one clause, whatever its length. No answer depends on which clauses come. Each is a step by
//! the rule `la_generic`; no theory is asked.

ghost use Rattle.std.specs.Prelude.{◌≡◌, List, All, OnOk};
ghost use Rattle.spec_sorts.specs.Terms.{Term};
ghost use Rattle.term_core.specs.Tables.{declared_in, Extends, clause_at};
ghost use Rattle.search_loop.specs.Search.{SearchFits};
ghost use Rattle.bound_lemmas.specs.Cycles.{AreReasonsOf};
ghost use Rattle.solve_core.specs.Relating.{HasRelated};

use bound_lemmas::{Weighted, excluding_all, order_cycles_of};
use no_memory::NoMemory;
use search_loop::Search;
use term_core::{Lit, TermTable};

/// Notes the sign of a literal at the number of its term.
fn note(signs: &mut [Option<bool>], literal: Lit) {
    if (literal.term.0 as usize) < signs.len() {
        signs[literal.term.0 as usize] = Some(literal.positive);
    }
}

/// Notes the signs of the literals that hold, and of those that are clauses alone, by the numbers of their terms. No answer depends on
/// these signs.
fn held_signs(search: &Search, table: &TermTable) -> Result<Vec<Option<bool>>, NoMemory> {
    let mut signs = vec![in search.alloc; None; table.len() as usize]?;
    'clauses: for n in 0..search.store.len() {
        if let [literal] = search.store.clause(n) {
            note(&mut signs, *literal);
        }
    }
    'literals: for n in 0..search.trail.len() {
        note(&mut signs, search.trail.literal(n));
    }
    Ok(signs)
}

/// Gives a search the clause that not all of these literals hold, where the rule `la_generic` takes it with their weights.
///
/// `NoMemory` comes where memory ran out.
fn relate_cycle(
    search: &mut Search,
    table: &mut TermTable,
    reasons: &[Weighted],
) -> Result<(), NoMemory>
    ghost terms: { List Term }
    requires terms { terms ≡ clause_at table.old search.old.terms.items }
    requires ready { SearchFits table.old search.old }
    requires level { search.old.trail.level ≡ 0 }
    requires reasons { AreReasonsOf search.old.atoms.items reasons.now }
    ensures grown { Extends table.old table.new }
    ensures declared { declared_in table.new ≡ declared_in table.old }
    ensures related { OnOk result (HasRelated table.old table.new search.old search.new) }
{
    let Some(step) = excluding_all(search.alloc, table, &mut search.log, reasons)? else {
        return Ok(());
    };
    search.keep(table, step)
}

/// Gives a search the clauses of these cycles.
fn relate_each(
    search: &mut Search,
    table: &mut TermTable,
    cycles: &[Vec<Weighted>],
) -> Result<(), NoMemory>
    requires ready { SearchFits table.old search.old }
    requires level { search.old.trail.level ≡ 0 }
    requires reasons { All (λ rs. AreReasonsOf search.old.atoms.items rs.items) cycles.now }
    ensures grown { Extends table.old table.new }
    ensures declared { declared_in table.new ≡ declared_in table.old }
    ensures related { OnOk result (HasRelated table.old table.new search.old search.new) }
{
    'cycles: for cycle in cycles.iter() {
        relate_cycle(search, table, cycle)?;
    }
    Ok(())
}

/// Gives a search at level 0 clauses of cycles of orders, of which all but at most one hold, and that one is of a marked atom.
///
/// Where a number leaves 128 bits, no clause comes. `NoMemory` comes where memory ran out.
pub(crate) fn relate_cycles(
    search: &mut Search,
    table: &mut TermTable,
    marks: &[bool],
) -> Result<(), NoMemory>
    requires ready { SearchFits table.old search.old }
    requires level { search.old.trail.level ≡ 0 }
    ensures grown { Extends table.old table.new }
    ensures declared { declared_in table.new ≡ declared_in table.old }
    ensures related { OnOk result (HasRelated table.old table.new search.old search.new) }
{
    let signs = held_signs(search, table)?;
    let cycles = order_cycles_of(search.alloc, table, &search.atoms, &signs, marks)?;
    relate_each(search, table, &cycles)
}
