//! The terms of which a search speaks, with their subterms: those of a check and the interface equalities, and equalities that
//! it needs.

ghost use Rattle.std.specs.Prelude.{◌≤◌, [], ◌∷◌, length, flat_map, All, IfOk, OnOk};
ghost use Rattle.spec_sorts.specs.WellSorted.{IsWellSorted};
ghost use Rattle.spec_derivations.specs.Base.{truth_facts, branch_equalities};
ghost use Rattle.term_core.specs.Tables.{term_at};
ghost use Rattle.proof_log.specs.Logs.{AreFormulasIn};
ghost use Rattle.proof_log.specs.Theories.{IsTermIn};
ghost use Rattle.term_clauses.specs.SpokenTerms.{problem_in, AreSpoken, HasMore};
ghost use Rattle.term_clauses.specs.Stating.{Widens, NamesTerm};
ghost use Rattle.term_clauses.specs.Marks.{marked};
ghost use Rattle.term_clauses.specs.Choices.{AreComparable, equality_at, truth_term, truth_fact};

use crate::choices::{choice_of, equality};
use crate::marks::marks_of;
use crate::signs::signed;
use no_memory::NoMemory;
use std::alloc::Global;
use term_core::{Head, Node, TermId, TermTable};

/// Lists formulas, the interface equalities first, and after them the equalities that a search needs: those of each choice
/// between terms of another sort than Bool, among the formulas' subterms, with its two terms, and that the negation of
/// each truth value is the other. They come into the table.
pub fn spoken_of(
    alloc: Global,
    table: &mut TermTable,
    roots: &[TermId],
    interface: &[TermId],
) -> Result<Vec<TermId>, NoMemory>
    requires roots { AreFormulasIn table.old roots.now }
    requires interface { AreFormulasIn table.old interface.now }
    ensures wider { Widens table.old table.new }
    ensures spoken { IfOk result (λ ids. AreSpoken table.new (problem_in table.old roots.now interface.now) ids.items) }
{
    let mut ids = Vec::from_slice(alloc, interface)?;
    ids.extend_from_slice(roots)?;
    let marks = marks_of(alloc, table, &ids)?;
    add_branches(alloc, table, &marks, &mut ids)?;
    add_truth_facts(alloc, table, &mut ids)?;
    Ok(ids)
}

/// Adds that the negation of a truth value is the other, of both values.
fn add_truth_facts(
    alloc: Global,
    table: &mut TermTable,
    ids: &mut Vec<TermId>,
) -> Result<(), NoMemory>
    requires { AreFormulasIn table.old ids.old.items }
    ensures wider { Widens table.old table.new }
    ensures more { OnOk result (HasMore table.old table.new ids.old.items ids.new.items truth_facts) }
{
    add_truth_fact(alloc, table, ids, true)?;
    add_truth_fact(alloc, table, ids, false)
}

/// Adds that the negation of a truth value is the other.
fn add_truth_fact(
    alloc: Global,
    table: &mut TermTable,
    ids: &mut Vec<TermId>,
    value: bool,
) -> Result<(), NoMemory>
    requires { AreFormulasIn table.old ids.old.items }
    ensures wider { Widens table.old table.new }
    ensures more { OnOk result (HasMore table.old table.new ids.old.items ids.new.items (truth_fact value ∷ [])) }
{
    let this = truth(alloc, table, value)?;
    let other = truth(alloc, table, !value)?;
    let denied = signed(alloc, table, this, false)?;
    add_equality(alloc, table, ids, denied, other)
}

/// Puts the term of a truth value, or finds it.
fn truth(alloc: Global, table: &mut TermTable, value: bool) -> Result<TermId, NoMemory>
    ensures wider { Widens table.old table.new }
    ensures means { IfOk result (NamesTerm table.new (truth_term value)) }
{
    let head = if value { Head::True } else { Head::False };
    let node = Node::new(alloc, head, &[])?;
    table.put(node)
}

/// Adds the equalities of the choices among the marked terms.
fn add_branches(
    alloc: Global,
    table: &mut TermTable,
    marks: &[bool],
    ids: &mut Vec<TermId>,
) -> Result<(), NoMemory>
    requires short { length marks.now ≤ length table.old.terms }
    requires sorted { All (IsWellSorted table.old.symbols []) (marked marks.now table.old.terms) }
    requires ids { AreFormulasIn table.old ids.old.items }
    ensures wider { Widens table.old table.new }
    ensures more { OnOk result (HasMore table.old table.new ids.old.items ids.new.items
        (flat_map branch_equalities (marked marks.now table.old.terms))) }
{
    'marks: for number in 0..marks.len() {
        if !marks[number] {
            continue;
        }
        add_equalities(alloc, table, ids, TermId(number as u64))?;
    }
    Ok(())
}

/// Adds the two equalities of a choice between terms of another sort than Bool; other terms have none.
fn add_equalities(
    alloc: Global,
    table: &mut TermTable,
    ids: &mut Vec<TermId>,
    id: TermId,
) -> Result<(), NoMemory>
    requires there { IsTermIn table.old id }
    requires ids { AreFormulasIn table.old ids.old.items }
    ensures wider { Widens table.old table.new }
    ensures more { OnOk result (HasMore table.old table.new ids.old.items ids.new.items
        (branch_equalities (term_at table.old id))) }
{
    let Some(choice) = choice_of(table, id) else {
        return Ok(());
    };
    add_equality(alloc, table, ids, id, choice.first)?;
    add_equality(alloc, table, ids, id, choice.second)
}

/// Adds the equality of two terms of one sort.
fn add_equality(
    alloc: Global,
    table: &mut TermTable,
    ids: &mut Vec<TermId>,
    a: TermId,
    b: TermId,
) -> Result<(), NoMemory>
    requires sides { AreComparable table.old a b }
    requires ids { AreFormulasIn table.old ids.old.items }
    ensures wider { Widens table.old table.new }
    ensures more { OnOk result (HasMore table.old table.new ids.old.items ids.new.items
        (equality_at table.old a b ∷ [])) }
{
    let equal = equality(alloc, table, a, b)?;
    ids.push(equal)?;
    Ok(())
}
