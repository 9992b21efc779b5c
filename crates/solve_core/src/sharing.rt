//! The terms that functions and linear arithmetic share.

ghost use Rattle.std.specs.Prelude.{◌≡◌, ◌≢◌, List, IfOk, OnOk, MatchBool};
ghost use Rattle.spec_text.specs.Bytes.{Name};
ghost use Rattle.spec_sorts.specs.Terms.{Symbol, Number, sort_of};
ghost use Rattle.spec_sorts.specs.Subterms.{subterms_of};
ghost use Rattle.term_core.specs.Tables.{IsIn, AreIn, term_at, clause_at, head_over};
ghost use Rattle.solve_core.specs.Sharing.{is_declared, reals_in, shared_by, AddsSharedTerms, AreSharedOf};

use no_memory::NoMemory;
use std::alloc::Global;
use std::slice;
use term_clauses::marks::marks_of;
use term_core::{Head, Sort, TermId, TermTable};

/// Tells whether a term has the sort Real.
pub(crate) fn is_number(table: &TermTable, id: TermId) -> bool
    requires { IsIn table.now id }
    ensures { MatchBool result (sort_of (term_at table.now id) ≡ Number) (sort_of (term_at table.now id) ≢ Number) }
{
    table.sort(id) == Sort::Real
}

/// Lists the terms that functions and linear arithmetic share among the subterms of terms: the Real arguments of declared functions,
/// and the Real values of those that have parameters. A term is listed once for each application that shares it.
///
/// It takes time in proportion to the greatest number of the terms, and to the arguments of all their subterms. `NoMemory` comes where
/// marks or the list find no memory.
pub(crate) fn shared_terms(
    alloc: Global,
    table: &TermTable,
    roots: &[TermId],
) -> Result<Vec<TermId>, NoMemory>
    requires { AreIn table.now roots.now }
    ensures { IfOk result (λ ids. AreSharedOf table.now (subterms_of (clause_at table.now roots.now)) ids.items) }
{
    table.ids_are_unique();
    let marks = marks_of(alloc, table, roots)?;
    let mut ids = Vec::new(alloc);
    'marks: for number in 0..marks.len() {
        if !marks[number] {
            continue;
        }
        add_shared(table, TermId(number as u64), &mut ids)?;
    }
    Ok(ids)
}

/// Tells whether a head is a declared symbol.
pub(crate) fn is_declared(head: Head) -> bool
    ensures { (sorts : List Name) (symbols : List Symbol) → result ≡ is_declared (head_over sorts symbols head) }
{
    match head {
        Head::Apply(_) => true,
        _ => false,
    }
}

/// Adds what a term shares: an application of a declared function its Real arguments, and itself where it is Real and has arguments;
/// another term nothing.
fn add_shared(table: &TermTable, id: TermId, ids: &mut Vec<TermId>) -> Result<(), NoMemory>
    requires { IsIn table.now id }
    ensures { OnOk result (AddsSharedTerms table.now ids.old.items ids.new.items (shared_by (term_at table.now id))) }
{
    let node = table.node(id);
    if !is_declared(node.head) {
        return Ok(());
    }
    let arguments = node.arguments.as_slice();
    add_reals(table, arguments, ids)?;
    if arguments.is_empty() {
        return Ok(());
    }
    add_reals(table, slice::from_ref(&id), ids)?;
    Ok(())
}

/// Adds those of these terms that are Real.
fn add_reals(table: &TermTable, terms: &[TermId], ids: &mut Vec<TermId>) -> Result<(), NoMemory>
    requires { AreIn table.now terms.now }
    ensures { OnOk result (AddsSharedTerms table.now ids.old.items ids.new.items
        (reals_in (clause_at table.now terms.now))) }
{
    'terms: for id in terms.iter() {
        if !is_number(table, *id) {
            continue;
        }
        ids.push(*id)?;
    }
    Ok(())
}
