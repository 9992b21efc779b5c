//! The disjunctions among asserted terms and their conjuncts.

ghost use Rattle.std.specs.Prelude.{◌≡◌, ◌≤◌, ℕ, List, [], ◌∷◌, length, true, All, IfOk};
ghost use Rattle.spec_sorts.specs.Terms.{Term};
ghost use Rattle.term_core.specs.Tables.{AreIn, IsIn, clause_at};
ghost use Rattle.term_clauses.specs.Marks.{IsMarked};
ghost use Rattle.case_equalities.specs.Finding.{AreConjuncts, IsDisjunctionIn, IsConjunctIn, MarksOnly};

use no_memory::NoMemory;
use std::alloc::Global;
use term_core::{Head, TermId, TermTable};

/// Lists the disjunctions among terms and, through conjunctions, their conjuncts, each once, by rising numbers.
///
/// It takes time in proportion to the number of the table's terms, and to the arguments of the conjunctions. `NoMemory` comes where
/// memory ran out.
pub(crate) fn disjunctions_of(
    alloc: Global,
    table: &TermTable,
    roots: &[TermId],
) -> Result<Vec<TermId>, NoMemory>
    requires { AreIn table.now roots.now }
    ensures { IfOk result (λ ids. All (IsDisjunctionIn table.now (clause_at table.now roots.now)) ids.items) }
{
    let conjuncts = conjuncts_of(alloc, table, roots)?;
    let mut ids = Vec::new(alloc);
    'terms: for number in 0..conjuncts.len() {
        let id = TermId(number as u64);
        if !conjuncts[number] {
            continue;
        }
        if !is_disjunction(table, id) {
            continue;
        }
        ids.push(id)?;
    }
    Ok(ids)
}

/// Tells whether a term is a disjunction.
fn is_disjunction(table: &TermTable, id: TermId) -> bool
    requires { IsIn table.now id }
    ensures { (ts : List Term) → (result ≡ true) → IsConjunctIn table.now ts id → IsDisjunctionIn table.now ts id }
{
    match table.node(id).head {
        Head::Or => true,
        _ => false,
    }
}

/// Marks the numbers of terms and, through conjunctions, of their conjuncts.
fn conjuncts_of(alloc: Global, table: &TermTable, roots: &[TermId]) -> Result<Vec<bool>, NoMemory>
    requires { AreIn table.now roots.now }
    ensures { IfOk result (λ marks. AreConjuncts table.now (clause_at table.now roots.now) marks.items) }
{
    let mut marks = vec![in alloc; false; table.len() as usize]?;
    mark_conjuncts(table, roots, &mut marks);
    Ok(marks)
}

/// Marks terms and their conjuncts, where nothing is marked.
///
/// It goes from the greatest number down, since the arguments of a term have smaller numbers.
fn mark_conjuncts(table: &TermTable, roots: &[TermId], marks: &mut [bool])
    requires there { AreIn table.now roots.now }
    requires short { length marks.old ≤ length table.now.terms }
    requires none { (k : ℕ) → IsMarked marks.old k → ⊥ }
    ensures { AreConjuncts table.now (clause_at table.now roots.now) marks.new }
{
    mark_each(marks, roots);
    'terms: for number in (0..marks.len()).rev() {
        if marks[number] {
            mark_each(marks, conjuncts(table, TermId(number as u64)));
        }
    }
}

/// Lends the arguments of a conjunction; none of another term.
fn conjuncts(table: &TermTable, id: TermId) -> &[TermId]
    requires { IsIn table.now id }
    ensures { (ts : List Term) → IsConjunctIn table.now ts id → All (IsConjunctIn table.now ts) result.now }
{
    let node = table.node(id);
    match node.head {
        Head::And => node.arguments.as_slice(),
        _ => &[],
    }
}

/// Marks these numbers, but for those that have no mark.
fn mark_each(marks: &mut [bool], ids: &[TermId])
    ensures length { length marks.new ≡ length marks.old }
    ensures marks { MarksOnly marks.old ids.now marks.new }
{
    'ids: for id in ids.iter() {
        mark(marks, *id);
    }
}

/// Marks a number, where it has a mark.
fn mark(marks: &mut [bool], id: TermId)
    ensures length { length marks.new ≡ length marks.old }
    ensures marks { MarksOnly marks.old (id ∷ []) marks.new }
{
    let at = id.0 as usize;
    if at < marks.len() {
        marks[at] = true;
    }
}
