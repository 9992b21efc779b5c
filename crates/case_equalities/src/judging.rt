//! Whether what a lead names is among marked terms.

ghost use Rattle.std.specs.Prelude.{◌≡◌, true, All};
ghost use Rattle.case_equalities.specs.Finding.{IsMarkedIn, IsMarkedFormula, IsMarkedChain, AreMarkedElements, IsMarkedLead};

use crate::lead::{Chain, Lead};
use term_core::{Sort, TermId, TermTable};

/// Tells whether all that a lead names is marked: the disjunction and the chains of formulas, and two elements of one declared sort.
///
/// It takes time in proportion to the chains, and no memory.
pub(crate) fn is_marked_lead(table: &TermTable, marks: &[bool], lead: &Lead) -> bool
    ensures { (result ≡ true) → IsMarkedLead table.now marks.now lead.now }
{
    if !is_marked_formula(table, marks, lead.disjunction) {
        return false;
    }
    if !are_marked_elements(table, marks, lead.left, lead.right) {
        return false;
    }
    are_marked_chains(table, marks, &lead.chains)
}

/// Tells whether a number is one of the table's and marked.
fn is_marked(table: &TermTable, marks: &[bool], id: TermId) -> bool
    ensures { (result ≡ true) → IsMarkedIn table.now marks.now id }
{
    let at = id.0 as usize;
    if id.0 >= table.len() {
        return false;
    }
    if at >= marks.len() {
        return false;
    }
    marks[at]
}

/// Tells whether a number is that of a marked formula.
fn is_marked_formula(table: &TermTable, marks: &[bool], id: TermId) -> bool
    ensures { (result ≡ true) → IsMarkedFormula table.now marks.now id }
{
    if !is_marked(table, marks, id) {
        return false;
    }
    table.sort(id) == Sort::Bool
}

/// Tells whether two numbers are those of marked elements of one declared sort.
fn are_marked_elements(table: &TermTable, marks: &[bool], left: TermId, right: TermId) -> bool
    ensures { (result ≡ true) → AreMarkedElements table.now marks.now left right }
{
    if !is_marked(table, marks, left) {
        return false;
    }
    if !is_marked(table, marks, right) {
        return false;
    }
    match (table.sort(left), table.sort(right)) {
        (Sort::Declared(sort), Sort::Declared(other)) => sort == other,
        _ => false,
    }
}

/// Tells whether all that chains name are marked formulas.
fn are_marked_chains(table: &TermTable, marks: &[bool], chains: &[Chain]) -> bool
    ensures { (result ≡ true) → All (IsMarkedChain table.now marks.now) chains.now }
{
    'chains: for chain in chains.iter() {
        if !is_marked_chain(table, marks, chain) {
            return false;
        }
    }
    true
}

/// Tells whether all that a chain names are marked formulas.
fn is_marked_chain(table: &TermTable, marks: &[bool], chain: &Chain) -> bool
    ensures { (result ≡ true) → IsMarkedChain table.now marks.now chain.now }
{
    if !is_marked_formula(table, marks, chain.case) {
        return false;
    }
    are_marked_formulas(table, marks, &chain.equalities)
}

/// Tells whether numbers are those of marked formulas.
fn are_marked_formulas(table: &TermTable, marks: &[bool], ids: &[TermId]) -> bool
    ensures { (result ≡ true) → All (IsMarkedFormula table.now marks.now) ids.now }
{
    'ids: for id in ids.iter() {
        if !is_marked_formula(table, marks, *id) {
            return false;
        }
    }
    true
}
