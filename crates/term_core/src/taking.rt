//! Whether a head takes arguments, by their number and sorts.

ghost use Rattle.std.specs.Prelude.{◌≡◌, MatchBool, map};
ghost use Rattle.spec_sorts.specs.Terms.{Equal, Ite, sort_of, all_same, same_sort, same_sorts};
ghost use Rattle.term_core.specs.Symbols.{HasSortIn, HaveSortsIn, sort_meant, sorts_meant};
ghost use Rattle.term_core.specs.Tables.{term_at, IsIn, AreIn, HasHead, head_meant, clause_at, takes};

use crate::ids::TermId;
use crate::nodes::Head;
use crate::sorts::Sort;
use crate::terms::TermTable;

/// Tells whether the symbol of a head, or the sort of a parameter, is there.
pub(crate) fn has_head(table: &TermTable, head: Head) -> bool
    ensures { MatchBool result (HasHead table.now head) (HasHead table.now head → ⊥) }
{
    match head {
        Head::Apply(symbol) => symbol.0 < table.symbols().len(),
        Head::Parameter(_, sort) => table.symbols().has_sort(sort),
        _ => true,
    }
}

/// Tells whether a head takes arguments of the sorts of these.
///
/// Source: SMT-LIB 2.6, section 5.2, theories Core and Reals.
pub(crate) fn takes_arguments(table: &TermTable, head: Head, ids: &[TermId]) -> bool
    requires head { HasHead table.now head }
    requires there { AreIn table.now ids.now }
    ensures { result ≡ takes (head_meant table.now head) (map sort_of (clause_at table.now ids.now)) }
{
    match head {
        Head::True | Head::False | Head::Literal(_) | Head::Parameter(_, _) => ids.is_empty(),
        Head::Not => ids.len() == 1 && all_have(table, Sort::Bool, ids),
        Head::And | Head::Or => !ids.is_empty() && all_have(table, Sort::Bool, ids),
        Head::Xor | Head::Implies => ids.len() == 2 && all_have(table, Sort::Bool, ids),
        Head::Equal => are_pair(table, ids),
        Head::Ite => are_choice(table, ids),
        Head::Minus => (ids.len() == 1 || ids.len() == 2) && all_have(table, Sort::Real, ids),
        Head::Plus | Head::Times => !ids.is_empty() && all_have(table, Sort::Real, ids),
        Head::Divide | Head::Less | Head::AtMost => ids.len() == 2
            && all_have(table, Sort::Real, ids),
        Head::Apply(symbol) => have_sorts(table, table.symbols().parameters(symbol), ids),
    }
}

/// Tells whether two sorts are one.
fn are_one(table: &TermTable, a: Sort, b: Sort) -> bool
    requires first { HasSortIn table.now.sorts a }
    requires second { HasSortIn table.now.sorts b }
    ensures { result ≡ same_sort (sort_meant table.now.sorts a) (sort_meant table.now.sorts b) }
{
    table.symbols().are_declared();
    a == b
}

/// Tells whether each term has that sort.
fn all_have(table: &TermTable, sort: Sort, ids: &[TermId]) -> bool
    requires sort { HasSortIn table.now.sorts sort }
    requires there { AreIn table.now ids.now }
    ensures { result ≡ all_same (sort_meant table.now.sorts sort) (map sort_of (clause_at table.now ids.now)) }
{
    'terms: for id in ids.iter() {
        if !are_one(table, sort, table.sort(*id)) {
            return false;
        }
    }
    true
}

/// Tells whether terms have these sorts, in their order.
fn have_sorts(table: &TermTable, sorts: &[Sort], ids: &[TermId]) -> bool
    requires sorts { HaveSortsIn table.now.sorts sorts.now }
    requires there { AreIn table.now ids.now }
    ensures { result ≡ same_sorts (sorts_meant table.now.sorts sorts.now) (map sort_of (clause_at table.now ids.now)) }
{
    if sorts.len() != ids.len() {
        return false;
    }
    'terms: for at in 0..ids.len() {
        if !are_one(table, sorts[at], table.sort(ids[at])) {
            return false;
        }
    }
    true
}

/// Tells whether two terms have one sort.
fn are_alike(table: &TermTable, a: TermId, b: TermId) -> bool
    requires first { IsIn table.now a }
    requires second { IsIn table.now b }
    ensures { result ≡ same_sort (sort_of (term_at table.now a)) (sort_of (term_at table.now b)) }
{
    are_one(table, table.sort(a), table.sort(b))
}

/// Tells whether there are two terms, of one sort.
fn are_pair(table: &TermTable, ids: &[TermId]) -> bool
    requires { AreIn table.now ids.now }
    ensures { result ≡ takes Equal (map sort_of (clause_at table.now ids.now)) }
{
    match ids {
        [a, b] => are_alike(table, *a, *b),
        _ => false,
    }
}

/// Tells whether there are three terms, the first of sort Bool, and the others of one sort.
fn are_choice(table: &TermTable, ids: &[TermId]) -> bool
    requires { AreIn table.now ids.now }
    ensures { result ≡ takes Ite (map sort_of (clause_at table.now ids.now)) }
{
    match ids {
        [c, a, b] => table.sort(*c) == Sort::Bool && are_alike(table, *a, *b),
        _ => false,
    }
}
