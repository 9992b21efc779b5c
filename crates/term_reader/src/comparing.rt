//! The sorts of terms, compared.

ghost use Rattle.std.specs.Prelude.{◌≡◌, map};
ghost use Rattle.spec_sorts.specs.Terms.{sort_of, all_same, same_sort, same_sorts};
ghost use Rattle.term_core.specs.Symbols.{HasSortIn, HaveSortsIn, sort_meant, sorts_meant};
ghost use Rattle.term_core.specs.Tables.{term_at, IsIn, AreIn, clause_at};

use term_core::{Sort, TermId, TermTable};

fn are_one(table: &TermTable, a: Sort, b: Sort) -> bool
    requires first { HasSortIn table.now.sorts a }
    requires second { HasSortIn table.now.sorts b }
    ensures { result ≡ same_sort (sort_meant table.now.sorts a) (sort_meant table.now.sorts b) }
{
    table.symbols().are_declared();
    a == b
}

/// Tells whether each term has that sort.
pub fn all_have(table: &TermTable, sort: Sort, ids: &[TermId]) -> bool
    requires sort { HasSortIn table.now.sorts sort }
    requires there { AreIn table.now ids.now }
    ensures { result ≡ all_same (sort_meant table.now.sorts sort) (map sort_of (clause_at table.now ids.now)) }
{
    'terms: for id in ids.iter() {
        if !are_one(table, sort, table.sort(*id)) {
            return false;
        }
    }
    true
}

/// Tells whether terms have these sorts, in their order.
pub fn have_sorts(table: &TermTable, sorts: &[Sort], ids: &[TermId]) -> bool
    requires sorts { HaveSortsIn table.now.sorts sorts.now }
    requires there { AreIn table.now ids.now }
    ensures { result ≡ same_sorts (sorts_meant table.now.sorts sorts.now) (map sort_of (clause_at table.now ids.now)) }
{
    if sorts.len() != ids.len() {
        return false;
    }
    'terms: for at in 0..ids.len() {
        if !are_one(table, sorts[at], table.sort(ids[at])) {
            return false;
        }
    }
    true
}

/// Tells whether two terms have one sort.
pub fn are_alike(table: &TermTable, a: TermId, b: TermId) -> bool
    requires first { IsIn table.now a }
    requires second { IsIn table.now b }
    ensures { result ≡ same_sort (sort_of (term_at table.now a)) (sort_of (term_at table.now b)) }
{
    are_one(table, table.sort(a), table.sort(b))
}
