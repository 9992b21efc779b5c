//! Which terms take part.

ghost use Rattle.std.specs.Prelude.{◌≡◌, not};
ghost use Rattle.spec_sorts.specs.Terms.{Truth, same_sort, terms_of, sort_of, second_sort};
ghost use Rattle.spec_equality.specs.Congruence.{takes_part};
ghost use Rattle.term_core.specs.Tables.{IsIn, AreIn, term_at, clause_at};

use term_core::{Head, Node, Sort, TermId, TermTable};

/// Tells whether a term has the sort Bool.
fn is_truth(table: &TermTable, id: TermId) -> bool
    requires { IsIn table.now id }
    ensures { result ≡ same_sort (sort_of (term_at table.now id)) Truth }
{
    table.sort(id) == Sort::Bool
}

/// Tells whether the second argument of a node has another sort than Bool. It has not where there is none.
fn has_elements(table: &TermTable, node: &Node) -> bool
    requires { AreIn table.now node.now.arguments.items }
    ensures { result ≡ not (same_sort (second_sort (terms_of (clause_at table.now node.now.arguments.items))) Truth) }
{
    let arguments = node.arguments.as_slice();
    if arguments.len() < 2 {
        return false;
    }
    !is_truth(table, arguments[1])
}

/// Tells whether a term takes part. It takes no memory.
pub(crate) fn takes_part(table: &TermTable, id: TermId) -> bool
    requires { IsIn table.now id }
    ensures { result ≡ takes_part (term_at table.now id) }
{
    let node = table.node(id);
    match node.head {
        Head::And => false,
        Head::Or => false,
        Head::Xor => false,
        Head::Implies => false,
        Head::Equal => has_elements(table, node),
        Head::Ite => has_elements(table, node),
        _ => true,
    }
}
