//! Equalities of numbers, by their sides, and the orders of these.

ghost use Rattle.std.specs.Prelude.{◌≡◌, ◌≢◌, IfOk, MatchBool, MatchOption};
ghost use Rattle.spec_sorts.specs.Terms.{Number, negated, sort_of};
ghost use Rattle.spec_derivations.specs.Orders.{order_fact};
ghost use Rattle.term_core.specs.Tables.{term_at, IsIn};
ghost use Rattle.proof_log.specs.Theories.{IsTermIn};
ghost use Rattle.term_clauses.specs.Stating.{Widens, NamesTerm};
ghost use Rattle.clausify.specs.Orders.{IsNumberIn, order_at, HasNoOrders, AreSidesOf};

use no_memory::NoMemory;
use std::alloc::Global;
use term_clauses::signs::signed;
use term_core::{Head, Node, Sort, TermId, TermTable};

/// Names the sides of an equality of numbers.
#[derive(Clone, Copy)]
pub(crate) struct Sides {
    /// The one.
    pub(crate) left: TermId,
    /// And the other.
    pub(crate) right: TermId,
}

/// Gives the sides of an equality of numbers; `None` where the term is none.
pub(crate) fn sides_of(table: &TermTable, id: TermId) -> Option<Sides>
    requires { IsTermIn table.now id }
    ensures { MatchOption result (HasNoOrders (term_at table.now id))
        (λ x. AreSidesOf table.now (term_at table.now id) x) }
{
    let node = table.node(id);
    let arguments = node.arguments.as_slice();
    match node.head {
        Head::Equal => {
            let (left, right) = (arguments[0], arguments[1]);
            if is_number(table, left) {
                return Some(Sides { left, right });
            }
            None
        }
        _ => None,
    }
}

/// Tells whether a term has the sort Real.
fn is_number(table: &TermTable, id: TermId) -> bool
    requires { IsIn table.now id }
    ensures { MatchBool result (sort_of (term_at table.now id) ≡ Number) (sort_of (term_at table.now id) ≢ Number) }
{
    table.sort(id) == Sort::Real
}

/// Puts that one number is at most another, or finds it.
pub(crate) fn at_most(
    alloc: Global,
    table: &mut TermTable,
    a: TermId,
    b: TermId,
) -> Result<TermId, NoMemory>
    requires left { IsNumberIn table.old a }
    requires right { IsNumberIn table.old b }
    ensures wider { Widens table.old table.new }
    ensures means { IfOk result (NamesTerm table.new (order_at table.old a b)) }
{
    let node = Node::new(alloc, Head::AtMost, &[a, b])?;
    table.put(node)
}

/// Puts that one number is not at most another, or finds it.
fn not_at_most(
    alloc: Global,
    table: &mut TermTable,
    a: TermId,
    b: TermId,
) -> Result<TermId, NoMemory>
    requires left { IsNumberIn table.old a }
    requires right { IsNumberIn table.old b }
    ensures wider { Widens table.old table.new }
    ensures means { IfOk result (NamesTerm table.new (negated (order_at table.old a b))) }
{
    let order = at_most(alloc, table, a, b)?;
    signed(alloc, table, order, false)
}

/// Puts that the sides of an equality are equal, or one of them is not at most the other; or finds it.
pub(crate) fn order_fact(
    alloc: Global,
    table: &mut TermTable,
    id: TermId,
    sides: Sides,
) -> Result<TermId, NoMemory>
    requires there { IsTermIn table.old id }
    requires sides { AreSidesOf table.old (term_at table.old id) sides }
    ensures wider { Widens table.old table.new }
    ensures means { IfOk result (NamesTerm table.new
        (order_fact (term_at table.old sides.left) (term_at table.old sides.right))) }
{
    let forth = not_at_most(alloc, table, sides.left, sides.right)?;
    let back = not_at_most(alloc, table, sides.right, sides.left)?;
    let node = Node::new(alloc, Head::Or, &[id, forth, back])?;
    table.put(node)
}
