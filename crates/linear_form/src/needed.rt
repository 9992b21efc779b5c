//! The numbers of the terms of which a term's form is made, in order.

ghost use Rattle.std.specs.Prelude.{◌≡◌, ◌<◌, All, IfOk, OnOk};
ghost use Rattle.term_core.specs.Tables.{IsIn};
ghost use Rattle.term_walks.specs.Orders.{numbers_of, AddsNumbers};
ghost use Rattle.linear_form.specs.Walks.{needed_by, needed_at, IsOrder};

use no_memory::NoMemory;
use std::alloc::Global;
use std::collections::BTreeSet;
use term_core::{Head, Node, TermId, TermTable};

/// Lends the arguments of which a term's form is made: those of an arithmetic head.
pub fn needed(table: &TermTable, id: TermId) -> &[TermId]
    requires there { IsIn table.now id }
    ensures same { numbers_of result.now ≡ needed_at table.now id.0 }
    ensures before { All (λ a. a < id.0) (needed_at table.now id.0) }
{
    table.ids_are_unique();
    needed_by(table.node(id))
}

/// Lends the arguments of an arithmetic head, and none of another.
fn needed_by(node: &Node) -> &[TermId]
    ensures { result.now ≡ needed_by node.now.head node.now.arguments.items }
{
    match node.head {
        Head::Plus => node.arguments.as_slice(),
        Head::Times => node.arguments.as_slice(),
        Head::Minus => node.arguments.as_slice(),
        Head::Divide => node.arguments.as_slice(),
        _ => &[],
    }
}

/// Lists a term and all of which its form is made, each once, arguments before their users.
pub fn order_of(alloc: Global, table: &TermTable, id: TermId) -> Result<Vec<u64>, NoMemory>
    requires { IsIn table.now id }
    ensures { IfOk result (λ v. IsOrder table.now id.0 v.items) }
{
    let mut waiting = BTreeSet::new(alloc);
    let mut order = Vec::new(alloc);
    add_all(&mut waiting, needed(table, id))?;
    order.push(id.0)?;
    let mut top = id.0;
    'terms: while let Some(number) = waiting.pop_last() {
        add_all(&mut waiting, needed(table, TermId(number)))?;
        order.push(number)?;
        top = number;
    }
    order.reverse();
    Ok(order)
}

/// Puts numbers among those that wait.
fn add_all(waiting: &mut BTreeSet<u64>, ids: &[TermId]) -> Result<(), NoMemory>
    ensures { OnOk result (AddsNumbers waiting.old.keys (numbers_of ids.now) waiting.new.keys) }
{
    'ids: for at in 0..ids.len() {
        waiting.insert(ids[at].0)?;
    }
    Ok(())
}
