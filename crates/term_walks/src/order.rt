//! The numbers of a term and all its subterms, in order.

ghost use Rattle.std.specs.Prelude.{◌≡◌, ◌<◌, ℕ, List, length, get_or, IfOk, OnOk};
ghost use Rattle.term_core.specs.Tables.{IsIn};
ghost use Rattle.term_walks.specs.Orders.{numbers_of, In, Ascends, AddsNumbers, NamesArguments, IsOrder, IsAmongFirst};

use no_memory::NoMemory;
use std::alloc::Global;
use std::collections::BTreeSet;
use term_core::{TermId, TermTable};

/// Lists a term and all its subterms, each once, arguments before their users.
pub fn order_of(alloc: Global, table: &TermTable, root: TermId) -> Result<Vec<u64>, NoMemory>
    requires { IsIn table.now root }
    ensures { IfOk result (λ v. IsOrder table.now root.0 v.items) }
{
    let mut waiting = BTreeSet::new(alloc);
    let mut order = Vec::new(alloc);
    add_arguments(&mut waiting, table, root)?;
    order.push(root.0)?;
    let mut top = root.0;
    'terms: while let Some(number) = waiting.pop_last() {
        add_arguments(&mut waiting, table, TermId(number))?;
        order.push(number)?;
        top = number;
    }
    order.reverse();
    Ok(order)
}

/// Puts the arguments of a term among those that wait.
fn add_arguments(waiting: &mut BTreeSet<u64>, table: &TermTable, id: TermId) -> Result<(), NoMemory>
    requires { IsIn table.now id }
    ensures { OnOk result ((ids : List ℕ) × NamesArguments table.now id.0 ids
        × AddsNumbers waiting.old.keys ids waiting.new.keys) }
{
    add_all(waiting, table.node(id).arguments.as_slice())
}

/// Puts numbers among those that wait.
fn add_all(waiting: &mut BTreeSet<u64>, ids: &[TermId]) -> Result<(), NoMemory>
    ensures { OnOk result (AddsNumbers waiting.old.keys (numbers_of ids.now) waiting.new.keys) }
{
    'ids: for at in 0..ids.len() {
        waiting.insert(ids[at].0)?;
    }
    Ok(())
}

/// Finds the place of a number among the first `count`.
pub fn place_among(order: &[u64], number: u64, count: usize) -> usize
    requires ascends { Ascends order.now }
    requires there { IsAmongFirst order.now count number }
    ensures inside { result < count }
    ensures same { get_or order.now result 0 ≡ number }
{
    place_of(order, number)
}

/// Finds a number's place.
fn place_of(order: &[u64], number: u64) -> usize
    requires ascends { Ascends order.now }
    requires there { In number order.now }
    ensures inside { result < length order.now }
    ensures same { get_or order.now result 0 ≡ number }
{
    match order.binary_search(&number) {
        Ok(place) => place,
        Err(_) => unreachable!(),
    }
}
