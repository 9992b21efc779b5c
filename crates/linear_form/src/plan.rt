//! Where each argument is, and where it is used for the last time.

ghost use Rattle.std.specs.Prelude.{◌≡◌, ◌<◌, ◌++◌, ◌∷◌, [], length, All, OnOk, IfOk, get_or};
ghost use Rattle.std.specs.List.{flat_map};
ghost use Rattle.term_core.specs.Tables.{IsIn};
ghost use Rattle.term_walks.specs.Orders.{numbers_of, In, Ascends};
ghost use Rattle.linear_form.specs.Walks.{needed_at, numbers_at, IsOrder, IsPlan, AreLast};

use crate::needed::{needed, order_of};
use no_memory::NoMemory;
use std::alloc::Global;
use term_core::{TermId, TermTable};

/// Holds the plan of a walk.
#[derive(Drop)]
pub struct WalkPlan {
    /// The numbers of the terms, arguments before their users.
    pub order: Vec<u64>,
    /// The places of the arguments of each in turn, and then that of the last term.
    pub uses: Vec<usize>,
    /// The last use of each place.
    pub last: Vec<usize>,
}

/// Finds a number's place.
fn place_of(order: &[u64], number: u64) -> usize
    requires ascends { Ascends order.now }
    requires there { In number order.now }
    ensures inside { result < length order.now }
    ensures same { get_or order.now result 0 ≡ number }
{
    match order.binary_search(&number) {
        Ok(place) => place,
        Err(_) => unreachable!(),
    }
}

/// Puts the places of numbers after those that are there.
fn add_places(order: &[u64], ids: &[TermId], uses: &mut Vec<usize>) -> Result<(), NoMemory>
    requires ascends { Ascends order.now }
    requires there { All (λ a. In a order.now) (numbers_of ids.now) }
    ensures same { OnOk result
        (numbers_at order.now uses.new.items ≡ numbers_at order.now uses.old.items ++ numbers_of ids.now) }
    ensures inside { OnOk result (All (λ j. j < length order.now) uses.old.items
        → All (λ j. j < length order.now) uses.new.items) }
{
    'ids: for at in 0..ids.len() {
        uses.push(place_of(order, ids[at].0))?;
    }
    Ok(())
}

/// Lists the places of all arguments, and then that of the term.
fn uses_of(
    alloc: Global,
    table: &TermTable,
    order: &[u64],
    id: TermId,
) -> Result<Vec<usize>, NoMemory>
    requires { IsOrder table.now id.0 order.now }
    ensures same { IfOk result (λ v.
        numbers_at order.now v.items ≡ flat_map (needed_at table.now) order.now ++ id.0 ∷ []) }
    ensures inside { IfOk result (λ v. All (λ j. j < length order.now) v.items) }
{
    let mut uses = Vec::new(alloc);
    'terms: for at in 0..order.len() {
        add_places(order, needed(table, TermId(order[at])), &mut uses)?;
    }
    uses.push(place_of(order, id.0))?;
    Ok(uses)
}

/// Lists the last use of each place.
fn last_uses(alloc: Global, uses: &[usize], places: usize) -> Result<Vec<usize>, NoMemory>
    requires { All (λ j. j < places) uses.now }
    ensures len { IfOk result (λ v. length v.items ≡ places) }
    ensures last { IfOk result (λ v. AreLast uses.now v.items) }
{
    let mut last = Vec::new(alloc);
    last.resize(places, 0)?;
    'uses: for tick in 0..uses.len() {
        last[uses[tick]] = tick;
    }
    Ok(last)
}

/// Plans the walk to a term.
pub fn plan_of(alloc: Global, table: &TermTable, id: TermId) -> Result<WalkPlan, NoMemory>
    requires { IsIn table.now id }
    ensures { IfOk result (λ p. IsPlan table.now id.0 p.order.items p.uses.items p.last.items) }
{
    let order = order_of(alloc, table, id)?;
    let uses = uses_of(alloc, table, order.as_slice(), id)?;
    let last = last_uses(alloc, uses.as_slice(), order.len())?;
    Ok(WalkPlan { order, uses, last })
}
