//! Cycles among orders.

ghost use Rattle.std.specs.Prelude.{◌≡◌, ◌<◌, ◌≤◌, true, length, All, IfOk, OnOk};
ghost use Rattle.std.specs.List.{AllAdjacentBelow};
ghost use Rattle.order_cycles.specs.Cycles.{ArePlaces, Joins, IsCycle};

use crate::closing::Lowering;
use crate::order::Order;
use crate::points::Points;
use crate::settling::settle;
use crate::walking::{add_way, turning_point};
use no_memory::NoMemory;
use std::alloc::Global;

/// How many orders are looked at for each order and each point, after the sweeps.
const STEPS: usize = 8;

/// Tells whether this is the place of an order.
fn is_place(orders: &[Order], place: usize) -> bool
    ensures { (result ≡ true) → place < length orders.now }
{
    place < orders.len()
}

/// Tells whether these are places of orders.
fn are_places(orders: &[Order], places: &[usize]) -> bool
    ensures { (result ≡ true) → ArePlaces orders.now places.now }
{
    'places: for place in places.iter() {
        if !is_place(orders, *place) {
            return false;
        }
    }
    true
}

/// Tells whether the upper point of one order is the lower point of another one, by their places.
fn joins(orders: &[Order], first: usize, second: usize) -> bool
    ensures { (result ≡ true) → Joins orders.now first second }
{
    if first >= orders.len() {
        return false;
    }
    if second >= orders.len() {
        return false;
    }
    if orders[first].upper != orders[second].lower {
        return false;
    }
    true
}

/// Tells whether the upper point of each of these orders is the lower point of the next one.
fn are_joined(orders: &[Order], places: &[usize]) -> bool
    ensures { (result ≡ true) → AllAdjacentBelow (Joins orders.now) places.now (length places.now) }
{
    'places: for at in 1..places.len() {
        if !joins(orders, places[at - 1], places[at]) {
            return false;
        }
    }
    true
}

/// Tells whether orders at these places are a cycle.
fn is_cycle(orders: &[Order], places: &[usize]) -> bool
    ensures { (result ≡ true) → IsCycle orders.now places.now }
{
    if places.is_empty() {
        return false;
    }
    if !are_places(orders, places) {
        return false;
    }
    if !are_joined(orders, places) {
        return false;
    }
    joins(orders, places[places.len() - 1], places[0])
}

/// Puts the places last, where they are a cycle.
fn add_cycle(
    cycles: &mut Vec<Vec<usize>>,
    orders: &[Order],
    places: Vec<usize>,
) -> Result<(), NoMemory>
    requires { All (λ c. IsCycle orders.now c.items) cycles.old.items }
    ensures { OnOk result (All (λ c. IsCycle orders.now c.items) cycles.new.items) }
{
    if !is_cycle(orders, &places) {
        return Ok(());
    }
    cycles.push(places)?;
    Ok(())
}

/// Gives the places of the orders by which points led back to themselves; none where none did.
fn turn(alloc: Global, points: &Points, orders: &[Order]) -> Result<Vec<usize>, NoMemory> {
    let mut places = Vec::new(alloc);
    if let Some(point) = turning_point(alloc, points, orders)? {
        add_way(points, orders, point, point, &mut places)?;
    }
    Ok(places)
}

/// Gives the places of the orders of the cycle that an order closes, that order first; none where it closes none.
fn closed_by(
    alloc: Global,
    points: &mut Points,
    orders: &[Order],
    place: usize,
    lowering: &mut Lowering,
) -> Result<Vec<usize>, NoMemory> {
    let mut places = Vec::new(alloc);
    let Some(order) = orders.get(place) else {
        return Ok(places);
    };
    let order = *order;
    if !lowering.lower(points, order, place)? {
        return Ok(places);
    }
    if lowering.reaches(points, orders, order.upper)? {
        places.push(place)?;
        add_way(points, orders, order.upper, order.lower, &mut places)?;
    }
    lowering.undo(points);
    Ok(places)
}

/// Lists cycles among orders: the places of the orders of each, where each one's upper point is the lower point of the next one, and the
/// last one's that of the first.
///
/// The first `held` orders are taken together. If values of the points are found under which all of these hold, each of the others
/// is looked at alone with them, and that one comes first in its cycle. Else at most one cycle comes, of the first orders. Along a
/// cycle the numbers added have a sum below 0. No clause says so, nor that there is no cycle where none comes. Points are numbered
/// below `points`; an order of another one is passed over. The work goes in proportion to orders and points. `NoMemory` comes where
/// there is no memory.
pub fn cycles_of(
    alloc: Global,
    orders: &[Order],
    held: usize,
    points: usize,
) -> Result<Vec<Vec<usize>>, NoMemory>
    requires held { held ≤ length orders.now }
    ensures cycles { IfOk result (λ cycles. All (λ c. IsCycle orders.now c.items) cycles.items) }
{
    let mut cycles = Vec::new(alloc);
    let steps = STEPS.saturating_mul(orders.len().saturating_add(points));
    let mut points = Points::new(alloc, points, &orders[..held])?;
    if !settle(&mut points, &orders[..held]) {
        let places = turn(alloc, &points, orders)?;
        add_cycle(&mut cycles, orders, places)?;
        return Ok(cycles);
    }
    let mut lowering = Lowering::new(alloc, steps);
    'asked: for place in held..orders.len() {
        let places = closed_by(alloc, &mut points, orders, place, &mut lowering)?;
        add_cycle(&mut cycles, orders, places)?;
    }
    Ok(cycles)
}
