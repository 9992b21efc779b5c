//! Ways back along the orders that made points lower.

use crate::order::Order;
use crate::points::Points;
use no_memory::NoMemory;
use std::alloc::Global;

/// Gives the place of the order that made a point lower last, and the upper point of that order.
fn lead_of(points: &Points, orders: &[Order], point: usize) -> Option<(usize, usize)> {
    let Some(found) = points.points.get(point) else {
        return None;
    };
    let Some(place) = found.lead else {
        return None;
    };
    let Some(order) = orders.get(place) else {
        return None;
    };
    Some((place, order.upper))
}

/// Walks from a point, marks the points on the way by its number, and gives one that had this mark already.
fn walk(
    points: &Points,
    orders: &[Order],
    marks: &mut [Option<usize>],
    from: usize,
) -> Option<usize> {
    let mut at = from;
    'steps: for _ in 0..marks.len() + 1 {
        if at >= marks.len() {
            return None;
        }
        if let Some(mark) = marks[at] {
            return if mark == from { Some(at) } else { None };
        }
        marks[at] = Some(from);
        let Some((_, upper)) = lead_of(points, orders, at) else {
            return None;
        };
        at = upper;
    }
    None
}

/// Finds a point from which the way leads back to it; nothing where there is none.
///
/// Each point is marked once. `NoMemory` comes where there is no memory for the marks.
pub(crate) fn turning_point(
    alloc: Global,
    points: &Points,
    orders: &[Order],
) -> Result<Option<usize>, NoMemory> {
    let count = points.points.len();
    let mut marks = vec![in alloc; None; count]?;
    'points: for from in 0..count {
        if let Some(found) = walk(points, orders, &mut marks, from) {
            return Ok(Some(found));
        }
    }
    Ok(None)
}

/// Puts the places of the orders last that lead from a point to another one, of one step at least.
///
/// Where the way does not lead there, those on it are put. `NoMemory` comes where there is no memory for a place.
pub(crate) fn add_way(
    points: &Points,
    orders: &[Order],
    from: usize,
    to: usize,
    places: &mut Vec<usize>,
) -> Result<(), NoMemory> {
    let mut at = from;
    'steps: for _ in 0..points.points.len() {
        let Some((place, upper)) = lead_of(points, orders, at) else {
            return Ok(());
        };
        places.push(place)?;
        if upper == to {
            return Ok(());
        }
        at = upper;
    }
    Ok(())
}
