//! Values under which orders hold, by sweeps.

use crate::order::Order;
use crate::points::Points;

/// How many sweeps are made.
const SWEEPS: usize = 8;

/// Makes the lower point of an order lower, where the order does not hold, and tells whether it did.
fn keep(points: &mut Points, orders: &[Order], place: usize) -> bool {
    let Some(order) = orders.get(place) else {
        return false;
    };
    let order = *order;
    let Some(value) = points.lowered(order) else {
        return false;
    };
    points.put(order.lower, value, Some(place));
    true
}

/// Keeps each of the orders, the last one first or the first one, and tells whether a point became lower.
fn sweep(points: &mut Points, orders: &[Order], is_backward: bool) -> bool {
    let count = orders.len();
    let mut has_changed = false;
    'places: for at in 0..count {
        let place = if is_backward { count - 1 - at } else { at };
        if keep(points, orders, place) {
            has_changed = true;
        }
    }
    has_changed
}

/// Seeks values under which all orders hold, and tells whether it found them. Else a point that became lower last may be on a cycle.
pub(crate) fn settle(points: &mut Points, orders: &[Order]) -> bool {
    'sweeps: for at in 0..SWEEPS {
        if !sweep(points, orders, at % 2 == 0) {
            return true;
        }
    }
    false
}
