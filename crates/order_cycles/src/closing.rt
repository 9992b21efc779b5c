//! What comes of one order more: the points that it makes lower.

use crate::order::Order;
use crate::points::{Point, Points};
use no_memory::NoMemory;
use std::alloc::Global;

/// Holds points that became lower one after the other, and how many steps are left.
#[derive(Drop)]
pub(crate) struct Lowering {
    /// The numbers of the points, with what was known of each before.
    lowered: Vec<(usize, Point)>,
    /// How many orders may be looked at.
    left: usize,
}

impl Lowering {
    /// Makes one in which no point became lower.
    pub(crate) fn new(alloc: Global, left: usize) -> Lowering {
        Lowering {
            lowered: Vec::new(alloc),
            left,
        }
    }

    /// Makes the lower point of an order lower, where the order does not hold, and tells whether it did.
    pub(crate) fn lower(
        &mut self,
        points: &mut Points,
        order: Order,
        place: usize,
    ) -> Result<bool, NoMemory> {
        let Some(value) = points.lowered(order) else {
            return Ok(false);
        };
        let Some(before) = points.points.get(order.lower) else {
            return Ok(false);
        };
        self.lowered.push((order.lower, *before))?;
        points.put(order.lower, value, Some(place));
        Ok(true)
    }

    /// Keeps each of the orders above a point, and tells whether this made the named point lower.
    fn lower_below(
        &mut self,
        points: &mut Points,
        orders: &[Order],
        point: usize,
        named: usize,
    ) -> Result<bool, NoMemory> {
        let mut next = points.last(point);
        'orders: for _ in 0..self.left {
            let Some(place) = next else {
                return Ok(false);
            };
            let Some(order) = orders.get(place) else {
                return Ok(false);
            };
            let order = *order;
            self.left = self.left.saturating_sub(1);
            if self.lower(points, order, place)? && order.lower == named {
                return Ok(true);
            }
            next = points.before(place);
        }
        Ok(false)
    }

    /// Lets each point that became lower make others lower, and tells whether the named point came to be among them.
    ///
    /// It ends where no steps are left. `NoMemory` comes where there is no memory for a point.
    pub(crate) fn reaches(
        &mut self,
        points: &mut Points,
        orders: &[Order],
        named: usize,
    ) -> Result<bool, NoMemory> {
        'points: for at in 0..usize::MAX {
            let Some((point, _)) = self.lowered.get(at) else {
                return Ok(false);
            };
            let point = *point;
            if self.lower_below(points, orders, point, named)? {
                return Ok(true);
            }
        }
        Ok(false)
    }

    /// Gives all points what they had before, the last one first.
    pub(crate) fn undo(&mut self, points: &mut Points) {
        'points: for _ in 0..self.lowered.len() {
            if let Some((at, point)) = self.lowered.pop() {
                points.restore(at, point);
            }
        }
    }
}
