//! Points with values, and the orders above each.

use crate::order::Order;
use delta_num::Delta;
use no_memory::NoMemory;
use ratio128::Ratio;
use std::alloc::Global;
use std::cmp::Ordering;

/// Holds what is known of a point.
#[derive(Clone, Copy, Debug, PartialEq, Eq)]
pub(crate) struct Point {
    /// Its value.
    pub(crate) value: Delta,
    /// The place of the order that made it lower last.
    pub(crate) lead: Option<usize>,
    /// The place of the last order of which it is the upper point.
    pub(crate) last: Option<usize>,
}

/// Holds points, and of each order the one before it with the same upper point.
#[derive(Drop)]
pub(crate) struct Points {
    /// The points, by their numbers.
    pub(crate) points: Vec<Point>,
    /// By the place of an order, the place of the one before it with the same upper point.
    pub(crate) before: Vec<Option<usize>>,
}

impl Points {
    /// Makes so many points, each with the value 0, and lists the orders at their upper points.
    pub(crate) fn new(alloc: Global, count: usize, orders: &[Order]) -> Result<Points, NoMemory> {
        let point = Point {
            value: Delta::number(Ratio::of(0, 1)),
            lead: None,
            last: None,
        };
        let mut points = vec![in alloc; point; count]?;
        let mut before = Vec::new(alloc);
        'orders: for at in 0..orders.len() {
            let upper = orders[at].upper;
            if upper < points.len() {
                before.push(points[upper].last)?;
                points[upper].last = Some(at);
            } else {
                before.push(None)?;
            }
        }
        Ok(Points { points, before })
    }

    /// Gives the value of the lower point of an order that it makes lower; nothing where it holds, or where the value leaves 128 bits.
    pub(crate) fn lowered(&self, order: Order) -> Option<Delta> {
        let Some(lower) = self.points.get(order.lower) else {
            return None;
        };
        let Some(upper) = self.points.get(order.upper) else {
            return None;
        };
        let Ok(value) = Delta::add(upper.value, order.most) else {
            return None;
        };
        match Delta::cmp(value, lower.value) {
            Ordering::Less => Some(value),
            _ => None,
        }
    }

    /// Gives the place of the last of these orders of which a point is the upper one.
    pub(crate) fn last(&self, point: usize) -> Option<usize> {
        match self.points.get(point) {
            None => None,
            Some(found) => found.last,
        }
    }

    /// Gives the place of the order before one that has the same upper point.
    pub(crate) fn before(&self, place: usize) -> Option<usize> {
        match self.before.get(place) {
            None => None,
            Some(found) => *found,
        }
    }

    /// Gives a point a value, and the place of the order that led to it.
    pub(crate) fn put(&mut self, point: usize, value: Delta, lead: Option<usize>) {
        if point < self.points.len() {
            self.points[point].value = value;
            self.points[point].lead = lead;
        }
    }

    /// Makes a point what it was.
    pub(crate) fn restore(&mut self, point: usize, was: Point) {
        if point < self.points.len() {
            self.points[point] = was;
        }
    }
}
