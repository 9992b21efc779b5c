//! Orders between points.

use delta_num::Delta;

/// Says that the number at a point is at most that at another, plus a number.
///
/// Where it is below that, the number added has a part of epsilon that is below 0.
#[derive(Clone, Copy, Debug, PartialEq, Eq)]
pub struct Order {
    /// The number of the point that is not above, from 0.
    pub lower: usize,
    /// The number of the point that it is compared with.
    pub upper: usize,
    /// What is added to that.
    pub most: Delta,
}
