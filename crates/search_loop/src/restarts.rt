//! When a search begins again from level 0.

ghost use Rattle.std.specs.Prelude.{◌≤◌};

/// How many conflicts the shortest run from level 0 has.
const SHORTEST_RUN: u64 = 256;

/// Counts conflicts up to the next restart.
///
/// The runs between restarts are 256 times as long as the numbers 1, 1, 2, 1, 1, 2, 4 and so on say. Nothing depends on it but time.
/// Source: Luby, Sinclair and Zuckerman 1993, for the sequence; Knuth, The Art of Computer Programming, 4B, 7.2.2.2, for its steps.
#[derive(Drop)]
pub struct Restarts {
    /// How many numbers were followed by 1, counted from 1. The next is 1 where the greatest power of two that divides this is reached.
    count: u64,
    /// The number of the sequence for this run.
    number: u64,
    /// How many conflicts are left in this run.
    left: u64,
}

impl Restarts {
    /// Begins the first run.
    pub fn new() -> Restarts {
        Restarts {
            count: 1,
            number: 1,
            left: SHORTEST_RUN,
        }
    }

    /// Begins the next run.
    fn advance(&mut self) {
        if self.count & self.count.wrapping_neg() == self.number {
            self.count = self.count.wrapping_add(1);
            self.number = 1;
        } else {
            self.number = self.number.wrapping_mul(2);
        }
        self.left = self.number.saturating_mul(SHORTEST_RUN);
    }

    /// Counts a conflict, and gives the level to go back to: this one, or 0 where a run ends.
    pub fn level_after(&mut self, level: u64) -> u64
        ensures { result ≤ level }
    {
        self.left = self.left.saturating_sub(1);
        if self.left > 0 {
            return level;
        }
        self.advance();
        0
    }
}
