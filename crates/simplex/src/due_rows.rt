//! Rows that have variables of new bounds.

use crate::hints::Hint;
use no_memory::NoMemory;
use simplex_bounds::{Bound, Bounds, Side};
use std::alloc::Global;
use tableau::Tableau;

/// How often a row that implies nothing is tried.
const TRIES: u64 = 20;

/// After how many turns such a row is tried again.
const PERIOD: u64 = 120;

/// When a row was due last, and how often since it implied something.
#[derive(Clone, Copy, Debug, PartialEq, Eq)]
struct RowUse {
    turn: u64,
    times: u64,
}

/// Counts for each row how often it was due without implying something.
#[derive(Drop)]
pub(crate) struct DueRows {
    turn: u64,
    uses: Vec<RowUse>,
}

/// Tells whether a bound is the strongest of its side and variable.
fn is_strongest(bounds: &Bounds, bound: Bound) -> bool {
    let strongest = match bound.side {
        Side::Lower => bounds.lower(bound.variable),
        Side::Upper => bounds.upper(bound.variable),
    };
    match strongest {
        None => false,
        Some(other) => other.literal == bound.literal,
    }
}

impl DueRows {
    /// Counts nothing yet. It takes no memory.
    pub(crate) fn new(alloc: Global) -> DueRows {
        DueRows {
            turn: 0,
            uses: Vec::new(alloc),
        }
    }

    /// Tells whether a row is due: once in a turn, and only now and then where it implied nothing some times.
    fn is_due(&mut self, row: u64) -> bool {
        let Some(last) = self.uses.get(row as usize) else {
            return false;
        };
        if last.turn == self.turn {
            return false;
        }
        let times = last.times;
        self.uses[row as usize] = RowUse {
            turn: self.turn,
            times: if times < PERIOD { times + 1 } else { 0 },
        };
        times < TRIES
    }

    /// Lists a row where it is due.
    fn add(&mut self, row: u64, rows: &mut Vec<u64>) -> Result<(), NoMemory> {
        if self.is_due(row) {
            rows.push(row)?;
        }
        Ok(())
    }

    /// Notes that the rows of hints implied something.
    pub(crate) fn note_uses(&mut self, hints: &[Hint]) {
        'hints: for hint in hints {
            if hint.row < self.uses.len() as u64 {
                self.uses[hint.row as usize].times = 0;
            }
        }
    }

    /// Lists the rows that are due: those with the variable of a bound from a place on that is the strongest of its side. A turn begins.
    ///
    /// `NoMemory` comes where there is no memory.
    pub(crate) fn after(
        &mut self,
        alloc: Global,
        bounds: &Bounds,
        tableau: &Tableau,
        from: u64,
    ) -> Result<Vec<u64>, NoMemory> {
        self.turn = self.turn.wrapping_add(1);
        'new_rows: for _ in self.uses.len() as u64..tableau.rows_len() {
            self.uses.push(RowUse { turn: 0, times: 0 })?;
        }
        let mut rows = Vec::new(alloc);
        'bounds: for place in from..bounds.held_len() {
            let bound = bounds.held_at(place);
            if !is_strongest(bounds, bound) {
                continue;
            }
            if let Some(row) = tableau.row_of(bound.variable) {
                self.add(row, &mut rows)?;
                continue;
            }
            'column: for row in tableau.column(bound.variable) {
                self.add(*row, &mut rows)?;
            }
        }
        Ok(rows)
    }
}
