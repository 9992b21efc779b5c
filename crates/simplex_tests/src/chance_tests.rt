//! Rows and bounds by chance, with marks and going back, checked by simplex and by an elimination of variables.

use crate::checked::{Tally, add_to, check_counted, hold};
use crate::elimination::Form;
use crate::known::{Known, Limit, Part, Sum, bound_of, entry_of};
use simplex_bounds::Bounds;
use simplex_check::RealAssignment;
use std::alloc::Global;
use std::test::Fail;

/// How many cases there are.
const CASES: u64 = 2_000;

/// How many rows a case has at most.
const ROWS: u64 = 3;

/// Holds a case: its assignment, the bounds, and what it has stated.
#[derive(Drop)]
struct Case {
    assignment: RealAssignment,
    bounds: Bounds,
    known: Known,
}

/// Gives the next number of a sequence that looks random.
fn next_number(number: &mut u64) -> u64 {
    *number = number
        .wrapping_mul(6_364_136_223_846_793_005)
        .wrapping_add(1_442_695_040_888_963_407);
    *number >> 33
}

/// Gives a number from `-most` to `most`.
fn about_zero(seed: &mut u64, most: u32) -> i64 {
    let sides = u64::from(most) * 2 + 1;
    (next_number(seed) % sides) as i64 - i64::from(most)
}

/// Makes a part by chance.
fn some_part(seed: &mut u64, variables: u64) -> Part {
    Part {
        variable: next_number(seed) % variables.max(1),
        times: about_zero(seed, 3),
    }
}

/// Makes a row by chance.
fn some_sum(seed: &mut u64, variables: u64) -> Sum {
    Sum {
        variable: variables,
        parts: [
            some_part(seed, variables),
            some_part(seed, variables),
            some_part(seed, variables),
        ],
    }
}

/// Gives a variable by chance. Half of the time it is one of the last three, which are rows for the most part.
fn some_variable(seed: &mut u64, variables: u64) -> u64 {
    let number = next_number(seed);
    if number % 2 == 0 {
        variables.saturating_sub(1 + (number >> 1) % 3)
    } else {
        (number >> 1) % variables.max(1)
    }
}

/// Makes a bound by chance, a lower one from -8 to 4 or an upper one from -4 to 8. One in three is strict.
fn some_limit(seed: &mut u64, variables: u64) -> Limit {
    let lower = next_number(seed) % 2 == 0;
    let middle = if lower { -4 } else { 4 };
    Limit {
        variable: some_variable(seed, variables),
        lower,
        twice: about_zero(seed, 12).wrapping_add(middle),
        strict: next_number(seed) % 3 == 0,
    }
}

/// Gives the form of one of the first variables.
fn unit(n: u64) -> Form {
    match n {
        0 => [1, 0, 0, 0],
        1 => [0, 1, 0, 0],
        2 => [0, 0, 1, 0],
        _ => [0, 0, 0, 1],
    }
}

/// Goes back to the first bounds, if there are as many.
fn go_back(bounds: &mut Bounds, len: u64) -> Option<()> {
    if len <= bounds.held_len() {
        bounds.back(len);
        return Some(());
    }
    None
}

impl Case {
    /// Makes one of nothing.
    fn new(alloc: Global) -> Case {
        Case {
            assignment: RealAssignment::new(alloc),
            bounds: Bounds::new(alloc),
            known: Known::new(alloc),
        }
    }

    /// Adds a variable.
    fn add(&mut self, n: u64) -> Option<()> {
        self.assignment.add_var().ok()?;
        self.bounds.add_var().ok()?;
        self.known.add(unit(n))
    }

    /// Adds a row; tells whether the assignment gave it its variable.
    fn add_sum(&mut self, sum: Sum) -> Option<bool> {
        let [a, b, c] = sum.parts;
        let entries = [entry_of(a), entry_of(b), entry_of(c)];
        let variable = add_to(&mut self.assignment, &entries)?;
        self.bounds.add_var().ok()?;
        self.known.add_sum(sum)?;
        Some(variable == sum.variable)
    }

    /// Adds a row by chance, if there are not too many.
    fn add_some_sum(&mut self, seed: &mut u64) -> Option<bool> {
        if self.known.sums() >= ROWS {
            return Some(true);
        }
        let sum = some_sum(seed, self.known.variables());
        self.add_sum(sum)
    }

    /// Holds a bound by chance.
    fn hold_some(&mut self, seed: &mut u64) -> Option<bool> {
        let limit = some_limit(seed, self.known.variables());
        hold(&mut self.bounds, bound_of(&limit))?;
        self.known.hold(limit)?;
        Some(true)
    }

    /// Sets a mark.
    fn mark(&mut self) -> Option<bool> {
        self.known.mark()?;
        Some(true)
    }

    /// Goes back over the newest mark, if there is one.
    fn back(&mut self) -> Option<bool> {
        if let Some(len) = self.known.back() {
            go_back(&mut self.bounds, len)?;
        }
        Some(true)
    }

    /// Checks the assignment; tells whether it answers as the elimination does, and whether the values are right.
    fn check(&mut self, alloc: Global, tally: &mut Tally) -> Option<bool> {
        let fine = check_counted(alloc, &mut self.assignment, &self.bounds, tally)?;
        if self.known.is_feasible(alloc)? != fine || !self.known.is_solved(&self.assignment)? {
            return Some(false);
        }
        Some(!fine || self.known.is_kept(&self.assignment))
    }

    /// Makes an event by chance; tells whether all is as it should.
    fn step(&mut self, alloc: Global, seed: &mut u64, tally: &mut Tally) -> Option<bool> {
        match next_number(seed) % 16 {
            0 | 1 => self.add_some_sum(seed),
            2 => self.mark(),
            3 => self.back(),
            4 | 5 => self.check(alloc, tally),
            _ => self.hold_some(seed),
        }
    }

    /// Makes events by chance, and a check; tells whether all is as it should.
    fn run(&mut self, alloc: Global, seed: &mut u64, tally: &mut Tally) -> Option<bool> {
        let events = next_number(seed) % 9 + 10;
        for _ in 0..events {
            if !self.step(alloc, seed, tally)? {
                return Some(false);
            }
        }
        self.check(alloc, tally)
    }

    /// Adds from two to four variables, and a row or two.
    fn begin(&mut self, seed: &mut u64) -> Option<bool> {
        let variables = next_number(seed) % 3 + 2;
        for n in 0..variables {
            self.add(n)?;
        }
        let more = next_number(seed) % 2 == 0 || self.add_some_sum(seed)?;
        Some(self.add_some_sum(seed)? && more)
    }
}

/// Runs the case of a number; tells whether all is as it should.
fn agrees(alloc: Global, number: u64, tally: &mut Tally) -> Option<bool> {
    let mut seed = number;
    let mut case = Case::new(alloc);
    if !case.begin(&mut seed)? {
        return Some(false);
    }
    case.run(alloc, &mut seed, tally)
}

/// Gives the first case that does not agree.
fn first_other(alloc: Global, tally: &mut Tally) -> Option<u64> {
    for number in 0..CASES {
        if agrees(alloc, number, tally) != Some(true) {
            return Some(number);
        }
    }
    None
}

#[test]
fn checks_answer_as_an_elimination(rt: HostRuntime) -> Result<(), Fail> {
    let mut tally = Tally::new();
    assert_eq!(rt; first_other(rt.alloc(), &mut tally), None);
    assert!(rt; tally.is_varied());
    Ok(())
}
