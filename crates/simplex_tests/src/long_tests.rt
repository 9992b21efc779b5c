//! Systems that cycle by other rules, and one that takes many exchanges. The first variables are at least 0, and each row is a variable
//! more.

use crate::checked::{Ended, add_to, ended, hold};
use crate::known::{Limit, Part, bound_of, entry_of};
use simplex_bounds::Bounds;
use simplex_check::{CheckOutcome, RealAssignment};
use std::alloc::Global;
use std::test::Fail;

/// The rows of a system over twenty variables that are from 0 to 9: a sign for each variable, which comes once or not at all.
const SIGNS: &str = "\
    -+-+++.--..+-.+..+..\n\
    .++--+....---+.+++-+\n\
    .+-.--+.-++.---.+--.\n\
    .--.---+-.++.-..-+..\n\
    .-++++---++--++-+-+-\n\
    +-.-+..--..-+..+.-+.\n\
    ++++---++--.-..-+--+\n\
    -+++.++.++.-.+-.+...\n\
    .+.+.++.+--++.-..+..\n\
    ..+--.+.+.+.-+..-.-+\n\
    ..+..-++.--.++-.+.+-\n\
    .+.-.....-.+.-...-.+\n\
    .-+---.--.++.-...+.-\n\
    ++-+-.+-.++..+...+.-\n\
    ++-+----+....+.-+-+.\n\
    .--..+--+++-..+.+-..\n\
    .+--.....-.+-.+-.--+\n\
    +.++---.-+..++-++.--\n\
    .-+++..---+--++--++.\n\
    ++.+..-..-+..+++.++-\n";

/// The bounds of these rows: whether each is a lower one, and its value.
const LIMITS: [(bool, i64); 20] = [
    (false, -2),
    (false, 1),
    (false, -3),
    (true, -5),
    (true, -3),
    (false, -5),
    (false, 5),
    (false, -1),
    (false, -1),
    (false, -1),
    (true, -3),
    (true, 2),
    (true, 1),
    (false, -4),
    (true, 5),
    (false, 2),
    (true, 3),
    (true, -5),
    (false, -1),
    (false, 4),
];

/// Holds a system.
#[derive(Drop)]
struct System {
    alloc: Global,
    assignment: RealAssignment,
    bounds: Bounds,
}

/// Makes a bound that is not strict.
fn limit(variable: u64, lower: bool, value: i64) -> Limit {
    Limit {
        variable,
        lower,
        twice: value.saturating_mul(2),
        strict: false,
    }
}

impl System {
    /// Makes one without variables.
    fn new(alloc: Global) -> System {
        System {
            alloc,
            assignment: RealAssignment::new(alloc),
            bounds: Bounds::new(alloc),
        }
    }

    /// Holds a bound.
    fn hold(&mut self, variable: u64, lower: bool, value: i64) -> Option<()> {
        hold(&mut self.bounds, bound_of(&limit(variable, lower, value)))
    }

    /// Adds so many variables, which are at least 0.
    fn add_vars(&mut self, count: u64) -> Option<()> {
        for variable in 0..count {
            self.assignment.add_var().ok()?;
            self.bounds.add_var().ok()?;
            self.hold(variable, true, 0)?;
        }
        Some(())
    }

    /// Adds the sum of the first variables, each times its coefficient; gives its variable.
    fn add_sum(&mut self, coefficients: &[i64]) -> Option<u64> {
        let mut entries = Vec::new(self.alloc);
        let mut variable = 0;
        for times in coefficients {
            let part = Part {
                variable,
                times: *times,
            };
            if *times != 0 {
                entries.push(entry_of(part)).ok()?;
            }
            variable = variable.saturating_add(1);
        }
        let row = add_to(&mut self.assignment, &entries)?;
        self.bounds.add_var().ok()?;
        Some(row)
    }
}

/// Gives how many exchanges a check makes that ends so, or `None` where it ends otherwise.
fn made_to(system: &mut System, fine: bool) -> Option<u64> {
    let (result, made): Ended = ended(system.alloc, &mut system.assignment, &system.bounds)?;
    match result {
        Ok(CheckOutcome::Fine) if fine => Some(made),
        Ok(CheckOutcome::Conflict(_)) if !fine => Some(made),
        _ => None,
    }
}

/// Gives how many exchanges the check of a system makes that ends so. It has five variables, rows of their coefficients, and bounds: of
/// which variable, whether a lower one, and the value.
fn made_with(
    alloc: Global,
    rows: &[[i64; 5]],
    bounds: &[(u64, bool, i64)],
    fine: bool,
) -> Option<u64> {
    let mut system = System::new(alloc);
    system.add_vars(5)?;
    for row in rows {
        system.add_sum(row)?;
    }
    for (variable, lower, value) in bounds {
        system.hold(*variable, *lower, *value)?;
    }
    made_to(&mut system, fine)
}

// In Beale's, Kuhn's, and Marshall and Suurballe's the greatest coefficient leads the simplex method in a circle. The last row is what
// they maximize.

#[test]
fn beales_system_ends(rt: HostRuntime) -> Result<(), Fail> {
    let rows = [
        [25, -6_000, -4, 900, 0],
        [50, -9_000, -2, 300, 0],
        [75, -15_000, 2, -600, 0],
    ];
    let best = [(5, false, 0), (6, false, 0), (2, false, 1), (7, true, 5)];
    assert_eq!(rt; made_with(rt.alloc(), &rows, &best, true), Some(6));
    let more = [(5, false, 0), (6, false, 0), (2, false, 1), (7, true, 6)];
    assert_eq!(rt; made_with(rt.alloc(), &rows, &more, false), Some(6));
    Ok(())
}

#[test]
fn kuhns_system_ends(rt: HostRuntime) -> Result<(), Fail> {
    let rows = [[-2, -9, 1, 9, 0], [1, 3, -1, -6, 0], [2, 3, -1, -12, 0]];
    let best = [(5, false, 0), (6, false, 0), (7, false, 2), (7, true, 2)];
    assert_eq!(rt; made_with(rt.alloc(), &rows, &best, true), Some(2));
    let open = [(5, false, 0), (6, false, 0), (7, true, 1_000)];
    assert_eq!(rt; made_with(rt.alloc(), &rows, &open, true), Some(2));
    Ok(())
}

#[test]
fn marshalls_and_suurballes_system_ends(rt: HostRuntime) -> Result<(), Fail> {
    let rows = [
        [1, -11, -5, 18, 0],
        [1, -3, -1, 2, 0],
        [10, -57, -9, -24, 0],
    ];
    let best = [(5, false, 0), (6, false, 0), (0, false, 1), (7, true, 1)];
    assert_eq!(rt; made_with(rt.alloc(), &rows, &best, true), Some(7));
    let more = [(5, false, 0), (6, false, 0), (0, false, 1), (7, true, 2)];
    assert_eq!(rt; made_with(rt.alloc(), &rows, &more, false), Some(7));
    Ok(())
}

// Where the last variable that can move enters, this check itself goes in a circle of nine exchanges.
#[test]
fn checks_end_where_the_last_variable_would_cycle(rt: HostRuntime) -> Result<(), Fail> {
    let rows = [
        [0, 2, 1, 2, -2],
        [-1, 1, -2, -2, 2],
        [1, 1, 1, -2, -1],
        [0, 0, -1, 1, -2],
        [2, 2, -1, 1, -2],
    ];
    let bounds = [
        (5, false, 2),
        (6, true, 2),
        (7, false, -2),
        (8, false, 1),
        (9, true, 2),
    ];
    assert_eq!(rt; made_with(rt.alloc(), &rows, &bounds, true), Some(4));
    Ok(())
}

/// Gives the coefficient of a sign.
fn sign_of(byte: u8) -> i64 {
    match byte {
        b'+' => 1,
        b'-' => -1,
        _ => 0,
    }
}

/// Adds the rows of a text to a system.
fn add_rows(system: &mut System, text: &str) -> Option<()> {
    let mut signs = Vec::new(system.alloc);
    for byte in text.as_bytes() {
        if *byte == b'\n' {
            system.add_sum(&signs)?;
            signs.clear();
        } else {
            signs.push(sign_of(*byte)).ok()?;
        }
    }
    Some(())
}

/// Makes the system of the twenty rows.
fn long_system(alloc: Global) -> Option<System> {
    let mut system = System::new(alloc);
    system.add_vars(20)?;
    add_rows(&mut system, SIGNS)?;
    for variable in 0..20 {
        system.hold(variable, false, 9)?;
    }
    let mut row = 20;
    for (lower, value) in &LIMITS {
        system.hold(row, *lower, *value)?;
        row = row.saturating_add(1);
    }
    Some(system)
}

/// Gives how many exchanges the check of this system makes, which ends by a conflict.
fn made_long(alloc: Global) -> Option<u64> {
    let mut system = long_system(alloc)?;
    made_to(&mut system, false)
}

#[test]
fn checks_of_over_a_thousand_exchanges_end(rt: HostRuntime) -> Result<(), Fail> {
    let made = made_long(rt.alloc());
    assert_eq!(rt; made, Some(1_102));
    Ok(())
}
