//! Tests of the order, over one text of rows.

use no_memory::NoMemory;
use std::alloc::Global;
use std::test::Fail;
use variable_order::{TermId, VariableOrder};

/// What is done to an order of no variables; then the variables that are taken from it until none is left.
///
/// `.` adds a variable; `<` takes the first one; `-` decays; `*` decays five hundred times. A small letter puts a variable in, from `a`
/// for the first, and a capital one bumps it. No two variables of a row are as active when one of them is taken.
const ROWS: &str = "|
...|
...aa|a
...acC|ca
...abcB-CC|cba
...abcBB-C|cba
...abcA-BB-CC-A-B|bac
...A-Cac<|a
...ab-B<cC|ca
...abA-B<<a|a
....aD-C-Bbcd|bcda
......abcdefF-E-D-C-B-A|abcdef
......abcdefA-B-C-D-E-F|fedcba
......A-B-C-D-E-Ffedcba|fedcba
....abcdC-C-C-D-D-B|cdba
....abcd*A-B-C|cbad
...abcA*B*C|cba
.......abcdefgA-B-C-D-E-F-G4|dcba
.......gfedcbaG-F-E-D-C-B-A3|abc
....abdA-B-D-3.d|bad
......abcdefA-B-C-D-E-F9|fedcba
......abcdef0|
......abcdef0..bB|b";

/// Gives the variable of a letter.
fn variable_of(letter: u8) -> TermId {
    TermId(letter.to_ascii_lowercase().wrapping_sub(b'a') as u64)
}

/// Decays five hundred times, in which numbers grow by 43 bits.
fn decay_long(order: &mut VariableOrder) {
    for _ in 0..500 {
        order.decay();
    }
}

/// Puts the variable of a letter in, or bumps it.
fn touch(order: &mut VariableOrder, letter: u8) {
    let v = variable_of(letter);
    if v.0 >= order.vars() {
        return;
    }
    if letter.is_ascii_lowercase() {
        order.insert(v);
    } else {
        order.bump(v);
    }
}

/// Does what a row says.
fn order_of(alloc: Global, steps: &str) -> Result<VariableOrder, NoMemory> {
    let mut order = VariableOrder::new(alloc);
    for sign in steps.as_bytes() {
        match *sign {
            b'.' => order.add_var()?,
            b'-' => order.decay(),
            b'*' => decay_long(&mut order),
            digit @ b'0'..=b'9' => order.cut((digit - b'0') as u64),
            b'<' => {
                let _ = order.pop();
            }
            letter => touch(&mut order, letter),
        }
    }
    Ok(order)
}

/// Tells whether an order gives the variables of the letters, and no other.
fn gives(order: &mut VariableOrder, letters: &[u8]) -> bool {
    for letter in letters {
        if order.pop() != Some(variable_of(*letter)) {
            return false;
        }
    }
    order.pop() == None
}

/// Gives the number of the first row that is not so.
fn first_other(alloc: Global, rows: &str) -> Result<Option<usize>, NoMemory> {
    for (n, row) in rows.lines().enumerate() {
        let mut parts = row.split('|');
        let mut order = order_of(alloc, parts.next().unwrap_or(""))?;
        if !gives(&mut order, parts.next().unwrap_or("").as_bytes()) {
            return Ok(Some(n));
        }
    }
    Ok(None)
}

#[test]
fn orders_give_what_is_most_active(rt: HostRuntime) -> Result<(), Fail> {
    assert!(rt; first_other(rt.alloc(), ROWS)? == None);
    Ok(())
}

/// Gives the next number of a sequence that looks random.
fn next_number(number: u64) -> u64 {
    number
        .wrapping_mul(6_364_136_223_846_793_005)
        .wrapping_add(1_442_695_040_888_963_407)
}

/// Gives the greatest activity of the variables that are in; nothing where none is.
fn greatest(activities: &[u64], members: &[bool]) -> Option<u64> {
    let mut best = None;
    for (activity, is_in) in activities.iter().zip(members) {
        if *is_in {
            best = best.max(Some(*activity));
        }
    }
    best
}

/// Takes a variable; tells whether it is in and none that is in is more active.
fn takes_greatest(order: &mut VariableOrder, activities: &[u64], members: &mut [bool]) -> bool {
    let best = greatest(activities, members);
    let Some(v) = order.pop() else {
        return best == None;
    };
    let Some(is_in) = members.get_mut(v.0 as usize) else {
        return false;
    };
    let was_in = *is_in;
    *is_in = false;
    was_in && activities.get(v.0 as usize).copied() == best
}

/// Bumps a variable and decays.
fn bump(order: &mut VariableOrder, activities: &mut [u64], step: u64, n: u8) {
    if let Some(activity) = activities.get_mut(n as usize) {
        *activity = activity.saturating_add(step);
        touch(order, b'A'.wrapping_add(n));
    }
    order.decay();
}

/// Puts a variable in.
fn insert(order: &mut VariableOrder, members: &mut [bool], n: u8) {
    if let Some(is_in) = members.get_mut(n as usize) {
        *is_in = true;
        touch(order, b'a'.wrapping_add(n));
    }
}

/// Says whether four hundred calls by chance give the greatest, over twenty-four variables.
fn gives_greatest(alloc: Global, seed: u64) -> Result<bool, NoMemory> {
    let mut order = order_of(alloc, "........................")?;
    let mut activities = [0; 24];
    let mut members = [false; 24];
    let mut step = 1 << 10;
    let mut number = seed;
    for _ in 0..400 {
        number = next_number(number);
        let n = (number >> 40) % 24;
        match number >> 61 {
            0 | 1 | 2 => insert(&mut order, &mut members, n as u8),
            3 | 4 | 5 => {
                bump(&mut order, &mut activities, step, n as u8);
                step = u64::saturating_add(step, step / 16);
            }
            7 if number & 3 == 0 => {
                order.cut(n);
                for v in n..24 {
                    order.add_var()?;
                    if let Some(activity) = activities.get_mut(v as usize) {
                        *activity = 0;
                    }
                    if let Some(is_in) = members.get_mut(v as usize) {
                        *is_in = false;
                    }
                }
            }
            _ => {
                if !takes_greatest(&mut order, &activities, &mut members) {
                    return Ok(false);
                }
            }
        }
    }
    Ok(true)
}

#[test]
fn calls_by_chance_give_the_greatest(rt: HostRuntime) -> Result<(), Fail> {
    'seeds: for seed in 0..50 {
        assert!(rt; gives_greatest(rt.alloc(), seed)?);
    }
    Ok(())
}
