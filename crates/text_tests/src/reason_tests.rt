//! The lines of reasons, and where a sink takes no more of them.

use no_memory::NoMemory;
use ratio128::{Op, Ratio, Wide};
use reply_text::{overflow, spent};
use std::alloc::Global;
use std::test::Fail;
use world_io::{Failed, MemSink};

/// What a reason is for: conflicts with their number, or an operation on two fractions; and its line.
const ROWS: &str = "conflicts 0 -\t(conflicts 0)
conflicts 1 -\t(conflicts 1)
conflicts 20 -\t(conflicts 20)
conflicts 1000000 -\t(conflicts 1000000)
conflicts 18446744073709551615 -\t(conflicts 18446744073709551615)
mul 100/1 1/3\t(overflow mul 100 (/ 1 3))
add 0/1 -5/1\t(overflow add 0 (- 5))
sub -1/3 -4/2\t(overflow sub (/ (- 1) 3) (- 2))
sub 1/3 1/1\t(overflow sub (/ 1 3) 1)
div 3/-6 7/2\t(overflow div (/ (- 1) 2) (/ 7 2))
div 7/2 3/-6\t(overflow div (/ 7 2) (/ (- 1) 2))
add 170141183460469231731687303715884105727/1 1/1\t(overflow add 170141183460469231731687303715884105727 1)
sub -170141183460469231731687303715884105727/1 1/1\t(overflow sub (- 170141183460469231731687303715884105727) 1)
mul 1/170141183460469231731687303715884105727 1/2\t(overflow mul (/ 1 170141183460469231731687303715884105727) (/ 1 2))
div -170141183460469231731687303715884105727/170141183460469231731687303715884105726 -1/3\t(overflow div (/ (- 170141183460469231731687303715884105727) 170141183460469231731687303715884105726) (/ (- 1) 3))";

/// Reads a fraction; 0 where the text is none within the bound.
fn ratio_of(text: &str) -> Ratio {
    let (num, den) = text.split_once('/').unwrap_or(("0", "1"));
    let num = num.parse::<i128>().unwrap_or(0);
    let den = den.parse::<i128>().unwrap_or(1);
    if den == 0 || num == i128::MIN || den == i128::MIN {
        return Ratio::of(0, 1);
    }
    Ratio::of(num, den)
}

/// Reads an operation by its word.
fn op_of(word: &str) -> Op {
    match word {
        "add" => Op::Add,
        "sub" => Op::Sub,
        "mul" => Op::Mul,
        _ => Op::Div,
    }
}

/// Writes the line of a reason.
fn write(reason: &str, out: &mut MemSink) -> Result<(), Failed> {
    let (word, rest) = reason.split_once(' ').unwrap_or(("", ""));
    let (left, right) = rest.split_once(' ').unwrap_or(("", ""));
    match word {
        "conflicts" => spent(left.parse::<u64>().unwrap_or(7), out),
        _ => overflow(
            Wide {
                op: op_of(word),
                left: ratio_of(left),
                right: ratio_of(right),
            },
            out,
        ),
    }
}

/// Tells whether a row's line is written to a sink with so much room: all of it, or as much as there is room, and a fault.
fn is_written(alloc: Global, row: &str, room: usize) -> Result<bool, NoMemory> {
    let (reason, text) = row.split_once('\t').unwrap_or(("", ""));
    let mut out = MemSink::new(alloc, room as u64, 4, Vec::new(alloc))?;
    let sent = write(reason, &mut out);
    let mut wanted = Vec::new(alloc);
    wanted.extend_from_slice(text.as_bytes())?;
    wanted.push(b'\n')?;
    let all = wanted.as_slice();
    Ok(sent.is_ok() == (room >= all.len()) && out.written() == all.get(..room).unwrap_or(all))
}

/// Gives the first row whose line is not written so, if there is one.
fn first_other(alloc: Global, rows: &str, room: usize) -> Result<Option<&str>, NoMemory> {
    for row in rows.lines() {
        if !is_written(alloc, row, room)? {
            return Ok(Some(row));
        }
    }
    Ok(None)
}

/// Gives the first row whose line is not written so, to sinks with room for fewer bytes than that, if there is one.
fn first_other_below(alloc: Global, rows: &str, rooms: usize) -> Result<Option<&str>, NoMemory> {
    for room in 0..rooms {
        if let Some(row) = first_other(alloc, rows, room)? {
            return Ok(Some(row));
        }
    }
    Ok(None)
}

#[test]
fn reasons_are_written(rt: HostRuntime) -> Result<(), Fail> {
    assert!(rt; first_other_below(rt.alloc(), ROWS, 130)? == None);
    Ok(())
}
