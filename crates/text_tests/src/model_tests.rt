//! The texts of names and values, and where a sink takes no more of them.

use model_text::{name, value};
use no_memory::NoMemory;
use ratio128::Ratio;
use std::alloc::Global;
use std::test::Fail;
use term_core::SortId;
use term_walks::Value;
use world_io::{Failed, MemSink};

/// Values, each with the name of its sort if it is an element, and how it is written. A name is after `name`.
const ROWS: &str = "true\t\ttrue
false\t\tfalse
0\t\t0
5\t\t5
-5\t\t(- 5)
1/3\t\t(/ 1 3)
2/4\t\t(/ 1 2)
-6/4\t\t(/ (- 3) 2)
3/-6\t\t(/ (- 1) 2)
6/3\t\t2
2147483647/2147483646\t\t(/ 2147483647 2147483646)
@0\tU\t(as @e0 U)
@12\tU V\t(as @e12 |U V|)
@18446744073709551615\tlet\t(as @e18446744073709551615 |let|)
name\tp\tp
name\tq p\t|q p|
name\tassert\t|assert|
name\t1a\t|1a|
name\ta.b@c\ta.b@c
name\t\t||";

/// Reads a fraction, with its denominator where that is not 1.
fn ratio_of(word: &str) -> Option<Ratio> {
    let (above, below) = word.split_once('/').unwrap_or((word, "1"));
    let num = above.parse::<i32>().ok()?;
    let den = below.parse::<i32>().ok()?;
    if den == 0 {
        return None;
    }
    Some(Ratio::of(num as i128, den as i128))
}

/// Reads a value.
fn value_of(word: &str) -> Option<Value> {
    match word {
        "true" => Some(Value::Bool(true)),
        "false" => Some(Value::Bool(false)),
        _ => match word.strip_prefix("@") {
            Some(digits) => Some(Value::Element(SortId(0), digits.parse::<u64>().ok()?)),
            None => Some(Value::Number(ratio_of(word)?)),
        },
    }
}

/// Writes what a row has: a value, or a name.
fn write(word: &str, sort: &str, out: &mut MemSink) -> Result<(), Failed> {
    match value_of(word) {
        Some(v) => value(v, sort.as_bytes(), out),
        None => name(sort.as_bytes(), out),
    }
}

/// Tells whether a row's text is written to a sink with so much room: all of it, or as much as there is room, and a fault.
fn is_written(alloc: Global, row: &str, room: usize) -> Result<bool, NoMemory> {
    let (word, rest) = row.split_once('\t').unwrap_or(("", ""));
    let (sort, text) = rest.split_once('\t').unwrap_or(("", ""));
    let mut out = MemSink::new(alloc, room as u64, 4, Vec::new(alloc))?;
    let sent = write(word, sort, &mut out);
    let wanted = text.as_bytes();
    Ok(
        sent.is_ok() == (room >= wanted.len())
            && out.written() == wanted.get(..room).unwrap_or(wanted),
    )
}

/// Gives the first row whose text is not written so, if there is one.
fn first_other(alloc: Global, rows: &str, room: usize) -> Result<Option<&str>, NoMemory> {
    for row in rows.lines() {
        if !is_written(alloc, row, room)? {
            return Ok(Some(row));
        }
    }
    Ok(None)
}

/// Gives the first row whose text is not written so, to sinks with room for fewer bytes than that, if there is one.
fn first_other_below(alloc: Global, rows: &str, rooms: usize) -> Result<Option<&str>, NoMemory> {
    for room in 0..rooms {
        if let Some(row) = first_other(alloc, rows, room)? {
            return Ok(Some(row));
        }
    }
    Ok(None)
}

#[test]
fn names_and_values_are_written(rt: HostRuntime) -> Result<(), Fail> {
    assert!(rt; first_other_below(rt.alloc(), ROWS, 40)? == None);
    Ok(())
}
