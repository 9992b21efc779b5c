//! Runs of which a read or a write fails, each once: what was written is what was due.

use crate::devices::{BYTES, Device, Outcome, WHOLE, failing_at, outcome_of};
use crate::rows::{ROWS, Row, arguments_of, due_after, row_of};
use no_memory::NoMemory;
use std::alloc::Global;
use std::test::Fail;

/// The numbers of the statuses of a read and of a write that fails.
const READ_FAULT: u8 = 4;

const WRITE_FAULT: u8 = 5;

/// Lends the first bytes of an output, all where it has no more.
fn front(output: &[u8], size: u64) -> &[u8] {
    output.get(..size as usize).unwrap_or(output)
}

/// Tells whether a run with a failing call ends with that status, when so much was written.
fn ends_so(
    alloc: Global,
    row: &Row,
    devices: (Device, Device),
    status: u8,
    wanted: &[u8],
) -> Result<bool, NoMemory> {
    let got = outcome_of(alloc, &row.words, &row.text, devices.0, devices.1)?;
    Ok(got.status == status && got.output.as_slice() == wanted)
}

/// Tells whether a run whose read of that number fails has answered what the bytes before it hold. Read 0 begins the text.
fn is_answered_up_to(alloc: Global, row: &Row, whole: &Outcome, k: u64) -> Result<bool, NoMemory> {
    let wanted = front(&whole.output, due_after(&row.due, k.saturating_sub(1)));
    ends_so(alloc, row, (failing_at(k), BYTES), READ_FAULT, wanted)
}

/// Gives the first read of which that is not so, if there is one: each byte is a read, and the end too.
fn first_other_read(alloc: Global, row: &Row, whole: &Outcome) -> Result<Option<u64>, NoMemory> {
    for k in 0..row.text.len() as u64 + 2 {
        if !is_answered_up_to(alloc, row, whole, k)? {
            return Ok(Some(k));
        }
    }
    Ok(None)
}

/// Gives the first write after whose fault other bytes are written than those before it, if there is one.
fn first_other_write(alloc: Global, row: &Row, whole: &Outcome) -> Result<Option<u64>, NoMemory> {
    for k in 0..whole.output.len() as u64 {
        let wanted = front(&whole.output, k);
        if !ends_so(alloc, row, (BYTES, failing_at(k)), WRITE_FAULT, wanted)? {
            return Ok(Some(k));
        }
    }
    Ok(None)
}

/// Tells whether no call after these is made: a run of which it is to fail is as one without a fault.
fn are_all_calls(alloc: Global, row: &Row, whole: &Outcome) -> Result<bool, NoMemory> {
    let devices = (
        failing_at(row.text.len() as u64 + 2),
        failing_at(whole.output.len() as u64),
    );
    ends_so(alloc, row, devices, row.status, &whole.output)
}

/// Tells whether all faults of reads leave of a row what was due.
fn stands_reads(alloc: Global, row: &Row) -> Result<bool, NoMemory> {
    let whole = outcome_of(alloc, &row.words, &row.text, WHOLE, WHOLE)?;
    Ok(first_other_read(alloc, row, &whole)? == None && are_all_calls(alloc, row, &whole)?)
}

/// Tells whether all faults of writes leave of a row what was written before.
fn stands_writes(alloc: Global, row: &Row) -> Result<bool, NoMemory> {
    let whole = outcome_of(alloc, &row.words, &row.text, WHOLE, WHOLE)?;
    Ok(first_other_write(alloc, row, &whole)? == None)
}

/// Which calls fail.
#[derive(Clone, Copy)]
enum Calls {
    Reads,
    Writes,
}

/// Gives the first row of which that is not so, if there is one.
fn first_other(alloc: Global, calls: Calls, rows: &str) -> Result<Option<&str>, NoMemory> {
    for line in rows.lines() {
        let row = row_of(alloc, line)?;
        let is_so = match calls {
            Calls::Reads => stands_reads(alloc, &row)?,
            Calls::Writes => stands_writes(alloc, &row)?,
        };
        if !is_so {
            return Ok(Some(line));
        }
    }
    Ok(None)
}

#[test]
fn a_read_that_fails_leaves_what_was_due(rt: HostRuntime) -> Result<(), Fail> {
    assert!(rt; first_other(rt.alloc(), Calls::Reads, ROWS)? == None);
    Ok(())
}

#[test]
fn a_write_that_fails_leaves_what_was_written(rt: HostRuntime) -> Result<(), Fail> {
    assert!(rt; first_other(rt.alloc(), Calls::Writes, ROWS)? == None);
    Ok(())
}

/// Tells whether of two commands the first is answered, and no more is written, where the third read of eight bytes fails.
fn is_answered_before_the_third_read(alloc: Global) -> Result<bool, NoMemory> {
    let words = arguments_of(alloc, "solve")?;
    let reads = Device {
        most: 8,
        failing: 3,
    };
    let got = outcome_of(alloc, &words, b"(assert false)(check-sat)", reads, WHOLE)?;
    Ok(got.status == READ_FAULT && got.output.as_slice() == b"success\n".as_slice())
}

#[test]
fn a_command_is_answered_before_the_read_that_fails(rt: HostRuntime) -> Result<(), Fail> {
    assert!(rt; is_answered_before_the_third_read(rt.alloc())?);
    Ok(())
}
