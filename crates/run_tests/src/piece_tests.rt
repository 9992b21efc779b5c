//! Runs of scripts that come whole and byte by byte, with outputs that go so.

use crate::devices::{BYTES, Device, Outcome, WHOLE, outcome_of, outcome_over};
use crate::rows::{ROWS, Row, arguments_of, row_of};
use no_memory::NoMemory;
use std::alloc::Global;
use std::test::Fail;

/// Tells whether a run came to what its row says.
fn is_so(got: &Outcome, row: &Row) -> bool {
    let is_output = if row.is_whole {
        got.output == row.output
    } else {
        got.output.starts_with(&row.output)
    };
    got.status == row.status && is_output
}

/// Tells whether a script comes to the same by other devices.
fn comes_to(
    alloc: Global,
    row: &Row,
    whole: &Outcome,
    reads: Device,
    writes: Device,
) -> Result<bool, NoMemory> {
    let got = outcome_of(alloc, &row.words, &row.text, reads, writes)?;
    Ok(got.status == whole.status && got.output == whole.output)
}

/// Tells whether a script comes to what its row says, whole and byte by byte.
fn is_answered_so(alloc: Global, row: &Row) -> Result<bool, NoMemory> {
    let whole = outcome_of(alloc, &row.words, &row.text, WHOLE, WHOLE)?;
    Ok(
        is_so(&whole, row)
            && comes_to(alloc, row, &whole, BYTES, BYTES)?
            && comes_to(alloc, row, &whole, BYTES, WHOLE)?
            && comes_to(alloc, row, &whole, WHOLE, BYTES)?,
    )
}

/// Gives the first row of which that is not so, if there is one.
fn first_other(alloc: Global, rows: &str) -> Result<Option<&str>, NoMemory> {
    for line in rows.lines() {
        let row = row_of(alloc, line)?;
        if !is_answered_so(alloc, &row)? {
            return Ok(Some(line));
        }
    }
    Ok(None)
}

#[test]
fn scripts_are_answered_alike_in_all_pieces(rt: HostRuntime) -> Result<(), Fail> {
    assert!(rt; first_other(rt.alloc(), ROWS)? == None);
    Ok(())
}

/// Tells whether `check` accepts the output of `certify`, both byte by byte, where that begins with `unsat`.
fn is_accepted(alloc: Global, row: &Row) -> Result<bool, NoMemory> {
    let proof = outcome_of(alloc, &row.words, &row.text, BYTES, BYTES)?;
    if !proof.output.starts_with(b"unsat") {
        return Ok(false);
    }
    let words = arguments_of(alloc, "check  p")?;
    let got = outcome_over(alloc, &words, (&row.text, &proof.output), BYTES, BYTES)?;
    Ok(got.status == 0 && got.output.as_slice() == b"valid\n".as_slice())
}

/// Tells whether that is so of the first row with a proof.
fn first_is_accepted(alloc: Global, rows: &str) -> Result<bool, NoMemory> {
    for line in rows.lines() {
        let row = row_of(alloc, line)?;
        if !row.is_whole {
            return is_accepted(alloc, &row);
        }
    }
    Ok(false)
}

#[test]
fn a_proof_in_pieces_is_accepted(rt: HostRuntime) -> Result<(), Fail> {
    assert!(rt; first_is_accepted(rt.alloc(), ROWS)?);
    Ok(())
}
