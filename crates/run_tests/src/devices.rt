//! Runs over a shelf that gives a script in pieces, and a sink that takes an output in pieces; a call of each may fail.

use no_memory::NoMemory;
use smt_top::run_in_memory;
use std::alloc::Global;
use world_io::{Bytes, MemShelf, MemSink};

/// How many bytes an output has at most.
const ROOM: u64 = 20_000;

/// How many bytes a call gives or takes at most, and the number of the call that fails.
#[derive(Clone, Copy)]
pub(crate) struct Device {
    pub(crate) most: u64,
    pub(crate) failing: u64,
}

/// A device that gives or takes all at once.
pub(crate) const WHOLE: Device = Device {
    most: ROOM,
    failing: u64::MAX,
};

/// A device that gives or takes one byte.
pub(crate) const BYTES: Device = Device {
    most: 1,
    failing: u64::MAX,
};

/// Gives the device that gives or takes one byte, and of which one call fails.
pub(crate) fn failing_at(failing: u64) -> Device {
    Device { most: 1, failing }
}

/// What came of a run: the number of its status, and what was written.
#[derive(Drop)]
pub(crate) struct Outcome {
    pub(crate) status: u8,
    pub(crate) output: Vec<u8>,
}

/// Gives the list of one number.
fn listed(alloc: Global, number: u64) -> Result<Vec<u64>, NoMemory> {
    let mut numbers = Vec::new(alloc);
    numbers.push(number)?;
    Ok(numbers)
}

/// Makes a shelf that holds a script under the empty name, and a proof under the name `p`.
fn shelf_of(
    alloc: Global,
    script: &[u8],
    proof: &[u8],
    device: Device,
) -> Result<MemShelf, NoMemory> {
    let mut texts = Vec::new(alloc);
    texts.push((
        String::from_str(alloc, "")?,
        Bytes::from(Vec::from_slice(alloc, script)?),
    ))?;
    texts.push((
        String::from_str(alloc, "p")?,
        Bytes::from(Vec::from_slice(alloc, proof)?),
    ))?;
    MemShelf::new(alloc, texts, device.most, listed(alloc, device.failing)?)
}

/// Runs what the arguments ask for, over a script and a proof.
pub(crate) fn outcome_over(
    alloc: Global,
    words: &[String],
    texts: (&[u8], &[u8]),
    reads: Device,
    writes: Device,
) -> Result<Outcome, NoMemory> {
    let mut shelf = shelf_of(alloc, texts.0, texts.1, reads)?;
    let failing = listed(alloc, writes.failing)?;
    let mut sink = MemSink::new(alloc, ROOM, writes.most, failing)?;
    let status = run_in_memory(alloc, words, &mut shelf, &mut sink);
    let output = Vec::from_slice(alloc, sink.written())?;
    Ok(Outcome {
        status: status.code(),
        output,
    })
}

/// Runs a script.
pub(crate) fn outcome_of(
    alloc: Global,
    words: &[String],
    script: &[u8],
    reads: Device,
    writes: Device,
) -> Result<Outcome, NoMemory> {
    outcome_over(alloc, words, (script, b""), reads, writes)
}
