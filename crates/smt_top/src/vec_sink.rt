//! A sink that keeps in memory what is written.

ghost use Rattle.std.specs.Prelude.{◌≡◌, []};
ghost use Rattle.smt_top.specs.Generated.{KeptBytes, seen_bytes};

use std::alloc::Global;
use std::marker::Model;
use world_io::{Failed, Sink};

/// Keeps in memory what is written, and takes the memory for it as it comes.
#[derive(Drop)]
pub(crate) struct VecSink {
    bytes: Vec<u8>,
    faults: u64,
}

impl Model for VecSink {
    ghost use Rattle.smt_top.specs.Generated.{KeptBytes};

    ghost Value = { KeptBytes };

    ghost view = { λ s. record { written = s.bytes.items; faults = s.faults } };
}

impl VecSink {
    /// Makes a sink to which nothing was written.
    pub(crate) fn new(alloc: Global) -> VecSink
        ensures { result.written ≡ [] }
    {
        VecSink {
            bytes: Vec::new(alloc),
            faults: 0,
        }
    }

    /// Lends what was written.
    pub(crate) fn written(&self) -> &[u8]
        ensures { result.now ≡ self.now.written }
    {
        self.bytes.as_slice()
    }
}

impl Sink for VecSink {
    ghost state = { seen_bytes };

    /// Appends the whole piece. `Failed` comes where an allocation was refused.
    fn write(&mut self, buf: &[u8]) -> Result<usize, Failed> {
        match self.bytes.extend_from_slice(buf) {
            Ok(()) => Ok(buf.len()),
            Err(_) => {
                self.faults = self.faults.saturating_add(1);
                Err(Failed)
            }
        }
    }

    fn flush(&mut self) -> Result<(), Failed> {
        Ok(())
    }
}
