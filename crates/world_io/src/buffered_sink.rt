//! A buffer before a sink.

ghost use Rattle.std.specs.Prelude.{◌≡◌, ◌<◌, ◌≤◌, [], IfOk, OnOk, vec_len, vec_capacity};

use crate::memory::append_reserved;
use crate::sink::write_prefix;
use crate::{Failed, Sink};
use no_memory::NoMemory;
use std::alloc::Global;

/// How many bytes wait at most.
const SIZE: usize = 4096;

/// Puts short pieces together before a sink, so that the sink takes few long ones.
///
/// What was written to it is what was written to the sink, and after that the bytes that wait. They are passed on where 4096 of
/// them wait, and by `flush`. Those that wait when it is dropped are lost.
#[derive(Drop)]
pub struct BufferedSink<K> {
    sink: K,
    bytes: Vec<u8>,
    /// How many of the bytes were passed on: the others wait.
    from: usize,
    ghost within: { (from ≤ vec_len bytes) × (vec_len bytes ≤ 4096) × (4096 ≤ vec_capacity bytes) },
}

impl<K: Sink + Drop> BufferedSink<K> {
    ghost use Rattle.world_io.specs.Buffering.{sink_of, pending_in, buffered, PassesOn, PassesNothing};

    /// Puts a buffer before a sink. Nothing waits in it.
    ///
    /// `NoMemory` comes where the buffer finds no memory; no other call takes any.
    pub fn new(alloc: Global, sink: K) -> Result<BufferedSink<K>, NoMemory>
        ensures { IfOk result (λ b. (sink_of b ≡ sink) × (pending_in b ≡ [])) }
    {
        Ok(BufferedSink {
            sink,
            bytes: Vec::with_capacity(alloc, SIZE)?,
            from: 0,
        })
    }

    /// Lends the sink, to which the bytes that wait were not yet written. It takes no memory.
    pub fn sink(&self) -> &K
        ensures { result.now ≡ sink_of self.now }
    {
        &self.sink
    }

    /// Writes to the sink what waits in the buffer itself.
    fn write_pending(&mut self) -> Result<(), Failed>
        ensures emptied { OnOk result (vec_len self.new.bytes ≡ 0) }
        ensures passed { PassesOn (pending_in self.old) result (K.state (sink_of self.old)) (pending_in self.new)
            (K.state (sink_of self.new)) }
    {
        let n = write_prefix(&mut self.sink, &self.bytes[self.from..]);
        self.from += n;
        if self.from < self.bytes.len() {
            return Err(Failed);
        }
        self.bytes.clear();
        self.from = 0;
        Ok(())
    }

    /// Writes to the sink what waits in the buffer itself where the buffer is full.
    fn make_room(&mut self) -> Result<(), Failed>
        ensures free { OnOk result (vec_len self.new.bytes < 4096) }
        ensures sends { PassesNothing result (buffered (K.state (sink_of self.old)) (pending_in self.old))
            (buffered (K.state (sink_of self.new)) (pending_in self.new)) }
    {
        if self.bytes.len() >= SIZE {
            return self.write_pending();
        }
        Ok(())
    }
}

impl<K: Sink + Drop> Sink for BufferedSink<K> {
    ghost use Rattle.world_io.specs.Buffering.{sink_of, pending_in, buffered};

    ghost state = { λ b. buffered (K.state (sink_of b)) (pending_in b) };

    fn write(&mut self, buf: &[u8]) -> Result<usize, Failed> {
        self.make_room()?;
        let n = buf.len().min(SIZE - self.bytes.len());
        append_reserved(&mut self.bytes, &buf[..n]);
        Ok(n)
    }

    fn flush(&mut self) -> Result<(), Failed> {
        self.write_pending()?;
        self.sink.flush()
    }
}
