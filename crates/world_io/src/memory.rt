//! A shelf and a sink in memory, which can be made to fail.

ghost use Rattle.std.specs.Prelude.{◌≡◌, ◌+◌, ◌-◌, ◌≤◌, ◌<◌, ◌++◌, ◌⊎◌, [], length, map, min, take, drop, Some, None, MatchBool, MatchOption, Contains, IfOk, IsOk, vec_len, vec_capacity};
ghost use Rattle.world_io.specs.Memory.{bytes_of_entry, text_named, text_at, ShelfState, SinkState, next_number, seen_sink, BeginsText, ReadsShelf, Writes};

use crate::fault::{counted, one_more};
use crate::{Bytes, Failed, Shelf, Sink};
use no_memory::NoMemory;
use std::alloc::Global;
use std::marker::Model;

/// Holds texts under names in memory, and fails the calls that it has to fail.
///
/// The calls of `begin` and `read` are numbered from 0 together.
#[derive(Drop)]
pub struct MemShelf {
    texts: Vec<(String, Bytes)>,
    most: u64,
    failing: Vec<u64>,
    calls: u64,
    faults: u64,
    /// The index of the text that was begun; past the last text where none was.
    current: usize,
    offset: usize,
}

impl Model for MemShelf {
    ghost use Rattle.std.specs.Prelude.{map, drop};
    ghost use Rattle.world_io.specs.Memory.{bytes_of_entry, text_at, ShelfState};

    ghost Value = { ShelfState };

    ghost view = { λ s. record {
      texts = map bytes_of_entry s.texts.items;
      left = drop s.offset (text_at (map bytes_of_entry s.texts.items) s.current);
      most = s.most;
      failing = s.failing.items;
      calls = s.calls;
      faults = s.faults;
    } };
}

impl MemShelf {
    /// Makes a shelf that holds the texts under their names; of two with one name it gives the first.
    ///
    /// A read gives at most `most` bytes. The calls with the numbers in `failing` fail. No text is begun, so nothing is left.
    /// It never answers `NoMemory`, since it keeps what it is given.
    pub fn new(
        _alloc: Global,
        texts: Vec<(String, Bytes)>,
        most: u64,
        failing: Vec<u64>,
    ) -> Result<MemShelf, NoMemory>
        ensures made { IsOk result }
        ensures state { IfOk result (λ s. s
            ≡ record {
              texts = map bytes_of_entry texts.items;
              left = [];
              most = most;
              failing = failing.items;
              calls = 0;
              faults = 0;
            }) }
    {
        let current = texts.len();
        Ok(MemShelf {
            texts,
            most,
            failing,
            calls: 0,
            faults: 0,
            current,
            offset: 0,
        })
    }
}

impl Shelf for MemShelf {
    ghost holds = { λ s. text_named s.texts };

    ghost left = { λ s. Some s.left };

    ghost faults = { λ s. s.faults };

    ghost is_sound = { λ s. (s.failing ≡ []) × (0 < s.most) };

    fn begin(&mut self, name: &str) -> Result<(), Failed>
        ensures exact { BeginsText self.old name.now result self.new }
    {
        if is_to_fail(&self.failing, &mut self.calls) {
            return Err(counted(&mut self.faults));
        }
        let Some(place) = place_of(&self.texts, name) else {
            return Err(counted(&mut self.faults));
        };
        self.current = place;
        self.offset = 0;
        Ok(())
    }

    fn read(&mut self, buf: &mut [u8]) -> Result<usize, Failed>
        requires { 0 < length buf.old }
        ensures exact { ReadsShelf self.old (length buf.old) buf.new result self.new }
    {
        if is_to_fail(&self.failing, &mut self.calls) || self.most == 0 {
            return Err(counted(&mut self.faults));
        }
        let text = bytes_at(&self.texts, self.current);
        let n = copy_from(text, self.offset, self.most as usize, buf);
        self.offset += n;
        Ok(n)
    }
}

/// Keeps in memory what is written, and fails the writes that it has to fail.
///
/// The writes are numbered from 0.
#[derive(Drop)]
pub struct MemSink {
    bytes: Vec<u8>,
    room: usize,
    most: u64,
    failing: Vec<u64>,
    calls: u64,
    faults: u64,
}

impl Model for MemSink {
    ghost use Rattle.std.specs.Prelude.{◌+◌, ◌≤◌, vec_len, vec_capacity};
    ghost use Rattle.world_io.specs.Memory.{SinkState};

    ghost Value = { SinkState };

    ghost view = { λ s. record {
      written = s.bytes.items;
      room = s.room;
      most = s.most;
      failing = s.failing.items;
      calls = s.calls;
      faults = s.faults;
    } };

    ghost invariant = { λ s. vec_len s.bytes + s.room ≤ vec_capacity s.bytes };
}

impl MemSink {
    /// Makes a sink with room for `room` bytes in all, and takes the memory for them.
    ///
    /// A write takes at most `most` bytes. The writes with the numbers in `failing` fail.
    /// `NoMemory` comes where the memory for the room was refused.
    pub fn new(alloc: Global, room: u64, most: u64, failing: Vec<u64>) -> Result<MemSink, NoMemory>
        ensures state { IfOk result (λ s. s
            ≡ record { written = []; room = room; most = most; failing = failing.items; calls = 0; faults = 0 }) }
        ensures made { room ≡ 0 → IsOk result }
    {
        let bytes = Vec::with_capacity(alloc, room as usize)?;
        Ok(MemSink {
            bytes,
            room: room as usize,
            most,
            failing,
            calls: 0,
            faults: 0,
        })
    }

    /// Lends the bytes written up to here. It takes no memory.
    pub fn written(&self) -> &[u8]
        ensures { result.now ≡ self.now.written }
    {
        self.bytes.as_slice()
    }
}

impl Sink for MemSink {
    ghost state = { seen_sink };

    fn write(&mut self, buf: &[u8]) -> Result<usize, Failed>
        ensures exact { Writes self.old buf.now result self.new }
    {
        if is_to_fail(&self.failing, &mut self.calls) {
            return Err(counted(&mut self.faults));
        }
        let n = buf.len().min(self.most as usize).min(self.room);
        if n == 0 && !buf.is_empty() {
            return Err(counted(&mut self.faults));
        }
        append_reserved(&mut self.bytes, &buf[..n]);
        self.room -= n;
        Ok(n)
    }

    fn flush(&mut self) -> Result<(), Failed>
        ensures exact { IsOk result × (self.new ≡ self.old) }
    {
        Ok(())
    }
}

/// Numbers a call, and tells whether it is one of those that are to fail.
fn is_to_fail(failing: &[u64], calls: &mut u64) -> bool
    ensures among { MatchBool result (Contains failing.now calls.old) (Contains failing.now calls.old → ⊥) }
    ensures next { calls.new ≡ next_number calls.old }
{
    let number = *calls;
    *calls = one_more(number);
    failing.contains(&number)
}

/// Finds the index of the first text of a name.
fn place_of(texts: &[(String, Bytes)], name: &str) -> Option<usize>
    ensures { MatchOption result (text_named (map bytes_of_entry texts.now) name.now ≡ None)
        (λ k. (k < length texts.now) × (text_named (map bytes_of_entry texts.now) name.now
        ≡ Some (text_at (map bytes_of_entry texts.now) k))) }
{
    for (k, t) in texts.iter().enumerate() {
        if t.0.as_str() == name {
            return Some(k);
        }
    }
    None
}

/// Lends the text at an index, empty where there is none.
fn bytes_at(texts: &[(String, Bytes)], k: usize) -> &[u8]
    ensures { result.now ≡ text_at (map bytes_of_entry texts.now) k }
{
    match texts.get(k) {
        Some(t) => t.1.as_slice(),
        None => &[],
    }
}

/// Lends the text from an offset on, empty past its end.
fn rest_of(text: &[u8], offset: usize) -> &[u8]
    ensures { result.now ≡ drop offset text.now }
{
    text.get(offset..).unwrap_or(&[])
}

/// Copies a prefix of the text from an offset on, as much as the buffer and `most` allow, and answers its length.
fn copy_from(text: &[u8], offset: usize, most: usize, buf: &mut [u8]) -> usize
    requires { 0 < length buf.old }
    ensures length { result ≤ length buf.old }
    ensures moved { drop offset text.now ≡ take result buf.new ++ drop (offset + result) text.now }
    ensures size { result ≡ min (min (length (drop offset text.now)) (length buf.old)) most }
    ensures front { take result buf.new ≡ take result (drop offset text.now) }
    ensures fits { (result ≡ 0) ⊎ (offset + result ≤ length text.now) }
{
    let left = rest_of(text, offset);
    let n = left.len().min(buf.len()).min(most);
    buf[..n].copy_from_slice(&left[..n]);
    n
}

/// Appends bytes for which there is room. It takes no memory.
pub(crate) fn append_reserved(bytes: &mut Vec<u8>, piece: &[u8])
    requires { vec_len bytes.old + length piece.now ≤ vec_capacity bytes.old }
    ensures items { bytes.new.items ≡ bytes.old.items ++ piece.now }
    ensures len { vec_len bytes.new ≡ vec_len bytes.old + length piece.now }
    ensures capacity { vec_capacity bytes.new ≡ vec_capacity bytes.old }
{
    for b in piece {
        bytes.push_reserved(*b);
    }
}
