//! I/O: bytes come in from a shelf of named texts and go out to a sink.
//!
//! Both are traits, so that what reads and writes is proved over any of them, also over those that fail.
//! A fault is counted where it happens, and a call answers `Failed` only where the count rose in that call.
#![tactic(auto)]

mod buffered_sink;
mod bytes;
mod fault;
mod host;
mod memory;
mod read;
mod shelf;
mod sink;

pub use buffered_sink::BufferedSink;
pub use bytes::Bytes;
pub use fault::Failed;
pub use host::{HostShelf, HostSink};
pub use memory::{MemShelf, MemSink};
pub use read::{ReadEnd, ReadStop, read_all, read_prefix};
pub use shelf::Shelf;
pub use sink::{Sink, write_all, write_pieces};
