//! Reads the s-expressions of a text that comes in pieces, each as soon as every text that goes on so has it next.
//!
//! However a text is cut, its s-expressions and its end are the same. A byte is scanned once, and that which ends a word
//! twice. Nothing is read again from the beginning of an s-expression that is unfinished. Of a text the first 2^30 bytes are
//! read.
#![tactic(auto)]

mod item;
pub mod laws;
mod stream;

pub use stream::{NextItem, Stream};
