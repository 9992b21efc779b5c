//! Texts of responses: an error, one word, a reason, a name, a value. No call takes memory.
#![tactic(auto)]

ghost use Rattle.std.specs.Prelude.{◌≡◌};
ghost use Rattle.world_io.specs.Writing.{Sends};
ghost use Rattle.spec_models.specs.Replies.{error_text, word_of, word_line};

mod reasons;
mod values;

use itoa::Buffer;
pub use reasons::{overflow, overflow_info, spent, spent_info};
use smt_lexer::Place;
pub use spec_models::ResponseWord;
pub use values::{name, value, write_numeral};
use world_io::{Failed, Sink, write_pieces};

/// Writes the line of an error: its line and column, both from 1, in decimal, and its name, as `(error "2:9: PopTooFar")`.
///
/// It takes no memory. `Failed` comes only where the sink's count of faults rose in this call; a prefix was then appended.
/// Source: SMT-LIB 2.6, section 3.9; what is between the quotes is own.
pub fn error<K: Sink>(place: Place, name: &[u8], out: &mut K) -> Result<(), Failed>
    ensures { Sends (error_text place.line place.col name.now) result (K.state out.old) (K.state out.new) }
{
    let mut line = Buffer::new();
    let mut column = Buffer::new();
    write_pieces(
        out,
        &[
            b"(error \"",
            line.format(place.line).as_bytes(),
            b":",
            column.format(place.col).as_bytes(),
            b": ",
            name,
            b"\")\n",
        ],
    )
}

/// Gives the letters of a response of one word.
fn letters(w: ResponseWord) -> &'static [u8]
    ensures { result.now ≡ word_of w }
{
    match w {
        ResponseWord::Success => b"success",
        ResponseWord::Unsupported => b"unsupported",
        ResponseWord::Sat => b"sat",
        ResponseWord::Unsat => b"unsat",
        ResponseWord::Unknown => b"unknown",
    }
}

/// Writes the line of a response that is one word, as `unsat`.
///
/// It takes no memory. `Failed` comes only where the sink's count of faults rose in this call; a prefix was then appended.
/// Source: SMT-LIB 2.6, sections 3.9 and 4.1.8.
pub fn word<K: Sink>(w: ResponseWord, out: &mut K) -> Result<(), Failed>
    ensures { Sends (word_line w) result (K.state out.old) (K.state out.new) }
{
    write_pieces(out, &[letters(w), b"\n"])
}
