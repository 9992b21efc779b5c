//! Runs of scripts that are known, in which each call is made once more where memory ran out.

ghost use Rattle.std.specs.Prelude.{◌≡◌, ◌<◌, [], Some, IfOk};
ghost use Rattle.world_io.specs.Memory.{text_named};
ghost use Rattle.spec_sessions.specs.Responses.{solve};
ghost use Rattle.script_run.specs.Runs.{EndsText};
ghost use Rattle.smt_top.specs.Generated.{usual_limits};
ghost use Rattle.smt_top.specs.GoesOn.{row_script, question_script};

use crate::arguments::USUAL_CONFLICTS;
use crate::goes_on_rows::{QUESTIONS, ROWS};
use assertion_stack::TERM_LIMIT;
use no_memory::NoMemory;
use sat_budget::Limits;
use script_run::{Status, run_with_retries};
use smt_session::Mode;
use std::alloc::Global;
use world_io::{Bytes, MemShelf, Sink};

/// Makes a shelf that holds a text under the empty name, and gives at most `most` bytes a read.
fn shelf_of(alloc: Global, text: &[u8], most: u64) -> Result<MemShelf, NoMemory>
    ensures held { IfOk result (λ s. text_named s.texts [] ≡ Some text.now) }
    ensures sound { IfOk result (λ s. (s.failing ≡ []) × (s.most ≡ most)) }
{
    let name = String::from_str(alloc, "")?;
    let bytes = Bytes::from(Vec::from_slice(alloc, text)?);
    let mut texts = Vec::new(alloc);
    texts.push((name, bytes))?;
    MemShelf::new(alloc, texts, most, Vec::new(alloc))
}

/// Makes such a shelf in two tries.
fn shelf_in_two(alloc: Global, text: &[u8], most: u64) -> Result<MemShelf, NoMemory>
    ensures held { IfOk result (λ s. text_named s.texts [] ≡ Some text.now) }
    ensures sound { IfOk result (λ s. (s.failing ≡ []) × (s.most ≡ most)) }
{
    match shelf_of(alloc, text, most) {
        Ok(shelf) => Ok(shelf),
        Err(NoMemory) => shelf_of(alloc, text, most),
    }
}

/// Runs a script that comes in pieces of at most `most` bytes, and makes each call once more where memory ran out.
fn run_in_pieces<K: Sink>(alloc: Global, text: &[u8], most: u64, out: &mut K) -> Status
    requires { 0 < most }
    ensures { EndsText usual_limits solve text.now result (K.state out.old) (K.state out.new) }
{
    spec_text::laws::each_text_is_read();
    spec_sessions::laws::answers_say_what_is_so();
    let Ok(mut shelf) = shelf_in_two(alloc, text, most) else {
        return Status::Memory;
    };
    let limits = Limits {
        conflicts: USUAL_CONFLICTS,
        terms: TERM_LIMIT,
    };
    run_with_retries(alloc, "", &limits, Mode::Solve, &mut shelf, out)
}

/// Runs seven short scripts in one session, with a `(reset)` between them, and writes what is answered: a client's run that
/// goes on after a call for which there was no memory.
///
/// Each call that takes memory, be it the one that makes the session, is made once more where it ran out. So with one
/// allocation refused, whichever it is, the same is written as with none: `bench/limits.py goes-on` tries each.
///
/// The status is `Refused`, as the last command is, if memory and the sink suffice. `Memory` comes where memory ran out in
/// both tries of a call, and `WriteFault` where the sink failed. `Words` and `ReadFault` never come.
pub fn session_goes_on<K: Sink>(alloc: Global, out: &mut K) -> Status
    ensures { EndsText usual_limits solve row_script result (K.state out.old) (K.state out.new) }
{
    run_in_pieces(alloc, ROWS, 1 << 16, out)
}

/// Runs a script with questions of each kind, over levels that are opened three at a time, by pieces of seven bytes. For the
/// rest it is as `session_goes_on`.
pub fn questions_go_on<K: Sink>(alloc: Global, out: &mut K) -> Status
    ensures { EndsText usual_limits solve question_script result (K.state out.old) (K.state out.new) }
{
    run_in_pieces(alloc, QUESTIONS, 7, out)
}
