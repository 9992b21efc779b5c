//! The run of a script's text.

ghost use Rattle.std.specs.Prelude.{◌≡◌, [], false};
ghost use Rattle.spec_sessions.specs.States.{first_state};
ghost use Rattle.check_evidence.specs.Evidence.{limits_meant};
ghost use Rattle.smt_session.specs.Sessions.{mode_meant, IsSession};
ghost use Rattle.sexpr_stream.specs.Streams.{bytes_of, taken_to};
ghost use Rattle.script_run.specs.Runs.{RunsText, EndsText};

use crate::answering::{Pause, answer_held};
use crate::status::Status;
use crate::tries::Tries;
use sat_budget::Limits;
use sexpr_stream::Stream;
use smt_session::{Mode, Session};
use std::alloc::Global;
use world_io::Sink;

/// Runs a script's text: takes its commands one after the other, up to its end, to `exit`, or to a fault after which it
/// cannot be read on, and writes what each is answered.
///
/// - `Done`: nothing was refused; `Refused`: a command was refused, or such a fault ended the run, and its line was written.
/// - `Memory` comes where memory ran out; what is to be written for the commands that were run was written.
/// - `WriteFault` comes only where the sink's count of faults rose in this call; a prefix of that was written, and there was
///   no room for all of it.
/// - The other statuses never come.
///
/// Each response is passed on: where nothing waited in a buffer before, nothing waits after a run that the sink did not end.
///
/// Of the text the first 2^30 bytes are read; where there are more, the first of them is the fault `TooLong`, unless the
/// run ends before. Source: SMT-LIB 2.6, sections 3.9 and 4.2; the limit is own.
pub fn run_text<K: Sink>(
    alloc: Global,
    bytes: &[u8],
    limits: &Limits,
    mode: Mode,
    out: &mut K,
) -> Status
    ensures { EndsText (limits_meant limits.now) (mode_meant mode) bytes.now result (K.state out.old)
        (K.state out.new) }
{
    spec_sessions::laws::answers_say_what_is_so();
    run_session(alloc, bytes, limits, mode, out)
}

/// Makes a session, and runs a text in it.
fn run_session<K: Sink>(
    alloc: Global,
    bytes: &[u8],
    limits: &Limits,
    mode: Mode,
    out: &mut K,
) -> Status
    ensures { RunsText (limits_meant limits.now) (mode_meant mode) bytes.now result (K.state out.old)
        (K.state out.new) }
{
    spec_text::laws::each_text_is_read();
    let Ok(mut session) = Session::new(alloc, limits, mode) else {
        return Status::Memory;
    };
    let mut stream = Stream::new(alloc);
    run_whole(alloc, bytes, &mut stream, &mut session, out)
}

/// Runs a text in a session that has stated nothing, by a stream of which nothing came. Both are lent, so that no way out
/// drops them.
fn run_whole<K: Sink>(
    alloc: Global,
    bytes: &[u8],
    stream: &mut Stream,
    session: &mut Session,
    out: &mut K,
) -> Status
    requires session { IsSession session.old first_state }
    requires empty { bytes_of stream.old ≡ [] }
    requires start { taken_to stream.old ≡ 0 }
    requires open { stream.old.closed ≡ false }
    ensures { RunsText (limits_meant session.old.limits) (mode_meant session.old.mode) bytes.now result
        (K.state out.old) (K.state out.new) }
{
    spec_text::laws::each_text_is_read();
    let Ok(()) = stream.feed(bytes) else {
        return Status::Memory;
    };
    stream.close();
    match answer_held(alloc, Tries::Once, false, stream, session, out) {
        Pause::Ended(status) => status,
        Pause::ForMore(_) => Status::Memory,
    }
}
