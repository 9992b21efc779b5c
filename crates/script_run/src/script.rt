//! The run of a script that a shelf holds: each command is answered before more of the text is read.

ghost use Rattle.std.specs.Prelude.{◌≡◌, ◌≢◌, ◌<◌, ◌≤◌, ◌⊎◌, ℕ, List, [], false, length, IsSome, IsErrOf};
ghost use Rattle.world_io.specs.Outside.{Rose};
ghost use Rattle.world_io.specs.declared.read.ReadStop.TheVariants as stops;
ghost use Rattle.spec_sessions.specs.States.{first_state};
ghost use Rattle.sexpr_stream.specs.Streams.{bytes_of, taken_to};
ghost use Rattle.smt_session.specs.Sessions.{IsSession};
ghost use Rattle.script_run.specs.Reading.{ReadsPiece};
ghost use Rattle.script_run.specs.Scripts.{TakesText, ScriptMeans, ReadsSoFar, EndsReading, run_meant, run_start};

use crate::answering::{Pause, answer_held};
use crate::status::Status;
use crate::tries::{Tries, feed, new_session};
use sat_budget::Limits;
use sexpr_stream::Stream;
use smt_session::{Mode, Session};
use std::alloc::Global;
use world_io::{ReadStop, Shelf, Sink};

/// How many bytes one read asks for at most.
const PIECE: usize = 1 << 16;

/// Reads once into a buffer that is not empty, and feeds what came to a stream, in so many tries. At the end of the text it
/// closes the stream.
///
/// `Failed` comes only where the count of faults of the shelf rose in this call; nothing was read. `Memory` comes where an
/// allocation was refused; nothing was fed.
fn read_more<F: Shelf>(
    tries: Tries,
    shelf: &mut F,
    buf: &mut [u8],
    stream: &mut Stream,
) -> Result<(), ReadStop>
    requires { 0 < length buf.old }
    ensures piece { ReadsPiece (length buf.old) result (F.left shelf.old) (F.left shelf.new) stream.old stream.new }
    ensures size { length buf.new ≡ length buf.old }
    ensures same { (n : List ℕ) → F.holds shelf.new n ≡ F.holds shelf.old n }
    ensures count { F.faults shelf.old ≤ F.faults shelf.new }
    ensures failed { IsErrOf result stops.Failed → Rose (F.faults shelf.old) (F.faults shelf.new) }
    ensures sound { F.is_sound shelf.old → F.is_sound shelf.new × (result ≢ Err stops.Failed) }
{
    match shelf.read(buf) {
        Ok(0) => {
            stream.close();
            Ok(())
        }
        Ok(size) => match feed(stream, tries, &buf[..size]) {
            Ok(()) => Ok(()),
            Err(_) => Err(ReadStop::Memory),
        },
        Err(_) => Err(ReadStop::Failed),
    }
}

/// Runs the text that was begun, in a session that has stated nothing, by a stream of which nothing came. Both are lent, so
/// that no way out drops them.
fn run_pieces<F: Shelf, K: Sink>(
    alloc: Global,
    tries: Tries,
    stream: &mut Stream,
    session: &mut Session,
    shelf: &mut F,
    out: &mut K,
) -> Status
    requires session { IsSession session.old first_state }
    requires empty { bytes_of stream.old ≡ [] }
    requires start { taken_to stream.old ≡ 0 }
    requires open { stream.old.closed ≡ false }
    ensures ends { EndsReading (run_start session.old.limits session.old.mode (K.state out.old)) result
        (F.left shelf.old) (F.left shelf.new) (K.state out.new) }
    ensures taken { result ≢ Status.Memory → TakesText (F.left shelf.old) (F.left shelf.new) }
    ensures same { (n : List ℕ) → F.holds shelf.new n ≡ F.holds shelf.old n }
    ensures count { F.faults shelf.old ≤ F.faults shelf.new }
    ensures failed { result ≡ Status.ReadFault → Rose (F.faults shelf.old) (F.faults shelf.new) }
    ensures sound { F.is_sound shelf.old → F.is_sound shelf.new × (result ≢ Status.ReadFault) }
{
    spec_text::laws::each_text_is_read();
    spec_sessions::laws::answers_say_what_is_so();
    sexpr_stream::laws::items_are_those_of_the_joined_pieces();
    let mut buf = [0u8; PIECE];
    let mut refused = false;
    'turns: loop {
        match answer_held(alloc, tries, refused, stream, session, out) {
            Pause::ForMore(told) => refused = told,
            Pause::Ended(status) => return status,
        }
        match read_more(tries, shelf, &mut buf, stream) {
            Ok(()) => {}
            Err(ReadStop::Failed) => return Status::ReadFault,
            Err(ReadStop::Memory) => return Status::Memory,
        }
    }
}

/// Makes a session and a stream, and runs the text that was begun.
pub(crate) fn run_begun<F: Shelf, K: Sink>(
    alloc: Global,
    tries: Tries,
    limits: &Limits,
    mode: Mode,
    shelf: &mut F,
    out: &mut K,
) -> Status
    ensures ends { EndsReading (run_start limits.now mode (K.state out.old)) result (F.left shelf.old)
        (F.left shelf.new) (K.state out.new) }
    ensures taken { result ≢ Status.Memory → TakesText (F.left shelf.old) (F.left shelf.new) }
    ensures same { (n : List ℕ) → F.holds shelf.new n ≡ F.holds shelf.old n }
    ensures count { F.faults shelf.old ≤ F.faults shelf.new }
    ensures failed { result ≡ Status.ReadFault → Rose (F.faults shelf.old) (F.faults shelf.new) }
    ensures sound { F.is_sound shelf.old → F.is_sound shelf.new × (result ≢ Status.ReadFault) }
{
    spec_text::laws::each_text_is_read();
    spec_sessions::laws::answers_say_what_is_so();
    let Ok(mut session) = new_session(alloc, tries, limits, mode) else {
        return Status::Memory;
    };
    let mut stream = Stream::new(alloc);
    run_pieces(alloc, tries, &mut stream, &mut session, shelf, out)
}

/// Runs the script that a shelf holds under a name: takes its commands one after the other, up to its end, to `exit`, or to
/// a fault after which it cannot be read on, and writes what each is answered.
///
/// A read is asked for only where no further command is whole in the bytes that came, and all responses to those that are
/// were written and passed on. So a client that sends a command and waits has its answer.
///
/// - `Done`: nothing was refused; `Refused`: a command was refused, or such a fault ended the run, and its line was written.
/// - `Memory` comes where memory ran out; what is to be written for the commands that were run was written.
/// - `ReadFault` comes only where the count of faults of the shelf rose in this call. What was written is exactly the responses to
///   the commands that the bytes hold which were read. A shelf may fail at each read, so this is so where each read begins.
/// - `WriteFault` comes where the sink failed; a prefix of what was to be written was, and there was no room for all of it.
/// - `Words` never comes.
///
/// Of the text the first 2^30 bytes are read; where there are more, the first of them is the fault `TooLong`, unless the run
/// ends before. At most one read more is taken. Source: SMT-LIB 2.6, sections 3.9 and 4.2; the limit, and when a read is asked for, are own.
pub fn run_script<F: Shelf, K: Sink>(
    alloc: Global,
    name: &str,
    limits: &Limits,
    mode: Mode,
    shelf: &mut F,
    out: &mut K,
) -> Status
    ensures ends { ScriptMeans result (run_meant mode name.now limits.now) (F.holds shelf.old) (K.state out.old)
        (K.state out.new) }
    ensures so_far { result ≡ Status.ReadFault → ReadsSoFar (run_meant mode name.now limits.now)
        (F.holds shelf.old name.now) (F.left shelf.old) (F.left shelf.new) (K.state out.old) (K.state out.new) }
    ensures read_fault { result ≡ Status.ReadFault → Rose (F.faults shelf.old) (F.faults shelf.new) }
    ensures read { F.is_sound shelf.old → IsSome (F.holds shelf.old name.now) → result ≢ Status.ReadFault }
    ensures order { result ≢ Status.Memory → result ≢ Status.ReadFault
        → TakesText (F.holds shelf.old name.now) (F.left shelf.new) }
    ensures found { ((s : F) → IsSome (F.left s)) → IsSome (F.holds shelf.old name.now)
        ⊎ ((result ≡ Status.ReadFault) × (K.state out.new ≡ K.state out.old)) }
    ensures same { (n : List ℕ) → F.holds shelf.new n ≡ F.holds shelf.old n }
    ensures count { F.faults shelf.old ≤ F.faults shelf.new }
    ensures sound { F.is_sound shelf.old → F.is_sound shelf.new }
{
    let Ok(()) = shelf.begin(name) else {
        return Status::ReadFault;
    };
    run_begun(alloc, Tries::Once, limits, mode, shelf, out)
}
