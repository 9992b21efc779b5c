//! The commands that a text in pieces has, each answered as soon as it is there.

ghost use Rattle.std.specs.Prelude.{◌≡◌, ℕ, List};
ghost use Rattle.smt_session.specs.Sessions.{Delivers};
ghost use Rattle.sexpr_stream.specs.Streams.{bytes_of};
ghost use Rattle.script_run.specs.Runs.{is_last, is_refusal, ended_by, line_of_refusal, Ended};
ghost use Rattle.script_run.specs.Answering.{RunStart, IsAnswering, Pauses};

use crate::status::Status;
use crate::tries::{Tries, next, step};
use reply_text::error;
use sexpr_stream::{NextItem, Stream};
use smt_lexer::{Refusal, Refused};
use smt_session::{After, Halt, Session};
use std::alloc::Global;
use world_io::{Failed, Sink};

/// Tells why no further command is answered.
#[derive(Clone, Copy, Debug, PartialEq, Eq)]
pub(crate) enum Pause {
    /// What is next depends on bytes that may come. It says whether a command was refused up to here.
    ForMore(bool),
    /// The run came to its end.
    Ended(Status),
}

/// Writes the line of a refusal, and passes it on: then nothing waits in a buffer.
fn send_refusal<K: Sink>(refusal: Refusal, out: &mut K) -> Result<(), Failed>
    ensures { Delivers (line_of_refusal refusal) result (K.state out.old) (K.state out.new) }
{
    error(refusal.place, refusal.fault.name().as_bytes(), out)?;
    out.flush()
}

/// Ends a run at a fault: it writes its line.
fn end_at<K: Sink>(refusal: Refusal, out: &mut K) -> Status
    ensures { Ended refusal result (K.state out.old) (K.state out.new) }
{
    match send_refusal(refusal, out) {
        Ok(()) => Status::Refused,
        Err(_) => Status::WriteFault,
    }
}

/// Tells whether a command ended its script.
fn is_last(after: After) -> bool
    ensures { result ≡ is_last after }
{
    match after {
        After::Ended => true,
        After::Went | After::Refused => false,
    }
}

/// Tells whether a command was refused.
fn is_refusal(after: After) -> bool
    ensures { result ≡ is_refusal after }
{
    match after {
        After::Refused => true,
        After::Went | After::Ended => false,
    }
}

/// The status of a run that came to its end.
fn ended_by(refused: bool) -> Status
    ensures { result ≡ ended_by refused }
{
    if refused {
        return Status::Refused;
    }
    Status::Done
}

/// Answers the commands of a text in pieces one after the other, as long as each is next in all texts that go on so, and
/// writes what each is answered.
///
/// `tries` says how often each call is made, and `refused` whether a command was refused before. `ForMore` comes where no
/// further command is there yet: all that is there were answered. `Ended` comes at the end of the text, at `exit`, at a fault after which the text cannot be read on,
/// where memory ran out, and where the sink failed.
pub(crate) fn answer_held<K: Sink>(
    alloc: Global,
    tries: Tries,
    refused: bool,
    stream: &mut Stream,
    session: &mut Session,
    out: &mut K,
) -> Pause
    ensures bytes { bytes_of stream.new ≡ bytes_of stream.old }
    ensures closed { stream.new.closed ≡ stream.old.closed }
    ensures answered { (b : RunStart) (fed : List ℕ)
        → IsAnswering b fed stream.old session.old refused (K.state out.old)
        → Pauses b fed stream.new session.new result (K.state out.new) }
{
    spec_text::laws::each_text_is_read();
    spec_commands::faults_are_in_their_command();
    spec_sessions::laws::faults_are_in_their_question();
    sexpr_stream::laws::what_is_next_stays();
    sexpr_stream::laws::items_are_those_of_the_joined_pieces();
    let mut refused = refused;
    'commands: loop {
        let (told, after) = match next(alloc, tries, stream) {
            Ok(NextItem::Item(command, after)) => match step(session, tries, &command, out) {
                Ok(told) => (told, after),
                Err(Halt::Memory) => return Pause::Ended(Status::Memory),
                Err(Halt::Sink) => return Pause::Ended(Status::WriteFault),
            },
            Ok(NextItem::More) => return Pause::ForMore(refused),
            Ok(NextItem::Done) => return Pause::Ended(ended_by(refused)),
            Err(Refused::Fault(refusal)) => return Pause::Ended(end_at(refusal, out)),
            Err(Refused::Memory) => return Pause::Ended(Status::Memory),
        };
        if is_last(told) {
            return Pause::Ended(ended_by(refused));
        }
        refused |= is_refusal(told);
        stream.advance(after);
    }
}
