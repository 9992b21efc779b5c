//! Calls that take memory, each made once or, where memory ran out, once more.

ghost use Rattle.std.specs.Prelude.{◌≡◌, ◌++◌, IfOk, OnOk, OnErr};
ghost use Rattle.spec_text.specs.Readings.{prefix};
ghost use Rattle.spec_sessions.specs.States.{first_state};
ghost use Rattle.sexpr_stream.specs.Streams.{bytes_of, IsNextItem, IsSame};
ghost use Rattle.smt_session.specs.Sessions.{IsSession, Stepped};

use no_memory::NoMemory;
use sat_budget::Limits;
use sexpr_stream::{NextItem, Stream};
use smt_lexer::Refused;
use smt_session::{After, Halt, Mode, Session};
use smt_sexpr::Sexpr;
use std::alloc::Global;
use world_io::Sink;

/// How often a call is made at most.
#[derive(Clone, Copy, Debug, PartialEq, Eq)]
pub(crate) enum Tries {
    /// Once: where memory ran out, that is what it came to.
    Once,
    /// Once more where memory ran out at the first time.
    Twice,
}

/// Makes a session that has stated nothing. `NoMemory` comes where memory ran out at each try.
pub(crate) fn new_session(
    alloc: Global,
    tries: Tries,
    limits: &Limits,
    mode: Mode,
) -> Result<Session, NoMemory>
    ensures begun { IfOk result (λ x. IsSession x first_state × (x.limits ≡ limits.now) × (x.mode ≡ mode)) }
{
    match Session::new(alloc, limits, mode) {
        Ok(session) => Ok(session),
        Err(NoMemory) => match tries {
            Tries::Once => Err(NoMemory),
            Tries::Twice => Session::new(alloc, limits, mode),
        },
    }
}

/// Feeds a piece. `NoMemory` comes where memory ran out at each try: nothing was fed.
pub(crate) fn feed(stream: &mut Stream, tries: Tries, piece: &[u8]) -> Result<(), NoMemory>
    ensures bytes { OnOk result (bytes_of stream.new ≡ prefix (bytes_of stream.old ++ piece.now)) }
    ensures place { stream.new.place ≡ stream.old.place }
    ensures closed { stream.new.closed ≡ stream.old.closed }
    ensures same { OnErr result (IsSame stream.old stream.new) }
{
    match stream.feed(piece) {
        Ok(()) => Ok(()),
        Err(NoMemory) => match tries {
            Tries::Once => Err(NoMemory),
            Tries::Twice => stream.feed(piece),
        },
    }
}

/// Gives what is next in a stream. `Memory` comes where memory ran out at each try.
pub(crate) fn next(alloc: Global, tries: Tries, stream: &Stream) -> Result<NextItem<'_>, Refused>
    ensures { IsNextItem stream.now result }
{
    match stream.next(alloc) {
        Ok(item) => Ok(item),
        Err(Refused::Fault(refusal)) => Err(Refused::Fault(refusal)),
        Err(Refused::Memory) => match tries {
            Tries::Once => Err(Refused::Memory),
            Tries::Twice => stream.next(alloc),
        },
    }
}

/// Takes a command, and writes what it is answered. `Memory` comes where memory ran out at each try: the session is as
/// before the command, and nothing was written.
pub(crate) fn step<K: Sink>(
    session: &mut Session,
    tries: Tries,
    command: &Sexpr<'_>,
    out: &mut K,
) -> Result<After, Halt>
    ensures same { (session.new.limits ≡ session.old.limits) × (session.new.mode ≡ session.old.mode) }
    ensures stepped { Stepped session.old session.new command.now result (K.state out.old) (K.state out.new) }
{
    match session.step(command, out) {
        Ok(after) => Ok(after),
        Err(Halt::Sink) => Err(Halt::Sink),
        Err(Halt::Memory) => match tries {
            Tries::Once => Err(Halt::Memory),
            Tries::Twice => session.step(command, out),
        },
    }
}
