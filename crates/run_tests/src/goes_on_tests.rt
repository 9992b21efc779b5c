//! Runs that go on after a call for which there was no memory. `bench/limits.py goes-on` runs them once for each allocation,
//! with that one refused: so each call of a test that takes memory is made once more, too.

use no_memory::NoMemory;
use smt_top::{Status, questions_go_on, session_goes_on};
use std::alloc::Global;
use std::test::Fail;
use world_io::MemSink;

/// How many bytes a transcript has at most.
const ROOM: u64 = 4_000;

/// What seven scripts in one session are answered.
const ROWS: &[u8] = b"success
unsat
success
unsat
success
unsat
success
unsat
success
sat
success
unsat
sat
success
unsat
sat
(error \"21:22: NotLiteral\")
";

/// What a script with questions is answered.
const QUESTIONS: &[u8] = b"sat
((x (/ 1 3)) ((+ x 1) (/ 4 3)))
(
  (define-fun x () Real (/ 1 3))
  (define-fun p () Bool false)
)
unsat
(
(assume h1 p)
(assume h2 (not p))
(step t1 (cl) :rule resolution :premises (h2 h1))
)
(error \"7:12: WrongMode\")
sat
((p false))
(error \"8:34: NotEnabled\")
(error \"8:50: PopTooFar\")
";

/// Makes a sink in two tries.
fn sink_of(alloc: Global) -> Result<MemSink, NoMemory> {
    match MemSink::new(alloc, ROOM, ROOM, Vec::new(alloc)) {
        Ok(sink) => Ok(sink),
        Err(NoMemory) => MemSink::new(alloc, ROOM, ROOM, Vec::new(alloc)),
    }
}

/// Tells whether seven scripts in one session are answered so.
fn rows_are_answered(alloc: Global) -> Result<bool, NoMemory> {
    let mut out = sink_of(alloc)?;
    let status = session_goes_on(alloc, &mut out);
    Ok(status == Status::Refused && out.written() == ROWS)
}

/// Tells whether a script with questions is answered so.
fn questions_are_answered(alloc: Global) -> Result<bool, NoMemory> {
    let mut out = sink_of(alloc)?;
    let status = questions_go_on(alloc, &mut out);
    Ok(status == Status::Refused && out.written() == QUESTIONS)
}

#[test]
fn a_session_goes_on(rt: HostRuntime) -> Result<(), Fail> {
    assert!(rt; rows_are_answered(rt.alloc())?);
    Ok(())
}

#[test]
fn questions_go_on_too(rt: HostRuntime) -> Result<(), Fail> {
    assert!(rt; questions_are_answered(rt.alloc())?);
    Ok(())
}
