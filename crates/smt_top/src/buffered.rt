//! A run through a buffer before a sink.

ghost use Rattle.std.specs.Prelude.{◌≡◌, ◌≢◌, ◌≤◌, ◌⊎◌, ℕ, List, [], IsSome};
ghost use Rattle.world_io.specs.Outside.{Rose};
ghost use Rattle.smt_top.specs.Arguments.{asked};
ghost use Rattle.smt_top.specs.RunMeans.{RunMeans, AnswersSoFar, AsksNoText, AreHeld, LastIsRead, is_answered, through};
ghost use Rattle.judge_run.specs.Runs.{IsUnread};

use crate::run;
use script_run::Status;
use std::alloc::Global;
use world_io::{BufferedSink, Shelf, Sink};

/// Runs the program as `run` does, through a buffer before a sink, and at the end passes on what waits.
///
/// The statuses are those of `run`; where what waits at the end cannot be passed on, it is `WriteFault`. After `Done`,
/// `Refused` and `Words` nothing waits, also in the buffers of the sink: it has got all that was written.
pub fn run_buffered<F: Shelf, K: Sink + Drop>(
    alloc: Global,
    arguments: &[String],
    shelf: &mut F,
    out: &mut BufferedSink<K>,
) -> Status
    ensures ends { RunMeans result (asked arguments.now) (F.holds shelf.old) (through K.state out.old)
        (through K.state out.new) }
    ensures passed_on { (result ≡ Status.Done) ⊎ ((result ≡ Status.Refused) ⊎ (result ≡ Status.Words))
        → (through K.state out.new).pending ≡ [] }
    ensures so_far { result ≡ Status.ReadFault → AnswersSoFar (asked arguments.now) (F.holds shelf.old)
        (F.left shelf.old) (F.left shelf.new) (through K.state out.old) (through K.state out.new) }
    ensures read_fault { result ≡ Status.ReadFault → Rose (F.faults shelf.old) (F.faults shelf.new) }
    ensures read { F.is_sound shelf.old → AreHeld (asked arguments.now) (F.holds shelf.old)
        → result ≢ Status.ReadFault }
    ensures order { result ≢ Status.Memory → result ≢ Status.ReadFault
        → LastIsRead (asked arguments.now) (F.holds shelf.old) (F.left shelf.new) }
    ensures unasked { AsksNoText (asked arguments.now) → shelf.new ≡ shelf.old }
    ensures found { ((s : F) → IsSome (F.left s)) → AreHeld (asked arguments.now) (F.holds shelf.old)
        ⊎ IsUnread result (through K.state out.old) (through K.state out.new) }
    ensures same { (n : List ℕ) → F.holds shelf.new n ≡ F.holds shelf.old n }
    ensures reads { F.faults shelf.old ≤ F.faults shelf.new }
    ensures sound { F.is_sound shelf.old → F.is_sound shelf.new }
{
    let status = run(alloc, arguments, shelf, out);
    if !is_answered(status) {
        return status;
    }
    match out.flush() {
        Ok(()) => status,
        Err(_) => Status::WriteFault,
    }
}

/// Tells whether all that was to be written was written.
fn is_answered(status: Status) -> bool
    ensures { result ≡ is_answered status }
{
    match status {
        Status::Done | Status::Refused | Status::Words => true,
        Status::Memory | Status::ReadFault | Status::WriteFault => false,
    }
}
