//! A run over texts in memory.

ghost use Rattle.std.specs.Prelude.{◌≡◌, ◌≢◌, ◌<◌, ℕ, List, [], Some};
ghost use Rattle.world_io.specs.Memory.{text_named, seen_sink};
ghost use Rattle.world_io.specs.Outside.{Rose};
ghost use Rattle.smt_top.specs.Arguments.{asked};
ghost use Rattle.smt_top.specs.RunMeans.{AnswersSoFar, AreHeld};
ghost use Rattle.smt_top.specs.InMemory.{EndsInMemory};

use crate::run;
use script_run::Status;
use std::alloc::Global;
use world_io::{MemShelf, MemSink};

/// Runs from memory to memory.
///
/// The statuses are those of `run`, and the names hold what they held.
pub fn run_in_memory(
    alloc: Global,
    arguments: &[String],
    shelf: &mut MemShelf,
    out: &mut MemSink,
) -> Status
    ensures ends { EndsInMemory result (asked arguments.now) shelf.old.texts out.old out.new }
    ensures same { (n : List ℕ) → text_named shelf.new.texts n ≡ text_named shelf.old.texts n }
    ensures so_far { result ≡ Status.ReadFault → AnswersSoFar (asked arguments.now) (text_named shelf.old.texts)
        (Some shelf.old.left) (Some shelf.new.left) (seen_sink out.old) (seen_sink out.new) }
    ensures read_fault { result ≡ Status.ReadFault → Rose shelf.old.faults shelf.new.faults }
    ensures write_fault { result ≡ Status.WriteFault → Rose out.old.faults out.new.faults }
    ensures read { shelf.old.failing ≡ [] → 0 < shelf.old.most
        → AreHeld (asked arguments.now) (text_named shelf.old.texts)
        → result ≢ Status.ReadFault }
{
    run(alloc, arguments, shelf, out)
}
