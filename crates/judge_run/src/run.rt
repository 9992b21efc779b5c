//! The run.

ghost use Rattle.std.specs.Prelude.{◌≡◌, ◌≢◌, ℕ, ◌≤◌, ◌⊎◌, List, IsSome};
ghost use Rattle.world_io.specs.Outside.{Rose};
ghost use Rattle.judge_run.specs.Runs.{BothHold, TextIsLast, JudgeMeans, IsUnread};
ghost use Rattle.judge_run.specs.Calls.{names_of};

use crate::output::report;
use crate::read::read_both;
use crate::request::JudgeRequest;
use crate::verdict::judge;
use script_run::Status;
use std::alloc::Global;
use world_io::{ReadStop, Shelf, Sink};

/// Judges the text of a request against its script, and writes the verdict: `valid`, or the first fault with its line and
/// column. Those of an expression that is not true are in the script, all others in the text.
///
/// Both texts are read, the script first, before anything is judged. Of each text the first 2^30 bytes are judged: a check
/// after them is not there, and a text that goes on after them has a fault.
///
/// `Done` comes where the text is accepted, `Refused` where it has a fault, `Memory` where an allocation was refused, and
/// `ReadFault` where the shelf failed: then nothing was written. `WriteFault` comes where the sink failed; a prefix of the
/// line was written.
pub fn run_judge<F: Shelf, K: Sink>(
    alloc: Global,
    request: JudgeRequest<'_>,
    shelf: &mut F,
    out: &mut K,
) -> Status
    ensures ends { JudgeMeans result (names_of request.entry) (F.holds shelf.old) (K.state out.old) (K.state out.new) }
    ensures read_fault { result ≡ Status.ReadFault → Rose (F.faults shelf.old) (F.faults shelf.new) }
    ensures read { F.is_sound shelf.old → BothHold (names_of request.entry) (F.holds shelf.old)
        → result ≢ Status.ReadFault }
    ensures order { result ≢ Status.Memory → result ≢ Status.ReadFault
        → TextIsLast (names_of request.entry) (F.holds shelf.old) (F.left shelf.new) }
    ensures found { ((s : F) → IsSome (F.left s)) → BothHold (names_of request.entry) (F.holds shelf.old)
        ⊎ IsUnread result (K.state out.old) (K.state out.new) }
    ensures same { (n : List ℕ) → F.holds shelf.new n ≡ F.holds shelf.old n }
    ensures reads { F.faults shelf.old ≤ F.faults shelf.new }
    ensures sound { F.is_sound shelf.old → F.is_sound shelf.new }
{
    match read_both(alloc, shelf, request.names) {
        Ok(texts) => report(judge(alloc, request.subject, &texts, request.at), out),
        Err(ReadStop::Failed) => Status::ReadFault,
        Err(ReadStop::Memory) => Status::Memory,
    }
}
