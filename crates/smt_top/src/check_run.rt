//! The run.

ghost use Rattle.std.specs.Prelude.{◌≡◌, ◌≢◌, ℕ, ◌≤◌, ◌⊎◌, List, IsSome};
ghost use Rattle.world_io.specs.Outside.{Rose};
ghost use Rattle.smt_top.specs.Arguments.{asked};
ghost use Rattle.smt_top.specs.Calls.{run_of};
ghost use Rattle.smt_top.specs.RunMeans.{UsageMeans, RunMeans, AnswersSoFar, AsksNoText, AreHeld, LastIsRead};
ghost use Rattle.judge_run.specs.Runs.{IsUnread};
ghost use Rattle.script_run.specs.Scripts.{TakesText, ScriptMeans, ReadsSoFar};

use crate::arguments::{ArgumentsStop, Request, RunRequest, request_from};
use crate::generated::run_generated;
use crate::output::write_usage;
use assertion_stack::TERM_LIMIT;
use judge_run::run_judge;
use sat_budget::Limits;
use script_run::Status;
use std::alloc::Global;
use world_io::{Shelf, Sink};

/// Runs the script of a request: each command is taken as soon as it has come, and its response is written and passed on before
/// more of the text is read.
fn run_script<F: Shelf, K: Sink>(
    alloc: Global,
    request: RunRequest<'_>,
    shelf: &mut F,
    out: &mut K,
) -> Status
    ensures ends { ScriptMeans result (run_of request.entry) (F.holds shelf.old) (K.state out.old) (K.state out.new) }
    ensures so_far { result ≡ Status.ReadFault → ReadsSoFar (run_of request.entry)
        (F.holds shelf.old request.entry.name.now) (F.left shelf.old) (F.left shelf.new) (K.state out.old) (K.state out.new) }
    ensures read_fault { result ≡ Status.ReadFault → Rose (F.faults shelf.old) (F.faults shelf.new) }
    ensures read { F.is_sound shelf.old → IsSome (F.holds shelf.old request.entry.name.now)
        → result ≢ Status.ReadFault }
    ensures order { result ≢ Status.Memory → result ≢ Status.ReadFault
        → TakesText (F.holds shelf.old request.entry.name.now) (F.left shelf.new) }
    ensures found { ((s : F) → IsSome (F.left s)) → IsSome (F.holds shelf.old request.entry.name.now)
        ⊎ IsUnread result (K.state out.old) (K.state out.new) }
    ensures same { (n : List ℕ) → F.holds shelf.new n ≡ F.holds shelf.old n }
    ensures reads { F.faults shelf.old ≤ F.faults shelf.new }
    ensures sound { F.is_sound shelf.old → F.is_sound shelf.new }
{
    let limits = Limits {
        conflicts: request.conflicts,
        terms: TERM_LIMIT,
    };
    script_run::run_script(alloc, request.name, &limits, request.mode, shelf, out)
}

/// Writes the usage text.
fn run_usage<K: Sink>(out: &mut K) -> Status
    ensures ends { UsageMeans result (K.state out.old) (K.state out.new) }
    ensures no_read { (result ≡ Status.Words) ⊎ (result ≡ Status.WriteFault) }
{
    match write_usage(out) {
        Ok(()) => Status::Words,
        Err(_) => Status::WriteFault,
    }
}

/// Runs the program: does what the arguments ask for after its name.
///
/// - `solve [--conflicts N] [NAME]` runs the script of that name and writes the standard's responses; an absent name is the
///   empty one. `certify` does the same, and writes after the answer of each check what shows it: a model, a proof or a
///   reason. N is the most conflicts of each search of a check, 1,000,000 where it is not given. Of the text the first
///   2^30 bytes are run. A read is asked for only where no further command is whole in the bytes that came, and the
///   responses to all that are were written and passed on.
/// - `check [--at K] SCRIPT PROOF` judges the proof against the script's K-th check, from 1, or the first where K is not
///   given: it writes `valid`, or the proof's first fault with its line and column.
/// - `validate [--at K] SCRIPT MODEL` judges the model against the same check: it writes `valid`, or the model's first fault
///   with its line and column, or that of the first expression of the script that is not found true.
/// - `gen SIZE` makes the script of that size, runs it as `certify` does, and writes a line: the size, the answer of its one
///   check, how many clauses were learned and pivots made, and of how many bytes the evidence is. The proof or the model is
///   judged before, if `check` or `validate` would read it.
/// - All other arguments give the usage text, and `Words`.
///
/// `Done` and `Refused` tell of a script whether something in it was refused, of a text that is judged whether it is accepted.
/// `Refused` never comes of a script that is made. `Memory` comes where an allocation was refused, `ReadFault` where the shelf
/// failed. Of a script exactly the responses to the commands are written then that the bytes hold which were read: a shelf may
/// fail at each read, so this is so where each read begins.
/// `WriteFault` comes where the sink failed: what was written is a prefix of what was to be written for the commands that were
/// run, or of the line, and the sink had no room for all of it.
///
/// What is written is passed on: where nothing waited in a buffer before, nothing waits after `Done`, `Refused` and `Words`.
/// Of the text that was read last at most 2^30 bytes and one read more are taken. After `Memory` and `ReadFault` no clause
/// says how many. Where the arguments ask for no text, the shelf is as it was.
pub fn run<F: Shelf, K: Sink>(
    alloc: Global,
    arguments: &[String],
    shelf: &mut F,
    out: &mut K,
) -> Status
    ensures ends { RunMeans result (asked arguments.now) (F.holds shelf.old) (K.state out.old) (K.state out.new) }
    ensures so_far { result ≡ Status.ReadFault → AnswersSoFar (asked arguments.now) (F.holds shelf.old)
        (F.left shelf.old) (F.left shelf.new) (K.state out.old) (K.state out.new) }
    ensures read_fault { result ≡ Status.ReadFault → Rose (F.faults shelf.old) (F.faults shelf.new) }
    ensures read { F.is_sound shelf.old → AreHeld (asked arguments.now) (F.holds shelf.old)
        → result ≢ Status.ReadFault }
    ensures order { result ≢ Status.Memory → result ≢ Status.ReadFault
        → LastIsRead (asked arguments.now) (F.holds shelf.old) (F.left shelf.new) }
    ensures unasked { AsksNoText (asked arguments.now) → shelf.new ≡ shelf.old }
    ensures found { ((s : F) → IsSome (F.left s)) → AreHeld (asked arguments.now) (F.holds shelf.old)
        ⊎ IsUnread result (K.state out.old) (K.state out.new) }
    ensures same { (n : List ℕ) → F.holds shelf.new n ≡ F.holds shelf.old n }
    ensures reads { F.faults shelf.old ≤ F.faults shelf.new }
    ensures sound { F.is_sound shelf.old → F.is_sound shelf.new }
{
    match request_from(alloc, arguments) {
        Ok(Request::Judge(request)) => run_judge(alloc, request, shelf, out),
        Ok(Request::Run(request)) => run_script(alloc, request, shelf, out),
        Ok(Request::Generate(size)) => run_generated(alloc, size, out),
        Err(ArgumentsStop::Wrong) => run_usage(out),
        Err(ArgumentsStop::Memory) => Status::Memory,
    }
}
