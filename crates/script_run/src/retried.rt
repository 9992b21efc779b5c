//! The run of a script of which each call is made once more where memory ran out.

ghost use Rattle.std.specs.Prelude.{◌≡◌, ◌≢◌, ◌≤◌, ◌⊎◌, ℕ, List, IsSome};
ghost use Rattle.world_io.specs.Outside.{Rose};
ghost use Rattle.script_run.specs.Scripts.{TakesText, ScriptMeans, ReadsSoFar, run_meant};

use crate::script::run_begun;
use crate::status::Status;
use crate::tries::Tries;
use sat_budget::Limits;
use smt_session::Mode;
use std::alloc::Global;
use world_io::{Shelf, Sink};

/// Runs the script that a shelf holds under a name, as `run_script` does, but makes each call once more that answered that
/// memory ran out: those of its session and of its stream, and the one that makes the session.
///
/// What is written is the same transcript: where a call found no memory, its session and its stream are as they were. So a
/// run in which one allocation is refused loses nothing.
///
/// The statuses are those of `run_script`. `Memory` comes where memory ran out in both tries of a call.
pub fn run_with_retries<F: Shelf, K: Sink>(
    alloc: Global,
    name: &str,
    limits: &Limits,
    mode: Mode,
    shelf: &mut F,
    out: &mut K,
) -> Status
    ensures ends { ScriptMeans result (run_meant mode name.now limits.now) (F.holds shelf.old) (K.state out.old)
        (K.state out.new) }
    ensures so_far { result ≡ Status.ReadFault → ReadsSoFar (run_meant mode name.now limits.now)
        (F.holds shelf.old name.now) (F.left shelf.old) (F.left shelf.new) (K.state out.old) (K.state out.new) }
    ensures read_fault { result ≡ Status.ReadFault → Rose (F.faults shelf.old) (F.faults shelf.new) }
    ensures read { F.is_sound shelf.old → IsSome (F.holds shelf.old name.now) → result ≢ Status.ReadFault }
    ensures order { result ≢ Status.Memory → result ≢ Status.ReadFault
        → TakesText (F.holds shelf.old name.now) (F.left shelf.new) }
    ensures found { ((s : F) → IsSome (F.left s)) → IsSome (F.holds shelf.old name.now)
        ⊎ ((result ≡ Status.ReadFault) × (K.state out.new ≡ K.state out.old)) }
    ensures same { (n : List ℕ) → F.holds shelf.new n ≡ F.holds shelf.old n }
    ensures count { F.faults shelf.old ≤ F.faults shelf.new }
    ensures sound { F.is_sound shelf.old → F.is_sound shelf.new }
{
    let Ok(()) = shelf.begin(name) else {
        return Status::ReadFault;
    };
    run_begun(alloc, Tries::Twice, limits, mode, shelf, out)
}
