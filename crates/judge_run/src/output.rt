//! The line of a verdict.

ghost use Rattle.std.specs.Prelude.{◌≢◌, ◌≤◌, length, IsOk};
ghost use Rattle.world_io.specs.Writing.{HasRoom};
ghost use Rattle.smt_session.specs.Sessions.{Delivers};
ghost use Rattle.judge_run.specs.Judgings.{JudgedTexts, valid, longest_line};
ghost use Rattle.judge_run.specs.Runs.{Reports};
ghost use Rattle.judge_run.specs.Calls.{fault_line, IsJudged};

use crate::verdict::{Fault, Verdict};
use reply_text::error;
use script_run::Status;
use world_io::{Failed, Sink, write_all};

/// The line of a text that is accepted.
const VALID: &[u8] = b"valid\n";

/// Writes that a text is accepted, and passes it on. It takes no memory.
///
/// `Failed` comes only where the sink's count of faults rose in this call; a prefix was then appended.
fn write_valid<K: Sink>(out: &mut K) -> Result<(), Failed>
    ensures sends { Delivers valid result (K.state out.old) (K.state out.new) }
    ensures room { HasRoom (K.state out.old) longest_line → IsOk result }
{
    write_all(out, VALID)?;
    out.flush()
}

/// Writes a fault with its line and column, both from 1, in decimal, and passes it on. It takes no memory.
///
/// `Failed` comes only where the sink's count of faults rose in this call; a prefix was then appended.
fn write_fault<K: Sink>(fault: Fault, out: &mut K) -> Result<(), Failed>
    ensures sends { Delivers (fault_line fault) result (K.state out.old) (K.state out.new) }
    ensures short { length (fault_line fault) ≤ longest_line }
    ensures room { HasRoom (K.state out.old) longest_line → IsOk result }
{
    error(fault.place, fault.kind.name().as_bytes(), out)?;
    out.flush()
}

/// Writes a verdict, and tells how the run ends by it.
///
/// Where memory ran out nothing is written.
pub(crate) fn report<K: Sink>(verdict: Verdict, out: &mut K) -> Status
    ensures reports { (t : JudgedTexts) → IsJudged t verdict → Reports result t (K.state out.old) (K.state out.new) }
    ensures no_read { result ≢ Status.ReadFault }
{
    match verdict {
        Verdict::Accepted => match write_valid(out) {
            Ok(()) => Status::Done,
            Err(_) => Status::WriteFault,
        },
        Verdict::Faulty(fault) => match write_fault(fault, out) {
            Ok(()) => Status::Refused,
            Err(_) => Status::WriteFault,
        },
        Verdict::Memory => Status::Memory,
    }
}
