//! The usage text.

ghost use Rattle.std.specs.Prelude.{IsOk};
ghost use Rattle.world_io.specs.Writing.{HasRoom};
ghost use Rattle.smt_session.specs.Sessions.{Delivers};
ghost use Rattle.judge_run.specs.Judgings.{longest_line};
ghost use Rattle.smt_top.specs.Output.{usage};

use world_io::{Failed, Sink, write_all};

/// The usage text.
const USAGE: &[u8] =
    b"usage: smt_cli solve [--conflicts N] [NAME]\n       smt_cli certify [--conflicts N] [NAME]\n       smt_cli check [--at K] SCRIPT PROOF\n       smt_cli gen N\n       smt_cli validate [--at K] SCRIPT MODEL\n";

/// Writes the usage text, and passes it on. It takes no memory.
///
/// `Failed` comes only where the sink's count of faults rose in this call; a prefix was then appended.
pub(crate) fn write_usage<K: Sink>(out: &mut K) -> Result<(), Failed>
    ensures sends { Delivers usage result (K.state out.old) (K.state out.new) }
    ensures room { HasRoom (K.state out.old) longest_line → IsOk result }
{
    write_all(out, USAGE)?;
    out.flush()
}
