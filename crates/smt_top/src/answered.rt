//! The commands of a text, each answered in a session, up to the one check that it ends with.

ghost use Rattle.std.specs.Prelude.{◌≡◌, [], IfOk};
ghost use Rattle.spec_sessions.specs.States.{first_state};
ghost use Rattle.check_evidence.specs.Evidence.{limits_meant};
ghost use Rattle.smt_sexpr.specs.Limited.{whole_of};
ghost use Rattle.smt_session.specs.Sessions.{mode_meant, IsSession};
ghost use Rattle.spec_sessions.specs.Responses.{certify};
ghost use Rattle.smt_top.specs.Generated.{IsAnsweredAll};

use crate::vec_sink::VecSink;
use no_memory::NoMemory;
use smt_session::{After, Session};
use smt_sexpr::LimitedText;
use std::alloc::Global;

/// Answers the commands of a text one after the other, in a session that has stated nothing. Each is taken, and none but the
/// last has anything written for it.
///
/// `NoMemory` comes where memory ran out; it would come, too, for a text with a fault, or with a command that is refused, that
/// ends it, or that comes after what was written.
pub(crate) fn answer_all(
    alloc: Global,
    text: LimitedText<'_>,
    session: &mut Session,
    out: &mut VecSink,
) -> Result<(), NoMemory>
    requires session { IsSession session.old first_state }
    requires mode { mode_meant session.old.mode ≡ certify }
    requires empty { out.old.written ≡ [] }
    ensures { IfOk result (λ _. IsAnsweredAll (limits_meant session.old.limits) (whole_of text.entry) session.new
        out.new.written) }
{
    let mut place = text.start();
    'commands: loop {
        let (command, after) = match text.next_one(alloc, place) {
            Ok(Some(read)) => read,
            Ok(None) => return Ok(()),
            Err(_) => return Err(NoMemory),
        };
        if !out.written().is_empty() {
            return Err(NoMemory);
        }
        match session.step(&command, out) {
            Ok(After::Went) => place = after,
            Ok(After::Refused | After::Ended) => return Err(NoMemory),
            Err(_) => return Err(NoMemory),
        }
    }
}
