//! What commands are answered, and how that is written.

ghost use Rattle.std.specs.Prelude.{◌≡◌, ◌++◌, ℕ, List};
ghost use Rattle.world_io.specs.Writing.{Sends};
ghost use Rattle.spec_sorts.specs.Signatures.{symbols_in};
ghost use Rattle.spec_commands.specs.Stack.{signature_of};
ghost use Rattle.spec_sessions.specs.Evidence.{Checked};
ghost use Rattle.spec_sessions.specs.Responses.{Response as SpokenResponse, Answered, answer_text, shown_text, success_by, string_line, response_text};
ghost use Rattle.sat_budget.specs.Budgets.{BudgetView};
ghost use Rattle.check_evidence.specs.Evidence.{IsEvidence, IsSomeEvidence};
ghost use Rattle.smt_reply.specs.Replies.{OnAnswer};
ghost use Rattle.smt_session.specs.declared.script.Script.{Script as HeldScript};
ghost use Rattle.smt_session.specs.Sessions.{mode_meant, IsResponse, IsResponseOf, IsSomeResponse, after_meant, Delivers};

use crate::mode::Mode;
use crate::script::Script;
use crate::session::After;
use check_evidence::{Evidence, send_answer, send_evidence};
use reply_text::{ResponseWord, error, word};
use smt_lexer::Refusal;
use smt_reply::{Reply, send_reply};
use term_core::TermTable;
use world_io::{Failed, Sink, write_pieces};

/// What a command is answered.
#[derive(Drop)]
pub(crate) enum Response<'a> {
    /// It was done.
    Success,
    /// Its option is not known.
    Unsupported,
    /// Something was found at its check, which the script keeps.
    Answered,
    /// Its text is written, which is between its quotes.
    Echoed(&'a [u8]),
    /// It was done, and the script ends.
    Ended,
    /// This answers what it asks.
    Replied(Reply),
    /// It was refused.
    Rejected(Refusal),
}

/// Tells what comes after a command that is answered so.
pub(crate) fn after_of(response: &Response<'_>) -> After
    ensures { (x : HeldScript) (text : List ℕ) (r : SpokenResponse)
        → IsResponse x text response.now r → result ≡ after_meant r }
{
    match response {
        Response::Success | Response::Unsupported | Response::Answered | Response::Echoed(_) =>
            After::Went,
        Response::Replied(_) => After::Went,
        Response::Ended => After::Ended,
        Response::Rejected(_) => After::Refused,
    }
}

/// Writes the answer of a check by what was found at it, and what shows it where that is wanted.
fn send_found<K: Sink>(
    mode: Mode,
    table: &TermTable,
    evidence: &Evidence,
    out: &mut K,
) -> Result<(), Failed>
    requires { IsSomeEvidence table.now evidence.now }
    ensures { (budget : BudgetView) (c : Checked) → symbols_in (signature_of c.check.stack) ≡ table.now.symbols
        → IsEvidence table.now budget evidence.now c.found
        → Sends (answer_text c.found ++ shown_text (mode_meant mode) c) result (K.state out.old) (K.state out.new) }
{
    send_answer(evidence, out)?;
    match mode {
        Mode::Solve => Ok(()),
        Mode::Certify => send_evidence(table, evidence, out),
    }
}

/// Writes the answer of a check that the script keeps, and what shows it where that is wanted.
fn send_check<K: Sink>(mode: Mode, script: &Script, out: &mut K) -> Result<(), Failed>
    requires { OnAnswer script.now.answer (IsSomeEvidence script.now.table) }
    ensures { (c : Checked) → symbols_in (signature_of c.check.stack) ≡ script.now.table.symbols
        → OnAnswer script.now.answer (λ e. IsEvidence script.now.table script.now.budget e c.found)
        → Sends (answer_text c.found ++ shown_text (mode_meant mode) c) result (K.state out.old) (K.state out.new) }
{
    match &script.answer {
        None => Ok(()),
        Some(evidence) => send_found(mode, &script.table, evidence, out),
    }
}

/// Writes a string as it is in a script, on a line.
fn send_string<K: Sink>(text: &[u8], out: &mut K) -> Result<(), Failed>
    ensures { Sends (string_line text.now) result (K.state out.old) (K.state out.new) }
{
    write_pieces(out, &[b"\"", text, b"\"\n"])
}

/// Writes `success`, where that is printed.
fn send_success<K: Sink>(print: bool, out: &mut K) -> Result<(), Failed>
    ensures { Sends (success_by print) result (K.state out.old) (K.state out.new) }
{
    if print {
        return word(ResponseWord::Success, out);
    }
    Ok(())
}

/// Writes a response, of which bytes may wait in a buffer then.
fn write_response<K: Sink>(
    mode: Mode,
    script: &Script,
    response: &Response<'_>,
    out: &mut K,
) -> Result<(), Failed>
    requires { IsSomeResponse script.now response.now }
    ensures { (text : List ℕ) (a : Answered) → IsResponseOf script.now text response.now a
        → Sends (response_text (mode_meant mode) text a) result (K.state out.old) (K.state out.new) }
{
    match response {
        Response::Success | Response::Ended => {
            send_success(script.stack.options.print_success, out)
        }
        Response::Unsupported => word(ResponseWord::Unsupported, out),
        Response::Answered => send_check(mode, script, out),
        Response::Echoed(text) => send_string(text, out),
        Response::Replied(reply) => {
            send_reply(&script.table, &script.stack, &script.answer, reply, out)
        }
        Response::Rejected(refusal) => {
            error(refusal.place, refusal.fault.name().as_bytes(), out)
        }
    }
}

/// Writes a response, and passes on what waits of it: then nothing waits in a buffer.
pub(crate) fn send_response<K: Sink>(
    mode: Mode,
    script: &Script,
    response: &Response<'_>,
    out: &mut K,
) -> Result<(), Failed>
    requires { IsSomeResponse script.now response.now }
    ensures { (text : List ℕ) (a : Answered) → IsResponseOf script.now text response.now a
        → Delivers (response_text (mode_meant mode) text a) result (K.state out.old) (K.state out.new) }
{
    write_response(mode, script, response, out)?;
    out.flush()
}
