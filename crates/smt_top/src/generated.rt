//! A script that is made by its size: it is run, and a line says what its check finds.

ghost use Rattle.std.specs.Prelude.{◌≡◌, ◌≢◌, ◌+◌, ◌≤◌, [], length, drop, Some, IfOk};
ghost use Rattle.spec_sessions.specs.Evidence.{Checked};
ghost use Rattle.spec_sessions.specs.States.{State, first_state, unsat_mode, mode_found};
ghost use Rattle.spec_sessions.specs.Responses.{certify, evidence_text};
ghost use Rattle.spec_sessions.specs.Meaning.{AnswerSays};
ghost use Rattle.check_evidence.specs.Evidence.{limits_meant};
ghost use Rattle.smt_session.specs.Sessions.{mode_meant, execution_meant, IsSession, Delivers};
ghost use Rattle.smt_top.specs.Generated.{usual_limits, letters_of, generated_line, GenMeans, HasAnswer, Solves, IsNoFault};

use crate::answered::answer_all;
use crate::arguments::USUAL_CONFLICTS;
use crate::vec_sink::VecSink;
use alethe_check::{ProofStop, check};
use assertion_stack::TERM_LIMIT;
use gen_script::text;
use itoa::Buffer;
use model_judge::{ModelStop, judge as judge_file};
use sat_budget::Limits;
use script_run::Status;
use smt_session::{ExecutionMode, Mode, Session};
use smt_sexpr::{LimitedText, TEXT_LIMIT};
use std::alloc::Global;
use world_io::{Failed, Sink, write_pieces};

/// Gives the word of an answer, by the mode after it; before an answer there is none.
fn letters(mode: ExecutionMode) -> &'static [u8]
    ensures { result.now ≡ letters_of (execution_meant mode) }
{
    match mode {
        ExecutionMode::Start => b"",
        ExecutionMode::Assert => b"",
        ExecutionMode::Sat => b"sat",
        ExecutionMode::Unsat => b"unsat",
        ExecutionMode::Unknown => b"unknown",
    }
}

/// Writes the line of a script of a size, as `8 sat conflicts 0 pivots 1 bytes 300`, and passes it on: its size, the answer that
/// the last check of the session had, how many clauses the session's budget has learned and how many pivots it has, and the
/// bytes. It takes no memory.
///
/// `Failed` comes only where the sink's count of faults rose in this call; a prefix was then appended, and there was no room
/// for all of it.
pub fn gen_line<K: Sink>(n: u64, session: &Session, bytes: u64, out: &mut K) -> Result<(), Failed>
    requires answered { HasAnswer session.now }
    ensures { (s : State) (c : Checked) → IsSession session.now s → s.answer ≡ Some c
        → Delivers (generated_line n c.found (length session.now.script.budget.learned)
        (length session.now.script.budget.exchanges) bytes) result (K.state out.old) (K.state out.new) }
{
    let budget = session.budget();
    let mut size = Buffer::new();
    let mut conflicts = Buffer::new();
    let mut pivots = Buffer::new();
    let mut len = Buffer::new();
    write_pieces(
        out,
        &[
            size.format(n).as_bytes(),
            b" ",
            letters(session.execution_mode()),
            b" conflicts ",
            conflicts.format(budget.learnt_len()).as_bytes(),
            b" pivots ",
            pivots.format(budget.exchanged_len()).as_bytes(),
            b" bytes ",
            len.format(bytes).as_bytes(),
            b"\n",
        ],
    )?;
    out.flush()
}

/// Lends what was written after the line of a word.
fn after_line<'a>(written: &'a [u8], word: &[u8]) -> &'a [u8]
    requires { length word.now + 1 ≤ length written.now }
    ensures { result.now ≡ drop (length word.now + 1) written.now }
{
    &written[word.len() + 1..]
}

/// So many bytes a script and a proof have at most that surely have room for no more names and terms than `check` takes.
const ROOMY: usize = 1 << 26;

/// Judges a proof of the one check of a script, where both are so short that it is accepted.
///
/// `Memory` comes where an allocation was refused. `Fault` never comes of the proof that shows the script's answer.
fn judge_proof(alloc: Global, script: &[u8], proof: &[u8]) -> Result<(), ProofStop>
    ensures { (c : Checked) → AnswerSays usual_limits script.now 1 c → unsat_mode ≡ mode_found c.found
        → proof.now ≡ evidence_text c → IsNoFault result }
{
    spec_checking::laws::accepted_proofs_have_no_fault();
    spec_checking::laws::verdict_is_one();
    if script.len() > ROOMY {
        return Ok(());
    }
    if proof.len() > ROOMY {
        return Ok(());
    }
    check(alloc, script, 1, proof)
}

/// Judges a model of the one check of a script. What is found of it changes nothing: of one that is right an operation may
/// leave the bound on fractions.
///
/// `Memory` comes where an allocation was refused. `Fault` never comes.
fn judge_model(alloc: Global, script: &[u8], model: &[u8]) -> Result<(), ProofStop>
    ensures { IsNoFault result }
{
    match judge_file(alloc, script, 1, model) {
        Err(ModelStop::Memory) => Err(ProofStop::Memory),
        _ => Ok(()),
    }
}

/// Judges the evidence of the one check of a script, by the mode after it: a proof that is short enough to be accepted, or a
/// model that `validate` would read.
///
/// `Memory` comes where an allocation was refused. `Fault` never comes of evidence of the script's check.
fn judge(
    alloc: Global,
    script: &[u8],
    mode: ExecutionMode,
    evidence: &[u8],
) -> Result<(), ProofStop>
    ensures { (c : Checked) → AnswerSays usual_limits script.now 1 c → execution_meant mode ≡ mode_found c.found
        → evidence.now ≡ evidence_text c → IsNoFault result }
{
    match mode {
        ExecutionMode::Unsat => judge_proof(alloc, script, evidence),
        ExecutionMode::Sat if evidence.len() <= TEXT_LIMIT => judge_model(alloc, script, evidence),
        _ => Ok(()),
    }
}

/// Makes the script of a size, runs it in a session that has stated nothing, judges the evidence of its check, and gives of how
/// many bytes that is.
///
/// `Memory` comes where an allocation was refused. `Fault` never comes.
fn solve(alloc: Global, n: u64, session: &mut Session, out: &mut VecSink) -> Result<u64, ProofStop>
    requires session { IsSession session.old first_state }
    requires mode { mode_meant session.old.mode ≡ certify }
    requires limits { limits_meant session.old.limits ≡ usual_limits }
    requires empty { out.old.written ≡ [] }
    ensures solves { IfOk result (λ bytes. Solves n bytes session.new) }
    ensures accepted { IsNoFault result }
{
    spec_sessions::laws::answers_say_what_is_so();
    let Ok(script) = text(alloc, n) else {
        return Err(ProofStop::Memory);
    };
    let Ok(()) = answer_all(alloc, LimitedText::new(script.as_slice()), session, out) else {
        return Err(ProofStop::Memory);
    };
    let mode = session.execution_mode();
    let word = letters(mode);
    if word.is_empty() {
        return Err(ProofStop::Memory);
    }
    let evidence = after_line(out.written(), word);
    match judge(alloc, script.as_slice(), mode, evidence) {
        Ok(()) => Ok(evidence.len() as u64),
        Err(stop) => Err(stop),
    }
}

/// Writes the line of a script that was run in a session, and tells how the run ends by it.
fn write_line<K: Sink>(n: u64, session: &Session, bytes: u64, out: &mut K) -> Status
    requires { Solves n bytes session.now }
    ensures ends { GenMeans result n (K.state out.old) (K.state out.new) }
    ensures no_read { result ≢ Status.ReadFault }
{
    match gen_line(n, session, bytes, out) {
        Ok(()) => Status::Done,
        Err(_) => Status::WriteFault,
    }
}

/// Makes the script of a size, runs it, and writes its line.
///
/// The budget of its check is the usual one. A proof that `check` would read, or a model that `validate` would, is judged
/// before the line is written. `Memory` comes where an allocation was refused; nothing was written. `WriteFault` comes where
/// the sink failed; a prefix of the line was written.
pub(crate) fn run_generated<K: Sink>(alloc: Global, n: u64, out: &mut K) -> Status
    ensures ends { GenMeans result n (K.state out.old) (K.state out.new) }
    ensures no_read { result ≢ Status.ReadFault }
{
    let limits = Limits {
        conflicts: USUAL_CONFLICTS,
        terms: TERM_LIMIT,
    };
    let Ok(mut session) = Session::new(alloc, &limits, Mode::Certify) else {
        return Status::Memory;
    };
    let mut written = VecSink::new(alloc);
    match solve(alloc, n, &mut session, &mut written) {
        Ok(bytes) => write_line(n, &session, bytes, out),
        Err(ProofStop::Fault(_)) => Status::Refused,
        Err(ProofStop::Memory) => Status::Memory,
    }
}
