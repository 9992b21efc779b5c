//! What a session holds of a script, and what each command and each question makes of it.

ghost use Rattle.std.specs.Prelude.{◌≡◌, Some, None, Ok, IfOk, OnErr};
ghost use Rattle.sat_budget.specs.declared.limits.Limits.{Limits as CodeLimits};
ghost use Rattle.spec_sessions.specs.Evidence.{Limits as SpokenLimits};
ghost use Rattle.spec_sessions.specs.States.{State};
ghost use Rattle.spec_sessions.specs.Questions.{question_of};
ghost use Rattle.smt_question.specs.Questions.{question_view};
ghost use Rattle.smt_sexpr.specs.Items.{tree_of};
ghost use Rattle.search_loop.specs.Rounds.{HasLimit};
ghost use Rattle.term_reader.specs.Building.{KeepsTable};
ghost use Rattle.spec_commands.specs.Checks.{Check};
ghost use Rattle.check_evidence.specs.Evidence.{limits_meant, HoldsCheck, IsHeldCheck};
ghost use Rattle.smt_session.specs.Sessions.{stated, answer_left, AskedKeeps, IsScript, HoldsScript, Finds, TakesScriptCommand, KeepsBudget, KeepsScript, Rejects};

use crate::mode::states_nothing;
use crate::responses::Response;
use assertion_stack::{Assumed, Effect, Stack, place_in};
use check_evidence::{Evidence, check};
use no_memory::NoMemory;
use sat_budget::{Budget, Limits};
use smt_lexer::{Refusal, Refused};
use smt_question::{Question, question};
use smt_reply::reply_to;
use smt_sexpr::{Sexpr, offset};
use spec_commands::{assumptions_are_read, commands_keep_stacks};
use spec_proof_texts::laws::commands_leave_script_names;
use spec_proof_texts::readable_laws::commands_leave_readable_definitions;
use spec_sessions::laws::faults_are_in_their_question;
use std::alloc::Global;
use term_core::TermTable;
use term_reader::ReadError;

/// What a session holds of a script: what was stated, with its terms, and what its last check found.
#[derive(Drop)]
pub(crate) struct Script {
    /// The terms.
    pub table: TermTable,
    /// What was stated.
    pub stack: Stack,
    /// What the last search of the last check learned.
    pub budget: Budget,
    /// What the last check found, where nothing was stated or taken back since.
    pub answer: Option<Evidence>,
    /// What the last check assumed that was answered.
    pub assumed: Assumed,
}

/// Takes what an s-expression is: a command, or a question. All that it changes is changed, but nothing is written. Where it is
/// refused, where it asks, and where memory runs out, nothing is changed.
pub(crate) fn take<'a>(
    alloc: Global,
    script: &mut Script,
    limits: &Limits,
    sexpr: &'a Sexpr<'_>,
) -> Result<Response<'a>, NoMemory>
    requires { HoldsScript limits.now.terms script.old }
    ensures takes { (s : State) → IsScript limits.now.terms script.old s
        → TakesScriptCommand (limits_meant limits.now) s sexpr.now result script.new }
    ensures memory { OnErr result (script.new ≡ script.old) }
    ensures budget { KeepsBudget result script.old script.new }
    ensures kept { KeepsScript result script.old script.new }
    ensures asked { AskedKeeps (question_of (tree_of sexpr.now)) script.old script.new }
    ensures limit { HasLimit limits.now script.old.budget → HasLimit limits.now script.new.budget }
{
    match question(sexpr) {
        Some(Ok(asked)) => take_question(alloc, script, sexpr, asked),
        Some(Err(refusal)) => Ok(Response::Rejected(refusal)),
        None => take_command(alloc, script, limits, sexpr),
    }
}

/// Takes a question: finds what answers it. The script is as it was.
fn take_question<'a>(
    alloc: Global,
    script: &mut Script,
    sexpr: &'a Sexpr<'_>,
    asked: Question<'_>,
) -> Result<Response<'a>, NoMemory>
    requires { (limits : CodeLimits) × HoldsScript limits.terms script.old }
    ensures takes { (limits : SpokenLimits) (s : State) → IsScript limits.terms script.old s
        → question_of (tree_of sexpr.now) ≡ Some (Ok (question_view asked.entry))
        → TakesScriptCommand limits s sexpr.now result script.new }
    ensures same { script.new ≡ script.old }
    ensures budget { KeepsBudget result script.old script.new }
    ensures kept { KeepsScript result script.old script.new }
{
    faults_are_in_their_question();
    sexpr.offsets_have_places();
    let at = offset(sexpr.trees());
    match reply_to(
        alloc,
        &mut script.table,
        &mut script.stack,
        &script.answer,
        &script.assumed,
        asked,
        at,
    ) {
        Ok(reply) => Ok(Response::Replied(reply)),
        Err(ReadError::Fault(fault)) => Ok(Response::Rejected(Refusal {
            place: place_in(sexpr, fault.offset),
            fault: fault.fault,
        })),
        Err(ReadError::Memory) => Err(NoMemory),
    }
}

/// Gives up what the last check found, but where a command states nothing.
fn leave_answer(answer: &mut Option<Evidence>, states_nothing: bool)
    ensures { answer.new ≡ answer_left states_nothing answer.old }
{
    if !states_nothing {
        *answer = None;
    }
}

/// Takes a command, which asks nothing.
fn take_command<'a>(
    alloc: Global,
    script: &mut Script,
    limits: &Limits,
    sexpr: &'a Sexpr<'_>,
) -> Result<Response<'a>, NoMemory>
    requires { HoldsScript limits.now.terms script.old }
    ensures takes { (s : State) → IsScript limits.now.terms script.old s
        → question_of (tree_of sexpr.now) ≡ None
        → TakesScriptCommand (limits_meant limits.now) s sexpr.now result script.new }
    ensures memory { OnErr result (script.new ≡ script.old) }
    ensures budget { KeepsBudget result script.old script.new }
    ensures kept { KeepsScript result script.old script.new }
    ensures limit { HasLimit limits.now script.old.budget → HasLimit limits.now script.new.budget }
{
    assumptions_are_read();
    commands_keep_stacks();
    commands_leave_script_names();
    commands_leave_readable_definitions();
    let keeps = states_nothing(sexpr);
    let started = script.stack.started;
    let terms = script.table.len();
    match script.stack.command(alloc, &mut script.table, sexpr) {
        Ok(Effect::Done) => {
            leave_answer(&mut script.answer, keeps);
            Ok(Response::Success)
        }
        Ok(Effect::Unsupported) => {
            leave_answer(&mut script.answer, keeps);
            Ok(Response::Unsupported)
        }
        Ok(Effect::Check(_, assumed)) => {
            match find(alloc, script, limits, assumed) {
                Ok(()) => Ok(Response::Answered),
                Err(NoMemory) => {
                    script.table.cut(terms);
                    script.stack.started = started;
                    Err(NoMemory)
                }
            }
        }
        Ok(Effect::Say(text)) => {
            leave_answer(&mut script.answer, keeps);
            Ok(Response::Echoed(text))
        }
        Ok(Effect::Exit) => {
            leave_answer(&mut script.answer, keeps);
            Ok(Response::Ended)
        }
        Err(stop) => rejected(stop),
    }
}

/// Finds an answer to what is asserted, with these literals assumed, and keeps it with them. The table grows by terms that
/// the search speaks of.
///
/// `NoMemory` comes where memory ran out; the script is then as it was.
fn find(
    alloc: Global,
    script: &mut Script,
    limits: &Limits,
    assumed: Assumed,
) -> Result<(), NoMemory>
    requires held { HoldsCheck limits.now.terms (stated script.old) assumed.ids.items }
    ensures checks { (c : Check) → IsHeldCheck limits.now.terms (stated script.old) assumed.ids.items c
        → Finds (limits_meant limits.now) c result script.new }
    ensures grows { IfOk result (λ _. KeepsTable script.old.table script.new.table) }
    ensures kept { IfOk result (λ _. script.new.assumed ≡ assumed) }
    ensures limit { IfOk result (λ _. HasLimit limits.now script.new.budget) }
    ensures same { OnErr result (script.new ≡ script.old) }
{
    match check(
        alloc,
        &mut script.table,
        &script.stack,
        assumed.ids.as_slice(),
        &mut script.budget,
        limits,
    ) {
        Ok(evidence) => {
            script.answer = Some(evidence);
            script.assumed = assumed;
            Ok(())
        }
        Err(NoMemory) => Err(NoMemory),
    }
}

/// What a command is answered that was not taken.
fn rejected<'a>(stop: Refused) -> Result<Response<'a>, NoMemory>
    ensures { Rejects stop result }
{
    match stop {
        Refused::Fault(refusal) => Ok(Response::Rejected(refusal)),
        Refused::Memory => Err(NoMemory),
    }
}
