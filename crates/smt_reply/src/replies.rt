//! What answers a question.

ghost use Rattle.std.specs.Prelude.{◌≡◌, ℕ, Option, Some};
ghost use Rattle.spec_commands.specs.Stack.{Options as SpokenOptions, key_named};
ghost use Rattle.spec_sessions.specs.States.{State};
ghost use Rattle.spec_sessions.specs.Questions.{for_model, for_proof, for_assertions, for_core, for_assumptions, for_values};
ghost use Rattle.spec_sessions.specs.Replies.{unknown_info, option_reply, info_reply, info_named, truth_line, option_value, reply_to};
ghost use Rattle.smt_sexpr.specs.Items.{trees_meant};
ghost use Rattle.sat_budget.specs.Budgets.{BudgetView};
ghost use Rattle.smt_command.specs.Settings.{key_meant};
ghost use Rattle.term_core.specs.Tables.{TableView};
ghost use Rattle.assertion_stack.specs.declared.stack.Stack.{Stack as CodeStack};
ghost use Rattle.assertion_stack.specs.Stacks.{over_table, options_meant, HasStack, IsStack};
ghost use Rattle.check_evidence.specs.declared.evidence.Evidence.{Evidence};
ghost use Rattle.check_evidence.specs.Evidence.{IsHeld, HoldsSome};
ghost use Rattle.smt_question.specs.Questions.{question_view};
ghost use Rattle.assertion_stack.specs.declared.assuming.Assumed.{Assumed};
ghost use Rattle.smt_reply.specs.Replies.{Context, in_context, IsLastAnswer, HoldsAnswer, IsReply, Replies};
ghost use Rattle.smt_reply.specs.Cores.{KeepsAsked, HoldsAssumed};

use crate::cores::{assumptions_used, core_names};
use crate::found::{found_model, found_proof, found_reason, proof_of, refused};
use crate::values::{TermValue, values};
use assertion_stack::laws::each_assertion_has_its_text;
use assertion_stack::{Assumed, Options, Rows, Stack};
use check_evidence::Evidence;
use no_memory::NoMemory;
use smt_command::OptionKey;
use smt_question::{Info, Question};
use smt_sexpr::Trees;
use spec_text::Fault;
use std::alloc::Global;
use term_core::TermTable;
use term_reader::ReadError;

/// Tells what answers a question.
///
/// Contracts see it as what is written for it, by the relation `IsReply`. Source: SMT-LIB 2.6, sections 4.1.8 and 4.2.6 to
/// 4.2.8.
#[derive(Drop)]
pub enum Reply {
    /// That its option or information is not known: `unsupported`.
    NotKnown,
    /// A line that is the same in each state, with its line feed.
    Line(&'static [u8]),
    /// How many levels are open above the first one.
    Levels(u64),
    /// What the last check found: its model or its proof.
    Evidence,
    /// Why the last check was answered `unknown`.
    Reason,
    /// The current assertions.
    Assertions,
    /// Names, each as a symbol, in their order.
    Names(Rows),
    /// Texts as they are printed, in their order.
    Texts(Rows),
    /// Terms as they are written, each with its value, in their order.
    Values(Vec<TermValue>),
}

/// Gives the line of a truth value.
fn truth_line(truth: bool) -> &'static [u8]
    ensures { result.now ≡ truth_line truth }
{
    if truth {
        return b"true\n";
    }
    b"false\n"
}

/// Gives the truth value of an option.
fn option_value(options: &Options, key: OptionKey) -> bool
    ensures { result ≡ option_value (key_meant key) (options_meant options.now) }
{
    match key {
        OptionKey::PrintSuccess => options.print_success,
        OptionKey::ProduceModels => options.models,
        OptionKey::ProduceProofs => options.proofs,
        OptionKey::ProduceAssertions => options.assertions,
        OptionKey::ProduceUnsatCores => options.unsat_cores,
        OptionKey::ProduceUnsatAssumptions => options.unsat_assumptions,
        OptionKey::GlobalDeclarations => options.global_declarations,
    }
}

/// Finds what answers a question for an option, by its name without its colon.
fn option_reply(options: &Options, name: &[u8]) -> Reply
    ensures { (x : Context) (o : SpokenOptions) → options_meant options.now ≡ o
        → IsReply x result (option_reply o (key_named name.now)) }
{
    match OptionKey::named(name) {
        Some(key) => Reply::Line(truth_line(option_value(options, key))),
        None => Reply::NotKnown,
    }
}

/// Finds what answers a question for the reason why the last check was answered `unknown`; `WrongMode` at the offset where
/// it was not.
fn reason_reply(answer: &Option<Evidence>, at: u64) -> Result<Reply, ReadError>
    ensures { (t : TableView) (budget : BudgetView) (x : CodeStack) (s : State)
        → IsLastAnswer t budget answer.now s.answer
        → Replies (info_reply at s (Some unknown_info)) (in_context t x answer.now) result }
{
    if !found_reason(answer) {
        return Err(refused(at, Fault::WrongMode));
    }
    Ok(Reply::Reason)
}

/// Finds what answers a question for information on the solver, by its name without its colon.
fn info_reply(
    stack: &Stack,
    answer: &Option<Evidence>,
    name: &[u8],
    at: u64,
) -> Result<Reply, ReadError>
    ensures { (limit : ℕ) (t : TableView) (budget : BudgetView) (s : State)
        → IsStack limit (over_table t stack.now) s.stack
        → IsLastAnswer t budget answer.now s.answer
        → Replies (info_reply at s (info_named name.now))
        (in_context t stack.now answer.now) result }
{
    match Info::named(name) {
        None => Ok(Reply::NotKnown),
        Some(info) => match info {
            Info::Name => Ok(Reply::Line(b"(:name \"smt_cli\")\n")),
            Info::Version => Ok(Reply::Line(b"(:version \"1.0\")\n")),
            Info::Authors => Ok(Reply::Line(b"(:authors \"the smt_cli team\")\n")),
            Info::ErrorBehavior => Ok(Reply::Line(b"(:error-behavior continued-execution)\n")),
            Info::ReasonUnknown => reason_reply(answer, at),
            Info::AssertionStackLevels => Ok(Reply::Levels(stack.levels())),
        },
    }
}

/// Finds what answers a question for the model of the last check.
fn model_reply(stack: &Stack, answer: &Option<Evidence>, at: u64) -> Result<Reply, ReadError>
    ensures { (limit : ℕ) (t : TableView) (budget : BudgetView) (s : State)
        → IsStack limit (over_table t stack.now) s.stack
        → IsLastAnswer t budget answer.now s.answer
        → Replies (reply_to limit at s for_model)
        (in_context t stack.now answer.now) result }
{
    if !found_model(answer) {
        return Err(refused(at, Fault::WrongMode));
    }
    if !stack.options.models {
        return Err(refused(at, Fault::NotEnabled));
    }
    Ok(Reply::Evidence)
}

/// Finds what answers a question for the proof of the last check.
fn proof_reply(stack: &Stack, answer: &Option<Evidence>, at: u64) -> Result<Reply, ReadError>
    ensures { (limit : ℕ) (t : TableView) (budget : BudgetView) (s : State)
        → IsStack limit (over_table t stack.now) s.stack
        → IsLastAnswer t budget answer.now s.answer
        → Replies (reply_to limit at s for_proof)
        (in_context t stack.now answer.now) result }
{
    if !found_proof(answer) {
        return Err(refused(at, Fault::WrongMode));
    }
    if !stack.options.proofs {
        return Err(refused(at, Fault::NotEnabled));
    }
    Ok(Reply::Evidence)
}

/// Finds what answers a question for the current assertions.
fn assertions_reply(stack: &Stack, at: u64) -> Result<Reply, ReadError>
    ensures { (limit : ℕ) (t : TableView) (answer : Option Evidence) (s : State)
        → IsStack limit (over_table t stack.now) s.stack
        → Replies (reply_to limit at s for_assertions) (in_context t stack.now answer) result }
{
    each_assertion_has_its_text();
    if !stack.options.assertions {
        return Err(refused(at, Fault::NotEnabled));
    }
    Ok(Reply::Assertions)
}

/// Finds what answers a question for the unsat core of the last check.
fn core_reply(
    alloc: Global,
    table: &TermTable,
    stack: &Stack,
    answer: &Option<Evidence>,
    at: u64,
) -> Result<Reply, ReadError>
    requires held { HasStack (over_table table.now stack.now) }
    requires shown { HoldsAnswer table.now answer.now }
    ensures { (limit : ℕ) (budget : BudgetView) (a : Assumed) (s : State)
        → IsStack limit (over_table table.now stack.now) s.stack
        → IsLastAnswer table.now budget answer.now s.answer → KeepsAsked table.now a s
        → Replies (reply_to limit at s for_core) (in_context table.now stack.now answer.now) result }
{
    let Some((log, plan)) = proof_of(answer) else {
        return Err(refused(at, Fault::WrongMode));
    };
    if !stack.options.unsat_cores {
        return Err(refused(at, Fault::NotEnabled));
    }
    match core_names(alloc, table, stack, log, plan) {
        Ok(names) => Ok(Reply::Names(names)),
        Err(NoMemory) => Err(ReadError::Memory),
    }
}

/// Finds what answers a question for the assumptions of the last check that its proof rests on.
fn assumptions_reply(
    alloc: Global,
    table: &TermTable,
    stack: &Stack,
    answer: &Option<Evidence>,
    assumed: &Assumed,
    at: u64,
) -> Result<Reply, ReadError>
    requires held { HasStack (over_table table.now stack.now) }
    requires shown { HoldsAnswer table.now answer.now }
    requires assumed { HoldsAssumed table.now answer.now assumed.now }
    ensures { (limit : ℕ) (budget : BudgetView) (s : State)
        → IsStack limit (over_table table.now stack.now) s.stack
        → IsLastAnswer table.now budget answer.now s.answer → KeepsAsked table.now assumed.now s
        → Replies (reply_to limit at s for_assumptions) (in_context table.now stack.now answer.now) result }
{
    let Some((log, plan)) = proof_of(answer) else {
        return Err(refused(at, Fault::WrongMode));
    };
    if !stack.options.unsat_assumptions {
        return Err(refused(at, Fault::NotEnabled));
    }
    match assumptions_used(alloc, table, stack, assumed, log, plan) {
        Ok(texts) => Ok(Reply::Texts(texts)),
        Err(NoMemory) => Err(ReadError::Memory),
    }
}

/// Finds what answers a question for the values of terms. Table and stack are as they were.
fn values_reply(
    alloc: Global,
    table: &mut TermTable,
    stack: &mut Stack,
    answer: &Option<Evidence>,
    terms: Trees<'_>,
    at: u64,
) -> Result<Reply, ReadError>
    requires held { HasStack (over_table table.old stack.old) }
    requires shown { HoldsAnswer table.old answer.now }
    ensures replies { (limit : ℕ) (budget : BudgetView) (s : State)
        → IsStack limit (over_table table.old stack.old) s.stack
        → IsLastAnswer table.old budget answer.now s.answer
        → Replies (reply_to limit at s (for_values (trees_meant terms.entry)))
        (in_context table.old stack.old answer.now) result }
    ensures table { table.new ≡ table.old }
    ensures stack { stack.new ≡ stack.old }
{
    match values(alloc, table, stack, answer, terms, at) {
        Err(stop) => Err(stop),
        Ok(values) => Ok(Reply::Values(values)),
    }
}

/// Finds what answers a question, asked by a command at an offset in bytes. `answer` is what the last check found, where its
/// answer still counts, and `assumed` what that check assumed.
///
/// It takes all its memory here; writing what it gives takes none. Table and stack are as they were, whatever comes.
///
/// - `Fault` has the first fault, with its offset. For a model, a proof and a reason it is `WrongMode` at the command where
///   the last check found none, or none counts; then `NotEnabled` there where the option for models or proofs is off. For an
///   unsat core, and for assumptions, it is as for a proof, with their own options. For assertions it is `NotEnabled`. For values come first the faults of the terms, in reading order, as
///   `sort_check::terms_of_any_sort` tells them; then `WrongMode` and `NotEnabled` as for a model, `Full` at the command where
///   the terms have more different subterms than the stack's limit, and last `ValueWide` at the first term that has an
///   operation whose result leaves the bound.
/// - `Memory` may come at any allocation, and says nothing of the question.
///
/// For values its time goes with the texts of the terms and, for each term anew, with its different subterms, those of its
/// definitions among them. For a core and for assumptions it goes with the table, the proof and the assertions; else it is
/// short. Source: SMT-LIB 2.6, sections 4.1.1, 4.1.7, 4.1.8, 4.2.4 and 4.2.6 to 4.2.8.
pub fn reply_to(
    alloc: Global,
    table: &mut TermTable,
    stack: &mut Stack,
    answer: &Option<Evidence>,
    assumed: &Assumed,
    question: Question<'_>,
    at: u64,
) -> Result<Reply, ReadError>
    requires held { (terms : ℕ) × HoldsSome terms (over_table table.old stack.old) }
    requires shown { HoldsAnswer table.old answer.now }
    requires assumed { HoldsAssumed table.old answer.now assumed.now }
    ensures replies { (terms : ℕ) (budget : BudgetView) (s : State)
        → IsHeld terms (over_table table.old stack.old) s.stack
        → IsLastAnswer table.old budget answer.now s.answer → KeepsAsked table.old assumed.now s
        → Replies (reply_to terms at s (question_view question.entry))
        (in_context table.old stack.old answer.now) result }
    ensures table { table.new ≡ table.old }
    ensures stack { stack.new ≡ stack.old }
{
    match question {
        Question::Model => model_reply(stack, answer, at),
        Question::Proof => proof_reply(stack, answer, at),
        Question::Assertions => assertions_reply(stack, at),
        Question::UnsatCore => core_reply(alloc, table, stack, answer, at),
        Question::UnsatAssumptions => {
            assumptions_reply(alloc, table, stack, answer, assumed, at)
        }
        Question::Values(terms) => values_reply(alloc, table, stack, answer, terms, at),
        Question::Option(name) => Ok(option_reply(&stack.options, name)),
        Question::Info(name) => info_reply(stack, answer, name, at),
    }
}
