//! Judges a command of a proof, and adds what it states.

ghost use Rattle.std.specs.Prelude.{◌≡◌, ◌∷◌, [], IfOk, IfErr, OnOk, Some};
ghost use Rattle.spec_commands.specs.Checks.{term_limit};
ghost use Rattle.spec_checking.specs.Commands.{Known};
ghost use Rattle.spec_checking.specs.Reading.{command_of};
ghost use Rattle.spec_checking.specs.Judging.{fault_of, wide_fault};
ghost use Rattle.smt_sexpr.specs.Items.{tree_of};
ghost use Rattle.alethe_reader.specs.declared.errors.CommandError.TheVariants as errors;
ghost use Rattle.alethe_reader.specs.declared.proof_state.ProofState.{ProofState};
ghost use Rattle.alethe_reader.specs.Holding.{IsKnown, HasKnown};
ghost use Rattle.alethe_reader.specs.Reads.{IsReadyCommand, located_view, statement_view};
ghost use Rattle.alethe_check.specs.Stating.{JudgesStatement, stating};
ghost use Rattle.alethe_check.specs.Judging.{JudgesOne};

use crate::rules::follows;
use alethe_reader::{CommandError, LocatedFault, ProofState, ReadCommand, proof_command};
use rule_bool::RuleStop;
use smt_sexpr::Sexpr;
use spec_proofs::ProofKind;
use std::alloc::{AllocError, Global};
use term_core::{Clause, TermId};

/// Judges what a command states: an assumed term by whether the check asks about it, a step by its rule. A definition is right.
fn judge_statement(
    alloc: Global,
    state: &ProofState,
    command: &ReadCommand<'_>,
) -> Result<(), RuleStop>
    requires known { HasKnown state.now }
    requires ready { IsReadyCommand state.now command.now }
    ensures { (k : Known) → IsKnown state.now k
        → JudgesStatement k (statement_view state.now command.now) result }
{
    match command {
        ReadCommand::Assume(_, _, id) => {
            if state.is_asserted(*id) {
                return Ok(());
            }
            Err(RuleStop::Fails)
        }
        ReadCommand::Step(step) => follows(alloc, state, step),
        ReadCommand::Define(_) => Ok(()),
    }
}

/// Gives the fault of a command that is not right; a definition always is.
fn wrong(command: &ReadCommand<'_>) -> LocatedFault
    ensures { (h : ProofState) → located_view result ≡ fault_of (statement_view h command.now) }
{
    match command {
        ReadCommand::Assume(at, _, _) => LocatedFault {
            offset: *at,
            kind: ProofKind::NotAsserted,
        },
        ReadCommand::Step(step) => LocatedFault {
            offset: step.at,
            kind: ProofKind::RuleFails,
        },
        ReadCommand::Define(at) => LocatedFault {
            offset: *at,
            kind: ProofKind::BadShape,
        },
    }
}

/// Gives the fault of a step of which it cannot be told within the bound on numbers whether it is right; no other command is so.
fn wide(command: &ReadCommand<'_>) -> LocatedFault
    ensures { (h : ProofState) → located_view result ≡ wide_fault (statement_view h command.now) }
{
    match command {
        ReadCommand::Step(step) => LocatedFault {
            offset: step.at,
            kind: ProofKind::Wide,
        },
        _ => wrong(command),
    }
}

/// Makes the clause of one term.
fn unit(alloc: Global, id: TermId) -> Result<Clause, AllocError>
    ensures { IfOk result (λ c. c ≡ id ∷ []) }
{
    let mut made = Vec::new(alloc);
    made.push(id)?;
    Ok(Clause::from(made))
}

/// Adds what a command states, under its name.
fn add_command(
    alloc: Global,
    state: &mut ProofState,
    command: ReadCommand<'_>,
) -> Result<(), CommandError>
    requires known { HasKnown state.old }
    requires ready { IsReadyCommand state.old command }
    ensures added { OnOk result ((k : Known) → IsKnown state.old k
        → IsKnown state.new (stating k (statement_view state.old command.entry))) }
    ensures memory { IfErr result (λ e. e ≡ errors.Memory) }
{
    match command {
        ReadCommand::Assume(_, name, id) => {
            let clause = unit(alloc, id)?;
            state.add(name, clause)
        }
        ReadCommand::Step(step) => state.add(step.name, Clause::from(step.clause)),
        ReadCommand::Define(_) => Ok(()),
    }
}

/// Judges the command that an s-expression is, and adds what it states where it is right.
pub(crate) fn judge_one(
    alloc: Global,
    state: &mut ProofState,
    sexpr: &Sexpr<'_>,
) -> Result<(), CommandError>
    requires { HasKnown state.old }
    ensures judged { (k : Known) → IsKnown state.old k
        → JudgesOne k (command_of (Some term_limit) k (tree_of sexpr.now)) result state.new }
    ensures known { OnOk result (HasKnown state.new) }
{
    // A `match`, and no `?`: the clause goes by cases on the result, and each arm then closes by itself.
    let command = match proof_command(alloc, state, sexpr.trees()) {
        Ok(command) => command,
        Err(error) => return Err(error),
    };
    match judge_statement(alloc, state, &command) {
        Ok(()) => add_command(alloc, state, command),
        Err(RuleStop::Fails) => Err(CommandError::Fault(wrong(&command))),
        Err(RuleStop::Wide) => Err(CommandError::Fault(wide(&command))),
        Err(RuleStop::Memory) => Err(CommandError::Memory),
    }
}
