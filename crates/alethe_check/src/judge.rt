//! Judges the commands of a proof, one after the other, and whether one has the empty clause.

ghost use Rattle.std.specs.Prelude.{◌≡◌, MatchBool};
ghost use Rattle.spec_checking.specs.Commands.{Known};
ghost use Rattle.spec_checking.specs.Judging.{HasEmptyClause};
ghost use Rattle.alethe_reader.specs.Holding.{IsKnown, HasKnown};
ghost use Rattle.alethe_check.specs.Judging.{some_empty, JudgesCommands, JudgesAll, Finishes};

use crate::command::judge_one;
use alethe_reader::{CommandError, ProofState, Reader, fault};
use spec_proofs::ProofKind;
use std::alloc::Global;
use term_core::Clause;

/// Judges the commands that are to come, one after the other: the first fault of them and of what ends them, or none.
fn judge_commands(
    alloc: Global,
    state: &mut ProofState,
    reader: &mut Reader<'_>,
) -> Result<(), CommandError>
    requires { HasKnown state.old }
    ensures { (k : Known) → IsKnown state.old k → JudgesCommands reader.old k result state.new }
{
    'commands: while let Some(sexpr) = reader.next(alloc)? {
        judge_one(alloc, state, &sexpr)?;
    }
    Ok(())
}

/// Says whether one of the clauses is empty.
fn any_empty(clauses: &[Clause]) -> bool
    ensures { result ≡ some_empty clauses.now }
{
    for clause in clauses {
        if clause.len() == 0 {
            return true;
        }
    }
    false
}

/// Says whether a command has the empty clause.
fn has_empty(state: &ProofState) -> bool
    ensures { (k : Known) → IsKnown state.now k
        → MatchBool result (HasEmptyClause k) (HasEmptyClause k → ⊥) }
{
    any_empty(&state.clauses)
}

/// Answers after the last command of a text that ends as it should: whether some clause is empty.
fn finish(state: &ProofState, text: &[u8]) -> Result<(), CommandError>
    ensures { (k : Known) → IsKnown state.now k → Finishes k text.now result }
{
    if has_empty(state) {
        return Ok(());
    }
    Err(fault(text.len() as u64, ProofKind::NoEmptyClause))
}

/// Judges a proof under what is known before it: its first fault, or none.
pub(crate) fn judge(alloc: Global, text: &[u8], known: ProofState) -> Result<(), CommandError>
    requires { HasKnown known }
    ensures { (k : Known) → IsKnown known k → JudgesAll text.now k result }
{
    let mut state = known;
    let mut reader = Reader::new(text);
    judge_commands(alloc, &mut state, &mut reader)?;
    finish(&state, text)
}
