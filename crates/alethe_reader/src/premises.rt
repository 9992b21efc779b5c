//! The names of earlier commands: those of premises, and those that a new command may not have.

ghost use Rattle.std.specs.Prelude.{◌≡◌, ◌<◌, length, IfOk, MatchOption, None, Some, false};
ghost use Rattle.spec_text.specs.Bytes.{among};
ghost use Rattle.spec_checking.specs.Reading.{clause_of, entry_names, fresh_name, clause_at, premise_of, premises_of};
ghost use Rattle.smt_sexpr.specs.Items.{trees_meant, tree_meant};
ghost use Rattle.smt_sexpr.specs.Views.{word_view};
ghost use Rattle.alethe_reader.specs.Shapes.{given_view};
ghost use Rattle.alethe_reader.specs.Holding.{HasKnown, clause_numbered, clauses_numbered, AreNumbers};
ghost use Rattle.alethe_reader.specs.Parts.{known_entries, Gives};

use crate::errors::{CommandError, fault};
use crate::proof_state::ProofState;
use smt_sexpr::{Trees, View, Word, look, split};
use spec_proofs::ProofKind;
use std::alloc::Global;

/// Finds the number of a name's clause.
fn find(state: &ProofState, name: &[u8]) -> Option<u64>
    requires { HasKnown state.now }
    ensures { MatchOption result (clause_of (known_entries state.now).entries name.now ≡ None)
        (λ k. (clause_of (known_entries state.now).entries name.now ≡ Some (clause_numbered state.now k))
        × (k < length state.now.clauses.items)) }
{
    state.names.no_name_twice();
    match state.names.find(name) {
        None => None,
        Some(number) => Some(number),
    }
}

/// Finds the number of the clause of a name that is at an offset.
fn clause_named(state: &ProofState, at: u64, name: &[u8]) -> Result<u64, CommandError>
    requires { HasKnown state.now }
    ensures gives { Gives (clause_numbered state.now) result
        (clause_at at (clause_of (known_entries state.now).entries name.now)) }
    ensures there { IfOk result (λ k. k < length state.now.clauses.items) }
{
    match find(state, name) {
        Some(number) => Ok(number),
        None => Err(fault(at, ProofKind::UnknownPremise)),
    }
}

/// Finds the number of the clause that a premise names.
fn premise(state: &ProofState, trees: Trees<'_>) -> Result<u64, CommandError>
    requires { HasKnown state.now }
    ensures gives { Gives (clause_numbered state.now) result
        (premise_of (known_entries state.now) (tree_meant trees.entry)) }
    ensures there { IfOk result (λ k. k < length state.now.clauses.items) }
{
    match look(trees) {
        View::Atom(at, _, bytes) => clause_named(state, u64::from(at), bytes),
        View::List(at, _, _) => Err(fault(u64::from(at), ProofKind::BadShape)),
    }
}

/// Finds the numbers of the clauses that premises name, in order.
fn read_premises(
    alloc: Global,
    state: &ProofState,
    trees: Trees<'_>,
) -> Result<Vec<u64>, CommandError>
    requires { HasKnown state.now }
    ensures gives { Gives (λ v. clauses_numbered state.now v.items) result
        (premises_of (known_entries state.now) (trees_meant trees.entry)) }
    ensures there { IfOk result (λ v. AreNumbers state.now v.items) }
{
    let mut made = Vec::new(alloc);
    let mut rest = trees;
    'premises: loop {
        let Some((first, others)) = split(rest) else {
            return Ok(made);
        };
        // A `match`, and no `?`: the error's case of the clause is an answer of its own.
        match premise(state, first) {
            Ok(number) => made.push(number)?,
            Err(error) => return Err(error),
        }
        rest = others;
    }
}

/// Finds the numbers of the clauses that premises name, where they are given.
pub(crate) fn premises_of(
    alloc: Global,
    state: &ProofState,
    given: Option<Trees<'_>>,
) -> Result<Vec<u64>, CommandError>
    requires { HasKnown state.now }
    ensures gives { Gives (λ v. clauses_numbered state.now v.items) result
        (premises_of (known_entries state.now) (given_view given.entry)) }
    ensures there { IfOk result (λ v. AreNumbers state.now v.items) }
{
    match given {
        Some(names) => read_premises(alloc, state, names),
        None => Ok(Vec::new(alloc)),
    }
}

/// Says whether a command has that name.
fn has_name(state: &ProofState, name: &[u8]) -> bool
    requires { HasKnown state.now }
    ensures entries { result ≡ among (entry_names (known_entries state.now).entries) name.now }
    ensures names { result ≡ among state.now.names name.now }
{
    match state.names.find(name) {
        Some(_) => true,
        None => false,
    }
}

/// Gives the name that a new command may have.
#[tactic(auto, unfolding(spec_checking::specs::Reading::fresh_name))]
pub(crate) fn fresh_name<'a>(state: &ProofState, word: Word<'a>) -> Result<&'a [u8], CommandError>
    requires { HasKnown state.now }
    ensures gives { Gives (λ b. b.now) result (fresh_name (known_entries state.now) (word_view word.entry)) }
    ensures new { IfOk result (λ b. among state.now.names b.now ≡ false) }
{
    if has_name(state, word.bytes) {
        return Err(fault(word.at, ProofKind::TwiceName));
    }
    Ok(word.bytes)
}
