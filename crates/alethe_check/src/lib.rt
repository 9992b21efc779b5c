//! Judges an Alethe proof against an SMT-LIB script, over the whole language.
#![tactic(auto)]

ghost use Rattle.std.specs.Prelude.{◌≤◌, ℕ, length, OnOk};
ghost use Rattle.spec_commands.specs.Checks.{Check, HasNoModel, term_limit};
ghost use Rattle.spec_checking.specs.Accepted.{IsAccepted};
ghost use Rattle.spec_checking.specs.Commands.{known_at};
ghost use Rattle.assertion_stack.specs.Stacks.{over_table, AreAssumed, IsStack};
ghost use Rattle.script_standing.specs.Loads.{HasCheck};
ghost use Rattle.alethe_check.specs.Judging.{JudgesAll};
ghost use Rattle.alethe_check.specs.Verdicts.{AnswersVerdict, Refuses};

mod command;
mod judge;
mod premises;
mod rules;

use alethe_reader::{CommandError, ProofState};
pub use alethe_reader::{ProofFault, ProofStop};
use judge::judge;
use script_standing::{Script, current_at};
pub use script_standing::{Expression, Standing, standing_at};
use smt_lexer::place_at;
pub use spec_proofs::ProofKind;
pub use spec_text::Place;
use std::alloc::Global;

/// Judges a proof against the `at`-th check of a script, counted from 1.
///
/// `Ok` means that the proof is accepted: each assume is a current assertion of that check or a literal that it assumes, each
/// step is right by its rule, and one step has the empty clause. Then no interpretation makes all of them true, the current
/// assertions and the assumed literals.
///
/// Commands of the script that are refused are passed over. Of both texts the first 2^30 bytes are read.
///
/// - `Fault` has the first fault of the proof, with its place there. First of all `NoSuchCheck`, at line 1, column 1, where
///   the script ends before that check, by its end, by `exit`, or by a fault after which it cannot be read on. Then, command
///   by command: `Lexical` where the text cannot be read on; for a command its shape, its name, its sort, its terms, its
///   rule, its premises, and whether it is right. After all commands `BadShape` where something follows a list of them, and
///   `NoEmptyClause` at the end of the text.
/// - `Memory` may come at any allocation, and says nothing of the proof.
///
/// It keeps nothing. It takes memory of a multiple of the bytes of both texts and of the terms that they are read as, however
/// often a premise is named. Source: Alethe specification.
pub fn check(alloc: Global, script: &[u8], at: u64, proof: &[u8]) -> Result<(), ProofStop>
    ensures verdict { AnswersVerdict script.now at proof.now result }
    ensures accepted { OnOk result (IsAccepted script.now at proof.now) }
    ensures sound { OnOk result (HasNoModel term_limit script.now at) }
{
    spec_checking::laws::accepted_proofs_have_no_fault();
    spec_checking::laws::acceptance_is_sound();
    judge_texts(alloc, script, at, proof)
}

/// Makes the answer of a fault of the proof.
fn refused(proof: &[u8], fault: ProofKind, offset: u64) -> ProofStop
    requires { offset ≤ length proof.now }
    ensures { Refuses proof.now offset fault result }
{
    ProofStop::Fault(ProofFault {
        place: place_at(proof, offset as usize),
        kind: fault,
    })
}

/// Judges a proof at the check that asks about so much: its first fault, or none.
fn judge_at(alloc: Global, stated: Script, proof: &[u8]) -> Result<(), CommandError>
    requires { HasCheck stated }
    ensures { (limit : ℕ) (c : Check) → IsStack limit (over_table stated.table stated.stack) c.stack
        → AreAssumed stated.table stated.assumed.ids.items c.assumptions → JudgesAll proof.now (known_at c) result }
{
    let known = ProofState::at_check(
        alloc,
        stated.table,
        stated.stack,
        stated.assumed.ids.as_slice(),
    )?;
    judge(alloc, proof, known)
}

/// Judges the two texts, and gives the verdict on them.
fn judge_texts(alloc: Global, script: &[u8], at: u64, proof: &[u8]) -> Result<(), ProofStop>
    ensures { AnswersVerdict script.now at proof.now result }
{
    spec_checking::laws::faults_are_in_their_proof();
    match current_at(alloc, script, at) {
        Ok(Some(stated)) => match judge_at(alloc, stated, proof) {
            Ok(()) => Ok(()),
            Err(CommandError::Fault(found)) => Err(refused(proof, found.kind, found.offset)),
            Err(CommandError::Memory) => Err(ProofStop::Memory),
        },
        Ok(None) => Err(refused(proof, ProofKind::NoSuchCheck, 0)),
        Err(_) => Err(ProofStop::Memory),
    }
}
