//! Judges what was read.

ghost use Rattle.std.specs.Prelude.{◌≡◌};
ghost use Rattle.judge_run.specs.Judgings.{a_proof, a_model};
ghost use Rattle.judge_run.specs.Calls.{judging_meant, kind_named, JudgesPrefixes};

use crate::read::Texts;
use crate::request::Subject;
use alethe_check::{ProofKind, ProofStop, check};
use model_judge::{ModelKind, ModelStop, judge as judge_model_file};
use smt_lexer::Place;
use std::alloc::Global;

/// Tells what is wrong with a text.
#[derive(Clone, Copy)]
pub(crate) enum FaultKind {
    /// It is judged as a proof.
    Proof(ProofKind),
    /// It is judged as a model.
    Model(ModelKind),
}

impl FaultKind {
    /// Gives the name that is printed.
    pub(crate) fn name(self) -> &'static str
        ensures { result.now ≡ kind_named self }
    {
        match self {
            FaultKind::Proof(kind) => kind.name(),
            FaultKind::Model(kind) => kind.name(),
        }
    }
}

/// Holds what is wrong with a text, and where.
#[derive(Clone, Copy)]
pub(crate) struct Fault {
    /// The place in the text, or in the script.
    pub(crate) place: Place,
    /// What is wrong.
    pub(crate) kind: FaultKind,
}

/// Tells what a text was found to be.
#[derive(Clone, Copy)]
pub(crate) enum Verdict {
    /// It is accepted.
    Accepted,
    /// It has this fault.
    Faulty(Fault),
    /// Memory ran out.
    Memory,
}

/// Judges a proof against the `at`-th check of a script, counted from 1, by the prefixes of their texts.
///
/// `Faulty` has the first fault of the proof. `Memory` comes where an allocation was refused.
fn judge_proof(alloc: Global, script: &[u8], at: u64, proof: &[u8]) -> Verdict
    ensures { JudgesPrefixes (record { judging = a_proof; script = script.now; at = at; text = proof.now }) result }
{
    spec_checking::laws::verdicts_need_a_prefix_alone();
    spec_checking::laws::accepted_proofs_have_no_fault();
    spec_checking::laws::acceptance_is_sound();
    match check(alloc, script, at, proof) {
        Ok(()) => Verdict::Accepted,
        Err(ProofStop::Fault(fault)) => Verdict::Faulty(Fault {
            place: fault.place,
            kind: FaultKind::Proof(fault.kind),
        }),
        Err(ProofStop::Memory) => Verdict::Memory,
    }
}

/// Judges a model file against the `at`-th check of a script, counted from 1, by the prefixes of their texts.
///
/// `Faulty` has the first fault of the file, else the first expression that is not found true. `Memory` comes where an
/// allocation was refused.
fn judge_model(alloc: Global, script: &[u8], at: u64, model: &[u8]) -> Verdict
    ensures { JudgesPrefixes (record { judging = a_model; script = script.now; at = at; text = model.now }) result }
{
    spec_model_files::laws::model_verdicts_need_a_prefix_alone();
    spec_model_files::laws::valid_models_make_true();
    match judge_model_file(alloc, script, at, model) {
        Ok(()) => Verdict::Accepted,
        Err(ModelStop::Fault(fault)) => Verdict::Faulty(Fault {
            place: fault.place,
            kind: FaultKind::Model(fault.kind),
        }),
        Err(ModelStop::Memory) => Verdict::Memory,
    }
}

/// Judges a text against the `at`-th check of a script, counted from 1, by the prefixes of both.
///
/// `Faulty` has the first fault. `Memory` comes where an allocation was refused.
pub(crate) fn judge(alloc: Global, subject: Subject, texts: &Texts, at: u64) -> Verdict
    ensures { JudgesPrefixes (record {
      judging = judging_meant subject;
      script = texts.now.script;
      at = at;
      text = texts.now.judged;
    }) result }
{
    let script = texts.script.as_slice();
    let judged = texts.judged.as_slice();
    match subject {
        Subject::Proof => judge_proof(alloc, script, at, judged),
        Subject::Model => judge_model(alloc, script, at, judged),
    }
}
