//! The verdict on a script and a model file.

ghost use Rattle.std.specs.Prelude.{◌≡◌, ◌≤◌, ℕ, length};
ghost use Rattle.spec_model_files.specs.Faults.{faulty_text};
ghost use Rattle.script_standing.specs.Standings.{Stands};
ghost use Rattle.model_judge.specs.Verdicts.{AnswersModel, HasStanding, Refuses};

use crate::untrue::first_untrue;
use model_read::{ModelFault, ModelStop, read};
use script_standing::{Standing, standing_at};
use smt_lexer::place_at;
use spec_model_files::ModelKind;
use std::alloc::Global;

/// Gives the text that such a fault is in.
fn faulty_text<'a>(script: &'a [u8], model: &'a [u8], kind: ModelKind) -> &'a [u8]
    ensures { result.now ≡ faulty_text script.now model.now kind }
{
    match kind {
        ModelKind::NotTrue => script,
        ModelKind::ValueWide => script,
        _ => model,
    }
}

/// Makes the answer of a fault at an offset of the text that it is in.
fn refused(text: &[u8], kind: ModelKind, offset: u64) -> ModelStop
    requires { offset ≤ length text.now }
    ensures { Refuses text.now offset kind result }
{
    ModelStop::Fault(ModelFault {
        place: place_at(text, offset as usize),
        kind,
    })
}

/// Judges a model file by what the check asks about.
fn judge_standing(
    alloc: Global,
    script: &[u8],
    stands: Standing,
    model: &[u8],
) -> Result<(), ModelStop>
    requires { HasStanding script.now stands }
    ensures { (k : ℕ) → Stands script.now k stands → AnswersModel script.now k model.now result }
{
    spec_model_files::laws::faults_are_in_their_file();
    spec_model_files::laws::model_verdicts_are_in_their_text();
    let mut table = stands.table;
    match read(alloc, &table, &stands.scope, model) {
        Ok(interp) => match first_untrue(alloc, &mut table, &interp, &stands.expressions) {
            Ok(None) => Ok(()),
            Ok(Some(found)) => {
                let text = faulty_text(script, model, found.kind);
                Err(refused(text, found.kind, found.at))
            }
            Err(_) => Err(ModelStop::Memory),
        },
        Err(stop) => Err(stop),
    }
}

/// Judges the two texts, and gives the verdict on them.
pub(crate) fn judge_texts(
    alloc: Global,
    script: &[u8],
    at: u64,
    model: &[u8],
) -> Result<(), ModelStop>
    ensures { AnswersModel script.now at model.now result }
{
    match standing_at(alloc, script, at) {
        Ok(Some(stands)) => judge_standing(alloc, script, stands, model),
        Ok(None) => Err(refused(model, ModelKind::NoSuchCheck, 0)),
        Err(_) => Err(ModelStop::Memory),
    }
}
