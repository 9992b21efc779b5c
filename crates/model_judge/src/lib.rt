//! Judges a model file against a check of a script: whether the interpretation that the file says makes all true that the
//! check asks about.
#![tactic(auto)]

ghost use Rattle.std.specs.Prelude.{OnOk};
ghost use Rattle.model_judge.specs.Verdicts.{AnswersModel, IsModelOf};

mod conjunctions;
mod judging;
mod untrue;

use judging::judge_texts;
pub use model_read::{ModelFault, ModelStop};
pub use spec_model_files::ModelKind;
pub use spec_text::Place;
use std::alloc::Global;

/// Judges a model file against the `at`-th check of a script, counted from 1.
///
/// `Ok` means that the model is valid: the file says an interpretation of the check's symbols, with tables of their sorts,
/// and under it each current assertion and each literal that the check assumes has the value true. Then no proof of that
/// check is accepted.
///
/// Commands of the script that are refused are passed over. Of both texts the first 2^30 bytes are read.
///
/// - `Fault` has the first fault, with its place: `NotTrue` and `ValueWide` are at a place of the script, all others at one
///   of the file. First of all `NoSuchCheck`, at line 1, column 1, where the script ends before that check, by its end, by
///   `exit`, or by a fault after which it cannot be read on. Then the first fault of the file in the order of reading, as
///   `model_read::read` tells it. Then, expression by expression, those asserted first, the oldest of them first, then
///   those assumed: `NotTrue` at one that is false, and `ValueWide` at one of which an operation leaves the bound on
///   fractions, also where its value does not matter. So a model that is right may be `ValueWide`.
/// - `Memory` may come at any allocation, and says nothing of the model.
///
/// It keeps nothing. Time and memory go with the bytes of both texts and the terms that the script's are read as. Where
/// the model is valid, all expressions are valued in one walk; else in as many as the logarithm of their number, twice.
/// Source: SMT-LIB 2.6, sections 4.2.5, 4.2.6 and 5.3; the bound and the order of faults are own.
pub fn judge(alloc: Global, script: &[u8], at: u64, model: &[u8]) -> Result<(), ModelStop>
    ensures verdict { AnswersModel script.now at model.now result }
    ensures valid { OnOk result (IsModelOf script.now at model.now) }
{
    spec_model_files::laws::valid_models_make_true();
    judge_texts(alloc, script, at, model)
}
