//! The questions by their parts, and the words that ask them.

ghost use Rattle.std.specs.Prelude.{◌≡◌, option_map};
ghost use Rattle.spec_sorts.specs.Theory.{look_up};
ghost use Rattle.spec_sessions.specs.Questions.{question_words, question_named};
ghost use Rattle.smt_question.specs.Questions.{word_meant};

use smt_sexpr::{Kind, Trees, is_reserved, same_bytes};

/// Tells what a session is asked. Its parts are as they are written.
///
/// Source: SMT-LIB 2.6, sections 4.2.4 and 4.2.6 to 4.2.8.
#[derive(Clone, Copy)]
pub enum Question<'a> {
    /// For the model of the last check: `get-model`.
    Model,
    /// For the proof of the last check: `get-proof`.
    Proof,
    /// For the current assertions: `get-assertions`.
    Assertions,
    /// For the unsat core of the last check: `get-unsat-core`.
    UnsatCore,
    /// For the assumptions of the last check that its proof rests on: `get-unsat-assumptions`.
    UnsatAssumptions,
    /// For the values of terms, one or more, in the model of the last check: `get-value`.
    Values(Trees<'a>),
    /// For the value of an option, by its name without its colon: `get-option`. It may be none that is known.
    Option(&'a [u8]),
    /// For information on the solver, by its name without its colon: `get-info`. It may be none that is known.
    Info(&'a [u8]),
}

/// The word of a question.
#[derive(Clone, Copy)]
pub(crate) enum QuestionWord {
    /// `get-model`.
    Model,
    /// `get-value`.
    Value,
    /// `get-proof`.
    Proof,
    /// `get-assertions`.
    Assertions,
    /// `get-unsat-core`.
    UnsatCore,
    /// `get-unsat-assumptions`.
    UnsatAssumptions,
    /// `get-option`.
    Option,
    /// `get-info`.
    Info,
}

/// Finds the word of a question among those that ask.
fn word_among(name: &[u8]) -> Option<QuestionWord>
    ensures { option_map word_meant result ≡ look_up question_words name.now }
{
    if same_bytes(b"get-model", name) {
        return Some(QuestionWord::Model);
    }
    if same_bytes(b"get-value", name) {
        return Some(QuestionWord::Value);
    }
    if same_bytes(b"get-proof", name) {
        return Some(QuestionWord::Proof);
    }
    if same_bytes(b"get-assertions", name) {
        return Some(QuestionWord::Assertions);
    }
    if same_bytes(b"get-unsat-core", name) {
        return Some(QuestionWord::UnsatCore);
    }
    if same_bytes(b"get-unsat-assumptions", name) {
        return Some(QuestionWord::UnsatAssumptions);
    }
    if same_bytes(b"get-option", name) {
        return Some(QuestionWord::Option);
    }
    if same_bytes(b"get-info", name) {
        return Some(QuestionWord::Info);
    }
    None
}

/// Finds the word of a question, where a word is one: it has no bars.
pub(crate) fn question_named(kind: Kind, name: &[u8]) -> Option<QuestionWord>
    ensures { option_map word_meant result ≡ question_named kind name.now }
{
    if !is_reserved(kind) {
        return None;
    }
    word_among(name)
}
