//! The shape of each question, by the trees after its word.

ghost use Rattle.std.specs.Prelude.{◌≡◌, option_map};
ghost use Rattle.spec_sessions.specs.Questions.{is_some_tree, bare_question, value_question, only_keyword, question_by};
ghost use Rattle.smt_sexpr.specs.Items.{trees_meant};
ghost use Rattle.smt_question.specs.Questions.{question_view, word_meant};

use crate::questions::{Question, QuestionWord};
use smt_sexpr::{Trees, is_keyword, list_first, passes, split, want_end, word_first};

/// Tells whether some tree is there.
fn is_some_tree(trees: Trees<'_>) -> bool
    ensures { result ≡ is_some_tree (trees_meant trees.entry) }
{
    match split(trees) {
        None => false,
        Some(_) => true,
    }
}

/// Reads a question without parts, after its word.
fn bare_question<'a>(question: Question<'a>, trees: Trees<'a>) -> Option<Question<'a>>
    ensures { option_map question_view result ≡ bare_question (question_view question.entry) (trees_meant trees.entry) }
{
    want_end(trees)?;
    Some(question)
}

/// Reads `get-value`, after its word: the list of its terms, one or more.
#[tactic(auto, unfolding(spec_sessions::specs::Questions::value_question))]
fn value_question(trees: Trees<'_>) -> Option<Question<'_>>
    ensures { option_map question_view result ≡ value_question (trees_meant trees.entry) }
{
    let (terms, rest) = list_first(trees)?;
    want_end(rest)?;
    passes(is_some_tree(terms))?;
    Some(Question::Values(terms))
}

/// Takes a keyword alone, without its colon.
#[tactic(auto, unfolding(spec_sessions::specs::Questions::only_keyword))]
fn only_keyword(trees: Trees<'_>) -> Option<&[u8]>
    ensures { option_map (λ b. b.now) result ≡ only_keyword (trees_meant trees.entry) }
{
    let (key, rest) = word_first(trees)?;
    passes(is_keyword(key.kind))?;
    want_end(rest)?;
    Some(key.bytes)
}

/// Reads the question of a word, by the trees after it.
pub(crate) fn question_by(word: QuestionWord, trees: Trees<'_>) -> Option<Question<'_>>
    ensures { option_map question_view result ≡ question_by (word_meant word) (trees_meant trees.entry) }
{
    match word {
        QuestionWord::Model => bare_question(Question::Model, trees),
        QuestionWord::Value => value_question(trees),
        QuestionWord::Proof => bare_question(Question::Proof, trees),
        QuestionWord::Assertions => bare_question(Question::Assertions, trees),
        QuestionWord::UnsatCore => bare_question(Question::UnsatCore, trees),
        QuestionWord::UnsatAssumptions => bare_question(Question::UnsatAssumptions, trees),
        QuestionWord::Option => {
            let name = only_keyword(trees)?;
            Some(Question::Option(name))
        }
        QuestionWord::Info => {
            let name = only_keyword(trees)?;
            Some(Question::Info(name))
        }
    }
}
