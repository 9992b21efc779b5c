//! An s-expression read as a question, or the fault of its shape with its place.

ghost use Rattle.std.specs.Prelude.{◌≡◌, option_map};
ghost use Rattle.smt_sexpr.specs.Items.{tree_meant};
ghost use Rattle.smt_question.specs.Questions.{asked, asked_view, AsksQuestion};

use crate::questions::{Question, question_named};
use crate::shapes::question_by;
use smt_lexer::{Fault, Refusal};
use smt_sexpr::{Sexpr, Trees, list_inside, word_first};

/// Reads what the first tree asks: its offset, and the question, or none where its shape is not that of its word.
#[tactic(auto, unfolding(crate::specs::Questions::asked))]
fn asked(trees: Trees<'_>) -> Option<(u64, Option<Question<'_>>)>
    ensures { option_map asked_view result ≡ asked (tree_meant trees.entry) }
{
    let (at, inside) = list_inside(trees)?;
    let (first, rest) = word_first(inside)?;
    let word = question_named(first.kind, first.bytes)?;
    Some((at, question_by(word, rest)))
}

/// Reads the question that an s-expression is; `None` where it is an atom, or a list without a word that asks. A word
/// with bars asks nothing. It takes no memory.
///
/// The refusal is `BadShape`, at the parenthesis of a list that begins with a word that asks, and whose other parts are
/// not those of its question. Source: SMT-LIB 2.6, sections 3.9, 4.2.4 and 4.2.6 to 4.2.8.
pub fn question<'a>(sexpr: &'a Sexpr<'_>) -> Option<Result<Question<'a>, Refusal>>
    ensures { AsksQuestion sexpr.now result }
{
    sexpr.offsets_have_places();
    match asked(sexpr.trees()) {
        None => None,
        Some((at, found)) => match found {
            Some(question) => Some(Ok(question)),
            None => Some(Err(Refusal {
                place: sexpr.place(at),
                fault: Fault::BadShape,
            })),
        },
    }
}
