//! The shapes of lists in a model's text, and the words in them.

ghost use Rattle.std.specs.Prelude.{◌≡◌, ◌<◌, ◌==◌, option_map, IfSome};
ghost use Rattle.spec_model_files.specs.Values.{symbol_read};
ghost use Rattle.spec_model_files.specs.Bodies.{tree_count, parameter_named};
ghost use Rattle.smt_sexpr.specs.Items.{trees_meant, tree_meant, size_of};
ghost use Rattle.smt_sexpr.specs.Views.{word_view};
ghost use Rattle.model_read.specs.Answers.{answered, agreed};
ghost use Rattle.model_read.specs.Shapes.{pair_in, triple_in, row_in, definition_in, negation_in, quotient_in, equality_in, conjunction_in, pair_view, triple_view, row_view, definition_view};

use crate::errors::{LocatedFault, fault_at};
use smt_sexpr::{
    Trees, View, Word, is_reserved, is_symbol, is_word, look, passes, same_bytes, split,
    tree_alone, word_first,
};
use spec_model_files::ModelKind;

/// An atom and two trees: an element of a sort, by its word and its sort.
#[derive(Clone, Copy)]
pub(crate) struct Triple<'a> {
    /// The atom.
    pub(crate) word: Word<'a>,
    /// The tree after it.
    pub(crate) left: Trees<'a>,
    /// The tree after that.
    pub(crate) right: Trees<'a>,
}

/// An atom and three trees: a row before others.
#[derive(Clone, Copy)]
pub(crate) struct RowText<'a> {
    /// The atom.
    pub(crate) word: Word<'a>,
    /// The condition.
    pub(crate) condition: Trees<'a>,
    /// The value where it holds.
    pub(crate) value: Trees<'a>,
    /// The other rows.
    pub(crate) others: Trees<'a>,
}

/// The parts of a definition, after its word.
#[derive(Clone, Copy)]
pub(crate) struct DefinitionText<'a> {
    /// The name of what is defined.
    pub(crate) name: Trees<'a>,
    /// The list of parameters.
    pub(crate) parameters: Trees<'a>,
    /// The sort of the body.
    pub(crate) sort: Trees<'a>,
    /// The body.
    pub(crate) body: Trees<'a>,
}

/// Takes two trees that are all there are.
#[tactic(auto, unfolding(crate::specs::Shapes::pair_in))]
pub(crate) fn pair_in(inside: Trees<'_>) -> Option<(Trees<'_>, Trees<'_>)>
    ensures { option_map pair_view result ≡ pair_in (trees_meant inside.entry) }
{
    let (left, rest) = split(inside)?;
    let right = tree_alone(rest)?;
    Some((left, right))
}

/// Takes an atom and two trees that are all there are.
#[tactic(auto, unfolding(crate::specs::Shapes::triple_in))]
pub(crate) fn triple_in(inside: Trees<'_>) -> Option<Triple<'_>>
    ensures { option_map triple_view result ≡ triple_in (trees_meant inside.entry) }
{
    let (word, rest) = word_first(inside)?;
    let (left, rest) = split(rest)?;
    let right = tree_alone(rest)?;
    Some(Triple { word, left, right })
}

/// Takes an atom and three trees that are all there are.
#[tactic(auto, unfolding(crate::specs::Shapes::row_in))]
pub(crate) fn row_in(inside: Trees<'_>) -> Option<RowText<'_>>
    ensures shape { option_map row_view result ≡ row_in (trees_meant inside.entry) }
    ensures less { IfSome result (λ r. size_of r.others < size_of inside.entry) }
{
    let (word, rest) = word_first(inside)?;
    let (condition, rest) = split(rest)?;
    let (value, rest) = split(rest)?;
    let others = tree_alone(rest)?;
    Some(RowText {
        word,
        condition,
        value,
        others,
    })
}

/// Takes the parts of a definition: the word `define-fun`, which is reserved, and four trees that are all there are.
#[tactic(auto, unfolding(crate::specs::Shapes::definition_in))]
pub(crate) fn definition_in(inside: Trees<'_>) -> Option<DefinitionText<'_>>
    ensures { option_map definition_view result ≡ definition_in (trees_meant inside.entry) }
{
    let (word, rest) = word_first(inside)?;
    let (name, rest) = split(rest)?;
    let (parameters, rest) = split(rest)?;
    let (sort, rest) = split(rest)?;
    let body = tree_alone(rest)?;
    passes(is_reserved(word.kind) && same_bytes(word.bytes, b"define-fun"))?;
    Some(DefinitionText {
        name,
        parameters,
        sort,
        body,
    })
}

/// Takes the text that the word `-` negates.
#[tactic(auto, unfolding(crate::specs::Shapes::negation_in))]
pub(crate) fn negation_in(inside: Trees<'_>) -> Option<Trees<'_>>
    ensures shape { option_map tree_meant result ≡ negation_in (trees_meant inside.entry) }
    ensures less { IfSome result (λ t. size_of t < size_of inside.entry) }
{
    let (word, rest) = word_first(inside)?;
    let text = tree_alone(rest)?;
    passes(is_word(b"-", word))?;
    Some(text)
}

/// Takes the texts of which the word `/` makes a quotient.
#[tactic(auto, unfolding(crate::specs::Shapes::quotient_in))]
pub(crate) fn quotient_in(inside: Trees<'_>) -> Option<(Trees<'_>, Trees<'_>)>
    ensures shape { option_map pair_view result ≡ quotient_in (trees_meant inside.entry) }
    ensures less { IfSome result (λ x. size_of x.0 < size_of inside.entry) }
{
    let (word, rest) = word_first(inside)?;
    let (text, rest) = split(rest)?;
    let divisor = tree_alone(rest)?;
    passes(is_word(b"/", word))?;
    Some((text, divisor))
}

/// Takes the two sides of an equality.
#[tactic(auto, unfolding(crate::specs::Shapes::equality_in))]
pub(crate) fn equality_in(inside: Trees<'_>) -> Option<(Trees<'_>, Trees<'_>)>
    ensures { option_map pair_view result ≡ equality_in (trees_meant inside.entry) }
{
    let (word, rest) = word_first(inside)?;
    let (left, rest) = split(rest)?;
    let right = tree_alone(rest)?;
    passes(is_word(b"=", word))?;
    Some((left, right))
}

/// Takes the texts of a conjunction of so many.
#[tactic(auto, unfolding(crate::specs::Shapes::conjunction_in))]
pub(crate) fn conjunction_in(count: usize, inside: Trees<'_>) -> Option<Trees<'_>>
    ensures { option_map trees_meant result ≡ conjunction_in count (trees_meant inside.entry) }
{
    let (word, texts) = word_first(inside)?;
    passes(is_word(b"and", word) && are_many(texts, count))?;
    Some(texts)
}

/// Reads a symbol: `BadShape` at any other tree.
pub(crate) fn symbol(text: Trees<'_>) -> Result<Word<'_>, LocatedFault>
    ensures { answered word_view result ≡ symbol_read (tree_meant text.entry) }
{
    match look(text) {
        View::Atom(at, kind, bytes) => {
            if is_symbol(kind) {
                return Ok(Word {
                    at: u64::from(at),
                    kind,
                    bytes,
                });
            }
            Err(fault_at(u64::from(at), ModelKind::BadShape))
        }
        View::List(at, _, _) => Err(fault_at(u64::from(at), ModelKind::BadShape)),
    }
}

/// Asks that a text is the name of a parameter: `BadShape` at any other tree.
pub(crate) fn want_parameter(name: &[u8], text: Trees<'_>) -> Result<(), LocatedFault>
    ensures { agreed result ≡ parameter_named name.now (tree_meant text.entry) }
{
    match look(text) {
        View::Atom(at, kind, bytes) => {
            let word = Word {
                at: u64::from(at),
                kind,
                bytes,
            };
            if is_word(name, word) {
                return Ok(());
            }
            Err(fault_at(u64::from(at), ModelKind::BadShape))
        }
        View::List(at, _, _) => Err(fault_at(u64::from(at), ModelKind::BadShape)),
    }
}

/// Tells whether there are so many trees.
#[tactic(auto, using(crate::proofs::Counts::counted_more, crate::proofs::Counts::counted_end, crate::proofs::Counts::counted_over))]
pub(crate) fn are_many(trees: Trees<'_>, count: usize) -> bool
    ensures { result ≡ (tree_count (trees_meant trees.entry) == count) }
{
    let mut left = count;
    let mut rest = trees;
    'trees: while let Some((_, others)) = split(rest) {
        if left == 0 {
            return false;
        }
        left -= 1;
        rest = others;
    }
    left == 0
}
