//! The commands of a proof, read from trees by their shape.

ghost use Rattle.std.specs.Prelude.{◌≡◌, option_map};
ghost use Rattle.spec_checking.specs.Commands.{no_keywords, symbol_in, list_in, are_symbols, symbols_in, with_rule, with_premises, with_arguments, with_discharged, with_keyword, keywords_in, assume_shape, step_shape, definition_of, define_shape, is_definition, shape_by, shape_of};
ghost use Rattle.smt_command.specs.Commands.{command_view};
ghost use Rattle.smt_sexpr.specs.Items.{trees_meant, tree_meant};
ghost use Rattle.smt_sexpr.specs.Views.{word_view};
ghost use Rattle.alethe_reader.specs.Shapes.{keywords_view, shape_view, keyword_in};

use smt_command::{Command, FunctionText, define_fun};
use smt_sexpr::{
    Trees, View, Word, is_keyword, is_reserved, is_symbol, is_word, list_first, look, passes,
    same_bytes, split, tree_alone, want, word_first,
};

/// Holds a command of a proof by its shape: an assume, a step, or a definition. Source: Alethe specification, commands.
#[derive(Clone, Copy)]
pub enum Shape<'a> {
    /// An assume: its name, and its term, which is the first tree.
    Assume(Word<'a>, Trees<'a>),
    /// A step.
    Step(StepParts<'a>),
    /// A definition.
    Define(FunctionText<'a>),
}

/// Holds the parts of a step, as they are written. Source: Alethe specification, commands.
#[derive(Clone, Copy)]
pub struct StepParts<'a> {
    /// The step's name.
    pub name: Word<'a>,
    /// The literals of its clause.
    pub literals: Trees<'a>,
    /// The name of its rule.
    pub rule: Word<'a>,
    /// The names of its premises, where they are given: each tree is a symbol.
    pub premises: Option<Trees<'a>>,
    /// Its arguments, where they are given.
    pub arguments: Option<Trees<'a>>,
}

/// What the keywords of a step say.
#[derive(Clone, Copy)]
struct Keywords<'a> {
    /// The rule's name.
    rule: Option<Word<'a>>,
    /// The names of the premises.
    premises: Option<Trees<'a>>,
    /// The arguments.
    arguments: Option<Trees<'a>>,
    /// The names of discharged assumptions.
    discharged: Option<Trees<'a>>,
}

/// Finds the symbol that the first tree is.
fn symbol_in(trees: Trees<'_>) -> Option<Word<'_>>
    ensures { option_map word_view result ≡ symbol_in (tree_meant trees.entry) }
{
    match look(trees) {
        View::Atom(at, kind, bytes) => {
            if is_symbol(kind) {
                return Some(Word {
                    at: u64::from(at),
                    kind,
                    bytes,
                });
            }
            None
        }
        View::List(_, _, _) => None,
    }
}

/// Finds the trees in the list that the first tree is.
fn list_in(trees: Trees<'_>) -> Option<Trees<'_>>
    ensures { option_map trees_meant result ≡ list_in (tree_meant trees.entry) }
{
    match look(trees) {
        View::Atom(_, _, _) => None,
        View::List(_, inside, _) => Some(inside),
    }
}

/// Tells whether each tree is a symbol.
fn are_symbols(trees: Trees<'_>) -> bool
    ensures { result ≡ are_symbols (trees_meant trees.entry) }
{
    let mut rest = trees;
    'symbols: loop {
        let Some((first, others)) = split(rest) else {
            return true;
        };
        match look(first) {
            View::Atom(_, kind, _) => {
                if !is_symbol(kind) {
                    return false;
                }
            }
            View::List(_, _, _) => return false,
        }
        rest = others;
    }
}

/// Finds the trees in the list of symbols that the first tree is.
fn symbols_in(trees: Trees<'_>) -> Option<Trees<'_>>
    ensures { option_map trees_meant result ≡ symbols_in (tree_meant trees.entry) }
{
    let inside = list_in(trees)?;
    passes(are_symbols(inside))?;
    Some(inside)
}

/// Adds the name of the rule to the keywords, where they have none.
fn with_rule<'a>(keywords: Keywords<'a>, value: Trees<'a>) -> Option<Keywords<'a>>
    ensures { option_map keywords_view result ≡ with_rule (keywords_view keywords.entry) (tree_meant value.entry) }
{
    passes(keywords.rule.is_none())?;
    let rule = symbol_in(value)?;
    Some(Keywords {
        rule: Some(rule),
        premises: keywords.premises,
        arguments: keywords.arguments,
        discharged: keywords.discharged,
    })
}

/// Adds the names of the premises to the keywords, where they have none.
fn with_premises<'a>(keywords: Keywords<'a>, value: Trees<'a>) -> Option<Keywords<'a>>
    ensures { option_map keywords_view result ≡ with_premises (keywords_view keywords.entry) (tree_meant value.entry) }
{
    passes(keywords.premises.is_none())?;
    let premises = symbols_in(value)?;
    Some(Keywords {
        rule: keywords.rule,
        premises: Some(premises),
        arguments: keywords.arguments,
        discharged: keywords.discharged,
    })
}

/// Adds arguments to the keywords, where they have none.
fn with_arguments<'a>(keywords: Keywords<'a>, value: Trees<'a>) -> Option<Keywords<'a>>
    ensures { option_map keywords_view result ≡ with_arguments (keywords_view keywords.entry) (tree_meant value.entry) }
{
    passes(keywords.arguments.is_none())?;
    let arguments = list_in(value)?;
    Some(Keywords {
        rule: keywords.rule,
        premises: keywords.premises,
        arguments: Some(arguments),
        discharged: keywords.discharged,
    })
}

/// Adds discharged assumptions to the keywords, where they have none.
fn with_discharged<'a>(keywords: Keywords<'a>, value: Trees<'a>) -> Option<Keywords<'a>>
    ensures { option_map keywords_view result
        ≡ with_discharged (keywords_view keywords.entry) (tree_meant value.entry) }
{
    passes(keywords.discharged.is_none())?;
    let discharged = symbols_in(value)?;
    Some(Keywords {
        rule: keywords.rule,
        premises: keywords.premises,
        arguments: keywords.arguments,
        discharged: Some(discharged),
    })
}

/// Adds a keyword to those before it, by its name and its value.
fn with_keyword<'a>(keywords: Keywords<'a>, name: &[u8], value: Trees<'a>) -> Option<Keywords<'a>>
    ensures { option_map keywords_view result
        ≡ with_keyword (keywords_view keywords.entry) name.now (tree_meant value.entry) }
{
    if same_bytes(name, b"rule") {
        return with_rule(keywords, value);
    }
    if same_bytes(name, b"premises") {
        return with_premises(keywords, value);
    }
    if same_bytes(name, b"args") {
        return with_arguments(keywords, value);
    }
    if same_bytes(name, b"discharge") {
        return with_discharged(keywords, value);
    }
    None
}

/// Finds the name of the keyword that the first tree is.
fn keyword_in(trees: Trees<'_>) -> Option<&[u8]>
    ensures { option_map (λ b. b.now) result ≡ keyword_in (tree_meant trees.entry) }
{
    match look(trees) {
        View::Atom(_, kind, bytes) => {
            if is_keyword(kind) {
                return Some(bytes);
            }
            None
        }
        View::List(_, _, _) => None,
    }
}

/// Reads what keywords and their values say, in any order, each at most once.
fn keywords_in(trees: Trees<'_>) -> Option<Keywords<'_>>
    ensures { option_map keywords_view result ≡ keywords_in no_keywords (trees_meant trees.entry) }
{
    let mut keywords = Keywords {
        rule: None,
        premises: None,
        arguments: None,
        discharged: None,
    };
    let mut rest = trees;
    'keywords: loop {
        let Some((key, behind)) = split(rest) else {
            return Some(keywords);
        };
        let Some((value, others)) = split(behind) else {
            return None;
        };
        let Some(name) = keyword_in(key) else {
            return None;
        };
        match with_keyword(keywords, name, value) {
            Some(next) => keywords = next,
            None => return None,
        }
        rest = others;
    }
}

/// Reads an assume, after its word.
#[tactic(auto, unfolding(spec_checking::specs::Commands::assume_shape))]
fn assume_shape(trees: Trees<'_>) -> Option<Shape<'_>>
    ensures { option_map shape_view result ≡ assume_shape (trees_meant trees.entry) }
{
    let (name, rest) = word_first(trees)?;
    passes(is_symbol(name.kind))?;
    let term = tree_alone(rest)?;
    Some(Shape::Assume(name, term))
}

/// Reads a step, after its word.
#[tactic(auto, unfolding(spec_checking::specs::Commands::step_shape))]
fn step_shape(trees: Trees<'_>) -> Option<Shape<'_>>
    ensures { option_map shape_view result ≡ step_shape (trees_meant trees.entry) }
{
    let (name, rest) = word_first(trees)?;
    passes(is_symbol(name.kind))?;
    let (clause, rest) = list_first(rest)?;
    let (cl, literals) = word_first(clause)?;
    want(b"cl", cl)?;
    let keywords = keywords_in(rest)?;
    let rule = keywords.rule?;
    Some(Shape::Step(StepParts {
        name,
        literals,
        rule,
        premises: keywords.premises,
        arguments: keywords.arguments,
    }))
}

/// Gives the shape of the definition that a command of a script is.
fn definition_of(command: Command<'_>) -> Option<Shape<'_>>
    ensures { option_map shape_view result ≡ definition_of (command_view command.entry) }
{
    match command {
        Command::DefineFun(parts) => Some(Shape::Define(parts)),
        _ => None,
    }
}

/// Reads a definition, after its word.
fn define_shape(trees: Trees<'_>) -> Option<Shape<'_>>
    ensures { option_map shape_view result ≡ define_shape (trees_meant trees.entry) }
{
    let command = define_fun(trees)?;
    definition_of(command)
}

/// Tells whether a word is `define-fun`, which is reserved.
fn is_definition(word: Word<'_>) -> bool
    ensures { result ≡ is_definition (word_view word.entry) }
{
    is_reserved(word.kind) && same_bytes(word.bytes, b"define-fun")
}

/// Reads a command by its word, from the trees after it.
fn shape_by<'a>(word: Word<'a>, trees: Trees<'a>) -> Option<Shape<'a>>
    ensures { option_map shape_view result ≡ shape_by (word_view word.entry, trees_meant trees.entry) }
{
    if is_word(b"assume", word) {
        return assume_shape(trees);
    }
    if is_word(b"step", word) {
        return step_shape(trees);
    }
    if is_definition(word) {
        return define_shape(trees);
    }
    None
}

/// Finds the shape of a command whose list has these trees in it; `None` where it has none. Names and terms are as they
/// are written: nothing is looked up. It takes no memory, and time that goes with the trees.
///
/// Source: Alethe specification, commands.
#[tactic(auto, unfolding(spec_checking::specs::Commands::shape_of))]
pub fn shape_of(trees: Trees<'_>) -> Option<Shape<'_>>
    ensures { option_map shape_view result ≡ shape_of (trees_meant trees.entry) }
{
    let (word, rest) = word_first(trees)?;
    shape_by(word, rest)
}
