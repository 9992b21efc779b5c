//! The names that `:named` gives in texts, and the faults that are at them.

ghost use Rattle.std.specs.Prelude.{◌≡◌, IfOk, ◌∷◌};
ghost use Rattle.spec_sorts.specs.Forms.{a_keyword, named_words};
ghost use Rattle.spec_commands.specs.Labels.{names_given};
ghost use Rattle.spec_checking.specs.Reading.{named_in, named_in_all, one_is_at, kind_by};
ghost use Rattle.smt_sexpr.specs.Items.{trees_meant, tree_meant};
ghost use Rattle.smt_sexpr.specs.Views.{word_view};
ghost use Rattle.term_reader.specs.Forms.{next_meant};
ghost use Rattle.sort_check.specs.Naming.{wanted_word, next_word, listed_word};
ghost use Rattle.alethe_reader.specs.Naming.{IsErrorAmong};

use crate::errors::{CommandError, fault};
use no_memory::NoMemory;
use smt_sexpr::{Trees, View, Word, look, split};
use spec_proofs::ProofKind;
use spec_text::Fault;
use std::alloc::Global;
use term_reader::{ListForm, NextAttribute, ReadError, list_form, next_after};

/// Tells whether a name is at an offset that is the first tree, where that is wanted as a name.
fn is_wanted_at(next: NextAttribute, item: Trees<'_>, at: u64) -> bool
    ensures { result ≡ one_is_at (listed_word (wanted_word (next_meant next) (tree_meant item.entry))) at }
{
    match (next, look(item)) {
        (NextAttribute::Name, View::Atom(place, _, _)) => u64::from(place) == at,
        _ => false,
    }
}

/// Says what may come after an item among attributes.
fn next_wanted(next: NextAttribute, item: Trees<'_>) -> NextAttribute
    ensures { next_meant result ≡ next_word (next_meant next) (tree_meant item.entry) }
{
    match next_after(next, item) {
        Some(then) => then,
        None => NextAttribute::Keyword,
    }
}

/// Tells whether one of the names that attributes give is at an offset.
fn attributes_name_at(attributes: Trees<'_>, at: u64) -> bool
    ensures { result ≡ one_is_at (named_words a_keyword (trees_meant attributes.entry)) at }
{
    let mut next = NextAttribute::Keyword;
    let mut rest = attributes;
    'attributes: while let Some((item, after)) = split(rest) {
        if is_wanted_at(next, item, at) {
            return true;
        }
        next = next_wanted(next, item);
        rest = after;
    }
    false
}

/// Tells whether one of the names that a list gives to its term is at an offset.
fn list_names_at(inside: Trees<'_>, at: u64) -> bool
    ensures { result ≡ one_is_at (names_given (trees_meant inside.entry)) at }
{
    let Some((head, arguments)) = split(inside) else {
        return false;
    };
    let Some((_, attributes)) = split(arguments) else {
        return false;
    };
    match list_form(head, arguments) {
        ListForm::Annotates => attributes_name_at(attributes, at),
        _ => false,
    }
}

/// Tells whether one of the names that are given in texts is at an offset.
///
/// Lists that are open are in a row, so nothing recurses. `NoMemory` may come where a list is in the texts.
fn texts_name_at(alloc: Global, texts: Trees<'_>, at: u64) -> Result<bool, NoMemory>
    ensures { IfOk result (λ yes. yes ≡ one_is_at (named_in_all (trees_meant texts.entry)) at) }
{
    let mut open = Vec::new(alloc);
    let mut rest = texts;
    'texts: loop {
        let Some((first, others)) = split(rest) else {
            let Some(outer) = open.pop() else {
                return Ok(false);
            };
            rest = outer;
            continue;
        };
        match look(first) {
            View::Atom(_, _, _) => rest = others,
            View::List(_, inside, _) => {
                if list_names_at(inside, at) {
                    return Ok(true);
                }
                open.push(others)?;
                rest = inside;
            }
        }
    }
}

/// Tells whether one of the names that are given in the first tree is at an offset.
///
/// `NoMemory` may come where the tree is a list.
fn text_names_at(alloc: Global, text: Trees<'_>, at: u64) -> Result<bool, NoMemory>
    ensures { IfOk result (λ yes. yes ≡ one_is_at (named_in (tree_meant text.entry)) at) }
{
    match look(text) {
        View::Atom(_, _, _) => Ok(false),
        View::List(_, inside, _) => {
            if list_names_at(inside, at) {
                return Ok(true);
            }
            texts_name_at(alloc, inside, at)
        }
    }
}

/// Says what a fault of a text is in a proof, by whether it is at a name that is given to a term.
fn kind_by(given: bool, fault: Fault) -> ProofKind
    ensures { result ≡ kind_by given fault }
{
    match fault {
        Fault::BadShape => ProofKind::BadShape,
        Fault::Twice => {
            if given {
                return ProofKind::TwiceName;
            }
            ProofKind::Term(Fault::Twice)
        }
        other => ProofKind::Term(other),
    }
}

/// Says what an error of reading texts is in a proof. The texts are walked only where a name came twice.
pub(crate) fn error_in_texts(alloc: Global, texts: Trees<'_>, error: ReadError) -> CommandError
    ensures { IsErrorAmong (named_in_all (trees_meant texts.entry)) error result }
{
    let ReadError::Fault(found) = error else {
        return CommandError::Memory;
    };
    let Fault::Twice = found.fault else {
        return fault(found.offset, kind_by(false, found.fault));
    };
    match texts_name_at(alloc, texts, found.offset) {
        Ok(given) => fault(found.offset, kind_by(given, Fault::Twice)),
        Err(_) => CommandError::Memory,
    }
}

/// Says what an error of reading the first tree is in a proof. The text is walked only where a name came twice.
pub(crate) fn error_in_text(alloc: Global, text: Trees<'_>, error: ReadError) -> CommandError
    ensures { IsErrorAmong (named_in (tree_meant text.entry)) error result }
{
    let ReadError::Fault(found) = error else {
        return CommandError::Memory;
    };
    let Fault::Twice = found.fault else {
        return fault(found.offset, kind_by(false, found.fault));
    };
    match text_names_at(alloc, text, found.offset) {
        Ok(given) => fault(found.offset, kind_by(given, Fault::Twice)),
        Err(_) => CommandError::Memory,
    }
}

/// Says what an error of reading a definition is in a proof, by its name and its body.
///
/// The body is walked only where another name than the definition's came twice.
pub(crate) fn error_in_definition(
    alloc: Global,
    name: Word<'_>,
    body: Trees<'_>,
    error: ReadError,
) -> CommandError
    ensures { IsErrorAmong (word_view name.entry ∷ named_in (tree_meant body.entry)) error result }
{
    let ReadError::Fault(found) = error else {
        return CommandError::Memory;
    };
    if name.at == found.offset {
        return fault(found.offset, kind_by(true, found.fault));
    }
    error_in_text(alloc, body, error)
}
