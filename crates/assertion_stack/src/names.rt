//! The names that a script may declare, and the sorts of texts.

ghost use Rattle.std.specs.Prelude.{◌≡◌, None};
ghost use Rattle.spec_sorts.specs.Signatures.{Signature, known_as, is_some};
ghost use Rattle.spec_reading.specs.Names.{script, new_name, is_function, is_sort};
ghost use Rattle.spec_reading.specs.Sorts.{sorts_in};
ghost use Rattle.smt_sexpr.specs.Items.{trees_meant};
ghost use Rattle.smt_sexpr.specs.Views.{word_view};
ghost use Rattle.term_core.specs.Tables.{TableView};
ghost use Rattle.term_reader.specs.Names.{answered, setting_meant};
ghost use Rattle.term_reader.specs.Scopes.{ScopeMeans};
ghost use Rattle.assertion_stack.specs.Views.{AreSortsOf};

use smt_sexpr::{Trees, Word, same_bytes, split};
use std::alloc::Global;
use term_core::{Sort, TheoryHead};
use term_reader::{ReadError, Scope, Setting, TermFault, new_name, sort_in};

/// Says how a script's text is read where it is asserted, and what its new names may be.
pub(crate) fn in_script<'a>() -> Setting<'a>
    ensures { setting_meant result ≡ script }
{
    Setting {
        kept_names: false,
        may_name: true,
        own: None,
    }
}

/// Tells whether a name is that of a sort: a theory's, or one that a scope has.
fn is_sort(scope: &Scope, name: &[u8]) -> bool
    ensures { (t : TableView) (s : Signature) → ScopeMeans t scope.now s → result ≡ is_sort s name.now }
{
    if same_bytes(b"Bool", name) {
        return true;
    }
    if same_bytes(b"Real", name) {
        return true;
    }
    match scope.sort(name) {
        Some(_) => true,
        None => false,
    }
}

/// Tells whether a scope has a function of a name.
fn has_function(scope: &Scope, name: &[u8]) -> bool
    ensures { (t : TableView) (s : Signature) → ScopeMeans t scope.now s → result ≡ is_some (known_as s name.now) }
{
    match scope.function(name) {
        Some(_) => true,
        None => false,
    }
}

/// Tells whether a name is that of a function: a theory's, or one that a scope has.
fn is_function(scope: &Scope, name: &[u8]) -> bool
    ensures { (t : TableView) (s : Signature) → ScopeMeans t scope.now s → result ≡ is_function s name.now }
{
    match TheoryHead::named(name) {
        Some(_) => true,
        None => has_function(scope, name),
    }
}

/// Gives a word as the name of a new sort.
pub(crate) fn new_sort<'a>(scope: &Scope, word: Word<'a>) -> Result<&'a [u8], TermFault>
    ensures { (t : TableView) (s : Signature) → ScopeMeans t scope.now s
        → answered (λ b. b.now) result ≡ new_name script (is_sort s) (word_view word.entry) }
{
    new_name(in_script(), is_sort(scope, word.bytes), word)
}

/// Gives a word as the name of a new function.
pub(crate) fn new_function<'a>(scope: &Scope, word: Word<'a>) -> Result<&'a [u8], TermFault>
    ensures { (t : TableView) (s : Signature) → ScopeMeans t scope.now s
        → answered (λ b. b.now) result ≡ new_name script (is_function s) (word_view word.entry) }
{
    new_name(in_script(), is_function(scope, word.bytes), word)
}

/// Reads trees as sorts, one after the other.
pub(crate) fn sorts_in(
    alloc: Global,
    scope: &Scope,
    trees: Trees<'_>,
) -> Result<Vec<Sort>, ReadError>
    ensures { (t : TableView) (s : Signature) → ScopeMeans t scope.now s
        → AreSortsOf t (sorts_in s (trees_meant trees.entry)) result }
{
    let mut sorts = Vec::new(alloc);
    let mut rest = trees;
    'trees: while let Some((first, after)) = split(rest) {
        match sort_in(scope, first) {
            Ok(sort) => match sorts.push(sort) {
                Ok(()) => {}
                Err(_) => return Err(ReadError::Memory),
            },
            Err(fault) => return Err(ReadError::Fault(fault)),
        }
        rest = after;
    }
    Ok(sorts)
}
