//! The names that `:named` gives.

ghost use Rattle.std.specs.Prelude.{◌≡◌, ℕ, ◌||◌, [], ◌∷◌, option_map, IfOk};
ghost use Rattle.spec_text.specs.Trees.{Tree};
ghost use Rattle.spec_sorts.specs.Terms.{Term};
ghost use Rattle.spec_sorts.specs.Signatures.{Signature};
ghost use Rattle.spec_sorts.specs.Forms.{a_keyword, named_words};
ghost use Rattle.spec_reading.specs.Names.{is_function, is_own};
ghost use Rattle.spec_reading.specs.Reading.{annotated_as, made_by};
ghost use Rattle.smt_sexpr.specs.Items.{trees_meant, tree_meant};
ghost use Rattle.smt_sexpr.specs.Views.{word_view};
ghost use Rattle.term_core.specs.Tables.{TableView, IsIn};
ghost use Rattle.term_reader.specs.Forms.{next_meant};
ghost use Rattle.term_reader.specs.Names.{setting_meant};
ghost use Rattle.term_reader.specs.Scopes.{Widens};
ghost use Rattle.sort_check.specs.Bindings.{bound_at};
ghost use Rattle.sort_check.specs.Naming.{NamesMean, annotated_meant, EndsNaming, wanted_word, next_word, listed_word};

use crate::bindings::Bindings;
use crate::mentions::mentions;
use no_memory::NoMemory;
use smt_sexpr::{Trees, View, Word, look, split};
use spec_text::Fault;
use std::alloc::Global;
use term_core::{TermId, TermTable, TheoryHead};
use term_reader::{
    Function, Macro, NextAttribute, ReadError, Scope, Setting, fault_at, new_name, next_after,
};

/// Holds a term with attributes.
#[derive(Clone, Copy, Debug)]
pub struct Annotated {
    /// The offset of the whole.
    pub at: u64,
    /// The term.
    pub id: TermId,
    /// Whether it may get a name.
    pub may_name: bool,
}

/// Tells whether a term may get a name: where names may be given, and no bound name is free in its text.
pub fn may_name(
    alloc: Global,
    setting: Setting<'_>,
    bound: &Bindings,
    text: Trees<'_>,
) -> Result<bool, NoMemory>
    ensures { IfOk result (λ yes. (t : TableView) (at : ℕ) (u : Term) → yes
        ≡ (annotated_as (setting_meant setting.entry) (bound_at t bound.now) at (tree_meant text.entry) u).may_name) }
{
    if !setting.may_name {
        return Ok(false);
    }
    if bound.len() == 0 {
        return Ok(true);
    }
    match mentions(alloc, bound, text) {
        Ok(yes) => Ok(!yes),
        Err(error) => Err(error),
    }
}

/// Tells whether a name is a theory's, or a function's of the scope.
pub fn is_function(scope: &Scope, name: &[u8]) -> bool
    ensures { (t : TableView) (s : Signature) → NamesMean t scope.now s → result ≡ is_function s name.now }
{
    if let Some(_) = TheoryHead::named(name) {
        return true;
    }
    match scope.function(name) {
        Some(_) => true,
        None => false,
    }
}

// Whether a name is a theory's, a function's of the scope, or the one whose body is read.
fn is_known(scope: &Scope, setting: Setting<'_>, name: &[u8]) -> bool
    ensures { (t : TableView) (s : Signature) → NamesMean t scope.now s
        → result ≡ (is_function s name.now || is_own (setting_meant setting.entry).own name.now) }
{
    if let Some(_) = TheoryHead::named(name) {
        return true;
    }
    if let Some(_) = scope.function(name) {
        return true;
    }
    match setting.own {
        Some(own) => own == name,
        None => false,
    }
}

// Gives a term a name.
fn give_name(
    alloc: Global,
    table: &TermTable,
    scope: &mut Scope,
    setting: Setting<'_>,
    term: Annotated,
    word: Word<'_>,
    named: &mut Vec<TermId>,
) -> Result<(), ReadError>
    requires { IsIn table.now term.id }
    ensures ends { (s : Signature) (text : Tree) → NamesMean table.now scope.old s
        → EndsNaming table.now s scope.new (named.old.items, named.new.items)
        (made_by (setting_meant setting.entry) s (annotated_meant table.now text term) (word_view word.entry ∷ []))
        result }
    ensures widens { Widens scope.old scope.new }
{
    scope.each_name_means_something();
    let taken = is_known(scope, setting, word.bytes);
    match new_name(setting, taken, word) {
        Err(fault) => Err(ReadError::Fault(fault)),
        Ok(name) => {
            if !term.may_name {
                return Err(ReadError::Fault(fault_at(term.at, Fault::BadShape)));
            }
            let definition = Macro {
                parameters: Vec::new(alloc),
                result: table.sort(term.id),
                body: term.id,
            };
            if let Err(_) = scope.name_function(name, Function::Defined(definition)) {
                return Err(ReadError::Memory);
            }
            if let Err(_) = named.push(term.id) {
                return Err(ReadError::Memory);
            }
            Ok(())
        }
    }
}

/// Says the word that is where a name is wanted.
fn word_wanted(next: NextAttribute, item: Trees<'_>) -> Option<Word<'_>>
    ensures { option_map word_view result ≡ wanted_word (next_meant next) (tree_meant item.entry) }
{
    match (next, look(item)) {
        (NextAttribute::Name, View::Atom(at, kind, bytes)) => Some(Word {
            at: u64::from(at),
            kind,
            bytes,
        }),
        _ => None,
    }
}

/// Says what may come after an item among attributes.
fn next_wanted(next: NextAttribute, item: Trees<'_>) -> NextAttribute
    ensures { next_meant result ≡ next_word (next_meant next) (tree_meant item.entry) }
{
    match next_after(next, item) {
        Some(then) => then,
        None => NextAttribute::Keyword,
    }
}

// Gives a term the name that is next, where one is wanted there.
fn give_wanted(
    alloc: Global,
    table: &TermTable,
    scope: &mut Scope,
    setting: Setting<'_>,
    term: Annotated,
    word: Option<Word<'_>>,
    named: &mut Vec<TermId>,
) -> Result<(), ReadError>
    requires { IsIn table.now term.id }
    ensures ends { (s : Signature) (text : Tree) → NamesMean table.now scope.old s
        → EndsNaming table.now s scope.new (named.old.items, named.new.items)
        (made_by (setting_meant setting.entry) s (annotated_meant table.now text term)
        (listed_word (option_map word_view word.entry)))
        result }
    ensures widens { Widens scope.old scope.new }
{
    match word {
        Some(word) => give_name(alloc, table, scope, setting, term, word, named),
        None => Ok(()),
    }
}

/// Gives a term the names that `:named` gives it among attributes, from left to right.
pub fn name_term(
    alloc: Global,
    table: &TermTable,
    scope: &mut Scope,
    setting: Setting<'_>,
    term: Annotated,
    attributes: Trees<'_>,
    named: &mut Vec<TermId>,
) -> Result<(), ReadError>
    requires { IsIn table.now term.id }
    ensures ends { (s : Signature) (text : Tree) → NamesMean table.now scope.old s
        → EndsNaming table.now s scope.new (named.old.items, named.new.items)
        (made_by (setting_meant setting.entry) s (annotated_meant table.now text term)
        (named_words a_keyword (trees_meant attributes.entry))) result }
    ensures widens { Widens scope.old scope.new }
{
    let mut next = NextAttribute::Keyword;
    let mut rest = attributes;
    'attributes: while let Some((item, after)) = split(rest) {
        let word = word_wanted(next, item);
        if let Err(stop) = give_wanted(alloc, table, scope, setting, term, word, named) {
            return Err(stop);
        }
        next = next_wanted(next, item);
        rest = after;
    }
    Ok(())
}
