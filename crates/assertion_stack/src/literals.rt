//! Literals that a check assumes, one after the other.

ghost use Rattle.std.specs.Prelude.{◌≡◌, List, [], Some, option_map};
ghost use Rattle.spec_text.specs.Bytes.{Name};
ghost use Rattle.spec_text.specs.Trees.{offset_of};
ghost use Rattle.spec_sorts.specs.Signatures.{Signature, Known, declared};
ghost use Rattle.spec_commands.specs.Literals.{is_proposition, literal_symbol, proposition_of, literal_in};
ghost use Rattle.spec_commands.specs.Stack.{literals_in};
ghost use Rattle.smt_sexpr.specs.Items.{trees_meant, tree_meant};
ghost use Rattle.smt_sexpr.specs.Views.{word_view};
ghost use Rattle.term_core.specs.Symbols.{symbol_of};
ghost use Rattle.term_reader.specs.Building.{KeepsTable};
ghost use Rattle.term_reader.specs.Scopes.{FunctionMeans, HasSignature, ScopeMeans};
ghost use Rattle.assertion_stack.specs.LiteralSymbols.{negated_symbol};
ghost use Rattle.assertion_stack.specs.Literals.{EndsSymbol, EndsLiteral, EndsLiterals};

use crate::faults::refused;
use crate::names::in_script;
use smt_sexpr::{
    Trees, View, Word, is_symbol, look, offset, passes, same_bytes, split, want_end, word_first,
};
use sort_check::{Room, term};
use spec_text::Fault;
use std::alloc::Global;
use term_core::{Sort, TermId, TermTable, TheoryHead};
use term_reader::{Function, ReadError, Scope};

/// Finds the symbol that stands after `not`, where trees are these two and no more.
#[tactic(auto, unfolding(crate::specs::LiteralSymbols::negated_symbol))]
fn negated_symbol(trees: Trees<'_>) -> Option<Word<'_>>
    ensures { option_map word_view result ≡ negated_symbol (trees_meant trees.entry) }
{
    let (head, rest) = word_first(trees)?;
    let (word, rest) = word_first(rest)?;
    want_end(rest)?;
    passes(is_symbol(head.kind) && same_bytes(head.bytes, b"not") && is_symbol(word.kind))?;
    Some(word)
}

/// Finds the symbol that the first tree is, or that it has after `not`.
fn literal_symbol(tree: Trees<'_>) -> Option<Word<'_>>
    ensures { option_map word_view result ≡ literal_symbol (tree_meant tree.entry) }
{
    match look(tree) {
        View::Atom(at, kind, bytes) => {
            if !is_symbol(kind) {
                return None;
            }
            Some(Word {
                at: u64::from(at),
                kind,
                bytes,
            })
        }
        View::List(_, inside, _) => negated_symbol(inside),
    }
}

/// Tells whether a function with these sorts of parameters and of values has none of the first and gives a truth value.
fn is_of_proposition(parameters: &[Sort], gives: Sort) -> bool
    ensures { (sorts : List Name) → result ≡ is_proposition (declared (symbol_of sorts [] parameters.now gives)) }
{
    match gives {
        Sort::Bool => parameters.is_empty(),
        Sort::Real => false,
        Sort::Declared(_) => false,
    }
}

/// Tells whether a function has no parameters and gives a truth value.
fn is_proposition(table: &TermTable, function: &Function) -> bool
    requires { (k : Known) × FunctionMeans table.now (Some function.now) (Some k) }
    ensures { (k : Known) → FunctionMeans table.now (Some function.now) (Some k) → result ≡ is_proposition k }
{
    match function {
        Function::Declared(symbol) => {
            let symbols = table.symbols();
            is_of_proposition(symbols.parameters(*symbol), symbols.result(*symbol))
        }
        Function::Defined(definition) => {
            is_of_proposition(&definition.parameters, definition.result)
        }
    }
}

/// Asks that the first tree is a symbol, or a negated one, that is declared or defined without parameters and of sort Bool.
fn want_proposition(table: &TermTable, scope: &Scope, tree: Trees<'_>) -> Result<(), ReadError>
    requires { HasSignature table.now scope.now }
    ensures { (s : Signature) → ScopeMeans table.now scope.now s → EndsSymbol
        (proposition_of s (offset_of (tree_meant tree.entry)) (literal_symbol (tree_meant tree.entry))) result }
{
    let Some(word) = literal_symbol(tree) else {
        return Err(refused(offset(tree), Fault::NotLiteral));
    };
    if let Some(_) = TheoryHead::named(word.bytes) {
        return Err(refused(offset(tree), Fault::NotLiteral));
    }
    let Some(function) = scope.function(word.bytes) else {
        return Err(refused(word.at, Fault::UnknownSymbol));
    };
    if !is_proposition(table, function) {
        return Err(refused(offset(tree), Fault::NotLiteral));
    }
    Ok(())
}

/// Reads the first tree as a literal: its term comes into the table. The scope is as it was.
fn literal(
    alloc: Global,
    table: &mut TermTable,
    scope: &mut Scope,
    tree: Trees<'_>,
) -> Result<TermId, ReadError>
    requires { HasSignature table.old scope.old }
    ensures ends { (s : Signature) → ScopeMeans table.old scope.old s
        → EndsLiteral table.new (literal_in s (tree_meant tree.entry)) result }
    ensures keeps { KeepsTable table.old table.new }
    ensures same { scope.new ≡ scope.old }
{
    if let Err(stop) = want_proposition(table, scope, tree) {
        return Err(stop);
    }
    scope.each_name_means_something();
    let sorts = scope.sorts_len();
    let functions = scope.len();
    let unlimited = Room { limit: None, at: 0 };
    let read = term(
        alloc,
        table,
        scope,
        in_script(),
        Sort::Bool,
        tree,
        unlimited,
    );
    // A literal makes no names, so none goes here: it shows that the scope is as it was.
    scope.back(sorts, functions);
    read
}

/// Reads trees as literals: their terms come into the table. The scope is as it was.
pub(crate) fn literals(
    alloc: Global,
    table: &mut TermTable,
    scope: &mut Scope,
    trees: Trees<'_>,
) -> Result<Vec<TermId>, ReadError>
    requires { HasSignature table.old scope.old }
    ensures ends { (s : Signature) → ScopeMeans table.old scope.old s
        → EndsLiterals table.new (literals_in s (trees_meant trees.entry)) result }
    ensures keeps { KeepsTable table.old table.new }
    ensures same { scope.new ≡ scope.old }
{
    let mut ids = Vec::new(alloc);
    let mut rest = trees;
    'trees: while let Some((first, after)) = split(rest) {
        match literal(alloc, table, scope, first) {
            Err(stop) => return Err(stop),
            Ok(id) => {
                if let Err(_) = ids.push(id) {
                    return Err(ReadError::Memory);
                }
            }
        }
        rest = after;
    }
    Ok(ids)
}
