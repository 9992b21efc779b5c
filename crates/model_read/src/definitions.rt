//! The definitions of a model.

ghost use Rattle.std.specs.Prelude.{◌≡◌, ◌<◌, List, length, slice_index_or, false, IfOk};
ghost use Rattle.spec_text.specs.Bytes.{Name};
ghost use Rattle.spec_sorts.specs.Signatures.{Signature};
ghost use Rattle.spec_model_files.specs.Definitions.{defined_name, definition_read};
ghost use Rattle.smt_sexpr.specs.Items.{tree_meant};
ghost use Rattle.term_core.specs.Symbols.{symbol_at, IsSymbol};
ghost use Rattle.term_reader.specs.Scopes.{ScopeMeans, HasSignature, function_under};
ghost use Rattle.term_walks.specs.Valuations.{table_meant, IsTableNamed};
ghost use Rattle.model_read.specs.Answers.{answered};
ghost use Rattle.model_read.specs.Shapes.{definition_view};
ghost use Rattle.model_read.specs.Values.{GivesAs};
ghost use Rattle.model_read.specs.Definitions.{declared_in, table_by, definition_by, definition_meant, AreMarked};

use crate::bodies::body;
use crate::errors::{LocatedFault, ReadError, fault_at};
use crate::parameters::parameter_list;
use crate::sorts::want_sort;
use crate::words::{DefinitionText, definition_in, symbol};
use smt_sexpr::{Trees, View, look};
use spec_model_files::ModelKind;
use std::alloc::Global;
use term_core::{SymbolId, TermTable};
use term_reader::{Function, Scope};
use term_walks::Table;

/// Holds a definition that is read: a declared symbol, and its table.
#[derive(Drop)]
pub(crate) struct SymbolTable {
    /// The symbol.
    pub(crate) symbol: SymbolId,
    /// Its table.
    pub(crate) table: Table,
}

/// Finds the declared symbol that a name stands for.
pub(crate) fn declared(scope: &Scope, name: &[u8]) -> Option<SymbolId>
    ensures { result ≡ declared_in (function_under scope.now name.now) }
{
    match scope.function(name) {
        Some(Function::Declared(id)) => Some(*id),
        _ => None,
    }
}

/// Tells whether a symbol is marked.
fn is_marked(marks: &[bool], id: SymbolId) -> bool
    requires { id.0 < length marks.now }
    ensures { result ≡ slice_index_or marks.now id.0 false }
{
    marks[id.0 as usize]
}

/// Reads the name of a definition: a declared symbol that is not marked.
///
/// The fault is the first of these: `BadShape` at what is no symbol, `UnknownSymbol` at what is not declared, `Twice`
/// at what is marked.
fn defined_name(
    table: &TermTable,
    scope: &Scope,
    marks: &[bool],
    text: Trees<'_>,
) -> Result<SymbolId, LocatedFault>
    requires known { HasSignature table.now scope.now }
    requires marks { length marks.now ≡ length table.now.symbols }
    ensures reads { (g : Signature) (names : List Name) → ScopeMeans table.now scope.now g
        → AreMarked table.now.symbols names marks.now
        → answered (symbol_at table.now.symbols) result ≡ defined_name g names (tree_meant text.entry) }
    ensures symbol { IfOk result (IsSymbol table.now.symbols) }
    ensures unmarked { IfOk result (λ s. slice_index_or marks.now s.0 false ≡ false) }
{
    match symbol(text) {
        Ok(word) => match declared(scope, word.bytes) {
            Some(id) => {
                if is_marked(marks, id) {
                    return Err(fault_at(word.at, ModelKind::Twice));
                }
                Ok(id)
            }
            None => Err(fault_at(word.at, ModelKind::UnknownSymbol)),
        },
        Err(fault) => Err(fault),
    }
}

/// Reads the parameters, the sort and the body of a definition of a symbol.
fn table_of(
    alloc: Global,
    table: &TermTable,
    scope: &Scope,
    symbol: SymbolId,
    parts: DefinitionText<'_>,
) -> Result<Table, ReadError>
    requires known { HasSignature table.now scope.now }
    requires symbol { IsSymbol table.now.symbols symbol }
    ensures reads { (g : Signature) → ScopeMeans table.now scope.now g → GivesAs (table_meant table.now.sorts) result
        (table_by g (symbol_at table.now.symbols symbol) (definition_view parts.entry)) }
    ensures named { IfOk result (IsTableNamed table.now.sorts) }
{
    let sorts = table.symbols().parameters(symbol);
    let gives = table.symbols().result(symbol);
    match parameter_list(alloc, table, scope, sorts, parts.parameters) {
        Ok(names) => match want_sort(table, scope, gives, parts.sort) {
            Ok(()) => body(alloc, table, scope, &names, sorts, gives, parts.body),
            Err(fault) => Err(ReadError::Fault(fault)),
        },
        Err(error) => Err(error),
    }
}

/// Reads a definition by its parts.
fn definition_by(
    alloc: Global,
    table: &TermTable,
    scope: &Scope,
    marks: &[bool],
    parts: DefinitionText<'_>,
) -> Result<SymbolTable, ReadError>
    requires known { HasSignature table.now scope.now }
    requires marks { length marks.now ≡ length table.now.symbols }
    ensures reads { (g : Signature) (names : List Name) → ScopeMeans table.now scope.now g
        → AreMarked table.now.symbols names marks.now
        → GivesAs (definition_meant table.now) result (definition_by g names (definition_view parts.entry)) }
    ensures symbol { IfOk result (λ d. IsSymbol table.now.symbols d.symbol) }
    ensures unmarked { IfOk result (λ d. slice_index_or marks.now d.symbol.0 false ≡ false) }
    ensures named { IfOk result (λ d. IsTableNamed table.now.sorts d.table) }
{
    match defined_name(table, scope, marks, parts.name) {
        Ok(symbol) => match table_of(alloc, table, scope, symbol, parts) {
            Ok(table) => Ok(SymbolTable { symbol, table }),
            Err(error) => Err(error),
        },
        Err(fault) => Err(ReadError::Fault(fault)),
    }
}

/// Reads a definition of a declared symbol that is not marked.
///
/// - `Fault` is its first: `BadShape` where it is no `define-fun` of four parts; then of its name, its parameters,
///   its sort and its body, in this order.
/// - `Memory` comes where none is left.
///
/// Source: SMT-LIB 2.6, section 4.2.3; the order of faults is own.
pub(crate) fn definition(
    alloc: Global,
    table: &TermTable,
    scope: &Scope,
    marks: &[bool],
    text: Trees<'_>,
) -> Result<SymbolTable, ReadError>
    requires known { HasSignature table.now scope.now }
    requires marks { length marks.now ≡ length table.now.symbols }
    ensures reads { (g : Signature) (names : List Name) → ScopeMeans table.now scope.now g
        → AreMarked table.now.symbols names marks.now
        → GivesAs (definition_meant table.now) result (definition_read g names (tree_meant text.entry)) }
    ensures symbol { IfOk result (λ d. IsSymbol table.now.symbols d.symbol) }
    ensures unmarked { IfOk result (λ d. slice_index_or marks.now d.symbol.0 false ≡ false) }
    ensures named { IfOk result (λ d. IsTableNamed table.now.sorts d.table) }
{
    match look(text) {
        View::Atom(at, _, _) => Err(ReadError::Fault(fault_at(u64::from(at), ModelKind::BadShape))),
        View::List(at, inside, _) => match definition_in(inside) {
            Some(parts) => definition_by(alloc, table, scope, marks, parts),
            None => Err(ReadError::Fault(fault_at(u64::from(at), ModelKind::BadShape))),
        },
    }
}
