//! The bodies of definitions: rows of tables, and defaults.

ghost use Rattle.std.specs.Prelude.{◌≡◌, ◌<◌, ◌∷◌, [], length, option_map, IfOk, IfSome};
ghost use Rattle.spec_sorts.specs.Signatures.{Signature};
ghost use Rattle.spec_model_files.specs.declared.ModelKind.TheVariants.{BadShape};
ghost use Rattle.spec_model_files.specs.Bodies.{equality_read, equalities_read, condition_read, body_read};
ghost use Rattle.smt_sexpr.specs.Items.{trees_meant, tree_meant, size_of};
ghost use Rattle.term_core.specs.Symbols.{HasSortIn, HaveSortsIn, sort_meant, sorts_meant};
ghost use Rattle.term_reader.specs.Scopes.{ScopeMeans, HasSignature};
ghost use Rattle.term_walks.specs.Valuations.{value_meant, values_meant, table_meant, IsNamed, AreNamed, IsRowNamed, IsTableNamed};
ghost use Rattle.model_read.specs.declared.errors.ReadError.TheVariants as errors;
ghost use Rattle.model_read.specs.Shapes.{pair_view, row_view, row_at};
ghost use Rattle.model_read.specs.Values.{GivesAs};
ghost use Rattle.model_read.specs.Bodies.{named_sorts, equality_by, row_by, ReadsRow};

use crate::errors::{ReadError, fault_at};
use crate::values::value;
use crate::words::{RowText, conjunction_in, equality_in, row_in, want_parameter};
use smt_sexpr::{Trees, View, is_word, list_inside, look, passes, split};
use spec_model_files::ModelKind;
use std::alloc::Global;
use term_core::{NameTable, Sort, TermTable};
use term_reader::Scope;
use term_walks::{Table, Value, ValueRow};

/// Makes the error of a list at an offset that has another form.
fn bad_shape(at: u64) -> ReadError
    ensures { result ≡ errors.Fault (record { offset = at; kind = BadShape }) }
{
    ReadError::Fault(fault_at(at, ModelKind::BadShape))
}

/// Reads the value that a parameter of a sort has by the two sides of an equality.
fn equality_by(
    alloc: Global,
    table: &TermTable,
    scope: &Scope,
    name: &[u8],
    sort: Sort,
    sides: (Trees<'_>, Trees<'_>),
) -> Result<Value, ReadError>
    requires known { HasSignature table.now scope.now }
    requires sort { HasSortIn table.now.sorts sort }
    ensures reads { (g : Signature) → ScopeMeans table.now scope.now g → GivesAs (value_meant table.now.sorts) result
        (equality_by g (name.now, sort_meant table.now.sorts sort) (pair_view sides.entry)) }
    ensures named { IfOk result (IsNamed table.now.sorts) }
{
    match want_parameter(name, sides.0) {
        Ok(()) => value(alloc, table, scope, sort, sides.1),
        Err(fault) => Err(ReadError::Fault(fault)),
    }
}

/// Reads the value that a parameter of a sort has by an equality.
fn equality(
    alloc: Global,
    table: &TermTable,
    scope: &Scope,
    name: &[u8],
    sort: Sort,
    text: Trees<'_>,
) -> Result<Value, ReadError>
    requires known { HasSignature table.now scope.now }
    requires sort { HasSortIn table.now.sorts sort }
    ensures reads { (g : Signature) → ScopeMeans table.now scope.now g → GivesAs (value_meant table.now.sorts) result
        (equality_read g (name.now, sort_meant table.now.sorts sort) (tree_meant text.entry)) }
    ensures named { IfOk result (IsNamed table.now.sorts) }
{
    match look(text) {
        View::Atom(at, _, _) => Err(bad_shape(u64::from(at))),
        View::List(at, inside, _) => match equality_in(inside) {
            Some(sides) => equality_by(alloc, table, scope, name, sort, sides),
            None => Err(bad_shape(u64::from(at))),
        },
    }
}

/// Reads the values of parameters by as many equalities, in their order.
fn equalities(
    alloc: Global,
    table: &TermTable,
    scope: &Scope,
    names: &NameTable,
    sorts: &[Sort],
    texts: Trees<'_>,
) -> Result<Vec<Value>, ReadError>
    requires known { HasSignature table.now scope.now }
    requires sorts { HaveSortsIn table.now.sorts sorts.now }
    requires long { length names.now ≡ length sorts.now }
    ensures reads { (g : Signature) → ScopeMeans table.now scope.now g
        → GivesAs (λ v. values_meant table.now.sorts v.items) result
        (equalities_read g (named_sorts names.now (sorts_meant table.now.sorts sorts.now)) (trees_meant texts.entry)) }
    ensures named { IfOk result (λ v. AreNamed table.now.sorts v.items) }
{
    let mut values = Vec::new(alloc);
    let mut rest = texts;
    'parameters: for k in 0..sorts.len() {
        let Some((first, others)) = split(rest) else {
            return Ok(values);
        };
        match equality(alloc, table, scope, names.name(k as u64), sorts[k], first) {
            Ok(made) => values.push(made)?,
            Err(error) => return Err(error),
        }
        rest = others;
    }
    Ok(values)
}

/// Reads the value of the only parameter by an equality.
fn only_equality(
    alloc: Global,
    table: &TermTable,
    scope: &Scope,
    name: &[u8],
    sort: Sort,
    text: Trees<'_>,
) -> Result<Vec<Value>, ReadError>
    requires known { HasSignature table.now scope.now }
    requires sort { HasSortIn table.now.sorts sort }
    ensures reads { (g : Signature) → ScopeMeans table.now scope.now g
        → GivesAs (λ v. values_meant table.now.sorts v.items) result
        (condition_read g ((name.now, sort_meant table.now.sorts sort) ∷ []) (tree_meant text.entry)) }
    ensures named { IfOk result (λ v. AreNamed table.now.sorts v.items) }
{
    match equality(alloc, table, scope, name, sort, text) {
        Ok(made) => {
            let mut values = Vec::new(alloc);
            values.push(made)?;
            Ok(values)
        }
        Err(error) => Err(error),
    }
}

/// Reads the arguments of a row by its condition: an equality for one parameter, else the conjunction of one for each.
fn condition(
    alloc: Global,
    table: &TermTable,
    scope: &Scope,
    names: &NameTable,
    sorts: &[Sort],
    text: Trees<'_>,
) -> Result<Vec<Value>, ReadError>
    requires known { HasSignature table.now scope.now }
    requires sorts { HaveSortsIn table.now.sorts sorts.now }
    requires long { length names.now ≡ length sorts.now }
    ensures reads { (g : Signature) → ScopeMeans table.now scope.now g
        → GivesAs (λ v. values_meant table.now.sorts v.items) result
        (condition_read g (named_sorts names.now (sorts_meant table.now.sorts sorts.now)) (tree_meant text.entry)) }
    ensures named { IfOk result (λ v. AreNamed table.now.sorts v.items) }
{
    if sorts.len() == 1 {
        return only_equality(alloc, table, scope, names.name(0), sorts[0], text);
    }
    match look(text) {
        View::Atom(at, _, _) => Err(bad_shape(u64::from(at))),
        View::List(at, inside, _) => match conjunction_in(sorts.len(), inside) {
            Some(texts) => equalities(alloc, table, scope, names, sorts, texts),
            None => Err(bad_shape(u64::from(at))),
        },
    }
}

/// Reads a row by its parts, in a list at an offset: the condition, then the value where it holds.
fn row(
    alloc: Global,
    table: &TermTable,
    scope: &Scope,
    names: &NameTable,
    sorts: &[Sort],
    gives: Sort,
    at: u64,
    parts: RowText<'_>,
) -> Result<ValueRow, ReadError>
    requires known { HasSignature table.now scope.now }
    requires sorts { HaveSortsIn table.now.sorts sorts.now }
    requires long { length names.now ≡ length sorts.now }
    requires gives { HasSortIn table.now.sorts gives }
    ensures reads { (g : Signature) → ScopeMeans table.now scope.now g → ReadsRow table.now.sorts result
        (row_by g (named_sorts names.now (sorts_meant table.now.sorts sorts.now)) (sort_meant table.now.sorts gives) at
        (row_view parts.entry)) }
    ensures named { IfOk result (IsRowNamed table.now.sorts) }
{
    if !is_word(b"ite", parts.word) {
        return Err(bad_shape(at));
    }
    match condition(alloc, table, scope, names, sorts, parts.condition) {
        Ok(arguments) => match value(alloc, table, scope, gives, parts.value) {
            Ok(value) => Ok(ValueRow { arguments, value }),
            Err(error) => Err(error),
        },
        Err(error) => Err(error),
    }
}

/// Finds the parts of a row, and the offset of its list, where there are so many parameters.
#[tactic(auto, unfolding(crate::specs::Shapes::row_at))]
fn row_at(count: usize, text: Trees<'_>) -> Option<(u64, RowText<'_>)>
    ensures shape { option_map (λ x. (x.0, row_view x.1)) result ≡ row_at count (tree_meant text.entry) }
    ensures less { IfSome result (λ x. size_of x.1.others < size_of text.entry) }
{
    passes(count != 0)?;
    let (at, inside) = list_inside(text)?;
    let parts = row_in(inside)?;
    Some((at, parts))
}

/// Reads the body of a definition as a table: a value, or where there are parameters a row before a table.
///
/// - `Fault` is the first in reading order. `BadShape` is at a part of another form; those of values are as `value`
///   says.
/// - `Memory` comes where none is left.
///
/// Rows that are open are in a list, so nothing recurses. Source: SMT-LIB 2.6, section 4.2.6; the forms are own.
pub(crate) fn body(
    alloc: Global,
    table: &TermTable,
    scope: &Scope,
    names: &NameTable,
    sorts: &[Sort],
    gives: Sort,
    text: Trees<'_>,
) -> Result<Table, ReadError>
    requires known { HasSignature table.now scope.now }
    requires sorts { HaveSortsIn table.now.sorts sorts.now }
    requires long { length names.now ≡ length sorts.now }
    requires gives { HasSortIn table.now.sorts gives }
    ensures reads { (g : Signature) → ScopeMeans table.now scope.now g → GivesAs (table_meant table.now.sorts) result
        (body_read g (named_sorts names.now (sorts_meant table.now.sorts sorts.now)) (sort_meant table.now.sorts gives)
        (tree_meant text.entry)) }
    ensures named { IfOk result (IsTableNamed table.now.sorts) }
{
    let mut rows = Vec::new(alloc);
    let mut inner = text;
    'rows: loop {
        let Some((at, parts)) = row_at(sorts.len(), inner) else {
            match value(alloc, table, scope, gives, inner) {
                Ok(default) => return Ok(Table { rows, default }),
                Err(error) => return Err(error),
            }
        };
        match row(alloc, table, scope, names, sorts, gives, at, parts) {
            Ok(made) => rows.push(made)?,
            Err(error) => return Err(error),
        }
        inner = parts.others;
    }
}
