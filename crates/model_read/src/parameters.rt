//! The parameters of definitions.

ghost use Rattle.std.specs.Prelude.{◌≡◌, [], length, false, IfOk};
ghost use Rattle.spec_text.specs.Bytes.{among};
ghost use Rattle.spec_sorts.specs.Signatures.{Signature};
ghost use Rattle.spec_model_files.specs.Bodies.{tree_count};
ghost use Rattle.spec_model_files.specs.Definitions.{parameter_read, parameters_read, parameter_list_read};
ghost use Rattle.smt_sexpr.specs.Items.{trees_meant, tree_meant};
ghost use Rattle.term_core.specs.Symbols.{HasSortIn, HaveSortsIn, sort_meant, sorts_meant};
ghost use Rattle.term_reader.specs.Scopes.{ScopeMeans, HasSignature};
ghost use Rattle.model_read.specs.Answers.{answered};
ghost use Rattle.model_read.specs.Values.{GivesAs};
ghost use Rattle.model_read.specs.Bodies.{named_sorts};
ghost use Rattle.model_read.specs.Definitions.{parameter_by};

use crate::errors::{LocatedFault, ReadError, fault_at};
use crate::sorts::want_sort;
use crate::words::{are_many, pair_in, symbol};
use smt_sexpr::{Trees, View, look, split};
use spec_model_files::ModelKind;
use std::alloc::Global;
use term_core::{NameTable, Sort, TermTable};
use term_reader::Scope;

/// Tells whether a name is one of these, by a look-up by hash.
fn has_name(names: &NameTable, name: &[u8]) -> bool
    ensures { result ≡ among names.now name.now }
{
    match names.find(name) {
        Some(_) => true,
        None => false,
    }
}

/// Reads the name of a parameter of a sort, by its text and that of the sort. Some names are taken.
fn parameter_by<'a>(
    table: &TermTable,
    scope: &Scope,
    names: &NameTable,
    sort: Sort,
    text: Trees<'a>,
    sort_text: Trees<'_>,
) -> Result<&'a [u8], LocatedFault>
    requires known { HasSignature table.now scope.now }
    requires sort { HasSortIn table.now.sorts sort }
    ensures reads { (g : Signature) → ScopeMeans table.now scope.now g → answered (λ n. n.now) result
        ≡ parameter_by g names.now (sort_meant table.now.sorts sort) (tree_meant text.entry)
        (tree_meant sort_text.entry) }
    ensures new { IfOk result (λ n. among names.now n.now ≡ false) }
{
    match symbol(text) {
        Ok(word) => {
            if has_name(names, word.bytes) {
                return Err(fault_at(word.at, ModelKind::Twice));
            }
            match want_sort(table, scope, sort, sort_text) {
                Ok(()) => Ok(word.bytes),
                Err(fault) => Err(fault),
            }
        }
        Err(fault) => Err(fault),
    }
}

/// Reads the name of a parameter of a sort, which stands before the sort in a list of two. Some names are taken.
fn parameter<'a>(
    table: &TermTable,
    scope: &Scope,
    names: &NameTable,
    sort: Sort,
    text: Trees<'a>,
) -> Result<&'a [u8], LocatedFault>
    requires known { HasSignature table.now scope.now }
    requires sort { HasSortIn table.now.sorts sort }
    ensures reads { (g : Signature) → ScopeMeans table.now scope.now g → answered (λ n. n.now) result
        ≡ parameter_read g names.now (sort_meant table.now.sorts sort) (tree_meant text.entry) }
    ensures new { IfOk result (λ n. among names.now n.now ≡ false) }
{
    match look(text) {
        View::Atom(at, _, _) => Err(fault_at(u64::from(at), ModelKind::BadShape)),
        View::List(at, inside, _) => match pair_in(inside) {
            Some((name, sort_text)) => parameter_by(table, scope, names, sort, name, sort_text),
            None => Err(fault_at(u64::from(at), ModelKind::BadShape)),
        },
    }
}

/// Reads the names of parameters of so many sorts, each other than those before it.
fn parameters(
    alloc: Global,
    table: &TermTable,
    scope: &Scope,
    sorts: &[Sort],
    texts: Trees<'_>,
) -> Result<NameTable, ReadError>
    requires known { HasSignature table.now scope.now }
    requires sorts { HaveSortsIn table.now.sorts sorts.now }
    requires count { tree_count (trees_meant texts) ≡ length sorts.now }
    ensures reads { (g : Signature) → ScopeMeans table.now scope.now g
        → GivesAs (λ n. named_sorts n (sorts_meant table.now.sorts sorts.now)) result
        (parameters_read g [] (sorts_meant table.now.sorts sorts.now) (trees_meant texts.entry)) }
    ensures count { IfOk result (λ n. length n ≡ length sorts.now) }
{
    let mut names = NameTable::new(alloc);
    let mut rest = texts;
    'parameters: for k in 0..sorts.len() {
        let Some((first, others)) = split(rest) else {
            return Ok(names);
        };
        match parameter(table, scope, &names, sorts[k], first) {
            Ok(name) => names.add(name)?,
            Err(fault) => return Err(ReadError::Fault(fault)),
        }
        rest = others;
    }
    Ok(names)
}

/// Reads the list of the parameters of these sorts, and gives their names.
///
/// - `Fault` is the first of these: `BadShape` at what is no list; `WrongSort` at a list of another length; of each
///   item `BadShape`, `Twice` at a name that an earlier one has, and `WrongSort` at a sort that is another.
/// - `Memory` comes where none is left.
///
/// Source: SMT-LIB 2.6, section 4.2.3; the order of faults is own.
pub(crate) fn parameter_list(
    alloc: Global,
    table: &TermTable,
    scope: &Scope,
    sorts: &[Sort],
    text: Trees<'_>,
) -> Result<NameTable, ReadError>
    requires known { HasSignature table.now scope.now }
    requires sorts { HaveSortsIn table.now.sorts sorts.now }
    ensures reads { (g : Signature) → ScopeMeans table.now scope.now g
        → GivesAs (λ n. named_sorts n (sorts_meant table.now.sorts sorts.now)) result
        (parameter_list_read g (sorts_meant table.now.sorts sorts.now) (tree_meant text.entry)) }
    ensures count { IfOk result (λ n. length n ≡ length sorts.now) }
{
    match look(text) {
        View::Atom(at, _, _) => Err(ReadError::Fault(fault_at(u64::from(at), ModelKind::BadShape))),
        View::List(at, inside, _) => {
            if are_many(inside, sorts.len()) {
                return parameters(alloc, table, scope, sorts, inside);
            }
            Err(ReadError::Fault(fault_at(u64::from(at), ModelKind::WrongSort)))
        }
    }
}
