//! The values that texts write.

ghost use Rattle.std.specs.Prelude.{◌≡◌, ℕ, List, IfOk, option_map};
ghost use Rattle.spec_text.specs.Bytes.{Name};
ghost use Rattle.spec_sorts.specs.Terms.{Declared, Number};
ghost use Rattle.spec_sorts.specs.Signatures.{Signature};
ghost use Rattle.spec_model_files.specs.Values.{Written, WrittenNumber, written_truth, written_number, written_atom, element_read, written_in, value_read};
ghost use Rattle.smt_sexpr.specs.Items.{trees_meant, tree_meant};
ghost use Rattle.term_core.specs.Symbols.{HasSortIn, IsSort, sort_name, sort_meant};
ghost use Rattle.term_reader.specs.Scopes.{ScopeMeans, HasSignature};
ghost use Rattle.term_walks.specs.Valuations.{value_meant, IsNamed};
ghost use Rattle.model_read.specs.Answers.{answered, Answers, Gives};
ghost use Rattle.model_read.specs.Numbers.{IsNumber};
ghost use Rattle.model_read.specs.Shapes.{triple_view, reserved_in};
ghost use Rattle.model_read.specs.Values.{truth_in, IsIndex, IsWritten, IsWrittenElement, sorted_element, reserved_read, fitted, GivesAs};

use crate::elements::element_number;
use crate::errors::{LocatedFault, ReadError, fault_at};
use crate::numbers::{literal_atom, number};
use crate::sorts::names_sort;
use crate::words::{Triple, symbol, triple_in};
use ratio128::Ratio;
use smt_sexpr::{Kind, Trees, View, Word, is_reserved, is_word, look, offset, passes, same_bytes};
use spec_model_files::ModelKind;
use std::alloc::Global;
use term_core::{Sort, SortId, TermTable};
use term_reader::Scope;
use term_walks::Value;

/// Says what value a text writes, by its form alone.
#[derive(Clone, Copy)]
pub(crate) enum WrittenValue<'a> {
    /// A truth value.
    Bool(bool),
    /// A number; `None` where it is beyond the bounds.
    Number(Option<Ratio>),
    /// An element by its number, `None` where that is above 2^64 - 1, and the name of its sort.
    Element(Option<u64>, Trees<'a>),
}

/// Finds the truth value that a word is.
fn truth_in(word: Word<'_>) -> Option<bool>
    ensures { result ≡ truth_in word.entry.kind word.entry.bytes.now }
{
    if is_word(b"true", word) {
        return Some(true);
    }
    if is_word(b"false", word) {
        return Some(false);
    }
    None
}

/// Reads an atom: a truth value, a numeral or a decimal.
fn atom_written(word: Word<'_>) -> Result<WrittenValue<'_>, LocatedFault>
    ensures { Answers IsWritten result (written_atom word.entry.at word.entry.kind word.entry.bytes.now) }
{
    match truth_in(word) {
        Some(truth) => Ok(WrittenValue::Bool(truth)),
        None => match literal_atom(word.at, word.kind, word.bytes) {
            Ok(number) => Ok(WrittenValue::Number(number)),
            Err(fault) => Err(fault),
        },
    }
}

/// Reads the name of the sort of an element of that number.
fn with_sort(number: Option<u64>, sort: Trees<'_>) -> Result<WrittenValue<'_>, LocatedFault>
    ensures { (k : ℕ) → IsIndex number k → Answers IsWritten result (sorted_element k (tree_meant sort.entry)) }
{
    match symbol(sort) {
        Ok(_) => Ok(WrittenValue::Element(number, sort)),
        Err(fault) => Err(fault),
    }
}

/// Reads an element of a sort by the texts of its word and of its sort's name.
fn element<'a>(word: Trees<'a>, sort: Trees<'a>) -> Result<WrittenValue<'a>, LocatedFault>
    ensures { Answers IsWritten result (element_read (tree_meant word.entry) (tree_meant sort.entry)) }
{
    match symbol(word) {
        Ok(name) => match element_number(name.bytes) {
            Some(number) => with_sort(number, sort),
            None => Err(fault_at(name.at, ModelKind::BadShape)),
        },
        Err(fault) => Err(fault),
    }
}

/// Reads what may be an element, in a list at an offset that begins with a reserved word.
fn reserved<'a>(at: u64, parts: Triple<'a>) -> Result<WrittenValue<'a>, LocatedFault>
    ensures { Answers IsWritten result (reserved_read at (triple_view parts.entry)) }
{
    if same_bytes(parts.word.bytes, b"as") {
        return element(parts.left, parts.right);
    }
    Err(fault_at(at, ModelKind::BadShape))
}

/// Finds the parts of a list of three that begins with a reserved word.
#[tactic(auto, unfolding(crate::specs::Shapes::reserved_in))]
fn reserved_in(inside: Trees<'_>) -> Option<Triple<'_>>
    ensures { option_map triple_view result ≡ reserved_in (trees_meant inside.entry) }
{
    let parts = triple_in(inside)?;
    passes(is_reserved(parts.word.kind))?;
    Some(parts)
}

/// Reads the form of a value that is an atom at an offset.
fn written_word<'a>(at: u64, kind: Kind, bytes: &'a [u8]) -> Result<WrittenValue<'a>, LocatedFault>
    ensures { Answers IsWritten result (written_atom at kind bytes.now) }
{
    atom_written(Word { at, kind, bytes })
}

/// Reads the form of a value.
///
/// `Memory` comes where none is left, else the fault `BadShape` at the first part of another form.
fn written<'a>(alloc: Global, text: Trees<'a>) -> Result<WrittenValue<'a>, ReadError>
    ensures { Gives IsWritten result (written_in (tree_meant text.entry)) }
{
    match look(text) {
        View::Atom(at, kind, bytes) => match written_word(u64::from(at), kind, bytes) {
            Ok(value) => Ok(value),
            Err(fault) => Err(ReadError::Fault(fault)),
        },
        View::List(at, inside, _) => match reserved_in(inside) {
            Some(parts) => match reserved(u64::from(at), parts) {
                Ok(value) => Ok(value),
                Err(fault) => Err(ReadError::Fault(fault)),
            },
            None => match number(alloc, text) {
                Ok(made) => Ok(WrittenValue::Number(made)),
                Err(error) => Err(error),
            },
        },
    }
}

/// Gives a truth value at an offset as a value of a sort: `WrongSort` where that is another.
fn fit_truth(sort: Sort, at: u64, truth: bool) -> Result<Value, LocatedFault>
    ensures fits { (sorts : List Name) (g : Signature)
        → answered (value_meant sorts) result ≡ fitted g (sort_meant sorts sort) at (written_truth truth) }
    ensures named { (sorts : List Name) → IfOk result (IsNamed sorts) }
{
    match sort {
        Sort::Bool => Ok(Value::Bool(truth)),
        Sort::Real => Err(fault_at(at, ModelKind::WrongSort)),
        Sort::Declared(_) => Err(fault_at(at, ModelKind::WrongSort)),
    }
}

/// Gives a number at an offset, where it is within the bounds: else the fault `NumberWide`.
fn within(at: u64, number: Option<Ratio>) -> Result<Value, LocatedFault>
    ensures fits { (sorts : List Name) (g : Signature) (x : WrittenNumber) → IsNumber number x
        → answered (value_meant sorts) result ≡ fitted g Number at (written_number x) }
    ensures named { (sorts : List Name) → IfOk result (IsNamed sorts) }
{
    match number {
        Some(q) => Ok(Value::Number(q)),
        None => Err(fault_at(at, ModelKind::NumberWide)),
    }
}

/// Gives a number at an offset as a value of a sort: `WrongSort` where that is another, then `NumberWide` where the
/// number is beyond the bounds.
fn fit_number(sort: Sort, at: u64, number: Option<Ratio>) -> Result<Value, LocatedFault>
    ensures fits { (sorts : List Name) (g : Signature) (x : WrittenNumber) → IsNumber number x
        → answered (value_meant sorts) result ≡ fitted g (sort_meant sorts sort) at (written_number x) }
    ensures named { (sorts : List Name) → IfOk result (IsNamed sorts) }
{
    match sort {
        Sort::Bool => Err(fault_at(at, ModelKind::WrongSort)),
        Sort::Real => within(at, number),
        Sort::Declared(_) => Err(fault_at(at, ModelKind::WrongSort)),
    }
}

/// Gives an element of a declared sort at an offset: `WrongSort` where its sort is another, then `NumberWide` where
/// its number is above 2^64 - 1.
fn fit_declared(
    table: &TermTable,
    scope: &Scope,
    sort: SortId,
    at: u64,
    number: Option<u64>,
    name: Trees<'_>,
) -> Result<Value, LocatedFault>
    requires known { HasSignature table.now scope.now }
    requires sort { IsSort table.now.sorts sort }
    ensures fits { (g : Signature) (w : Written) → ScopeMeans table.now scope.now g
        → IsWrittenElement number name.entry w
        → answered (value_meant table.now.sorts) result ≡ fitted g (Declared (sort_name table.now.sorts sort)) at w }
    ensures named { IfOk result (IsNamed table.now.sorts) }
{
    if !names_sort(table, scope, Sort::Declared(sort), name) {
        return Err(fault_at(at, ModelKind::WrongSort));
    }
    match number {
        Some(k) => Ok(Value::Element(sort, k)),
        None => Err(fault_at(at, ModelKind::NumberWide)),
    }
}

/// Gives an element at an offset as a value of a sort: `WrongSort` where that is another, then `NumberWide` where its
/// number is above 2^64 - 1.
fn fit_element(
    table: &TermTable,
    scope: &Scope,
    sort: Sort,
    at: u64,
    number: Option<u64>,
    name: Trees<'_>,
) -> Result<Value, LocatedFault>
    requires known { HasSignature table.now scope.now }
    requires sort { HasSortIn table.now.sorts sort }
    ensures fits { (g : Signature) (w : Written) → ScopeMeans table.now scope.now g
        → IsWrittenElement number name.entry w
        → answered (value_meant table.now.sorts) result ≡ fitted g (sort_meant table.now.sorts sort) at w }
    ensures named { IfOk result (IsNamed table.now.sorts) }
{
    match sort {
        Sort::Bool => Err(fault_at(at, ModelKind::WrongSort)),
        Sort::Real => Err(fault_at(at, ModelKind::WrongSort)),
        Sort::Declared(id) => fit_declared(table, scope, id, at, number, name),
    }
}

/// Gives what was written at an offset as a value of a sort: `WrongSort` where it is of another, then `NumberWide`
/// where it is beyond the bounds.
fn fit(
    table: &TermTable,
    scope: &Scope,
    sort: Sort,
    at: u64,
    written: WrittenValue<'_>,
) -> Result<Value, LocatedFault>
    requires known { HasSignature table.now scope.now }
    requires sort { HasSortIn table.now.sorts sort }
    ensures fits { (g : Signature) (w : Written) → ScopeMeans table.now scope.now g → IsWritten written.entry w
        → answered (value_meant table.now.sorts) result ≡ fitted g (sort_meant table.now.sorts sort) at w }
    ensures named { IfOk result (IsNamed table.now.sorts) }
{
    match written {
        WrittenValue::Bool(truth) => fit_truth(sort, at, truth),
        WrittenValue::Number(number) => fit_number(sort, at, number),
        WrittenValue::Element(number, name) => fit_element(table, scope, sort, at, number, name),
    }
}

/// Reads a value of a sort: `true` or `false`, `(as @eK S)`, or a number.
///
/// - `Fault` is the first of these: `BadShape` at the first part of another form, `WrongSort` at a value of another
///   sort, `NumberWide` at one that is beyond the bounds.
/// - `Memory` comes where none is left.
///
/// Source: SMT-LIB 2.6, section 4.2.6; the forms, the bounds and the order of faults are own.
pub(crate) fn value(
    alloc: Global,
    table: &TermTable,
    scope: &Scope,
    sort: Sort,
    text: Trees<'_>,
) -> Result<Value, ReadError>
    requires known { HasSignature table.now scope.now }
    requires sort { HasSortIn table.now.sorts sort }
    ensures reads { (g : Signature) → ScopeMeans table.now scope.now g → GivesAs (value_meant table.now.sorts) result
        (value_read g (sort_meant table.now.sorts sort) (tree_meant text.entry)) }
    ensures named { IfOk result (IsNamed table.now.sorts) }
{
    match written(alloc, text) {
        Ok(form) => match fit(table, scope, sort, offset(text), form) {
            Ok(value) => Ok(value),
            Err(fault) => Err(ReadError::Fault(fault)),
        },
        Err(error) => Err(error),
    }
}
