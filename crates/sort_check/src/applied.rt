//! Names before terms, and atoms.

ghost use Rattle.spec_sorts.specs.Signatures.{Signature, Definition, defined, known_as};
ghost use Rattle.spec_reading.specs.Reading.{by_known, literal, applied_as, applied, atom_term};
ghost use Rattle.std.specs.Prelude.{◌≡◌, None};
ghost use Rattle.term_core.specs.Tables.{AreIn, clause_at};
ghost use Rattle.term_reader.specs.Scopes.{HasSignature, IsMacro, ScopeMeans};
ghost use Rattle.term_reader.specs.Heads.{ReturnsTerm};
ghost use Rattle.sort_check.specs.Bindings.{bound_at};
ghost use Rattle.sort_check.specs.Applied.{IsUsable};

use crate::bindings::Bindings;
use smt_sexpr::Kind;
use spec_text::Fault;
use std::alloc::Global;
use term_core::{Head, TermId, TermTable, TheoryHead};
use term_reader::{
    Function, Macro, ReadError, Scope, by_bound, by_rule, by_symbol, fault_at, have_sorts, literal,
    put,
};
use term_walks::fill;

/// Holds a name before terms: where the whole is, where the name is, and the name. Offsets are in bytes.
#[derive(Clone, Copy, Debug)]
pub struct Called<'a> {
    /// The offset of the whole.
    pub at: u64,
    /// The offset of the name.
    pub place: u64,
    /// The name.
    pub name: &'a [u8],
}

// The term of a definition, with arguments for its parameters.
fn by_macro(
    alloc: Global,
    table: &mut TermTable,
    definition: &Macro,
    at: u64,
    ids: &[TermId],
) -> Result<TermId, ReadError>
    requires usable { IsUsable table.old definition.now }
    requires there { AreIn table.old ids.now }
    ensures { (d : Definition) → IsMacro table.old definition.now d
        → ReturnsTerm table.old table.new (by_known (defined d) at (clause_at table.old ids.now)) result }
{
    if ids.len() != definition.parameters.len() {
        return Err(ReadError::Fault(fault_at(at, Fault::WrongCount)));
    }
    if !have_sorts(table, &definition.parameters, ids) {
        return Err(ReadError::Fault(fault_at(at, Fault::WrongSort)));
    }
    // A definition without parameters is its term, which is not walked.
    if ids.is_empty() {
        return Ok(definition.body);
    }
    match fill(alloc, table, definition.body, ids) {
        Ok(id) => Ok(id),
        Err(_) => Err(ReadError::Memory),
    }
}

// The term of a declared symbol or of a definition before terms.
fn by_function(
    alloc: Global,
    table: &mut TermTable,
    scope: &Scope,
    called: Called<'_>,
    ids: &[TermId],
) -> Result<TermId, ReadError>
    requires known { HasSignature table.old scope.now }
    requires there { AreIn table.old ids.now }
    ensures { (s : Signature) → ScopeMeans table.old scope.now s → ReturnsTerm table.old table.new
        (applied_as None None (known_as s called.entry.name.now) called.entry.place called.entry.at
        (clause_at table.old ids.now)) result }
{
    match scope.function(called.name) {
        None => Err(ReadError::Fault(fault_at(called.place, Fault::UnknownSymbol))),
        Some(function) => match function {
            Function::Declared(symbol) => by_symbol(alloc, table, *symbol, called.at, ids),
            Function::Defined(definition) => by_macro(alloc, table, definition, called.at, ids),
        },
    }
}

/// Puts the term of a name before terms: of a bound name, which hides all others, of a head of a theory, or of a declared
/// symbol or a definition.
///
/// `Fault` comes with `UnknownSymbol` at the name, and at the whole as `by_rule`, `by_symbol` and `by_bound` tell it; `Memory`
/// where no memory is left. The table keeps what it had. Source: SMT-LIB 2.6, section 3.6.
pub fn applied(
    alloc: Global,
    table: &mut TermTable,
    scope: &Scope,
    bound: &Bindings,
    called: Called<'_>,
    ids: &[TermId],
) -> Result<TermId, ReadError>
    requires known { HasSignature table.old scope.now }
    requires bound { AreIn table.old bound.now.terms }
    requires there { AreIn table.old ids.now }
    ensures { (s : Signature) → ScopeMeans table.old scope.now s → ReturnsTerm table.old table.new
        (applied s (bound_at table.old bound.now) called.entry.place called.entry.name.now called.entry.at
        (clause_at table.old ids.now)) result }
{
    bound.each_name_has_a_term();
    if let Some(id) = bound.find(called.name) {
        return by_bound(id, called.at, ids.len());
    }
    if let Some(head) = TheoryHead::named(called.name) {
        return by_rule(alloc, table, head, called.at, ids);
    }
    by_function(alloc, table, scope, called, ids)
}

// The term of a number.
fn number(alloc: Global, table: &mut TermTable, at: u64, digits: &[u8]) -> Result<TermId, ReadError>
    ensures { ReturnsTerm table.old table.new (literal at digits.now) result }
{
    match literal(at, digits) {
        Err(fault) => Err(ReadError::Fault(fault)),
        Ok(number) => match put(alloc, table, Head::Literal(number), &[]) {
            Ok(id) => Ok(id),
            Err(_) => Err(ReadError::Memory),
        },
    }
}

/// Puts the term of an atom at an offset.
///
/// `Fault` comes with `NumberWide` of a number, `Reserved` of a reserved word, `BadShape` of a string or a keyword, and as
/// `applied` tells it; `Memory` where no memory is left. The table keeps what it had. Source: SMT-LIB 2.6, section 3.6.
pub fn atom(
    alloc: Global,
    table: &mut TermTable,
    scope: &Scope,
    bound: &Bindings,
    called: Called<'_>,
    kind: Kind,
) -> Result<TermId, ReadError>
    requires known { HasSignature table.old scope.now }
    requires bound { AreIn table.old bound.now.terms }
    requires one { called.place ≡ called.at }
    ensures { (s : Signature) → ScopeMeans table.old scope.now s → ReturnsTerm table.old table.new
        (atom_term s (bound_at table.old bound.now) called.entry.at kind called.entry.name.now) result }
{
    match kind {
        Kind::Numeral | Kind::Decimal => number(alloc, table, called.at, called.name),
        Kind::Simple | Kind::Quoted => applied(alloc, table, scope, bound, called, &[]),
        Kind::Reserved => Err(ReadError::Fault(fault_at(called.at, Fault::Reserved))),
        Kind::Text => Err(ReadError::Fault(fault_at(called.at, Fault::BadShape))),
        Kind::Keyword => Err(ReadError::Fault(fault_at(called.at, Fault::BadShape))),
    }
}
