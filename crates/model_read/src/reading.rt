//! A model's text as an interpretation.

ghost use Rattle.std.specs.Prelude.{◌≡◌, ◌≤◌, ℕ, List, length};
ghost use Rattle.spec_sorts.specs.Signatures.{Signature};
ghost use Rattle.term_reader.specs.Scopes.{ScopeMeans, HasSignature};
ghost use Rattle.model_read.specs.Readings.{ReadsModel, ReadsTables, ReadsRest, HasDefinitions, IsPlaced};

use crate::definitions::definition;
use crate::errors::{LocatedFault, ModelFault, ModelStop, ReadError};
use crate::reader::Reader;
use crate::tables::Tables;
use smt_lexer::place_at;
use std::alloc::Global;
use term_core::TermTable;
use term_reader::Scope;
use term_walks::Interp;

/// Reads the definitions that are to come, one after the other, and what ends them.
fn read_rest(
    alloc: Global,
    table: &TermTable,
    scope: &Scope,
    reader: &mut Reader<'_>,
    made: &mut Tables,
) -> Result<(), ReadError>
    requires known { HasSignature table.now scope.now }
    requires tables { length made.old.tables.items ≡ length table.now.symbols }
    requires marks { length made.old.marks.items ≡ length table.now.symbols }
    ensures { (g : Signature) (text : List ℕ) → ScopeMeans table.now scope.now g
        → HasDefinitions table.now g text reader.old made.old → ReadsRest table.now g text result made.new }
{
    table.symbols().are_declared();
    'definitions: loop {
        match reader.next(alloc) {
            Ok(Some(sexpr)) => {
                let marks = made.marks.as_slice();
                match definition(alloc, table, scope, marks, sexpr.trees()) {
                    Ok(found) => made.put(found),
                    Err(error) => return Err(error),
                }
            }
            Ok(None) => return Ok(()),
            Err(error) => return Err(error),
        }
    }
}

/// Reads the definitions of a text, with the first fault by its offset.
fn read_tables(
    alloc: Global,
    table: &TermTable,
    scope: &Scope,
    bytes: &[u8],
) -> Result<Interp, ReadError>
    requires known { HasSignature table.now scope.now }
    ensures { (g : Signature) → ScopeMeans table.now scope.now g → ReadsTables table.now g bytes.now result }
{
    let mut made = Tables::new(alloc, table, scope)?;
    match Reader::open(alloc, bytes) {
        Ok(begun) => {
            let mut reader = begun;
            match read_rest(alloc, table, scope, &mut reader, &mut made) {
                Ok(()) => Ok(Interp {
                    tables: made.tables,
                }),
                Err(error) => Err(error),
            }
        }
        Err(error) => Err(error),
    }
}

/// Gives a fault its place.
fn placed(bytes: &[u8], fault: LocatedFault) -> ModelStop
    requires { fault.offset ≤ length bytes.now }
    ensures { IsPlaced bytes.now fault result }
{
    ModelStop::Fault(ModelFault {
        place: place_at(bytes, fault.offset as usize),
        kind: fault.kind,
    })
}

/// Reads a model file: the interpretation that it says of the symbols of a table of terms, under the names of a script.
///
/// The file is the word `sat` or nothing, and then one list of definitions `(define-fun f ((x S) ..) S body)`. A body
/// is a value, or `(ite C v body)` where there are parameters, with `C` an equality `(= x a)` for one parameter, else
/// the conjunction of one for each. A symbol without a definition has everywhere the value false, 0, or the first
/// element. Of the text the first 2^30 bytes are read.
///
/// - `Fault` has the first fault in reading order, with its place in the text. `Lexical` comes where the text cannot
///   be read on, or has more bytes than are read; `BadShape` at a part of another form, at the end of a text without
///   a list, or at what follows it; `UnknownSymbol` at a name that is no declared symbol; `Twice` at a name that an
///   earlier definition has, or an earlier parameter; `WrongSort` at a sort or a value that is not the symbol's, or
///   at a list of more or fewer parameters; `NumberWide` at a value with a part beyond the bounds.
/// - `Memory` may come at any allocation, and says nothing of the text.
///
/// Time goes with the text and the number of symbols, memory with the longest definition and the tables. Nothing
/// recurses. Source: SMT-LIB 2.6, sections 4.1.8 and 4.2.6; which forms are taken, and the order of faults, are own.
pub fn read(
    alloc: Global,
    table: &TermTable,
    scope: &Scope,
    bytes: &[u8],
) -> Result<Interp, ModelStop>
    requires known { HasSignature table.now scope.now }
    ensures { (g : Signature) → ScopeMeans table.now scope.now g → ReadsModel table.now g bytes.now result }
{
    spec_model_files::laws::faults_are_in_their_file();
    match read_tables(alloc, table, scope, bytes) {
        Ok(interp) => Ok(interp),
        Err(ReadError::Fault(fault)) => Err(placed(bytes, fault)),
        Err(ReadError::Memory) => Err(ModelStop::Memory),
    }
}
