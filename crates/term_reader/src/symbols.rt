//! Declared symbols and bound names before terms.

ghost use Rattle.std.specs.Prelude.{◌≡◌, List, [], length};
ghost use Rattle.spec_sorts.specs.Terms.{Term};
ghost use Rattle.spec_sorts.specs.Signatures.{declared};
ghost use Rattle.spec_reading.specs.Reading.{by_known, with_sorts};
ghost use Rattle.term_core.specs.Symbols.{symbol_at, IsSymbol};
ghost use Rattle.term_core.specs.Tables.{TableView, term_at, IsIn, AreIn, clause_at};
ghost use Rattle.term_reader.specs.Heads.{ReturnsTerm, EndsReading};

use crate::building::put;
use crate::comparing::have_sorts;
use crate::faults::{ReadError, fault_at};
use spec_text::Fault;
use std::alloc::Global;
use term_core::{Head, SymbolId, TermId, TermTable};

/// Puts the term of a declared symbol before arguments, where the whole is at an offset.
///
/// - `Fault` comes at the offset: `WrongCount` where the symbol does not take so many arguments; then `WrongSort` where
///   it does not take their sorts.
/// - `Memory` comes where no memory is left.
///
/// The table keeps what it had. Source: SMT-LIB 2.6, section 3.6.
pub fn by_symbol(
    alloc: Global,
    table: &mut TermTable,
    symbol: SymbolId,
    at: u64,
    ids: &[TermId],
) -> Result<TermId, ReadError>
    requires symbol { IsSymbol table.old.symbols symbol }
    requires there { AreIn table.old ids.now }
    ensures { ReturnsTerm table.old table.new
        (by_known (declared (symbol_at table.old.symbols symbol)) at (clause_at table.old ids.now)) result }
{
    if ids.len() != table.symbols().parameters(symbol).len() {
        return Err(ReadError::Fault(fault_at(at, Fault::WrongCount)));
    }
    if !have_sorts(table, table.symbols().parameters(symbol), ids) {
        return Err(ReadError::Fault(fault_at(at, Fault::WrongSort)));
    }
    match put(alloc, table, Head::Apply(symbol), ids) {
        Ok(id) => Ok(id),
        Err(_) => Err(ReadError::Memory),
    }
}

/// Gives the term of a bound name before so many arguments, where the whole is at an offset: it takes none.
///
/// `WrongCount` at the offset comes where there are some. It takes no memory. Source: SMT-LIB 2.6, section 3.6.
pub fn by_bound(id: TermId, at: u64, count: usize) -> Result<TermId, ReadError>
    ensures { (t : TableView) (ts : List Term) → length ts ≡ count → IsIn t id
        → EndsReading t (with_sorts [] at ts (term_at t id)) result }
{
    if count != 0 {
        return Err(ReadError::Fault(fault_at(at, Fault::WrongCount)));
    }
    Ok(id)
}
