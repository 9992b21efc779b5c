//! The lines of a model.

ghost use Rattle.std.specs.Prelude.{flat_map};
ghost use Rattle.spec_sorts.specs.Values.{Interpretation};
ghost use Rattle.spec_models.specs.Models.{model_text};
ghost use Rattle.term_walks.specs.Valuations.{tables_meant, HasSymbolTables, HasTables};
ghost use Rattle.world_io.specs.Writing.{Sends};
ghost use Rattle.model_text.specs.Lines.{without_terms, lines_by, text_by};

use crate::definitions::write_definition;
use term_core::{SymbolId, Symbols, TermTable};
use term_walks::Interp;
use world_io::{Failed, Sink, write_all};

/// Writes the lines of all symbols, in the order in which they were declared.
fn write_lines<K: Sink>(interp: &Interp, symbols: &Symbols, out: &mut K) -> Result<(), Failed>
    requires { HasTables (without_terms symbols.now) interp.now }
    ensures { Sends (flat_map (λ line. line) (lines_by symbols.now.symbols (tables_meant symbols.now.sorts interp.now)))
        result (K.state out.old) (K.state out.new) }
{
    'symbols: for k in 0..symbols.len() {
        write_definition(symbols, SymbolId(k), &interp.tables[k as usize], out)?;
    }
    Ok(())
}

/// Writes the lines of all symbols between lines of one parenthesis.
fn write_model<K: Sink>(interp: &Interp, symbols: &Symbols, out: &mut K) -> Result<(), Failed>
    requires { HasTables (without_terms symbols.now) interp.now }
    ensures { Sends (text_by symbols.now.symbols (tables_meant symbols.now.sorts interp.now)) result
        (K.state out.old) (K.state out.new) }
{
    write_all(out, b"(\n")?;
    write_lines(interp, symbols, out)?;
    write_all(out, b")\n")
}

/// Writes an interpretation: a line of one parenthesis, for each declared symbol in the order of declaration a line
/// `  (define-fun NAME ((@x0 SORT) ..) SORT BODY)`, and a line of one parenthesis. A body is the value of the first row
/// that the parameters fit, else the default.
///
/// It takes no memory, and time linear in what is written. `Failed` comes only where the sink's count of faults rose in
/// this call; a prefix was then appended.
/// Source: SMT-LIB 2.6, sections 4.1.8 and 4.2.6; that a table is printed by its rows is own.
pub fn send<K: Sink>(interp: &Interp, table: &TermTable, out: &mut K) -> Result<(), Failed>
    requires { HasTables table.now interp.now }
    ensures { (i : Interpretation) → HasSymbolTables table.now interp.now i
        → Sends (model_text i table.now.symbols) result (K.state out.old) (K.state out.new) }
{
    write_model(interp, table.symbols(), out)
}
