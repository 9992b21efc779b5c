//! The definitions of symbols by their tables.

ghost use Rattle.std.specs.Prelude.{◌<◌, ◌∷◌, length, map};
ghost use Rattle.spec_text.specs.Printed.{printed};
ghost use Rattle.spec_models.specs.Models.{equality_tree, condition_tree, body_front, body_back};
ghost use Rattle.term_core.specs.Symbols.{symbol_at, IsSymbol};
ghost use Rattle.term_walks.specs.Valuations.{value_meant, values_meant, row_meant, table_meant};
ghost use Rattle.term_walks.specs.Valuations.{IsNamed, AreNamed, IsRowNamed, AreRowsNamed, IsTableNamed};
ghost use Rattle.world_io.specs.Writing.{Sends};
ghost use Rattle.model_text.specs.Lines.{equalities_listed, row_front, body_text, line_text};

use crate::sorts::{write_parameters, write_sort, write_value};
use reply_text::{name, write_numeral};
use spec_models::laws::bodies_are_printed_by_rows;
use term_core::{SymbolId, Symbols};
use term_walks::{Table, Value, ValueRow};
use world_io::{Failed, Sink, write_all};

/// Writes that a parameter has a value.
fn write_equality<K: Sink>(symbols: &Symbols, k: u64, v: Value, out: &mut K) -> Result<(), Failed>
    requires { IsNamed symbols.now.sorts v }
    ensures { Sends (printed (equality_tree k (value_meant symbols.now.sorts v))) result
        (K.state out.old) (K.state out.new) }
{
    write_numeral(b"(= @x", k as u128, b" ", out)?;
    write_value(symbols, v, out)?;
    write_all(out, b")")
}

/// Writes that the parameters have these values, each equality after a space.
fn write_equalities<K: Sink>(
    symbols: &Symbols,
    arguments: &[Value],
    out: &mut K,
) -> Result<(), Failed>
    requires { AreNamed symbols.now.sorts arguments.now }
    ensures { Sends (equalities_listed 0 (values_meant symbols.now.sorts arguments.now)) result
        (K.state out.old) (K.state out.new) }
{
    'arguments: for k in 0..arguments.len() {
        write_next(symbols, k as u64, arguments[k], out)?;
    }
    Ok(())
}

/// Writes that a parameter has a value, after a space.
fn write_next<K: Sink>(symbols: &Symbols, k: u64, v: Value, out: &mut K) -> Result<(), Failed>
    requires { IsNamed symbols.now.sorts v }
    ensures { Sends (32 ∷ printed (equality_tree k (value_meant symbols.now.sorts v))) result
        (K.state out.old) (K.state out.new) }
{
    write_all(out, b" ")?;
    write_equality(symbols, k, v, out)
}

/// Writes the conjunction of two equalities or more.
fn write_conjunction<K: Sink>(
    symbols: &Symbols,
    arguments: &[Value],
    out: &mut K,
) -> Result<(), Failed>
    requires named { AreNamed symbols.now.sorts arguments.now }
    requires several { 1 < length arguments.now }
    ensures { Sends (printed (condition_tree (values_meant symbols.now.sorts arguments.now))) result
        (K.state out.old) (K.state out.new) }
{
    write_all(out, b"(and")?;
    write_equalities(symbols, arguments, out)?;
    write_all(out, b")")
}

/// Writes that the parameters have the values of a row.
fn write_condition<K: Sink>(
    symbols: &Symbols,
    arguments: &[Value],
    out: &mut K,
) -> Result<(), Failed>
    requires { AreNamed symbols.now.sorts arguments.now }
    ensures { Sends (printed (condition_tree (values_meant symbols.now.sorts arguments.now))) result
        (K.state out.old) (K.state out.new) }
{
    if arguments.len() > 1 {
        return write_conjunction(symbols, arguments, out);
    }
    match arguments {
        [only] => write_equality(symbols, 0, *only, out),
        _ => write_all(out, b"true"),
    }
}

/// Writes a row up to where the next one begins.
fn write_front<K: Sink>(symbols: &Symbols, row: &ValueRow, out: &mut K) -> Result<(), Failed>
    requires { IsRowNamed symbols.now.sorts row.now }
    ensures { Sends (row_front (row_meant symbols.now.sorts row.now)) result (K.state out.old) (K.state out.new) }
{
    write_all(out, b"(ite ")?;
    write_condition(symbols, row.arguments.as_slice(), out)?;
    write_all(out, b" ")?;
    write_value(symbols, row.value, out)?;
    write_all(out, b" ")
}

/// Writes rows up to where the default begins.
fn write_fronts<K: Sink>(symbols: &Symbols, rows: &[ValueRow], out: &mut K) -> Result<(), Failed>
    requires { AreRowsNamed symbols.now.sorts rows.now }
    ensures { Sends (body_front (map (row_meant symbols.now.sorts) rows.now)) result
        (K.state out.old) (K.state out.new) }
{
    'rows: for row in rows.iter() {
        write_front(symbols, row, out)?;
    }
    Ok(())
}

/// Writes what closes rows.
fn write_backs<K: Sink>(symbols: &Symbols, rows: &[ValueRow], out: &mut K) -> Result<(), Failed>
    ensures { Sends (body_back (map (row_meant symbols.now.sorts) rows.now)) result
        (K.state out.old) (K.state out.new) }
{
    'rows: for _row in rows.iter() {
        write_all(out, b")")?;
    }
    Ok(())
}

/// Writes the body of a definition: the value of the first row that the parameters fit, else the default.
fn write_body<K: Sink>(symbols: &Symbols, table: &Table, out: &mut K) -> Result<(), Failed>
    requires { IsTableNamed symbols.now.sorts table.now }
    ensures { Sends (body_text (table_meant symbols.now.sorts table.now)) result
        (K.state out.old) (K.state out.new) }
{
    bodies_are_printed_by_rows();
    write_fronts(symbols, table.rows.as_slice(), out)?;
    write_value(symbols, table.default, out)?;
    write_backs(symbols, table.rows.as_slice(), out)
}

/// Writes the line of a symbol with its table.
pub(crate) fn write_definition<K: Sink>(
    symbols: &Symbols,
    id: SymbolId,
    table: &Table,
    out: &mut K,
) -> Result<(), Failed>
    requires there { IsSymbol symbols.now.symbols id }
    requires named { IsTableNamed symbols.now.sorts table.now }
    ensures { Sends (line_text (symbol_at symbols.now.symbols id) (table_meant symbols.now.sorts table.now)) result
        (K.state out.old) (K.state out.new) }
{
    write_all(out, b"  (define-fun ")?;
    name(symbols.name(id), out)?;
    write_all(out, b" ")?;
    write_parameters(symbols, symbols.parameters(id), out)?;
    write_all(out, b" ")?;
    write_sort(symbols, symbols.result(id), out)?;
    write_all(out, b" ")?;
    write_body(symbols, table, out)?;
    write_all(out, b")\n")
}
