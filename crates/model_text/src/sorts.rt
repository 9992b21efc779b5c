//! Sorts and parameters, and values of the sorts of a table.

ghost use Rattle.std.specs.Prelude.{◌≡◌, ◌++◌, codes};
ghost use Rattle.spec_text.specs.Printed.{printed};
ghost use Rattle.spec_models.specs.Values.{in_list, sort_tree, value_text};
ghost use Rattle.spec_models.specs.Models.{parameters_from, parameter_trees};
ghost use Rattle.term_core.specs.Symbols.{HasSortIn, HaveSortsIn, sort_meant, sorts_meant};
ghost use Rattle.term_walks.specs.Valuations.{value_meant, IsNamed};
ghost use Rattle.world_io.specs.Writing.{Sends};
ghost use Rattle.reply_text.specs.Values.{IsSortOf};
ghost use Rattle.model_text.specs.Lines.{gap, parameter_text, parameters_listed};

use reply_text::{name, value, write_numeral};
use term_core::{Sort, Symbols};
use term_walks::Value;
use world_io::{Failed, Sink, write_all};

/// Writes a sort by its name.
pub(crate) fn write_sort<K: Sink>(symbols: &Symbols, sort: Sort, out: &mut K) -> Result<(), Failed>
    requires { HasSortIn symbols.now.sorts sort }
    ensures { Sends (printed (sort_tree (sort_meant symbols.now.sorts sort))) result
        (K.state out.old) (K.state out.new) }
{
    match sort {
        Sort::Bool => write_all(out, b"Bool"),
        Sort::Real => write_all(out, b"Real"),
        Sort::Declared(id) => name(symbols.sort_name(id), out),
    }
}

/// Lends the name of an element's sort; the empty name for other values.
fn sort_of<'a>(symbols: &'a Symbols, v: Value) -> &'a [u8]
    requires { IsNamed symbols.now.sorts v }
    ensures { IsSortOf symbols.now.sorts v result.now }
{
    match v {
        Value::Element(sort, _) => symbols.sort_name(sort),
        _ => b"",
    }
}

/// Writes a value, of a sort that is there: an element with the name of its sort.
///
/// It takes no memory. `Failed` comes only where the sink's count of faults rose in this call; a prefix was then
/// appended.
/// Source: SMT-LIB 2.6, section 4.2.6; the elements of a declared sort are own.
pub fn write_value<K: Sink>(symbols: &Symbols, v: Value, out: &mut K) -> Result<(), Failed>
    requires { IsNamed symbols.now.sorts v }
    ensures { Sends (value_text (value_meant symbols.now.sorts v)) result (K.state out.old) (K.state out.new) }
{
    value(v, sort_of(symbols, v), out)
}

/// Gives what is before the number of a parameter in their list.
fn opening(k: u64) -> &'static [u8]
    ensures { result.now ≡ gap k ++ codes "(@x" }
{
    if k == 0 {
        return b"(@x";
    }
    b" (@x"
}

/// Writes a parameter by its number, with its sort, after a space where others come before it.
fn write_parameter<K: Sink>(
    symbols: &Symbols,
    k: u64,
    sort: Sort,
    out: &mut K,
) -> Result<(), Failed>
    requires { HasSortIn symbols.now.sorts sort }
    ensures { Sends (gap k ++ parameter_text k (sort_meant symbols.now.sorts sort)) result
        (K.state out.old) (K.state out.new) }
{
    write_numeral(opening(k), k as u128, b" ", out)?;
    write_sort(symbols, sort, out)?;
    write_all(out, b")")
}

/// Writes parameters of these sorts, with a space between them.
fn write_each<K: Sink>(symbols: &Symbols, sorts: &[Sort], out: &mut K) -> Result<(), Failed>
    requires { HaveSortsIn symbols.now.sorts sorts.now }
    ensures { Sends (parameters_listed 0 (sorts_meant symbols.now.sorts sorts.now)) result
        (K.state out.old) (K.state out.new) }
{
    'sorts: for k in 0..sorts.len() {
        write_parameter(symbols, k as u64, sorts[k], out)?;
    }
    Ok(())
}

/// Writes the list of parameters of these sorts.
pub(crate) fn write_parameters<K: Sink>(
    symbols: &Symbols,
    sorts: &[Sort],
    out: &mut K,
) -> Result<(), Failed>
    requires { HaveSortsIn symbols.now.sorts sorts.now }
    ensures { Sends (printed (in_list (parameter_trees (parameters_from 0 (sorts_meant symbols.now.sorts sorts.now)))))
        result (K.state out.old) (K.state out.new) }
{
    write_all(out, b"(")?;
    write_each(symbols, sorts, out)?;
    write_all(out, b")")
}
