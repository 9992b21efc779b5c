//! Terms in place, and names.

ghost use Rattle.std.specs.Prelude.{◌++◌, ◌<◌, ◌≤◌, All, length, codes};
ghost use Rattle.spec_text.specs.Printed.{printed, printed_symbol};
ghost use Rattle.spec_models.specs.Values.{sort_tree};
ghost use Rattle.spec_proof_texts.specs.Lines.{no_items};
ghost use Rattle.spec_proof_texts.specs.Plans.{in_place};
ghost use Rattle.term_core.specs.Symbols.{HasSortIn, sort_meant};
ghost use Rattle.term_core.specs.Tables.{IsIn, AreIn, HasHead, head_meant};
ghost use Rattle.world_io.specs.Writing.{Sends};
ghost use Rattle.alethe_writer.specs.Printing.{spaced, head_text, argument_text, in_place_text, arguments_text};

use crate::numbers::{write_literal, write_number};
use crate::plans::Plan;
use smt_lexer::bars_of;
use term_core::{Head, Sort, TermId, TermTable, head_name};
use world_io::{Failed, Sink, write_all, write_pieces};

/// Writes two words, one right after the other.
pub(crate) fn write_words<K: Sink>(before: &[u8], word: &[u8], out: &mut K) -> Result<(), Failed>
    ensures { Sends (before.now ++ word.now) result (K.state out.old) (K.state out.new) }
{
    write_pieces(out, &[before, word])
}

/// Writes a word and a name, between bars where it needs them.
pub(crate) fn write_name<K: Sink>(before: &[u8], name: &[u8], out: &mut K) -> Result<(), Failed>
    ensures { Sends (before.now ++ printed_symbol name.now) result (K.state out.old) (K.state out.new) }
{
    let (opening, closing) = bars_of(name);
    write_pieces(out, &[before, opening, name, closing])
}

/// Writes a word and a sort by its name.
pub(crate) fn write_sort<K: Sink>(
    before: &[u8],
    table: &TermTable,
    sort: Sort,
    out: &mut K,
) -> Result<(), Failed>
    requires { HasSortIn table.now.sorts sort }
    ensures { Sends (before.now ++ printed (sort_tree (sort_meant table.now.sorts sort))) result
        (K.state out.old) (K.state out.new) }
{
    match sort {
        Sort::Bool => write_words(before, b"Bool", out),
        Sort::Real => write_words(before, b"Real", out),
        Sort::Declared(id) => write_name(before, table.symbols().sort_name(id), out),
    }
}

/// Writes a term after a space: by its number where it has one, else in place.
#[cycle(arguments)]
pub(crate) fn write_argument<K: Sink>(
    plan: &Plan,
    table: &TermTable,
    id: TermId,
    out: &mut K,
) -> Result<(), Failed>
    requires there { IsIn table.now id }
    ensures { Sends (argument_text table.now plan.now id) result (K.state out.old) (K.state out.new) }
{
    table.ids_are_unique();
    if let Some(number) = plan.definition(id) {
        return write_number(b" @p", number as u128, out);
    }
    write_in_place(plan, table, id, out)
}

/// Writes a term in place after a space: alone, or a head before its arguments.
#[cycle(arguments)]
fn write_in_place<K: Sink>(
    plan: &Plan,
    table: &TermTable,
    id: TermId,
    out: &mut K,
) -> Result<(), Failed>
    requires there { IsIn table.now id }
    ensures { Sends (in_place_text table.now plan.now id) result (K.state out.old) (K.state out.new) }
{
    let node = table.node(id);
    if node.arguments.is_empty() {
        return write_alone(table, node.head, out);
    }
    write_head(table, node.head, out)?;
    write_terms_below(plan, table, node.arguments.as_slice(), id.0, out)?;
    write_all(out, b")")
}

/// Writes terms, each after a space. All of them have numbers below one.
#[cycle(arguments)]
fn write_terms_below<K: Sink>(
    plan: &Plan,
    table: &TermTable,
    ids: &[TermId],
    above: u64,
    out: &mut K,
) -> Result<(), Failed>
    requires within { above ≤ length table.now.terms }
    requires below { All (λ id. id.0 < above) ids.now }
    ensures { Sends (arguments_text table.now plan.now ids.now) result (K.state out.old) (K.state out.new) }
{
    let _ = above;
    'ids: for id in ids.iter() {
        write_argument(plan, table, *id, out)?;
    }
    Ok(())
}

/// Writes a head without arguments after a space.
fn write_alone<K: Sink>(table: &TermTable, head: Head, out: &mut K) -> Result<(), Failed>
    requires { HasHead table.now head }
    ensures { Sends (spaced (in_place (head_meant table.now head) no_items)) result
        (K.state out.old) (K.state out.new) }
{
    match head {
        Head::True => write_all(out, b" true"),
        Head::Literal(q) => write_literal(q, out),
        Head::Apply(symbol) => write_name(b" ", table.symbols().name(symbol), out),
        _ => write_all(out, b" false"),
    }
}

/// Writes a head before its arguments, after a space.
pub(crate) fn write_head<K: Sink>(table: &TermTable, head: Head, out: &mut K) -> Result<(), Failed>
    requires { HasHead table.now head }
    ensures { Sends (codes " (" ++ head_text table.now head) result (K.state out.old) (K.state out.new) }
{
    write_name(b" (", head_name(table, head), out)
}

/// Writes terms, each after a space.
pub(crate) fn write_arguments<K: Sink>(
    plan: &Plan,
    table: &TermTable,
    ids: &[TermId],
    out: &mut K,
) -> Result<(), Failed>
    requires there { AreIn table.now ids.now }
    ensures { Sends (arguments_text table.now plan.now ids.now) result (K.state out.old) (K.state out.new) }
{
    write_terms_below(plan, table, ids, table.len(), out)
}
