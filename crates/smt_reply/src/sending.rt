//! How what answers a question is written. No call takes memory.

ghost use Rattle.std.specs.Prelude.{◌≡◌, ◌++◌, codes, length, map, All};
ghost use Rattle.world_io.specs.Writing.{Sends};
ghost use Rattle.spec_text.specs.Printed.{printed_symbol};
ghost use Rattle.spec_models.specs.Replies.{Reason as SpokenReason, reason_info};
ghost use Rattle.spec_sessions.specs.Evidence.{Found};
ghost use Rattle.spec_sessions.specs.Replies.{Reply as SpokenReply, reason_found};
ghost use Rattle.term_core.specs.Tables.{TableView};
ghost use Rattle.sat_budget.specs.Budgets.{BudgetView};
ghost use Rattle.check_evidence.specs.Evidence.{IsEvidence};
ghost use Rattle.model_text.specs.Lines.{gap};
ghost use Rattle.smt_reply.specs.Replies.{in_context, ShowsFound, TellsReason, OnAnswer, IsReply, IsSomeReply, reply_lines, levels_line, texts_of, listed, listed_line};
ghost use Rattle.smt_reply.specs.Pairs.{pair_text, IsPairNamed};

use crate::replies::Reply;
use crate::values::TermValue;
use assertion_stack::{Rows, Stack};
use check_evidence::{Evidence, send_evidence};
use itoa::Buffer;
use model_text::write_value;
use reply_text::{ResponseWord, name, overflow_info, spent_info, word};
use sat_budget::Reason;
use term_core::{Symbols, TermTable};
use world_io::{Failed, Sink, write_all, write_pieces};

/// Gives what is before the text of that number in a list.
fn gap(k: usize) -> &'static [u8]
    ensures { result.now ≡ gap k }
{
    if k == 0 {
        return b"";
    }
    b" "
}

/// Writes how many levels are open.
fn send_levels<K: Sink>(count: u64, out: &mut K) -> Result<(), Failed>
    ensures { Sends (levels_line count) result (K.state out.old) (K.state out.new) }
{
    let mut number = Buffer::new();
    write_pieces(
        out,
        &[
            b"(:assertion-stack-levels ",
            number.format(count).as_bytes(),
            b")\n",
        ],
    )
}

/// Writes what the last check found.
fn send_found<K: Sink>(
    table: &TermTable,
    answer: &Option<Evidence>,
    out: &mut K,
) -> Result<(), Failed>
    requires { (r : SpokenReply) × OnAnswer answer.now (λ e. ShowsFound table.now e r) }
    ensures { (r : SpokenReply) → OnAnswer answer.now (λ e. ShowsFound table.now e r)
        → Sends (reply_lines r) result (K.state out.old) (K.state out.new) }
{
    match answer {
        None => Ok(()),
        Some(evidence) => send_evidence(table, evidence, out),
    }
}

/// Writes why a check was answered `unknown`.
fn send_reason_of<K: Sink>(evidence: &Evidence, out: &mut K) -> Result<(), Failed>
    ensures { (t : TableView) (budget : BudgetView) (f : Found) (reason : SpokenReason)
        → IsEvidence t budget evidence.now f → reason_found f ≡ Some reason
        → Sends (reason_info reason) result (K.state out.old) (K.state out.new) }
{
    match evidence {
        Evidence::Model(_) => Ok(()),
        Evidence::Proof(_, _) => Ok(()),
        Evidence::Reason(Reason::Overflow(strain)) => overflow_info(strain.wide, out),
        Evidence::Reason(Reason::Conflicts(count)) => spent_info(*count, out),
    }
}

/// Writes why the last check was answered `unknown`.
fn send_reason<K: Sink>(answer: &Option<Evidence>, out: &mut K) -> Result<(), Failed>
    ensures { (t : TableView) (r : SpokenReply) → OnAnswer answer.now (λ e. TellsReason t e r)
        → Sends (reply_lines r) result (K.state out.old) (K.state out.new) }
{
    match answer {
        None => Ok(()),
        Some(evidence) => send_reason_of(evidence, out),
    }
}

/// Writes the text of that number in a list.
fn write_text<K: Sink>(k: usize, text: &[u8], out: &mut K) -> Result<(), Failed>
    ensures { Sends (gap k ++ text.now) result (K.state out.old) (K.state out.new) }
{
    write_all(out, gap(k))?;
    write_all(out, text)
}

/// Writes how assertions are written, with a space between them.
fn write_texts<K: Sink>(stack: &Stack, out: &mut K) -> Result<(), Failed>
    requires { length stack.now.assertions.written ≡ length stack.now.assertions.ids }
    ensures { Sends (listed 0 (texts_of stack.now.assertions.written)) result (K.state out.old) (K.state out.new) }
{
    'texts: for k in 0..stack.current().len() {
        write_text(k, stack.written(k).text, out)?;
    }
    Ok(())
}

/// Writes names, each as a symbol, with a space between them.
fn write_names<K: Sink>(names: &Rows, out: &mut K) -> Result<(), Failed>
    ensures { Sends (listed 0 (map printed_symbol names.now)) result (K.state out.old) (K.state out.new) }
{
    'names: for k in 0..names.len() {
        write_name(k, names.row(k), out)?;
    }
    Ok(())
}

/// Writes the name of that number in a list, as a symbol.
fn write_name<K: Sink>(k: usize, symbol: &[u8], out: &mut K) -> Result<(), Failed>
    ensures { Sends (gap k ++ printed_symbol symbol.now) result (K.state out.old) (K.state out.new) }
{
    write_all(out, gap(k))?;
    name(symbol, out)
}

/// Writes the list of names.
fn send_names<K: Sink>(names: &Rows, out: &mut K) -> Result<(), Failed>
    ensures { Sends (listed_line (map printed_symbol names.now)) result (K.state out.old) (K.state out.new) }
{
    write_all(out, b"(")?;
    write_names(names, out)?;
    write_all(out, b")\n")
}

/// Writes rows of text, with a space between them.
fn write_rows<K: Sink>(rows: &Rows, out: &mut K) -> Result<(), Failed>
    ensures { Sends (listed 0 rows.now) result (K.state out.old) (K.state out.new) }
{
    'rows: for k in 0..rows.len() {
        write_text(k, rows.row(k), out)?;
    }
    Ok(())
}

/// Writes the list of rows of text.
fn send_rows<K: Sink>(rows: &Rows, out: &mut K) -> Result<(), Failed>
    ensures { Sends (listed_line rows.now) result (K.state out.old) (K.state out.new) }
{
    write_all(out, b"(")?;
    write_rows(rows, out)?;
    write_all(out, b")\n")
}

/// Writes the list of the current assertions.
fn send_assertions<K: Sink>(stack: &Stack, out: &mut K) -> Result<(), Failed>
    requires { length stack.now.assertions.written ≡ length stack.now.assertions.ids }
    ensures { Sends (listed_line (texts_of stack.now.assertions.written)) result
        (K.state out.old) (K.state out.new) }
{
    write_all(out, b"(")?;
    write_texts(stack, out)?;
    write_all(out, b")\n")
}

/// Gives what is before a term and its value, the pair of that number in a list.
fn opening(k: usize) -> &'static [u8]
    ensures { result.now ≡ gap k ++ codes "(" }
{
    if k == 0 {
        return b"(";
    }
    b" ("
}

/// Writes a term with its value, the pair of that number in a list.
fn write_pair<K: Sink>(
    symbols: &Symbols,
    k: usize,
    pair: &TermValue,
    out: &mut K,
) -> Result<(), Failed>
    requires { IsPairNamed symbols.now.sorts pair.now }
    ensures { Sends (gap k ++ pair_text symbols.now.sorts pair.now) result (K.state out.old) (K.state out.new) }
{
    write_all(out, opening(k))?;
    write_all(out, pair.text.as_slice())?;
    write_all(out, b" ")?;
    write_value(symbols, pair.value, out)?;
    write_all(out, b")")
}

/// Writes terms with their values, with a space between two of them.
fn write_pairs<K: Sink>(symbols: &Symbols, pairs: &[TermValue], out: &mut K) -> Result<(), Failed>
    requires { All (IsPairNamed symbols.now.sorts) pairs.now }
    ensures { Sends (listed 0 (map (pair_text symbols.now.sorts) pairs.now)) result
        (K.state out.old) (K.state out.new) }
{
    'pairs: for k in 0..pairs.len() {
        write_pair(symbols, k, &pairs[k], out)?;
    }
    Ok(())
}

/// Writes the list of terms with their values.
fn send_pairs<K: Sink>(symbols: &Symbols, pairs: &[TermValue], out: &mut K) -> Result<(), Failed>
    requires { All (IsPairNamed symbols.now.sorts) pairs.now }
    ensures { Sends (listed_line (map (pair_text symbols.now.sorts) pairs.now)) result
        (K.state out.old) (K.state out.new) }
{
    write_all(out, b"(")?;
    write_pairs(symbols, pairs, out)?;
    write_all(out, b")\n")
}

/// Writes what answers a question. Table, stack and answer are those for which `reply_to` found it.
///
/// It takes no memory, and time linear in what is written. `Failed` comes only where the sink's count of faults rose in this
/// call; a prefix was then appended. Source: SMT-LIB 2.6, sections 3.9, 4.1.8, 4.2.4 and 4.2.6 to 4.2.8; the texts of models,
/// proofs and reasons are those of `check_evidence::send_evidence`.
pub fn send_reply<K: Sink>(
    table: &TermTable,
    stack: &Stack,
    answer: &Option<Evidence>,
    reply: &Reply,
    out: &mut K,
) -> Result<(), Failed>
    requires { IsSomeReply (in_context table.now stack.now answer.now) reply.now }
    ensures { (r : SpokenReply)
        → IsReply (in_context table.now stack.now answer.now) reply.now r
        → Sends (reply_lines r) result (K.state out.old) (K.state out.new) }
{
    match reply {
        Reply::NotKnown => word(ResponseWord::Unsupported, out),
        Reply::Line(text) => write_all(out, text),
        Reply::Levels(count) => send_levels(*count, out),
        Reply::Evidence => send_found(table, answer, out),
        Reply::Reason => send_reason(answer, out),
        Reply::Assertions => send_assertions(stack, out),
        Reply::Names(names) => send_names(names, out),
        Reply::Texts(rows) => send_rows(rows, out),
        Reply::Values(pairs) => send_pairs(table.symbols(), pairs.as_slice(), out),
    }
}
