//! The first expression that is not true.

ghost use Rattle.std.specs.Prelude.{◌≡◌, ◌<◌, ◌≤◌, ℕ, [], length, slice_index_or, option_map, Some, None, if◌then◌else◌, IfOk};
ghost use Rattle.spec_sorts.specs.Values.{Interpretation};
ghost use Rattle.spec_sorts.specs.BoundedValues.{bounded_value};
ghost use Rattle.spec_model_files.specs.declared.ModelKind.TheVariants.{NotTrue};
ghost use Rattle.spec_model_files.specs.Faults.{model_fault};
ghost use Rattle.spec_model_files.specs.Verdicts.{untrue_by};
ghost use Rattle.term_core.specs.Tables.{IsIn, AreIn, term_at};
ghost use Rattle.term_walks.specs.Valuations.{HasTables, HasSymbolTables};
ghost use Rattle.script_standing.specs.Standings.{terms_of};
ghost use Rattle.model_judge.specs.Untrue.{untrue_view, untrue_at, first_untrue_at, IsRound, IsLater};

use crate::conjunctions::are_true;
use no_memory::NoMemory;
use script_standing::Expression;
use spec_model_files::ModelKind;
use std::alloc::Global;
use term_core::{TermId, TermTable};
use term_walks::{Interp, ValueStop, value};

/// Holds why an expression is not true, and where it is.
#[derive(Clone, Copy, Debug, PartialEq, Eq)]
pub(crate) struct Untrue {
    /// The offset of its first byte in the script, in bytes.
    pub(crate) at: u64,
    /// `NotTrue` or `ValueWide`.
    pub(crate) kind: ModelKind,
}

/// Says that a term is not true, or nothing where it is.
fn unless(is_true: bool) -> Option<ModelKind>
    ensures { result ≡ (if is_true then None else Some NotTrue) }
{
    if is_true {
        return None;
    }
    Some(ModelKind::NotTrue)
}

/// Says why a term is not true, or nothing where it is.
fn kind_of(
    alloc: Global,
    table: &TermTable,
    interp: &Interp,
    term: TermId,
) -> Result<Option<ModelKind>, NoMemory>
    requires there { IsIn table.now term }
    requires interprets { HasTables table.now interp.now }
    ensures { (i : Interpretation) (at : ℕ) → HasSymbolTables table.now interp.now i
        → IfOk result (λ found. option_map (λ k. model_fault at k) found
        ≡ untrue_by at (bounded_value i [] (term_at table.now term))) }
{
    match value(alloc, table, interp, term) {
        Ok(found) => Ok(unless(found.is_true())),
        Err(ValueStop::Wide(_)) => Ok(Some(ModelKind::ValueWide)),
        Err(ValueStop::Memory) => Err(NoMemory),
    }
}

/// Says why an expression is not true, and where it is, or nothing where it is true.
fn untrue_expression(
    alloc: Global,
    table: &TermTable,
    interp: &Interp,
    expression: &Expression,
) -> Result<Option<Untrue>, NoMemory>
    requires there { IsIn table.now expression.now.term }
    requires interprets { HasTables table.now interp.now }
    ensures { (i : Interpretation) → HasSymbolTables table.now interp.now i
        → IfOk result (λ found. option_map untrue_view found ≡ untrue_at table.now i expression.now) }
{
    match kind_of(alloc, table, interp, expression.term) {
        Ok(Some(kind)) => Ok(Some(Untrue {
            at: expression.at,
            kind,
        })),
        Ok(None) => Ok(None),
        Err(error) => Err(error),
    }
}

/// Says what one round of looking for an expression that is not true comes to.
#[derive(Clone, Copy, Debug)]
pub(crate) enum Round {
    /// The first one that is not true.
    Found(Untrue),
    /// Those before a place are true, and so many are looked at next.
    Next(usize, usize),
}

/// Lends the expression at a place.
fn expression_at(expressions: &[Expression], place: usize) -> &Expression
    requires { place < length expressions.now }
    ensures { result.now ≡ slice_index_or expressions.now place result.now }
{
    &expressions[place]
}

/// Looks at the expression at a place, where all before it are true.
fn look_at_one(
    alloc: Global,
    table: &TermTable,
    interp: &Interp,
    expressions: &[Expression],
    place: usize,
    step: usize,
) -> Result<Round, NoMemory>
    requires place { place < length expressions.now }
    requires there { AreIn table.now (terms_of expressions.now) }
    requires interprets { HasTables table.now interp.now }
    ensures goes { (i : Interpretation) → HasSymbolTables table.now interp.now i
        → IfOk result (IsRound table.now i expressions.now place) }
    ensures later { IfOk result (IsLater (length expressions.now) place step) }
{
    match untrue_expression(alloc, table, interp, expression_at(expressions, place)) {
        Ok(Some(found)) => Ok(Round::Found(found)),
        Ok(None) => Ok(Round::Next(place + 1, step)),
        Err(error) => Err(error),
    }
}

/// Gives the end of so many from a place on, of those there are.
fn end_of(place: usize, step: usize, count: usize) -> usize
    requires step { 1 < step }
    requires place { place < count }
    ensures more { place < result }
    ensures inside { result ≤ count }
{
    if step < count - place {
        return place + step;
    }
    count
}

/// Looks at so many expressions from a place on, where all before it are true. Where one of them is not, half as many are
/// looked at next.
fn look_at_many(
    alloc: Global,
    table: &mut TermTable,
    interp: &Interp,
    expressions: &[Expression],
    place: usize,
    step: usize,
) -> Result<Round, NoMemory>
    requires place { place < length expressions.now }
    requires step { 1 < step }
    requires interprets { HasTables table.old interp.now }
    ensures same { table.new ≡ table.old }
    ensures goes { (i : Interpretation) → HasSymbolTables table.old interp.now i
        → IfOk result (IsRound table.old i expressions.now place) }
    ensures later { IfOk result (IsLater (length expressions.now) place step) }
{
    let end = end_of(place, step, expressions.len());
    match are_true(alloc, table, interp, &expressions[place..end]) {
        Ok(true) => Ok(Round::Next(end, step)),
        Ok(false) => Ok(Round::Next(place, step / 2)),
        Err(error) => Err(error),
    }
}

/// Looks at one expression, or at so many, from a place on, where all before it are true.
fn look(
    alloc: Global,
    table: &mut TermTable,
    interp: &Interp,
    expressions: &[Expression],
    place: usize,
    step: usize,
) -> Result<Round, NoMemory>
    requires place { place < length expressions.now }
    requires there { AreIn table.old (terms_of expressions.now) }
    requires interprets { HasTables table.old interp.now }
    ensures same { table.new ≡ table.old }
    ensures goes { (i : Interpretation) → HasSymbolTables table.old interp.now i
        → IfOk result (IsRound table.old i expressions.now place) }
    ensures later { IfOk result (IsLater (length expressions.now) place step) }
{
    if step < 2 {
        return look_at_one(alloc, table, interp, expressions, place, step);
    }
    look_at_many(alloc, table, interp, expressions, place, step)
}

/// Finds the first expression that is not true, from first to last; nothing where all are true. The table is as it was.
///
/// All are looked at at once. Where one of them is not true, half as many are, and so on, down to one.
///
/// `NoMemory` comes where none is left.
pub(crate) fn first_untrue(
    alloc: Global,
    table: &mut TermTable,
    interp: &Interp,
    expressions: &[Expression],
) -> Result<Option<Untrue>, NoMemory>
    requires there { AreIn table.old (terms_of expressions.now) }
    requires interprets { HasTables table.old interp.now }
    ensures { (i : Interpretation) → HasSymbolTables table.old interp.now i
        → IfOk result (λ found. option_map untrue_view found ≡ first_untrue_at table.old i expressions.now) }
{
    let mut place = 0;
    let mut step = expressions.len();
    'rounds: while place < expressions.len() {
        match look(alloc, table, interp, expressions, place, step) {
            Ok(Round::Found(found)) => return Ok(Some(found)),
            Ok(Round::Next(next, size)) => {
                place = next;
                step = size;
            }
            Err(error) => return Err(error),
        }
    }
    Ok(None)
}
