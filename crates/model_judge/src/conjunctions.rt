//! Whether expressions are all true, by the value of their conjunction.

ghost use Rattle.std.specs.Prelude.{◌≡◌, true, IfOk, IfSome};
ghost use Rattle.spec_sorts.specs.Values.{Interpretation};
ghost use Rattle.term_reader.specs.Building.{KeepsTable, MeansTerm};
ghost use Rattle.term_walks.specs.Valuations.{HasTables, HasSymbolTables};
ghost use Rattle.script_standing.specs.Standings.{terms_of};
ghost use Rattle.model_judge.specs.Untrue.{conjunction_at, IsTrueAt, first_untrue_at};

use no_memory::NoMemory;
use script_standing::Expression;
use std::alloc::Global;
use term_core::{Head, Node, TermId, TermTable};
use term_walks::{Interp, ValueStop, value};

/// Lists the numbers of the terms of expressions.
fn terms_of(alloc: Global, expressions: &[Expression]) -> Result<Vec<TermId>, NoMemory>
    ensures { IfOk result (λ v. v.items ≡ terms_of expressions.now) }
{
    let mut terms = Vec::new(alloc);
    'expressions: for expression in expressions.iter() {
        terms.push(expression.term)?;
    }
    Ok(terms)
}

/// Puts the conjunction of terms; nothing where there is none, as of terms that are not of sort Bool.
fn conjunction(
    alloc: Global,
    table: &mut TermTable,
    terms: &[TermId],
) -> Result<Option<TermId>, NoMemory>
    ensures keeps { KeepsTable table.old table.new }
    ensures there { IfOk result (λ found. IfSome found (MeansTerm table.new (conjunction_at table.old terms.now))) }
{
    let node = Node::new(alloc, Head::And, terms)?;
    if table.takes(&node) {
        return Ok(Some(table.put(node)?));
    }
    Ok(None)
}

/// Tells whether the value of the conjunction of terms is true. The table may have a term more.
fn is_true(
    alloc: Global,
    table: &mut TermTable,
    interp: &Interp,
    terms: &[TermId],
) -> Result<bool, NoMemory>
    requires interprets { HasTables table.old interp.now }
    ensures keeps { KeepsTable table.old table.new }
    ensures shown { (i : Interpretation) → HasSymbolTables table.old interp.now i
        → IfOk result (λ all. all ≡ true → IsTrueAt i (conjunction_at table.old terms.now)) }
{
    match conjunction(alloc, table, terms) {
        Ok(Some(id)) => match value(alloc, table, interp, id) {
            Ok(found) => Ok(found.is_true()),
            Err(ValueStop::Wide(_)) => Ok(false),
            Err(ValueStop::Memory) => Err(NoMemory),
        },
        Ok(None) => Ok(false),
        Err(error) => Err(error),
    }
}

/// Tells whether expressions are all true, in one walk over their terms. The table is as it was.
///
/// `NoMemory` comes where none is left.
pub(crate) fn are_true(
    alloc: Global,
    table: &mut TermTable,
    interp: &Interp,
    expressions: &[Expression],
) -> Result<bool, NoMemory>
    requires interprets { HasTables table.old interp.now }
    ensures same { table.new ≡ table.old }
    ensures shown { (i : Interpretation) → HasSymbolTables table.old interp.now i
        → IfOk result (λ all. all ≡ true → first_untrue_at table.old i expressions.now ≡ None) }
{
    let terms = terms_of(alloc, expressions)?;
    let len = table.len();
    let found = is_true(alloc, table, interp, &terms);
    table.cut(len);
    found
}
