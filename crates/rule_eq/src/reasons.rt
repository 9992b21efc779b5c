//! Reasons of a step, and where they lead.

ghost use Rattle.std.specs.Prelude.{◌≡◌, ◌<◌, length, get_or, None};
ghost use Rattle.spec_equality.specs.Reasons.{Lead};
ghost use Rattle.term_core.specs.Tables.{TableView, IsIn, term_at};
ghost use Rattle.clause_literals.specs.Literals.{Tests};
ghost use Rattle.rule_eq.specs.Reasoning.{GivesTerm, reasons_meant, AreReasonsIn};

use crate::sides::{alone, denied, other_side, same_number};
use term_core::{Clause, TermId, TermTable};

/// Lends the terms that give a step's reasons.
#[derive(Clone, Copy)]
pub(crate) enum Reasons<'a> {
    /// Literals, each of which gives the term that it denies.
    Literals(&'a [TermId]),
    /// Premises, each of which gives its one term.
    Premises(&'a [Clause]),
}

/// Counts the reasons, those that give no term with them.
pub(crate) fn count(reasons: Reasons<'_>) -> usize
    ensures { (table : TableView) → result ≡ length (reasons_meant table reasons.entry) }
{
    match reasons {
        Reasons::Literals(ids) => ids.len(),
        Reasons::Premises(clauses) => clauses.len(),
    }
}

/// Gives the term of the reason at a place, or nothing where it gives none.
pub(crate) fn reason_at(table: &TermTable, reasons: Reasons<'_>, place: usize) -> Option<TermId>
    requires reasons { AreReasonsIn table.now reasons }
    requires place { place < length (reasons_meant table.now reasons) }
    ensures { GivesTerm table.now (get_or (reasons_meant table.now reasons.entry) place None) result }
{
    match reasons {
        Reasons::Literals(ids) => denied(table, ids[place]),
        Reasons::Premises(clauses) => alone(table, clauses[place].as_slice()),
    }
}

/// Tells whether the reasons lead in their order from one term to another.
pub(crate) fn lead(table: &TermTable, reasons: Reasons<'_>, from: TermId, to: TermId) -> bool
    requires reasons { AreReasonsIn table.now reasons }
    requires from { IsIn table.now from }
    requires to { IsIn table.now to }
    ensures { Tests (Lead (reasons_meant table.now reasons.entry) (term_at table.now from)
        (term_at table.now to)) result }
{
    table.ids_are_unique();
    let mut current = from;
    for place in 0..count(reasons) {
        let Some(reason) = reason_at(table, reasons, place) else {
            return false;
        };
        let Some(next) = other_side(table, reason, current) else {
            return false;
        };
        current = next;
    }
    same_number(current, to)
}
