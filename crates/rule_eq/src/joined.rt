//! Arguments that reasons join.

ghost use Rattle.std.specs.Prelude.{◌≡◌, ◌≢◌, ◌<◌, ◌≤◌, length, MatchBool, MatchOption};
ghost use Rattle.spec_equality.specs.Reasons.{AreJoined, HaveJoinedArguments};
ghost use Rattle.term_core.specs.Tables.{IsIn, AreIn, term_at, clause_at};
ghost use Rattle.clause_literals.specs.Literals.{Tests};
ghost use Rattle.rule_eq.specs.Reasoning.{reasons_meant, AreReasonsIn, JoinsAt, HasNoneBetween, HasReasonIn, AreOneOrJoined};

use crate::reasons::{Reasons, count, reason_at};
use crate::sides::{joins, same_number};
use term_core::{Node, TermId, TermTable};

/// Tells whether the reason at a place joins two terms.
fn joins_at(table: &TermTable, reasons: Reasons<'_>, pair: (TermId, TermId), place: usize) -> bool
    requires reasons { AreReasonsIn table.now reasons }
    requires one { IsIn table.now pair.0 }
    requires other { IsIn table.now pair.1 }
    requires place { place < length (reasons_meant table.now reasons) }
    ensures { Tests (JoinsAt table.now (reasons_meant table.now reasons.entry) pair place) result }
{
    match reason_at(table, reasons, place) {
        Some(reason) => joins(table, reason, pair.0, pair.1),
        None => false,
    }
}

/// Gives the first place from `from` on, before `end`, whose reason joins two terms, or nothing where none does.
fn place_between(
    table: &TermTable,
    reasons: Reasons<'_>,
    pair: (TermId, TermId),
    from: usize,
    end: usize,
) -> Option<usize>
    requires reasons { AreReasonsIn table.now reasons }
    requires one { IsIn table.now pair.0 }
    requires other { IsIn table.now pair.1 }
    requires end { end ≤ length (reasons_meant table.now reasons) }
    ensures { MatchOption result (HasNoneBetween table.now (reasons_meant table.now reasons.entry) pair from end)
        (λ place. (place < end) × JoinsAt table.now (reasons_meant table.now reasons.entry) pair place) }
{
    for place in from..end {
        if joins_at(table, reasons, pair, place) {
            return Some(place);
        }
    }
    None
}

/// Gives a place whose reason joins two terms, where the places from `from` on are looked at before those before it, or nothing
/// where none does.
fn place_around(
    table: &TermTable,
    reasons: Reasons<'_>,
    pair: (TermId, TermId),
    from: usize,
) -> Option<usize>
    requires reasons { AreReasonsIn table.now reasons }
    requires one { IsIn table.now pair.0 }
    requires other { IsIn table.now pair.1 }
    requires from { from ≤ length (reasons_meant table.now reasons) }
    ensures { MatchOption result (HasReasonIn table.now (reasons_meant table.now reasons.entry) pair → ⊥)
        (λ place. (place < length (reasons_meant table.now reasons.entry))
        × HasReasonIn table.now (reasons_meant table.now reasons.entry) pair) }
{
    if let Some(place) = place_between(table, reasons, pair, from, count(reasons)) {
        return Some(place);
    }
    place_between(table, reasons, pair, 0, from)
}

/// Gives a place whose reason joins two terms, or `from` where these are one term; nothing where neither is so.
fn place_for(
    table: &TermTable,
    reasons: Reasons<'_>,
    pair: (TermId, TermId),
    from: usize,
) -> Option<usize>
    requires reasons { AreReasonsIn table.now reasons }
    requires one { IsIn table.now pair.0 }
    requires other { IsIn table.now pair.1 }
    requires from { from ≤ length (reasons_meant table.now reasons) }
    ensures { MatchOption result (AreOneOrJoined table.now (reasons_meant table.now reasons.entry) pair → ⊥)
        (λ place. (place ≤ length (reasons_meant table.now reasons.entry))
        × AreOneOrJoined table.now (reasons_meant table.now reasons.entry) pair) }
{
    table.ids_are_unique();
    if same_number(pair.0, pair.1) {
        return Some(from);
    }
    place_around(table, reasons, pair, from)
}

/// Tells whether each of the terms is the other of its place, or a reason joins the two.
///
/// The look for a reason begins at the place of the reason before it, and goes on from the first. So it takes time in proportion
/// to terms and reasons where the reasons are in the order of the terms, with gaps or repeats; out of that order it is their
/// product at worst, since a map of the reasons would take memory.
fn are_joined(table: &TermTable, reasons: Reasons<'_>, terms: &[TermId], others: &[TermId]) -> bool
    requires reasons { AreReasonsIn table.now reasons }
    requires terms { AreIn table.now terms.now }
    requires others { AreIn table.now others.now }
    ensures { Tests (AreJoined (reasons_meant table.now reasons.entry) (clause_at table.now terms.now)
        (clause_at table.now others.now)) result }
{
    if terms.len() != others.len() {
        return false;
    }
    let mut last = 0;
    for at in 0..terms.len() {
        let Some(place) = place_for(table, reasons, (terms[at], others[at]), last) else {
            return false;
        };
        last = place;
    }
    true
}

/// Tells whether two nodes have one head.
fn same_head(one: &Node, other: &Node) -> bool
    ensures { MatchBool result (one.now.head ≡ other.now.head) (one.now.head ≢ other.now.head) }
{
    one.head == other.head
}

/// Tells whether two terms have one head, before arguments that are joined, and at least one.
pub(crate) fn are_congruent(
    table: &TermTable,
    reasons: Reasons<'_>,
    one: TermId,
    other: TermId,
) -> bool
    requires reasons { AreReasonsIn table.now reasons }
    requires one { IsIn table.now one }
    requires other { IsIn table.now other }
    ensures { Tests (HaveJoinedArguments (reasons_meant table.now reasons.entry) (term_at table.now one)
        (term_at table.now other)) result }
{
    table.ids_are_unique();
    table.symbols().are_declared();
    let left = table.node(one);
    let right = table.node(other);
    if !same_head(left, right) {
        return false;
    }
    if left.arguments.is_empty() {
        return false;
    }
    are_joined(
        table,
        reasons,
        left.arguments.as_slice(),
        right.arguments.as_slice(),
    )
}
