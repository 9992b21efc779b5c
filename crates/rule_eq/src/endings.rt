//! Clauses that end in two terms, with literals before them.

ghost use Rattle.std.specs.Prelude.{MatchOption};
ghost use Rattle.spec_equality.specs.EqualityRules.{EndsEqual, EndsDenied};
ghost use Rattle.term_core.specs.Tables.{IsIn, AreIn, clause_at};
ghost use Rattle.clause_literals.specs.Literals.{Tests};
ghost use Rattle.rule_eq.specs.Judging.{IsEqualEnding, IsDeniedEnding, IsLike};

use crate::joined::are_congruent;
use crate::reasons::Reasons;
use crate::sides::{denied, sides};
use term_core::{TermId, TermTable};

/// Lends a clause as the two terms that it ends in, and the literals before them.
#[derive(Clone, Copy)]
pub(crate) struct Ending<'a> {
    /// The literals.
    pub literals: &'a [TermId],
    /// The one term.
    pub one: TermId,
    /// The other.
    pub other: TermId,
}

/// Gives the sides of the equality that a clause ends in, or nothing where it ends in none.
pub(crate) fn equal_ending<'a>(table: &TermTable, clause: &'a [TermId]) -> Option<Ending<'a>>
    requires { AreIn table.now clause.now }
    ensures { MatchOption result (EndsEqual (clause_at table.now clause.now) → ⊥)
        (λ end. IsEqualEnding table.now (clause_at table.now clause.now) end) }
{
    let Some((last, literals)) = clause.split_last() else {
        return None;
    };
    let Some((one, other)) = sides(table, *last) else {
        return None;
    };
    Some(Ending {
        literals,
        one,
        other,
    })
}

/// Gives the two last terms of a clause, the first without its negation, or nothing where that is none or there are not two.
pub(crate) fn denied_ending<'a>(table: &TermTable, clause: &'a [TermId]) -> Option<Ending<'a>>
    requires { AreIn table.now clause.now }
    ensures { MatchOption result (EndsDenied (clause_at table.now clause.now) → ⊥)
        (λ end. IsDeniedEnding table.now (clause_at table.now clause.now) end) }
{
    let Some((other, front)) = clause.split_last() else {
        return None;
    };
    let Some((literal, literals)) = front.split_last() else {
        return None;
    };
    let Some(one) = denied(table, *literal) else {
        return None;
    };
    Some(Ending {
        literals,
        one,
        other: *other,
    })
}

/// Tells whether the two terms have one head, before arguments that the literals join.
pub(crate) fn are_like(table: &TermTable, end: Ending<'_>) -> bool
    requires literals { AreIn table.now end.literals.now }
    requires one { IsIn table.now end.one }
    requires other { IsIn table.now end.other }
    ensures { Tests (IsLike table.now end.entry) result }
{
    are_congruent(table, Reasons::Literals(end.literals), end.one, end.other)
}
