//! How far derivations reach.

ghost use Rattle.std.specs.Prelude.{◌≡◌, ◌↔◌, true, max};
ghost use Rattle.proof_log.specs.Reaches.{past_term, reach_view, join};
ghost use Rattle.proof_log.specs.Levels.{IsReachWithin};

use term_core::TermId;

/// Says how far the derivation of a clause reaches: up to which term of a table, and up to which assumed clause of the log.
///
/// Where terms and clauses are taken away from an end of both, what has a reach within the lengths that are left rests on nothing that
/// goes. Contracts see it by `reach_view`.
#[derive(Clone, Copy, Debug, PartialEq, Eq)]
pub struct Reach {
    /// The greatest term of the clauses on which it rests.
    pub(crate) term: Option<TermId>,
    /// One past the greatest number of an assumed clause on which it rests.
    pub(crate) assumes: u64,
}

impl Reach {
    /// Tells whether all that the clause rests on is of the first so many terms, and what is assumed of the first so many clauses.
    pub fn is_within(self, terms: u64, steps: u64) -> bool
        ensures { (result ≡ true) ↔ IsReachWithin (record { terms = terms; steps = steps }) (reach_view self) }
    {
        if self.assumes > steps {
            return false;
        }
        match self.term {
            None => true,
            Some(term) => term.0 < terms,
        }
    }

    /// Gives the greater of both, part by part.
    pub(crate) fn join(self, other: Reach) -> Reach
        ensures { reach_view result ≡ join (reach_view self) (reach_view other) }
    {
        Reach {
            term: later(self.term, other.term),
            assumes: self.assumes.max(other.assumes),
        }
    }
}

/// Gives the greater of two terms, where there are any.
pub(crate) fn later(one: Option<TermId>, other: Option<TermId>) -> Option<TermId>
    ensures { past_term result ≡ max (past_term one) (past_term other) }
{
    let Some(a) = one else {
        return other;
    };
    let Some(b) = other else {
        return one;
    };
    Some(TermId(a.0.max(b.0)))
}
