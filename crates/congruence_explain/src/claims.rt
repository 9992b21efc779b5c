//! What the literals of a clause say, before their terms are put.

ghost use Rattle.std.specs.Prelude.{◌≡◌, ◌≢◌, false, MatchBool};
ghost use Rattle.congruence_relation.specs.Relation.{truth_of};
ghost use Rattle.congruence_explain.specs.Claims.{says, equality_claim, unequal, value_claim, denied, joins};

use congruence_relation::{Label, Truths};
use term_core::{Lit, TermId};

/// A formula of a literal.
#[derive(Clone, Copy, Debug, PartialEq, Eq)]
pub(crate) enum Claim {
    /// The equality of two terms, in this order.
    Equality(TermId, TermId),
    /// A term that is no negation.
    Atom(TermId),
}

/// A literal: a formula as it is, or its negation.
#[derive(Clone, Copy, Debug, PartialEq, Eq)]
pub(crate) struct SignedClaim {
    /// The formula.
    pub(crate) claim: Claim,
    /// Whether it is meant as it is.
    pub(crate) positive: bool,
}

/// Says that two terms are equal.
pub(crate) fn equality(a: TermId, b: TermId) -> SignedClaim
    ensures { result ≡ equality_claim a b }
{
    SignedClaim {
        claim: Claim::Equality(a, b),
        positive: true,
    }
}

/// Says that two terms are not equal.
pub(crate) fn unequality(a: TermId, b: TermId) -> SignedClaim
    ensures { result ≡ unequal a b }
{
    SignedClaim {
        claim: Claim::Equality(a, b),
        positive: false,
    }
}

/// Says the complement of a literal.
pub(crate) fn denial(l: Lit) -> SignedClaim
    ensures { result ≡ denied l }
{
    SignedClaim {
        claim: Claim::Atom(l.term),
        positive: !l.positive,
    }
}

/// Says the term of a truth value, or its negation.
pub(crate) fn value_claimed(term: TermId, positive: bool) -> SignedClaim
    ensures { result ≡ value_claim term positive }
{
    SignedClaim {
        claim: Claim::Atom(term),
        positive,
    }
}

/// Tells whether a literal is the negation of an atom.
pub(crate) fn is_denial(s: SignedClaim, e: TermId) -> bool
    ensures { MatchBool result (s ≡ value_claim e false) (s ≢ value_claim e false) }
{
    match s.claim {
        Claim::Atom(id) => !s.positive && id.0 == e.0,
        Claim::Equality(_, _) => false,
    }
}

/// Gives the term of a truth value.
pub(crate) fn truth(truths: Truths, value: bool) -> TermId
    ensures { result ≡ truth_of truths value }
{
    if value {
        truths.true_term
    } else {
        truths.false_term
    }
}

/// Tells whether an edge between two terms is one between these.
pub(crate) fn is_between(a: TermId, b: TermId, x: TermId, y: TermId) -> bool
    ensures { result ≡ joins a b x y }
{
    a.0 == x.0 && b.0 == y.0 || a.0 == y.0 && b.0 == x.0
}

/// Says what an edge between two terms does, by its label, in either direction.
pub(crate) fn claim_of(truths: Truths, label: Label, a: TermId, b: TermId) -> Claim
    ensures { result ≡ says truths label a b }
{
    match label {
        Label::Arguments(x, y) => Claim::Equality(x, y),
        Label::Held(l) => {
            let value = truth(truths, l.positive);
            if is_between(a, b, l.term, value) {
                Claim::Equality(l.term, value)
            } else {
                Claim::Atom(l.term)
            }
        }
    }
}
