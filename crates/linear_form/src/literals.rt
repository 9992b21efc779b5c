//! What the negations of literals say of numbers.

ghost use Rattle.std.specs.Prelude.{◌≡◌, true};
ghost use Rattle.spec_sorts.specs.Terms.{Number, same_sort, sort_of};
ghost use Rattle.spec_arithmetic.specs.Contradictions.{negation_of, are_numbers};
ghost use Rattle.term_core.specs.Tables.{IsIn, term_at};
ghost use Rattle.linear_form.specs.Literals.{negation_meant, denial_by, HasSidesIn};

use term_core::{Head, Lit, Sort, TermId, TermTable};

/// Says how the difference of two numbers compares with 0.
#[derive(Clone, Copy, Debug, PartialEq, Eq)]
pub(crate) enum Relation {
    /// It is 0.
    Zero,
    /// It is below 0.
    BelowZero,
    /// It is at most 0.
    AtMostZero,
}

/// Says what the negation of a literal does: how the difference of its two numbers compares with 0.
#[derive(Clone, Copy, Debug, PartialEq, Eq)]
pub(crate) struct Negation {
    /// How it compares with 0.
    pub relation: Relation,
    /// The literal's atom, which has both numbers.
    pub atom: TermId,
    /// The number that the other is subtracted from.
    pub left: TermId,
    /// And the other.
    pub right: TermId,
}

/// Tells whether a term has the sort Real.
fn is_number(table: &TermTable, id: TermId) -> bool
    requires { IsIn table.now id }
    ensures { result ≡ same_sort (sort_of (term_at table.now id)) Number }
{
    table.sort(id) == Sort::Real
}

/// Tells whether both terms have the sort Real.
pub(crate) fn are_numbers(table: &TermTable, left: TermId, right: TermId) -> bool
    requires left { IsIn table.now left }
    requires right { IsIn table.now right }
    ensures { result ≡ are_numbers (term_at table.now left) (term_at table.now right) }
{
    is_number(table, left) && is_number(table, right)
}

/// Says what the negation of a literal with this head before two numbers does; nothing where it is no order, and no negated equality.
fn denial_by(head: Head, literal: Lit, left: TermId, right: TermId) -> Option<Negation>
    ensures { result ≡ denial_by head literal left right }
{
    let (relation, left, right) = match (head, literal.positive) {
        (Head::Equal, false) => (Relation::Zero, left, right),
        (Head::Less, false) => (Relation::BelowZero, left, right),
        (Head::Less, true) => (Relation::AtMostZero, right, left),
        (Head::AtMost, false) => (Relation::AtMostZero, left, right),
        (Head::AtMost, true) => (Relation::BelowZero, right, left),
        _ => return None,
    };
    Some(Negation {
        relation,
        atom: literal.term,
        left,
        right,
    })
}

/// Says what the negation of a literal does; nothing where it is no order, and no negated equality, of numbers. Leading `not`s only turn
/// how the rest is meant. It takes no memory.
///
/// Source: Alethe specification, `la_generic`.
pub(crate) fn negation_of(table: &TermTable, id: TermId) -> Option<Negation>
    requires { IsIn table.now id }
    ensures means { negation_meant table.now result ≡ negation_of true (term_at table.now id) }
    ensures there { HasSidesIn table.now result }
{
    let literal = table.literal(id);
    let node = table.node(literal.term);
    let [left, right] = node.arguments.as_slice() else {
        return None;
    };
    if !are_numbers(table, *left, *right) {
        return None;
    }
    denial_by(node.head, literal, *left, *right)
}
