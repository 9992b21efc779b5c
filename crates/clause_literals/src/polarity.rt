//! Terms as they are, and what negations negate.

ghost use Rattle.std.specs.Prelude.{MatchOption, false};
ghost use Rattle.spec_rules.specs.Rules.{flipped};
ghost use Rattle.term_core.specs.Tables.{IsIn, term_at};
ghost use Rattle.clause_literals.specs.Polarities.{IsSigned, HasNoSign, HasNoTurn};

use term_core::{Head, TermId, TermTable};

/// Gives the argument of a negation, or nothing where the term is none.
fn negated(table: &TermTable, id: TermId) -> Option<TermId>
    requires { IsIn table.now id }
    ensures { MatchOption result (HasNoSign false (term_at table.now id))
        (IsSigned table.now false (term_at table.now id)) }
{
    let node = table.node(id);
    let [inner] = node.arguments.as_slice() else {
        return None;
    };
    match node.head {
        Head::Not => Some(*inner),
        _ => None,
    }
}

/// Gives the term as it is, or where `positive` is false what it negates; nothing where it is no negation. It takes no memory, and
/// the same time for all terms. Source: SMT-LIB 2.6, theory Core, for `not`.
pub fn without_sign(table: &TermTable, positive: bool, id: TermId) -> Option<TermId>
    requires { IsIn table.now id }
    ensures { MatchOption result (HasNoSign positive (term_at table.now id))
        (IsSigned table.now positive (term_at table.now id)) }
{
    if positive {
        return Some(id);
    }
    negated(table, id)
}

/// Takes a leading `not` off a term, or else puts one on, and gives what is left of that without the sign.
///
/// A negation that is put on need not be the table's, and is not made. Where `positive` is false, the term itself is left of it; where
/// `positive` is true, there is nothing, though that negation, as it is, would be left. It would be a term of the head `Not`, which
/// no caller asks for: a scheme that `rule_bool` turns has another (`IsTurning`). It takes no memory, and the same time for all terms.
pub fn turned_without_sign(table: &TermTable, positive: bool, id: TermId) -> Option<TermId>
    requires { IsIn table.now id }
    ensures { MatchOption result (HasNoTurn positive (term_at table.now id))
        (IsSigned table.now positive (flipped (term_at table.now id))) }
{
    match negated(table, id) {
        Some(inner) => without_sign(table, positive, inner),
        None => { if positive { None } else { Some(id) } }
    }
}
