//! The literals that may come after a term, by its arguments.

ghost use Rattle.std.specs.Prelude.{◌≡◌, ◌<◌, length};
ghost use Rattle.spec_rules.specs.Schemes.{side_of};
ghost use Rattle.spec_proofs.specs.declared.Rest.TheVariants as rests;
ghost use Rattle.term_core.specs.Tables.{IsIn, AreIn, term_at, clause_at};
ghost use Rattle.clause_literals.specs.Literals.{Tests};
ghost use Rattle.rule_bool.specs.Schemes.{HasPlaces, HasRest};

use crate::within::{alone, has_number, same_number};
use clause_literals::without_sign;
use spec_proofs::{ArgumentLiteral, Rest};
use term_core::{TermId, TermTable};

/// Tells whether a term is the argument of a place, as it is or negated.
fn is_side(table: &TermTable, arguments: &[TermId], side: ArgumentLiteral, id: TermId) -> bool
    requires arguments { AreIn table.now arguments.now }
    requires id { IsIn table.now id }
    requires place { side.place < length arguments.now }
    ensures { Tests (side_of (clause_at table.now arguments.now) side ≡ term_at table.now id) result }
{
    table.ids_are_unique();
    match without_sign(table, side.positive, id) {
        Some(argument) => same_number(argument, arguments[side.place]),
        None => false,
    }
}

/// Tells whether terms are the arguments in their order, as they are or negated.
fn are_each(table: &TermTable, arguments: &[TermId], positive: bool, ids: &[TermId]) -> bool
    requires arguments { AreIn table.now arguments.now }
    requires ids { AreIn table.now ids.now }
    ensures { Tests (HasRest table.now (rests.Each positive) arguments.now ids.now) result }
{
    if arguments.len() != ids.len() {
        return false;
    }
    for at in 0..ids.len() {
        let side = ArgumentLiteral {
            place: at,
            positive,
        };
        if !is_side(table, arguments, side, ids[at]) {
            return false;
        }
    }
    true
}

/// Tells whether the one term is what the one argument negates.
fn is_innermost(table: &TermTable, arguments: &[TermId], ids: &[TermId]) -> bool
    requires arguments { AreIn table.now arguments.now }
    requires ids { AreIn table.now ids.now }
    ensures { Tests (HasRest table.now rests.Innermost arguments.now ids.now) result }
{
    table.ids_are_unique();
    let Some(argument) = alone(arguments) else {
        return false;
    };
    let Some(id) = alone(ids) else {
        return false;
    };
    match without_sign(table, false, argument) {
        Some(inner) => same_number(inner, id),
        None => false,
    }
}

/// Tells whether there is one term, the argument of a place, as it is or negated.
fn is_one(table: &TermTable, arguments: &[TermId], side: ArgumentLiteral, ids: &[TermId]) -> bool
    requires arguments { AreIn table.now arguments.now }
    requires ids { AreIn table.now ids.now }
    requires place { side.place < length arguments.now }
    ensures { Tests (HasRest table.now (rests.One side) arguments.now ids.now) result }
{
    let Some(id) = alone(ids) else {
        return false;
    };
    is_side(table, arguments, side, id)
}

/// Tells whether there are two terms, the arguments of two places, as they are or negated.
fn are_two(
    table: &TermTable,
    arguments: &[TermId],
    first: ArgumentLiteral,
    second: ArgumentLiteral,
    ids: &[TermId],
) -> bool
    requires arguments { AreIn table.now arguments.now }
    requires ids { AreIn table.now ids.now }
    requires first { first.place < length arguments.now }
    requires second { second.place < length arguments.now }
    ensures { Tests (HasRest table.now (rests.Two first second) arguments.now ids.now) result }
{
    let [one, other] = ids else {
        return false;
    };
    if !is_side(table, arguments, first, *one) {
        return false;
    }
    is_side(table, arguments, second, *other)
}

/// Tells whether there is one term, one of the arguments, as it is or negated.
fn is_any(table: &TermTable, arguments: &[TermId], positive: bool, ids: &[TermId]) -> bool
    requires arguments { AreIn table.now arguments.now }
    requires ids { AreIn table.now ids.now }
    ensures { Tests (HasRest table.now (rests.AnyOne positive) arguments.now ids.now) result }
{
    table.ids_are_unique();
    let Some(id) = alone(ids) else {
        return false;
    };
    match without_sign(table, positive, id) {
        Some(argument) => has_number(arguments, argument),
        None => false,
    }
}

/// Tells whether terms may come after a term of these arguments.
pub(crate) fn has_rest(table: &TermTable, rest: Rest, arguments: &[TermId], ids: &[TermId]) -> bool
    requires arguments { AreIn table.now arguments.now }
    requires ids { AreIn table.now ids.now }
    requires places { HasPlaces (length arguments.now) rest }
    ensures { Tests (HasRest table.now rest arguments.now ids.now) result }
{
    match rest {
        Rest::Nothing => ids.is_empty(),
        Rest::One(side) => is_one(table, arguments, side, ids),
        Rest::Two(first, second) => are_two(table, arguments, first, second, ids),
        Rest::AnyOne(positive) => is_any(table, arguments, positive, ids),
        Rest::Each(positive) => are_each(table, arguments, positive, ids),
        Rest::Innermost => is_innermost(table, arguments, ids),
    }
}
