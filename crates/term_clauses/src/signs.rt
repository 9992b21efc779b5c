//! Terms that are in a clause: a term or its negation, and those of its arguments.

ghost use Rattle.std.specs.Prelude.{◌≡◌, ◌<◌, [], ◌∷◌, length, map, All, IfOk, MatchOption, slice_index_or};
ghost use Rattle.spec_sorts.specs.Terms.{negated, no_term};
ghost use Rattle.spec_sorts.specs.Subsets.{arguments_of};
ghost use Rattle.spec_sorts.specs.WellSorted.{IsFormulaOver};
ghost use Rattle.spec_rules.specs.Schemes.{signed_term, side_of, innermost};
ghost use Rattle.term_core.specs.Tables.{term_at, IsIn};
ghost use Rattle.rule_bool.specs.Schemes.{HasPlaces};
ghost use Rattle.proof_log.specs.Logs.{IsFormulaIn};
ghost use Rattle.term_clauses.specs.Stating.{ComesBefore, NamesTerm, NamesAll, Widens, IsSingle, single};

use no_memory::NoMemory;
use spec_proofs::{ArgumentLiteral, Rest};
use std::alloc::Global;
use term_core::{Head, Node, TermId, TermTable};

/// Puts the negation of a formula, or finds it.
fn negation(alloc: Global, table: &mut TermTable, id: TermId) -> Result<TermId, NoMemory>
    requires { IsFormulaIn table.old id }
    ensures wider { Widens table.old table.new }
    ensures means { IfOk result (NamesTerm table.new (negated (term_at table.old id))) }
{
    let node = Node::new(alloc, Head::Not, &[id])?;
    table.put(node)
}

/// Gives a formula as it is, or puts its negation.
pub fn signed(
    alloc: Global,
    table: &mut TermTable,
    id: TermId,
    positive: bool,
) -> Result<TermId, NoMemory>
    requires { IsFormulaIn table.old id }
    ensures wider { Widens table.old table.new }
    ensures means { IfOk result (NamesTerm table.new (signed_term positive (term_at table.old id))) }
{
    if positive {
        return Ok(id);
    }
    negation(alloc, table, id)
}

/// Gives the argument of a place.
fn argument(table: &TermTable, id: TermId, place: usize) -> TermId
    requires there { IsIn table.now id }
    requires place { place < length (arguments_of (term_at table.now id)) }
    ensures there { IsIn table.now result }
    ensures means { term_at table.now result ≡ slice_index_or (arguments_of (term_at table.now id)) place no_term }
{
    table.node(id).arguments.as_slice()[place]
}

/// Gives the argument of a place as it is, or puts its negation.
fn side(
    alloc: Global,
    table: &mut TermTable,
    id: TermId,
    side: ArgumentLiteral,
) -> Result<TermId, NoMemory>
    requires there { IsIn table.old id }
    requires arguments { All (IsFormulaOver table.old.symbols) (arguments_of (term_at table.old id)) }
    requires place { side.place < length (arguments_of (term_at table.old id)) }
    ensures wider { Widens table.old table.new }
    ensures means { IfOk result (NamesTerm table.new (side_of (arguments_of (term_at table.old id)) side)) }
{
    let term = argument(table, id, side.place);
    signed(alloc, table, term, side.positive)
}

/// Counts the arguments of a term.
pub(crate) fn argument_count(table: &TermTable, id: TermId) -> usize
    requires { IsIn table.now id }
    ensures { result ≡ length (arguments_of (term_at table.now id)) }
{
    table.node(id).arguments.len()
}

/// Makes the clause of a term and, after it, what a scheme with one clause says by the arguments of a term.
pub(crate) fn with_rest(
    alloc: Global,
    table: &mut TermTable,
    id: TermId,
    front: TermId,
    rest: Rest,
) -> Result<Vec<TermId>, NoMemory>
    requires there { ComesBefore table.old id front }
    requires places { HasPlaces (length (arguments_of (term_at table.old id))) rest }
    requires one { IsSingle rest }
    ensures wider { Widens table.old table.new }
    ensures means { IfOk result (λ v. NamesAll table.new
        (term_at table.old front ∷ single rest (arguments_of (term_at table.old id))) v.items) }
{
    match rest {
        Rest::Nothing => with_sides(alloc, table, id, front, &[]),
        Rest::One(x) => with_sides(alloc, table, id, front, &[x]),
        Rest::Two(x, y) => with_sides(alloc, table, id, front, &[x, y]),
        Rest::Each(positive) => with_each(alloc, table, id, front, positive),
        Rest::AnyOne(_) => unreachable!(),
        Rest::Innermost => unreachable!(),
    }
}

/// Makes the clause of a term and, after it, arguments of a term by their places, as they are or negated.
fn with_sides(
    alloc: Global,
    table: &mut TermTable,
    id: TermId,
    front: TermId,
    sides: &[ArgumentLiteral],
) -> Result<Vec<TermId>, NoMemory>
    requires there { ComesBefore table.old id front }
    requires places { All (λ x. x.place < length (arguments_of (term_at table.old id))) sides.now }
    ensures wider { Widens table.old table.new }
    ensures means { IfOk result (λ v. NamesAll table.new
        (term_at table.old front ∷ map (side_of (arguments_of (term_at table.old id))) sides.now) v.items) }
{
    let mut clause = Vec::new(alloc);
    clause.push(front)?;
    'sides: for x in sides.iter() {
        clause.push(side(alloc, table, id, *x)?)?;
    }
    Ok(clause)
}

/// Makes the clause of a term and, after it, all arguments of a term, as they are or negated.
fn with_each(
    alloc: Global,
    table: &mut TermTable,
    id: TermId,
    front: TermId,
    positive: bool,
) -> Result<Vec<TermId>, NoMemory>
    requires { ComesBefore table.old id front }
    ensures wider { Widens table.old table.new }
    ensures means { IfOk result (λ v. NamesAll table.new
        (term_at table.old front ∷ map (signed_term positive) (arguments_of (term_at table.old id))) v.items) }
{
    let count = argument_count(table, id);
    let mut clause = Vec::new(alloc);
    clause.push(front)?;
    'places: for place in 0..count {
        let term = argument(table, id, place);
        clause.push(signed(alloc, table, term, positive)?)?;
    }
    Ok(clause)
}

/// Gives what the one argument of a term, a negation, negates; `None` where the arguments are others.
pub(crate) fn innermost(table: &TermTable, id: TermId) -> Option<TermId>
    requires { IsIn table.now id }
    ensures { MatchOption result (innermost (arguments_of (term_at table.now id)) ≡ [])
        (λ u. IsIn table.now u × (innermost (arguments_of (term_at table.now id)) ≡ (term_at table.now u ∷ []) ∷ [])) }
{
    if argument_count(table, id) != 1 {
        return None;
    }
    let only = argument(table, id, 0);
    match table.node(only).head {
        Head::Not => Some(argument(table, only, 0)),
        _ => None,
    }
}
