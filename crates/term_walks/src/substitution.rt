//! Terms in the place of parameters.

ghost use Rattle.std.specs.Prelude.{◌≡◌, ◌<◌, List, length, map, All, IfOk, IfSome, OnErr};
ghost use Rattle.spec_sorts.specs.Terms.{Term, filled};
ghost use Rattle.term_core.specs.Tables.{TableView, declared_in, term_at, IsIn, AreIn, clause_at, node_term, IsPlaced, Extends};
ghost use Rattle.term_walks.specs.Filling.{FillsAll};
ghost use Rattle.term_walks.specs.FilledTerms.{IsFilled, AreFilled, refilled, IsNoParameter, IsParameterOr};
ghost use Rattle.term_walks.specs.Orders.{Ascends, IsOrder, IsAmongFirst, HasArgumentsBefore};

use crate::order::{order_of, place_among};
use no_memory::NoMemory;
use std::alloc::Global;
use term_core::{Head, Node, TermId, TermTable};

/// Puts a term with arguments for its parameters, each by the parameter's number, and says its number.
///
/// There must be an argument for each parameter in the term, and of its sort. A term without parameters is itself.
/// `NoMemory` comes where a term or the walk finds no memory; then the table is as it was.
/// Time and memory go with the number of the term's different subterms and of their arguments.
/// Source: SMT-LIB 2.6, section 4.2.3.
pub fn fill(
    alloc: Global,
    table: &mut TermTable,
    body: TermId,
    arguments: &[TermId],
) -> Result<TermId, NoMemory>
    requires body { IsIn table.old body }
    requires arguments { AreIn table.old arguments.now }
    requires fills { FillsAll (clause_at table.old arguments.now) (term_at table.old body) }
    ensures filled { IfOk result (λ id. IsIn table.new id
        × (term_at table.new id ≡ filled (clause_at table.old arguments.now) (term_at table.old body))) }
    ensures kept { Extends table.old table.new × (declared_in table.new ≡ declared_in table.old) }
    ensures same { OnErr result (table.new ≡ table.old) }
{
    let len = table.len();
    match fill_body(alloc, table, body, arguments) {
        Ok(id) => Ok(id),
        Err(stop) => {
            table.cut(len);
            Err(stop)
        }
    }
}

/// Does the same, and may leave terms in the table where it finds no memory.
fn fill_body(
    alloc: Global,
    table: &mut TermTable,
    body: TermId,
    arguments: &[TermId],
) -> Result<TermId, NoMemory>
    requires body { IsIn table.old body }
    requires arguments { AreIn table.old arguments.now }
    requires fills { FillsAll (clause_at table.old arguments.now) (term_at table.old body) }
    ensures filled { IfOk result (λ id. IsIn table.new id
        × (term_at table.new id ≡ filled (clause_at table.old arguments.now) (term_at table.old body))) }
    ensures kept { Extends table.old table.new × (declared_in table.new ≡ declared_in table.old) }
{
    let order = order_of(alloc, table, body)?;
    fill_along(alloc, table, body, arguments, order.as_slice())
}

/// Puts the terms of an order, each filled, and says the number of the last one.
fn fill_along(
    alloc: Global,
    table: &mut TermTable,
    body: TermId,
    arguments: &[TermId],
    order: &[u64],
) -> Result<TermId, NoMemory>
    requires arguments { AreIn table.old arguments.now }
    requires fills { FillsAll (clause_at table.old arguments.now) (term_at table.old body) }
    requires order { IsOrder table.old body.0 order.now }
    ensures filled { IfOk result (λ id. IsIn table.new id
        × (term_at table.new id ≡ filled (clause_at table.old arguments.now) (term_at table.old body))) }
    ensures kept { Extends table.old table.new × (declared_in table.new ≡ declared_in table.old) }
{
    let mut made = Vec::new(alloc);
    'terms: for at in 0..order.len() {
        let id = TermId(order[at]);
        let next = fill_next(alloc, table, id, arguments, order, made.as_slice())?;
        made.push(next)?;
    }
    Ok(made_at(order, made.as_slice(), body.0))
}

/// Puts a term, filled, by the numbers of the filled terms before it in the order.
fn fill_next(
    alloc: Global,
    table: &mut TermTable,
    id: TermId,
    arguments: &[TermId],
    order: &[u64],
    made: &[TermId],
) -> Result<TermId, NoMemory>
    requires there { IsIn table.old id }
    requires arguments { AreIn table.old arguments.now }
    requires fills { FillsAll (clause_at table.old arguments.now) (term_at table.old id) }
    requires ascends { Ascends order.now }
    requires ready { HasArgumentsBefore table.old order.now (length made.now) id.0 }
    requires made { AreFilled table.old (clause_at table.old arguments.now) order.now made.now }
    ensures filled { IfOk result (λ n. IsIn table.new n
        × (term_at table.new n ≡ filled (clause_at table.old arguments.now) (term_at table.old id))) }
    ensures kept { Extends table.old table.new × (declared_in table.new ≡ declared_in table.old) }
{
    match parameter_of(table, id, arguments) {
        Some(number) => Ok(arguments[number as usize]),
        None => put_filled(alloc, table, id, arguments, order, made),
    }
}

/// Puts a term that is no parameter, filled.
fn put_filled(
    alloc: Global,
    table: &mut TermTable,
    id: TermId,
    arguments: &[TermId],
    order: &[u64],
    made: &[TermId],
) -> Result<TermId, NoMemory>
    requires there { IsIn table.old id }
    requires none { IsNoParameter (term_at table.old id) }
    requires fills { FillsAll (clause_at table.old arguments.now) (term_at table.old id) }
    requires ascends { Ascends order.now }
    requires ready { HasArgumentsBefore table.old order.now (length made.now) id.0 }
    requires made { AreFilled table.old (clause_at table.old arguments.now) order.now made.now }
    ensures filled { IfOk result (λ n. IsIn table.new n
        × (term_at table.new n ≡ filled (clause_at table.old arguments.now) (term_at table.old id))) }
    ensures kept { Extends table.old table.new × (declared_in table.new ≡ declared_in table.old) }
{
    let node = filled_node(alloc, table, id, order, made)?;
    table.put(node)
}

/// Says the number of the parameter that a term is; `None` where it is none.
fn parameter_of(table: &TermTable, id: TermId, arguments: &[TermId]) -> Option<u64>
    requires there { IsIn table.now id }
    requires fills { FillsAll (clause_at table.now arguments.now) (term_at table.now id) }
    ensures is { IsParameterOr result (term_at table.now id) }
    ensures inside { IfSome result (λ k. k < length arguments.now) }
{
    match table.node(id).head {
        Head::Parameter(number, _) => Some(number),
        _ => None,
    }
}

/// Makes the node of a term by the numbers of its filled arguments.
fn filled_node(
    alloc: Global,
    table: &TermTable,
    id: TermId,
    order: &[u64],
    made: &[TermId],
) -> Result<Node, NoMemory>
    requires there { IsIn table.now id }
    requires ascends { Ascends order.now }
    requires ready { HasArgumentsBefore table.now order.now (length made.now) id.0 }
    ensures { (ts : List Term) → AreFilled table.now ts order.now made.now → FillsAll ts (term_at table.now id)
        → IfOk result (λ n. IsPlaced table.now n × (node_term table.now n ≡ refilled ts (term_at table.now id))) }
{
    table.ids_are_unique();
    let node = table.node(id);
    let filled = filled_all(alloc, node.arguments.as_slice(), order, made)?;
    Node::new(alloc, node.head, filled.as_slice())
}

/// Lists the numbers of filled arguments, in their order.
fn filled_all(
    alloc: Global,
    arguments: &[TermId],
    order: &[u64],
    made: &[TermId],
) -> Result<Vec<TermId>, NoMemory>
    requires ascends { Ascends order.now }
    requires there { All (λ id. IsAmongFirst order.now (length made.now) id.0) arguments.now }
    ensures { (t : TableView) (ts : List Term) → AreFilled t ts order.now made.now
        → IfOk result (λ v. AreIn t v.items
        × (clause_at t v.items ≡ map (filled ts) (clause_at t arguments.now))) }
{
    let mut all = Vec::new(alloc);
    'arguments: for id in arguments.iter() {
        all.push(made_at(order, made, id.0))?;
    }
    Ok(all)
}

/// Says the number of the filled term of a number.
fn made_at(order: &[u64], made: &[TermId], number: u64) -> TermId
    requires ascends { Ascends order.now }
    requires there { IsAmongFirst order.now (length made.now) number }
    ensures { (t : TableView) (ts : List Term) → AreFilled t ts order.now made.now
        → IsFilled t ts number result }
{
    let place = place_among(order, number, made.len());
    made[place]
}
