//! Literals of orders that cannot all hold, as these are a cycle.

ghost use Rattle.std.specs.Prelude.{IfOk, IfSome, Contains, All};
ghost use Rattle.term_core.specs.Tables.{IsIn, AreIn};
ghost use Rattle.bound_lemmas.specs.Cycles.{AreReasonsOf};

use crate::orders::{AtomOrder, atom_order};
use no_memory::NoMemory;
use order_cycles::{Order, cycles_of};
use simplex_explain::Weighted;
use std::alloc::Global;
use term_core::{Lit, TermId, TermTable};

/// Puts the order last that the literal of an atom is, where it is one of two points.
fn add_order(
    alloc: Global,
    table: &TermTable,
    atom: TermId,
    place: usize,
    positive: bool,
    orders: &mut Vec<AtomOrder>,
) -> Result<(), NoMemory>
    requires { IsIn table.now atom }
{
    if let Some(order) = atom_order(alloc, table, atom, place, positive)? {
        orders.push(order)?;
    }
    Ok(())
}

/// Gives the sign of an atom of which a literal holds.
fn sign_of(signs: &[Option<bool>], atom: TermId) -> Option<bool> {
    match signs.get(atom.0 as usize) {
        None => None,
        Some(sign) => *sign,
    }
}

/// Lists the orders that hold: of these atoms, by their signs.
fn held_orders(
    alloc: Global,
    table: &TermTable,
    atoms: &[TermId],
    signs: &[Option<bool>],
) -> Result<Vec<AtomOrder>, NoMemory>
    requires { AreIn table.now atoms.now }
{
    let mut orders = Vec::new(alloc);
    'atoms: for place in 0..atoms.len() {
        let atom = atoms[place];
        if let Some(positive) = sign_of(signs, atom) {
            add_order(alloc, table, atom, place, positive, &mut orders)?;
        }
    }
    Ok(orders)
}

/// Tells whether an atom is marked, and none of its literals holds.
fn is_open(signs: &[Option<bool>], marks: &[bool], atom: TermId) -> bool {
    if sign_of(signs, atom).is_some() {
        return false;
    }
    match marks.get(atom.0 as usize) {
        None => false,
        Some(mark) => *mark,
    }
}

/// Puts the orders last that both literals of marked atoms are, of which none holds.
fn add_open(
    alloc: Global,
    table: &TermTable,
    atoms: &[TermId],
    signs: &[Option<bool>],
    marks: &[bool],
    orders: &mut Vec<AtomOrder>,
) -> Result<(), NoMemory>
    requires { AreIn table.now atoms.now }
{
    'atoms: for place in 0..atoms.len() {
        let atom = atoms[place];
        if is_open(signs, marks, atom) {
            add_order(alloc, table, atom, place, true, orders)?;
            add_order(alloc, table, atom, place, false, orders)?;
        }
    }
    Ok(())
}

/// Lists what orders say of points.
fn plain_orders(alloc: Global, orders: &[AtomOrder]) -> Result<Vec<Order>, NoMemory> {
    let mut plain = Vec::new(alloc);
    'orders: for order in orders.iter() {
        plain.push(order.order)?;
    }
    Ok(plain)
}

/// Lists cycles among orders, of which the first are taken together: the places of the orders of each; none where there are not so many.
fn cycles_among(
    alloc: Global,
    orders: &[Order],
    held: usize,
    points: usize,
) -> Result<Vec<Vec<usize>>, NoMemory> {
    if held > orders.len() {
        return Ok(Vec::new(alloc));
    }
    cycles_of(alloc, orders, held, points)
}

/// Gives the literal of the order at a place, with its weight.
fn reason_at(atoms: &[TermId], orders: &[AtomOrder], place: usize) -> Option<Weighted>
    ensures { IfSome result (λ r. Contains atoms.now r.literal.term) }
{
    let Some(order) = orders.get(place) else {
        return None;
    };
    if order.place >= atoms.len() {
        return None;
    }
    let term = atoms[order.place];
    let positive = order.positive;
    Some(Weighted {
        literal: Lit { term, positive },
        weight: order.weight,
    })
}

/// Lists the literals of the orders at these places, with their weights.
fn reasons_at(
    alloc: Global,
    atoms: &[TermId],
    orders: &[AtomOrder],
    places: &[usize],
) -> Result<Vec<Weighted>, NoMemory>
    ensures { IfOk result (λ reasons. AreReasonsOf atoms.now reasons.items) }
{
    let mut reasons = Vec::new(alloc);
    'places: for place in places.iter() {
        if let Some(reason) = reason_at(atoms, orders, *place) {
            reasons.push(reason)?;
        }
    }
    Ok(reasons)
}

/// Lists the literals of each of these cycles, with their weights. Cycles of two orders are left out.
fn reasons_of(
    alloc: Global,
    atoms: &[TermId],
    orders: &[AtomOrder],
    cycles: &[Vec<usize>],
) -> Result<Vec<Vec<Weighted>>, NoMemory>
    ensures { IfOk result (λ found. All (λ rs. AreReasonsOf atoms.now rs.items) found.items) }
{
    let mut found = Vec::new(alloc);
    'cycles: for cycle in cycles.iter() {
        if cycle.len() > 2 {
            let reasons = reasons_at(alloc, atoms, orders, cycle)?;
            found.push(reasons)?;
        }
    }
    Ok(found)
}

/// Lists literals of orders that cannot all hold, as these are a cycle: each says that a term is at most another one plus a number, the
/// last one leads back to the first term, and the numbers have a sum below 0, or of 0 where one order is strict.
///
/// An order of one term and a number is one of that term and of 0. All but at most one of the literals are of atoms that have a sign, by
/// the numbers of terms: that literal. The other one is a literal of an atom without a sign that is marked. That these cannot all hold is
/// seen from their forms and not proved: the rule `la_generic` decides, with these weights. Of two orders none come, as
/// `neighbours_of` gives these. Not all cycles come: the work goes in proportion to the atoms and the terms. An atom is passed over whose
/// form leaves 128 bits. `NoMemory` comes where there is no memory for what is found or for what is looked at.
pub fn order_cycles_of(
    alloc: Global,
    table: &TermTable,
    atoms: &[TermId],
    signs: &[Option<bool>],
    marks: &[bool],
) -> Result<Vec<Vec<Weighted>>, NoMemory>
    requires { AreIn table.now atoms.now }
    ensures { IfOk result (λ found. All (λ rs. AreReasonsOf atoms.now rs.items) found.items) }
{
    let mut orders = held_orders(alloc, table, atoms, signs)?;
    let held = orders.len();
    add_open(alloc, table, atoms, signs, marks, &mut orders)?;
    let plain = plain_orders(alloc, &orders)?;
    let points = (table.len() as usize).saturating_add(1);
    let cycles = cycles_among(alloc, &plain, held, points)?;
    reasons_of(alloc, atoms, &orders, &cycles)
}
