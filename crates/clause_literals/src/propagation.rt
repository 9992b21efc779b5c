//! Unit propagation in time in proportion to the literals of premises and clause.

ghost use Rattle.std.specs.Prelude.{◌≡◌, ◌<◌, [], length, All, IfOk, MatchBool, MatchOption};
ghost use Rattle.spec_proofs.specs.Resolution.{Resolves};
ghost use Rattle.clause_literals.specs.Literals.{lit_complement, lists, HasNoTwice, IsConsistent, Tests};
ghost use Rattle.clause_literals.specs.Statuses.{IsFalsified};
ghost use Rattle.clause_literals.specs.Occurring.{IsIndexOf};
ghost use Rattle.clause_literals.specs.Propagation.{TakesUp, LeadsToConflict, IsUnrefuted, BeginsPropagation, AreTracked, Loses, Propagates};

use crate::assignment::{Assignment, start_of};
use crate::distinct::distinct_each;
use crate::literals::negated;
use crate::occurrences::{Occurrences, occurrences_of};
use crate::scan::{Pass, pass_over};
use crate::status::{ClauseStatus, clause_status};
use std::alloc::{AllocError, Global};
use term_core::Lit;

/// Takes up a premise of which so many literals are left, and gives how many are left then, or nothing where it is false.
fn take_up(premise: &[Lit], left: usize, held: &mut Assignment) -> Result<Option<usize>, AllocError>
    ensures { IfOk result (λ o. MatchOption o (IsFalsified held.old premise.now)
        (λ n. TakesUp premise.now held.old held.new left n)) }
{
    if left > 1 {
        return Ok(Some(left));
    }
    match clause_status(premise, held) {
        ClauseStatus::Falsified => Ok(None),
        ClauseStatus::Unit(l) => {
            held.add(l)?;
            Ok(Some(left))
        }
        ClauseStatus::Unresolved => Ok(Some(2)),
        ClauseStatus::Satisfied => Ok(Some(left)),
    }
}

/// Takes up each premise once, and gives of each how many literals are left, or nothing where one is false.
fn begin(
    alloc: Global,
    premises: &[Vec<Lit>],
    held: &mut Assignment,
) -> Result<Option<Vec<usize>>, AllocError>
    ensures { IfOk result (λ o. MatchOption o (LeadsToConflict (lists premises.now) held.old)
        (λ left. BeginsPropagation (lists premises.now) held.old held.new left.items)) }
{
    let mut left = Vec::new(alloc);
    for premise in premises {
        match take_up(premise, premise.len(), held)? {
            Some(n) => left.push(n)?,
            None => return Ok(None),
        }
    }
    Ok(Some(left))
}

/// Takes up each premise that has lost a literal, and tells whether one is false.
fn pass_on(
    premises: &[Vec<Lit>],
    losing: &[usize],
    held: &mut Assignment,
    left: &mut [usize],
) -> Result<bool, AllocError>
    requires counted { length left.old ≡ length premises.now }
    requires below { All (λ k. k < length premises.now) losing.now }
    ensures { IfOk result (λ no. MatchBool no (LeadsToConflict (lists premises.now) held.old)
        (Loses (lists premises.now) losing.now held.old held.new left.old left.new)) }
{
    for number in losing {
        let number = *number;
        match take_up(&premises[number], left[number].saturating_sub(1), held)? {
            Some(n) => left[number] = n,
            None => return Ok(true),
        }
    }
    Ok(false)
}

/// Takes each literal that holds out of the premises with its complement, and tells whether one comes to be false.
fn take_out_each(
    premises: &[Vec<Lit>],
    occurrences: &Occurrences,
    held: &mut Assignment,
    left: &mut [usize],
) -> Result<bool, AllocError>
    requires counted { length left.old ≡ length premises.now }
    requires once { All HasNoTwice (lists premises.now) }
    requires index { IsIndexOf occurrences.now (lists premises.now) }
    requires consistent { IsConsistent held.old }
    requires tracked { AreTracked (length premises.now) [] [] (lists premises.now) held.old left.old }
    ensures { IfOk result (λ no. Propagates (lists premises.now) held.old held.new no) }
{
    let mut done = 0;
    while done < held.len() {
        let complement = negated(held.at(done));
        let losing = occurrences.of(complement);
        if pass_on(premises, losing, held, left)? {
            return Ok(true);
        }
        done += 1;
    }
    Ok(false)
}

/// Goes on from the literals that hold as far as it can, and tells whether a premise comes to be false.
fn propagate(
    alloc: Global,
    premises: &[Vec<Lit>],
    held: &mut Assignment,
) -> Result<bool, AllocError>
    requires once { All HasNoTwice (lists premises.now) }
    requires consistent { IsConsistent held.old }
    ensures { IfOk result (λ no. Propagates (lists premises.now) held.old held.new no) }
{
    let Some(mut left) = begin(alloc, premises, held)? else {
        return Ok(true);
    };
    let occurrences = occurrences_of(alloc, premises)?;
    if take_out_each(premises, &occurrences, held, &mut left)? {
        return Ok(true);
    }
    Ok(false)
}

/// Tells whether unit propagation over the premises, from the literals that hold, reaches a conflict.
pub(crate) fn refutes(
    alloc: Global,
    premises: &[Vec<Lit>],
    held: &mut Assignment,
) -> Result<bool, AllocError>
    requires { IsConsistent held.old }
    ensures { IfOk result (λ yes. MatchBool yes (LeadsToConflict (lists premises.now) held.old)
        (IsUnrefuted (lists premises.now) held.old)) }
{
    let sets = distinct_each(alloc, premises)?;
    if propagate(alloc, &sets, held)? {
        return Ok(true);
    }
    Ok(false)
}

/// Tells whether unit propagation over the premises, from the complement of each literal of the clause, reaches a conflict.
///
/// A clause counts as the set of its literals; premises may come in any order, more than once, or for nothing. A clause with a
/// literal and its complement needs no premise. Time and memory go in proportion to the literals of premises and clause, in any
/// order, as far as a look-up by hash takes a time of its own. One plain pass over the premises comes first, which a chain in the
/// order of its resolutions needs alone; then each literal that holds is taken out of the premises with its complement once, and
/// a premise is looked at only where at most one of its literals is left.
///
/// `AllocError` comes where memory runs out, which tells nothing of the premises. Nothing is changed.
/// Source: Alethe specification, rule `resolution`; unit propagation is own.
pub fn resolves(alloc: Global, premises: &[Vec<Lit>], clause: &[Lit]) -> Result<bool, AllocError>
    ensures { IfOk result (λ yes. Tests (Resolves lit_complement (lists premises.now) clause.now) yes) }
{
    let Some(mut held) = start_of(alloc, clause)? else {
        return Ok(true);
    };
    match pass_over(premises, &mut held)? {
        Pass::Conflict => return Ok(true),
        Pass::Same => return Ok(false),
        Pass::Added => {}
    }
    if refutes(alloc, premises, &mut held)? {
        return Ok(true);
    }
    Ok(false)
}
