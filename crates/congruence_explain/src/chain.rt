//! Which literals of a clause that follows a chain of resolutions needs.

ghost use Rattle.std.specs.Prelude.{◌≡◌, ◌⊎◌, ◌↔◌, [], ◌∷◌, ◌++◌, List, map, Contains, IfOk, OnOk, MatchOption};
ghost use Rattle.clause_literals.specs.Literals.{lit_complement, lists, SameLits};
ghost use Rattle.clause_literals.specs.Statuses.{IsUnresolved};
ghost use Rattle.spec_derivations.specs.ExactChains.{IsExactResolvent};
ghost use Rattle.congruence_explain.specs.Needing.{HasLeft, IsFound, LeadsTo, IsRefuted, standing};

use clause_literals::{Assignment, negated, same};
use no_memory::NoMemory;
use std::alloc::Global;
use term_core::{Lit, TermTable};

/// A literal that follows from a clause whose other literals are false.
#[derive(Drop)]
pub(crate) struct Implied {
    /// The literal.
    pub(crate) literal: Lit,
    /// The clause.
    pub(crate) clause: Vec<Lit>,
}

/// How propagation has come to a clause that is false.
#[derive(Drop)]
pub(crate) struct Trace {
    /// What was implied, oldest first.
    pub(crate) implied: Vec<Implied>,
    /// The false clause.
    pub(crate) last: Vec<Lit>,
}

/// How many literals of a clause are not false.
#[derive(Clone, Copy, Debug, PartialEq, Eq)]
pub(crate) enum Left {
    /// None.
    Nothing,
    /// This one alone.
    One(Lit),
    /// Two at least.
    More,
}

/// A clause of which at most one literal is not false.
#[derive(Clone, Copy, Debug, PartialEq, Eq)]
pub(crate) struct Found {
    /// Its place.
    pub(crate) at: usize,
    /// The literal.
    pub(crate) open: Option<Lit>,
}

/// Counts one more literal.
fn left_with(left: Left, m: Lit, held: &Assignment) -> Left
    ensures { (front : List Lit) → HasLeft held.now front left → HasLeft held.now (front ++ m ∷ []) result }
{
    if held.contains(negated(m)) {
        return left;
    }
    match left {
        Left::Nothing => Left::One(m),
        Left::One(l) => {
            if same(l, m) {
                return left;
            }
            Left::More
        }
        Left::More => Left::More,
    }
}

/// Counts the literals of a clause that are not false.
fn left_of(clause: &[Lit], held: &Assignment) -> Left
    ensures { HasLeft held.now clause.now result }
{
    let mut left = Left::Nothing;
    for m in clause {
        left = left_with(left, *m, held);
    }
    left
}

/// Finds the last clause of which at most one literal is not false.
fn find(waiting: &[Vec<Lit>], held: &Assignment) -> Option<Found>
    ensures { MatchOption result ((c : List Lit) → Contains (lists waiting.now) c → IsUnresolved held.now c)
        (λ f. IsFound held.now (lists waiting.now) f) }
{
    'waiting: for at in (0..waiting.len()).rev() {
        match left_of(&waiting[at], held) {
            Left::Nothing => return Some(Found { at, open: None }),
            Left::One(l) => return Some(Found { at, open: Some(l) }),
            Left::More => {}
        }
    }
    None
}

/// Goes on from the literals that hold to a clause that is false; `None` where none comes to be.
fn propagate(
    table: &TermTable,
    premises: Vec<Vec<Lit>>,
    held: &mut Assignment,
    implied: Vec<Implied>,
) -> Result<Option<Trace>, NoMemory>
    requires none { implied.items ≡ [] }
    ensures { IfOk result (λ found. MatchOption found (IsRefuted table.now (lists premises.items) held.old → ⊥)
        (λ r. LeadsTo (lists premises.items) held.old r.implied.items r.last.items)) }
{
    table.ids_are_unique();
    let mut waiting = premises;
    let mut implied = implied;
    'steps: while let Some(found) = find(&waiting, held) {
        let clause = waiting.remove(found.at);
        let Some(l) = found.open else {
            return Ok(Some(Trace {
                implied,
                last: clause,
            }));
        };
        if held.contains(l) {
            continue;
        }
        held.add(l)?;
        implied.push(Implied { literal: l, clause })?;
    }
    Ok(None)
}

/// Adds the literals of a clause.
fn add_each(needed: &mut Assignment, clause: &[Lit]) -> Result<(), NoMemory>
    ensures { OnOk result ((l : Lit) → Contains needed.new l ↔ (Contains needed.old l ⊎ Contains clause.now l)) }
{
    for l in clause {
        needed.add(*l)?;
    }
    Ok(())
}

/// Gives the literals that stand in a clause on the way back from the false one.
fn walk_back(alloc: Global, trace: &Trace) -> Result<Assignment, NoMemory>
    ensures { IfOk result (λ needed. (premises : List (List Lit)) (start : List Lit)
        → LeadsTo premises start trace.now.implied.items trace.now.last.items
        → IsExactResolvent lit_complement (Contains premises) (standing start needed)) }
{
    let mut needed = Assignment::new(alloc);
    add_each(&mut needed, &trace.last)?;
    'steps: for at in (0..trace.implied.len()).rev() {
        let step = &trace.implied[at];
        if !needed.contains(negated(step.literal)) {
            continue;
        }
        add_each(&mut needed, &step.clause)?;
    }
    Ok(needed)
}

/// Gives the complements of a clause's literals.
fn complements(alloc: Global, clause: &[Lit]) -> Result<Assignment, NoMemory>
    ensures { IfOk result (λ held. SameLits held (map lit_complement clause.now)) }
{
    let mut held = Assignment::new(alloc);
    for l in clause {
        held.add(negated(*l))?;
    }
    Ok(held)
}

/// Gives literals, of which those that a clause has are what a chain of resolutions over premises gives; `None` where no premise comes to
/// be false.
///
/// From the complements of the clause's literals, unit propagation comes to a premise that is false. The way back from there resolves on
/// what was implied, newest first, so that no pivot comes back. Source: Zhang, Madigan, Moskewicz and Malik, ICCAD 2001; that it goes on
/// until nothing implied is left is own.
pub(crate) fn needed_if_refuted(
    alloc: Global,
    table: &TermTable,
    premises: Vec<Vec<Lit>>,
    clause: &[Lit],
) -> Result<Option<Assignment>, NoMemory>
    ensures { IfOk result (λ found. MatchOption found
        (IsRefuted table.now (lists premises.items) (map lit_complement clause.now) → ⊥)
        (λ needed. IsExactResolvent lit_complement (Contains (lists premises.items))
        (standing (map lit_complement clause.now) needed))) }
{
    let mut held = complements(alloc, clause)?;
    let Some(trace) = propagate(table, premises, &mut held, Vec::new(alloc))? else {
        return Ok(None);
    };
    let needed = walk_back(alloc, &trace)?;
    Ok(Some(needed))
}

/// Gives these literals where a premise comes to be false.
pub(crate) fn needed_of(
    alloc: Global,
    table: &TermTable,
    premises: Vec<Vec<Lit>>,
    clause: &[Lit],
) -> Result<Assignment, NoMemory>
    requires { IsRefuted table.now (lists premises.items) (map lit_complement clause.now) }
    ensures { IfOk result (λ needed. IsExactResolvent lit_complement (Contains (lists premises.items))
        (standing (map lit_complement clause.now) needed)) }
{
    let Some(needed) = needed_if_refuted(alloc, table, premises, clause)? else {
        unreachable!()
    };
    Ok(needed)
}
