//! What is closed: terms, and equalities of terms.

use crate::fault::Fault;
use crate::terms::Terms;
use std::alloc::Global;
use term_core::{Head, SymbolId, TermId};

/// Names a family.
#[derive(Clone, Copy)]
pub(crate) enum Family {
    /// a, f(a), f(f(a)) and so on, with n applications, where a is equal to the third and to the fifth one. From n 5 on all are
    /// congruent, since 1 is the greatest common divisor of 3 and 5.
    Chains,
    /// g(x, y) for the square root of n constants x and as many y, where the x are equal, and so are the y.
    Grid,
    /// n constants, of which n pairs are equal that look chosen at random.
    Merges,
}

/// Gives the family of a name.
pub(crate) fn family_of(name: &str) -> Option<Family> {
    match name {
        "chains" => Some(Family::Chains),
        "grid" => Some(Family::Grid),
        "merges" => Some(Family::Merges),
        _ => None,
    }
}

/// Holds what is closed.
#[derive(Drop)]
pub(crate) struct Plan {
    /// The terms that are listed first.
    pub(crate) terms: Vec<TermId>,
    /// The equalities, in the order in which they are held.
    pub(crate) equalities: Vec<TermId>,
    /// How many equalities are held after each mark and before the next check.
    pub(crate) stride: usize,
}

impl Plan {
    /// Makes the plan of a family, without terms. It takes no memory.
    pub(crate) fn new(alloc: Global, family: Family) -> Plan {
        Plan {
            terms: Vec::new(alloc),
            equalities: Vec::new(alloc),
            stride: match family {
                Family::Chains => 2,
                Family::Merges => 16,
                Family::Grid => 1,
            },
        }
    }
}

/// Puts the terms and equalities of a family into a table and a plan.
pub(crate) fn fill(
    terms: &mut Terms,
    plan: &mut Plan,
    family: Family,
    n: u64,
) -> Result<(), Fault> {
    match family {
        Family::Chains => chain(terms, plan, n),
        Family::Grid => grid(terms, plan, n),
        Family::Merges => pairs(terms, plan, n),
    }
}

/// Puts the equality of the first term and another one, if it is there.
fn equate(terms: &mut Terms, plan: &mut Plan, place: usize) -> Result<(), Fault> {
    if let (Some(a), Some(b)) = (plan.terms.first(), plan.terms.get(place)) {
        plan.equalities.push(terms.equality(*a, *b)?)?;
    }
    Ok(())
}

/// Puts what `chains` closes.
fn chain(terms: &mut Terms, plan: &mut Plan, n: u64) -> Result<(), Fault> {
    let f = terms.declare(b"f", 1)?;
    let mut last = terms.constant('a', 0)?;
    plan.terms.push(last)?;
    for _ in 0..n {
        last = terms.put(Head::Apply(f), &[last])?;
        plan.terms.push(last)?;
    }
    equate(terms, plan, 3)?;
    equate(terms, plan, 5)
}

/// Puts the equality of each of some terms with the one after it.
fn path(terms: &mut Terms, all: &[TermId], equalities: &mut Vec<TermId>) -> Result<(), Fault> {
    for i in 1..all.len() {
        equalities.push(terms.equality(all[i - 1], all[i])?)?;
    }
    Ok(())
}

/// Puts the applications of a function to an argument and each of some others.
fn row(
    terms: &mut Terms,
    g: SymbolId,
    x: TermId,
    ys: &[TermId],
    cells: &mut Vec<TermId>,
) -> Result<(), Fault> {
    for y in ys {
        cells.push(terms.put(Head::Apply(g), &[x, *y])?)?;
    }
    Ok(())
}

/// Puts what `grid` closes, for these constants.
fn grid_of(terms: &mut Terms, plan: &mut Plan, xs: &[TermId], ys: &[TermId]) -> Result<(), Fault> {
    let g = terms.declare(b"g", 2)?;
    for x in xs {
        row(terms, g, *x, ys, &mut plan.terms)?;
    }
    path(terms, xs, &mut plan.equalities)?;
    path(terms, ys, &mut plan.equalities)
}

/// Puts what `grid` closes.
fn grid(terms: &mut Terms, plan: &mut Plan, n: u64) -> Result<(), Fault> {
    let mut xs = Vec::new(terms.alloc);
    let mut ys = Vec::new(terms.alloc);
    terms.constants('x', n.isqrt(), &mut xs)?;
    terms.constants('y', n.isqrt(), &mut ys)?;
    grid_of(terms, plan, &xs, &ys)
}

/// Gives the next number of a sequence that looks random.
fn next_number(number: &mut u64) -> u64 {
    *number = number
        .wrapping_mul(6_364_136_223_846_793_005)
        .wrapping_add(1_442_695_040_888_963_407);
    *number >> 33
}

/// Gives a term that looks chosen at random.
fn any_of(all: &[TermId], seed: &mut u64) -> Result<TermId, Fault> {
    let count = (all.len() as u64).max(1);
    let place = next_number(seed) % count;
    all.get(place as usize).copied().ok_or(Fault::Refused)
}

/// Puts what `merges` closes.
fn pairs(terms: &mut Terms, plan: &mut Plan, n: u64) -> Result<(), Fault> {
    terms.constants('a', n, &mut plan.terms)?;
    let mut seed = 1u64;
    for _ in 0..n {
        let a = any_of(&plan.terms, &mut seed)?;
        let b = any_of(&plan.terms, &mut seed)?;
        plan.equalities.push(terms.equality(a, b)?)?;
    }
    Ok(())
}
