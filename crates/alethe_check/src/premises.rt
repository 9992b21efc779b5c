//! The clauses of a step's premises.

ghost use Rattle.std.specs.Prelude.{◌≡◌, ◌<◌, ◌≤◌, [], slice_index_or, ℕ, ◌↔◌, All, Contains, IfOk, length, map, take, MatchOption};
ghost use Rattle.spec_sorts.specs.Literals.{Clause as Meant};
ghost use Rattle.term_core.specs.Tables.{AreIn, clause_at};
ghost use Rattle.alethe_reader.specs.Holding.{clauses_numbered, AreNumbers};
ghost use Rattle.alethe_check.specs.Stating.{HasClauses, fronts_numbered};

use alethe_reader::ProofState;
use indexmap::IndexSet;
use std::alloc::{AllocError, Global};
use term_core::{Clause, TermId};

/// Takes each number once, in the order of first mention.
fn distinct(alloc: Global, numbers: &[u64]) -> Result<IndexSet<u64>, AllocError>
    ensures { IfOk result (λ set. (k : ℕ) → Contains set.keys k ↔ Contains numbers.now k) }
{
    let mut taken = IndexSet::new(alloc);
    for number in numbers {
        match taken.insert(*number) {
            Ok(_) => {}
            Err(_) => return Err(AllocError),
        }
    }
    Ok(taken)
}

/// Copies the clause of a number.
fn clause_of(alloc: Global, state: &ProofState, number: u64) -> Result<Clause, AllocError>
    requires { number < length state.now.clauses.items }
    ensures { IfOk result (λ c. c ≡ slice_index_or state.now.clauses.items number []) }
{
    Ok(Clause::from(state.clauses[number as usize].as_slice().to_vec(alloc)?))
}

/// Copies the clause of each number, in order.
fn clauses_of(alloc: Global, state: &ProofState, numbers: &[u64]) -> Result<Vec<Clause>, AllocError>
    requires clauses { HasClauses state.now }
    requires numbers { AreNumbers state.now numbers.now }
    ensures same { IfOk result (λ v. map (clause_at state.now.table) v.items
        ≡ clauses_numbered state.now numbers.now) }
    ensures there { IfOk result (λ v. All (λ p. AreIn state.now.table p) v.items) }
{
    let mut made = Vec::new(alloc);
    for number in numbers {
        let clause = clause_of(alloc, state, *number)?;
        made.push(clause)?;
    }
    Ok(made)
}

/// Lends the two first terms of a list, or all where there are fewer.
fn two_first(terms: &[TermId]) -> &[TermId]
    ensures { result.now ≡ take 2 terms.now }
{
    if terms.len() < 2 {
        return terms;
    }
    &terms[..2]
}

/// Copies the two first terms of the clause of a number.
fn front_of(alloc: Global, state: &ProofState, number: u64) -> Result<Clause, AllocError>
    requires { number < length state.now.clauses.items }
    ensures { IfOk result (λ c. c ≡ take 2 (slice_index_or state.now.clauses.items number [])) }
{
    let front = two_first(state.clauses[number as usize].as_slice());
    Ok(Clause::from(front.to_vec(alloc)?))
}

/// Copies the two first terms of the clause of each number, in order.
///
/// The numbers are of clauses, from 0. The copies take memory in proportion to the count of the numbers, however long the
/// clauses are. Out of memory is the one error.
pub(crate) fn fronts_of(
    alloc: Global,
    state: &ProofState,
    numbers: &[u64],
) -> Result<Vec<Clause>, AllocError>
    requires clauses { HasClauses state.now }
    requires numbers { AreNumbers state.now numbers.now }
    ensures same { IfOk result (λ v. map (clause_at state.now.table) v.items
        ≡ fronts_numbered state.now numbers.now) }
    ensures there { IfOk result (λ v. All (λ p. AreIn state.now.table p) v.items) }
{
    let mut made = Vec::new(alloc);
    for number in numbers {
        let front = front_of(alloc, state, *number)?;
        made.push(front)?;
    }
    Ok(made)
}

/// Copies the clause of each different number, in the order of first mention.
///
/// The numbers are of clauses, from 0. However often a number comes, its clause is copied once, so the copies take no more
/// memory than the clauses that are known. Out of memory is the one error.
pub(crate) fn distinct_clauses(
    alloc: Global,
    state: &ProofState,
    numbers: &[u64],
) -> Result<Vec<Clause>, AllocError>
    requires clauses { HasClauses state.now }
    requires numbers { AreNumbers state.now numbers.now }
    ensures same { IfOk result (λ v. (c : Meant)
        → Contains (map (clause_at state.now.table) v.items) c ↔ Contains
        (clauses_numbered state.now numbers.now) c) }
    ensures there { IfOk result (λ v. All (λ p. AreIn state.now.table p) v.items) }
{
    let taken = distinct(alloc, numbers)?;
    clauses_of(alloc, state, taken.as_slice())
}

/// Lends the clause of the one number, as a list of one, or no clause of none; `None` where there are several.
pub(crate) fn one_or_none<'a>(state: &'a ProofState, numbers: &[u64]) -> Option<&'a [Clause]>
    requires clauses { HasClauses state.now }
    requires numbers { AreNumbers state.now numbers.now }
    ensures { MatchOption result (2 ≤ length numbers.now)
        (λ cs. (map (clause_at state.now.table) cs.now ≡ clauses_numbered state.now numbers.now)
        × All (λ p. AreIn state.now.table p) cs.now) }
{
    match numbers {
        [] => Some(&state.clauses[..0]),
        [number] => {
            let at = *number as usize;
            Some(&state.clauses[at..at + 1])
        }
        _ => None,
    }
}
