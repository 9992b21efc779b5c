//! What stays of the lists by clauses, in place.

ghost use Rattle.std.specs.Prelude.{◌≡◌, ◌+◌, ◌<◌, ◌≤◌, ◌^◌, length, get_or, None};
ghost use Rattle.clause_store.specs.Entries.{clauses_of, steps_of};
ghost use Rattle.clause_store.specs.Keeping.{staying, steps_in, count_first, number_if, next_after as after, numbered_from, ChoosesOne, with_step};

use crate::entry::StoredClause;
use proof_log::StepId;

/// Puts the element at a place at one not after it, if it has a step, and tells where the next one goes.
fn choose_one<T>(items: &mut Vec<T>, kept: &[Option<StepId>], at: usize, to: usize) -> usize
    requires to { to ≤ at }
    requires there { at < length items.old.items }
    ensures { ChoosesOne (get_or kept.now at None) at to items.old.items items.new.items result }
{
    if at >= kept.len() {
        return to;
    }
    match kept[at] {
        None => to,
        Some(_) => {
            items.swap(to, at);
            to + 1
        }
    }
}

/// Keeps the elements at the places that have a step, in order.
pub(crate) fn choose<T: Drop>(items: &mut Vec<T>, kept: &[Option<StepId>])
    ensures { items.new.items ≡ staying kept.now items.old.items }
{
    let mut to = 0;
    'items: for at in 0..items.len() {
        to = choose_one(items, kept, at, to);
    }
    items.truncate(to);
}

/// Gives the clause of a place a step, if there is one.
fn set_step(entries: &mut Vec<StoredClause>, at: usize, step: Option<StepId>)
    requires { at < length entries.old.items }
    ensures clauses { clauses_of entries.new.items ≡ clauses_of entries.old.items }
    ensures steps { steps_of entries.new.items ≡ with_step (steps_of entries.old.items) at step }
{
    match step {
        None => {}
        Some(step) => entries[at].step = step,
    }
}

/// Gives each clause the step that it has here, if there is one.
pub(crate) fn set_steps(entries: &mut Vec<StoredClause>, kept: &[Option<StepId>])
    requires { length kept.now ≡ length entries.old.items }
    ensures clauses { clauses_of entries.new.items ≡ clauses_of entries.old.items }
    ensures steps { staying kept.now (steps_of entries.new.items) ≡ steps_in kept.now }
{
    'entries: for at in 0..entries.len() {
        set_step(entries, at, kept[at]);
    }
}

/// Gives the next number after a clause, which is the same if it has no step.
fn next_after(step: Option<StepId>, next: u64) -> u64
    requires { next + 1 < 2 ^ 64 }
    ensures { result ≡ after step next }
{
    match step {
        None => next,
        Some(_) => next + 1,
    }
}

/// Gives a clause this number, if it has a step.
fn number_for(step: Option<StepId>, next: u64) -> Option<u64>
    ensures { result ≡ number_if step next }
{
    match step {
        None => None,
        Some(_) => Some(next),
    }
}

/// Numbers the clauses that have a step, from 0 on.
pub(crate) fn number_all(numbers: &mut Vec<Option<u64>>, kept: &[Option<StepId>])
    requires { length kept.now ≡ length numbers.old.items }
    ensures { numbers.new.items ≡ numbered_from 0 kept.now }
{
    let mut next = 0;
    'clauses: for at in 0..numbers.len() {
        numbers[at] = number_for(kept[at], next);
        next = next_after(kept[at], next);
    }
}

/// Counts those of the first clauses that have a step.
pub(crate) fn count_kept(kept: &[Option<StepId>], first: usize) -> usize
    requires { first ≤ length kept.now }
    ensures { result ≡ count_first kept.now first }
{
    let mut next = 0;
    'clauses: for at in 0..first {
        next = next_after(kept[at], next);
    }
    next as usize
}
