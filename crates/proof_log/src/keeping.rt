//! Cutting a log so that the first clauses stay, and the derivations of some others.

ghost use Rattle.std.specs.Prelude.{◌≡◌, ◌⊎◌, ◌<◌, ◌≤◌, length, map, take, All, Contains};
ghost use Rattle.proof_log.specs.declared.premises.StepId.{StepId};
ghost use Rattle.proof_log.specs.Logs.{logged_at, premises_in, AreStepsOf, AreEarlier};
ghost use Rattle.proof_log.specs.Entries.{log_of, logged_of};
ghost use Rattle.proof_log.specs.Reaches.{reach_view, reaches};
ghost use Rattle.proof_log.specs.Keeping.{step_of, IsKeeping};
ghost use Rattle.proof_log.specs.Moving.{IsMarked, Marks, IsClosedFrom, Comes, renumbered, new_number, with_marks, IsMoved, IsMoving};

use crate::entry::LogEntry;
use crate::premises::{StepId, StepIds};
use crate::reach::Reach;
use crate::reaching::reach_of_entry;
use crate::step::Step;
use std::mem;
use term_core::TermId;

/// Marks a number, if it is not below one.
fn mark_one(marks: &mut Vec<u64>, from: usize, step: StepId)
    requires { step.0 < length marks.old.items }
    ensures { Marks marks.old.items from step marks.new.items }
{
    if (step.0 as usize) < from {
        return;
    }
    marks[step.0 as usize] = 1;
}

/// Marks numbers from one on, and no others from there.
fn mark_names(marks: &mut Vec<u64>, from: usize, names: &[StepId])
    requires names { All (λ s. s.0 < length marks.old.items) names.now }
    ensures size { length marks.new.items ≡ length marks.old.items }
    ensures marked { (s : StepId) → from ≤ s.0 → s.0 < length marks.old.items → IsMarked marks.new.items s
        → Contains names.now s }
    ensures each { (s : StepId) → from ≤ s.0 → Contains names.now s → IsMarked marks.new.items s }
{
    'clear: for k in from..marks.len() {
        marks[k] = 0;
    }
    'names: for s in names {
        mark_one(marks, from, *s);
    }
}

/// Marks the premises of a clause from a number on.
fn mark_premises(marks: &mut Vec<u64>, from: usize, entry: &LogEntry)
    requires there { All (λ p. p.0 < length marks.old.items) (premises_in (logged_of entry.now)) }
    ensures size { length marks.new.items ≡ length marks.old.items }
    ensures kept { (s : StepId) → IsMarked marks.old.items s → IsMarked marks.new.items s }
    ensures marked { (s : StepId) → IsMarked marks.new.items s → IsMarked marks.old.items s
        ⊎ Contains (premises_in (logged_of entry.now)) s }
    ensures each { (s : StepId) → from ≤ s.0 → Contains (premises_in (logged_of entry.now)) s
        → IsMarked marks.new.items s }
{
    let LogEntry::Stepped(step) = entry else {
        return;
    };
    'premises: for p in step.premises.as_slice() {
        mark_one(marks, from, *p);
    }
}

/// Marks what marked clauses rest on, from a number on.
///
/// One pass from the end suffices, since premises are earlier.
fn mark_derivations(marks: &mut Vec<u64>, from: usize, entries: &Vec<LogEntry>)
    requires size { length marks.old.items ≡ length entries.now.items }
    requires earlier { AreEarlier (log_of entries.now.items) }
    ensures size { length marks.new.items ≡ length marks.old.items }
    ensures kept { (s : StepId) → IsMarked marks.old.items s → IsMarked marks.new.items s }
    ensures comes { (s : StepId) → IsMarked marks.new.items s
        → Comes (log_of entries.now.items) marks.old.items s }
    ensures closed { IsClosedFrom (log_of entries.now.items) marks.new.items from from }
{
    let mut k = entries.len();
    'clauses: while k > from {
        k -= 1;
        if marks[k] == 1 {
            mark_premises(marks, from, &entries[k]);
        }
    }
}

/// Puts new numbers in the place of others: those below `from` stay.
fn rename_all(steps: &mut [StepId], marks: &Vec<u64>, from: usize)
    requires { All (λ s. s.0 < length marks.now.items) steps.old }
    ensures { steps.new ≡ map (new_number from marks.now.items) steps.old }
{
    'steps: for k in 0..steps.len() {
        steps[k] = number_of(marks, from, steps[k]);
    }
}

/// Gives the new number of a clause.
fn number_of(marks: &Vec<u64>, from: usize, step: StepId) -> StepId
    requires { step.0 < length marks.now.items }
    ensures { result ≡ new_number from marks.now.items step }
{
    if (step.0 as usize) < from {
        return step;
    }
    StepId(marks[step.0 as usize])
}

/// Gives a clause with the new numbers of its premises.
fn with_new_numbers(entry: LogEntry, marks: &Vec<u64>, from: usize) -> LogEntry
    requires { All (λ p. p.0 < length marks.now.items) (premises_in (logged_of entry)) }
    ensures { logged_of result ≡ renumbered from marks.now.items (logged_of entry) }
{
    match entry {
        LogEntry::Assumed(id) => LogEntry::Assumed(id),
        LogEntry::Stepped(
            Step {
                rule,
                premises,
                arguments,
                clause,
            },
        ) => {
            let mut steps = premises.into_vec();
            rename_all(steps.as_mut_slice(), marks, from);
            LogEntry::Stepped(Step {
                rule,
                premises: StepIds::from(steps),
                arguments,
                clause,
            })
        }
    }
}

/// Moves a clause to a place not after its own, if it is marked, and says where the next one goes.
fn move_one(
    entries: &mut Vec<LogEntry>,
    marks: &mut Vec<u64>,
    from: usize,
    k: usize,
    to: usize,
) -> usize
    requires to { to ≤ k }
    requires there { k < length entries.old.items }
    requires size { length marks.old.items ≡ length entries.old.items }
    requires premises { All (λ p. p.0 < length marks.old.items)
        (premises_in (logged_at (log_of entries.old.items) (step_of k))) }
    ensures { IsMoved from k to (with_marks (log_of entries.old.items) marks.old.items)
        (with_marks (log_of entries.new.items) marks.new.items) result }
{
    if marks[k] != 1 {
        return to;
    }
    let entry = mem::replace(&mut entries[k], LogEntry::Assumed(TermId(0)));
    entries[to] = with_new_numbers(entry, marks, from);
    marks[k] = to as u64;
    to + 1
}

/// Moves the marked clauses up from a number on, in order, and says how many stay.
fn move_all(entries: &mut Vec<LogEntry>, marks: &mut Vec<u64>, from: usize) -> usize
    requires from { from ≤ length entries.old.items }
    requires size { length marks.old.items ≡ length entries.old.items }
    requires earlier { AreEarlier (log_of entries.old.items) }
    requires closed { IsClosedFrom (log_of entries.old.items) marks.old.items from from }
    ensures { IsMoving from (with_marks (log_of entries.old.items) marks.old.items) (length entries.old.items) result
        (with_marks (log_of entries.new.items) marks.new.items) }
{
    let mut to = from;
    'clauses: for k in from..entries.len() {
        to = move_one(entries, marks, from, k, to);
    }
    to
}

/// Keeps the first `from` clauses, and of those after them the ones on which the named ones rest, in order. A name becomes its clause's
/// new number. It takes no memory: there is a mark for each clause.
pub(crate) fn keep_derivations(
    entries: &mut Vec<LogEntry>,
    marks: &mut Vec<u64>,
    from: usize,
    names: &mut [StepId],
)
    requires from { from ≤ length entries.old.items }
    requires size { length marks.old.items ≡ length entries.old.items }
    requires earlier { AreEarlier (log_of entries.old.items) }
    requires names { AreStepsOf (log_of entries.old.items) names.old }
    ensures keeps { IsKeeping (log_of entries.old.items) from names.old (log_of entries.new.items) names.new }
    ensures size { length marks.new.items ≡ length entries.new.items }
    ensures fewer { length entries.new.items ≤ length entries.old.items }
{
    mark_names(marks, from, names);
    mark_derivations(marks, from, entries);
    let to = move_all(entries, marks, from);
    rename_all(names, marks, from);
    entries.truncate(to);
    marks.truncate(to);
}

/// Finds the reaches of clauses again from a number on, one after the other. It takes no memory: there is a reach for each clause.
pub(crate) fn reach_again(stored: &mut Vec<Reach>, entries: &Vec<LogEntry>, from: usize)
    requires size { length stored.old.items ≡ length entries.now.items }
    requires earlier { AreEarlier (log_of entries.now.items) }
    requires first { take from (map reach_view stored.old.items) ≡ take from (reaches (log_of entries.now.items)) }
    ensures { map reach_view stored.new.items ≡ reaches (log_of entries.now.items) }
{
    'clauses: for k in from..entries.len() {
        let reach = reach_of_entry(stored.as_slice(), k as u64, &entries[k]);
        stored[k] = reach;
    }
}
