//! Places by the numbers of terms.

ghost use Rattle.std.specs.Prelude.{◌≡◌, ◌<◌, ◌≤◌, ℕ, suc, max, true, OnOk, Contains, [], get_or, length};
ghost use Rattle.congruence_closure.specs.Tables.{lists, AreGrown, HaveKept, HaveKeptBelow, HaveNoted};

use no_memory::NoMemory;
use std::alloc::Global;
use term_core::TermId;

/// Makes entries, so that there is one for a term.
pub(crate) fn grow(numbers: &mut Vec<u64>, t: TermId) -> Result<(), NoMemory>
    ensures kept { AreGrown numbers.old.items numbers.new.items }
    ensures few { length numbers.new.items ≤ max (suc t.0) (length numbers.old.items) }
    ensures ok { OnOk result (t.0 < length numbers.new.items) }
{
    'entries: while numbers.len() as u64 <= t.0 {
        numbers.push(0)?;
    }
    Ok(())
}

/// Makes empty lists, so that there is one for a term.
fn grow_lists(all: &mut Vec<Vec<u64>>, alloc: Global, t: TermId) -> Result<(), NoMemory>
    ensures kept { HaveKept (lists all.old.items) (lists all.new.items) }
    ensures ok { OnOk result (t.0 < length all.new.items) }
{
    'lists: while all.len() as u64 <= t.0 {
        all.push(Vec::new(alloc))?;
    }
    Ok(())
}

/// Takes the places from one on off the end of a list.
fn drop_from(list: &mut Vec<u64>, place: u64)
    ensures { (i : ℕ) → i < place → Contains list.old.items i → Contains list.new.items i }
{
    'places: while !list.is_empty() {
        let last = list.len() - 1;
        if list[last] < place {
            return;
        }
        list.truncate(last);
    }
}

/// Takes the places from one on off the end of a term's list.
fn drop_at(all: &mut Vec<Vec<u64>>, t: TermId, place: u64)
    ensures { HaveKeptBelow place (lists all.old.items) (lists all.new.items) }
{
    if (t.0 as usize) < all.len() {
        drop_from(&mut all[t.0 as usize], place);
    }
}

/// Takes the places from one on off the lists of these terms.
pub(crate) fn drop_users(all: &mut Vec<Vec<u64>>, terms: &[TermId], place: u64)
    ensures { HaveKeptBelow place (lists all.old.items) (lists all.new.items) }
{
    'terms: for t in terms {
        drop_at(all, *t, place);
    }
}

/// Tells whether a place is the last one of a list.
fn is_last(list: &[u64], place: u64) -> bool
    ensures { result ≡ true → Contains list.now place }
{
    let len = list.len();
    len > 0 && list[len - 1] == place
}

/// Puts a place last into the list of a term, unless it is there: an argument that repeats is noted once.
fn note(all: &mut Vec<Vec<u64>>, t: TermId, place: u64) -> Result<(), NoMemory>
    requires { t.0 < length all.old.items }
    ensures kept { HaveKept (lists all.old.items) (lists all.new.items) }
    ensures ok { OnOk result (Contains (get_or (lists all.new.items) t.0 []) place) }
{
    if is_last(all[t.0 as usize].as_slice(), place) {
        return Ok(());
    }
    all[t.0 as usize].push(place)?;
    Ok(())
}

/// Puts a place last into the list of each of these terms.
fn note_each(
    all: &mut Vec<Vec<u64>>,
    alloc: Global,
    terms: &[TermId],
    place: u64,
) -> Result<(), NoMemory>
    ensures kept { HaveKept (lists all.old.items) (lists all.new.items) }
    ensures ok { OnOk result (HaveNoted terms.now place (lists all.new.items)) }
{
    'terms: for t in terms {
        grow_lists(all, alloc, *t)?;
        note(all, *t, place)?;
    }
    Ok(())
}

/// Puts a place last into the list of each of these terms, or, where there is no memory, into none.
pub(crate) fn note_users(
    all: &mut Vec<Vec<u64>>,
    alloc: Global,
    terms: &[TermId],
    place: u64,
) -> Result<(), NoMemory>
    ensures kept { HaveKeptBelow place (lists all.old.items) (lists all.new.items) }
    ensures ok { OnOk result (HaveNoted terms.now place (lists all.new.items)) }
{
    match note_each(all, alloc, terms, place) {
        Ok(()) => Ok(()),
        Err(NoMemory) => {
            drop_users(all, terms, place);
            Err(NoMemory)
        }
    }
}
