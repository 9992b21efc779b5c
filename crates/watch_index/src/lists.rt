//! Lists by the codes of literals.

ghost use Rattle.std.specs.Prelude.{◌≡◌, ◌+◌, ◌*◌, ◌<◌, ◌≤◌, ◌++◌, ◌∷◌, [], ◌^◌, OnOk, OnErr, length, map, set, get_or, MatchOption};
ghost use Rattle.clause_literals.specs.Literals.{lists};
ghost use Rattle.watch_index.specs.Indexes.{code, numbers_below, HasGrown, IsAppended, IsTakenOut};

use no_memory::NoMemory;
use std::alloc::Global;
use std::mem;
use term_core::Lit;

/// Gives the place of a literal among the lists.
pub(crate) fn code_of(lit: Lit) -> usize
    requires { 2 * lit.term.0 + 1 < 2 ^ 64 }
    ensures { result ≡ code lit }
{
    let twice = 2 * lit.term.0 as usize;
    if lit.positive { twice + 1 } else { twice }
}

/// Gives the place of a literal's list, if there is one.
pub(crate) fn place_of(all: &Vec<Vec<u64>>, lit: Lit) -> Option<usize>
    ensures { MatchOption result (length (lists all.now.items) ≤ code lit)
        (λ k. (k ≡ code lit) × (k < length (lists all.now.items))) }
{
    if lit.term.0 as usize >= all.len() {
        return None;
    }
    let place = code_of(lit);
    if place < all.len() { Some(place) } else { None }
}

/// Makes empty lists, so that there is one at a place.
fn grow(all: &mut Vec<Vec<u64>>, alloc: Global, place: usize) -> Result<(), NoMemory>
    ensures grown { HasGrown (lists all.old.items) (lists all.new.items) }
    ensures there { OnOk result (place < length (lists all.new.items)) }
{
    'lists: while all.len() <= place {
        all.push(Vec::new(alloc))?;
    }
    Ok(())
}

/// Puts a number last into the list of a place.
fn put(all: &mut Vec<Vec<u64>>, place: usize, number: u64) -> Result<(), NoMemory>
    requires { place < length all.old.items }
    ensures ok { OnOk result (lists all.new.items
        ≡ set (lists all.old.items) place (get_or (lists all.old.items) place [] ++ number ∷ [])) }
    ensures err { OnErr result (lists all.new.items ≡ lists all.old.items) }
{
    match all[place].push(number) {
        Ok(()) => Ok(()),
        Err(_) => Err(NoMemory),
    }
}

/// Puts a number last into the list of a place, which may have to be made first.
pub(crate) fn put_at(
    all: &mut Vec<Vec<u64>>,
    alloc: Global,
    place: usize,
    number: u64,
) -> Result<(), NoMemory>
    ensures ok { OnOk result (IsAppended (lists all.old.items) place number (lists all.new.items)) }
    ensures err { OnErr result (HasGrown (lists all.old.items) (lists all.new.items)) }
{
    match grow(all, alloc, place) {
        Ok(()) => match put(all, place, number) {
            Ok(()) => Ok(()),
            Err(NoMemory) => Err(NoMemory),
        },
        Err(NoMemory) => Err(NoMemory),
    }
}

/// Takes an entry out of the list of a place; the last one is there then.
pub(crate) fn take_out(all: &mut Vec<Vec<u64>>, place: usize, at: usize)
    requires list { place < length all.old.items }
    requires entry { at < length (get_or (lists all.old.items) place []) }
    ensures { IsTakenOut (lists all.old.items) place at (lists all.new.items) }
{
    all[place].swap_remove(at);
}

/// Takes the list of a place out, and puts another one there.
pub(crate) fn exchange(all: &mut Vec<Vec<u64>>, place: usize, list: Vec<u64>) -> Vec<u64>
    requires { place < length all.old.items }
    ensures taken { result.items ≡ get_or (lists all.old.items) place [] }
    ensures put { lists all.new.items ≡ set (lists all.old.items) place list.items }
{
    mem::replace(&mut all[place], list)
}

/// Keeps the numbers below one.
fn keep_below(list: &mut Vec<u64>, number: u64)
    ensures { list.new.items ≡ numbers_below number list.old.items }
{
    list.retain(|k| *k < number);
}

/// Takes the numbers from one on out of the list of a place.
fn drop_from(all: &mut Vec<Vec<u64>>, place: usize, number: u64)
    requires { place < length all.old.items }
    ensures { lists all.new.items ≡ set (lists all.old.items) place
        (numbers_below number (get_or (lists all.old.items) place [])) }
{
    keep_below(&mut all[place], number);
}

/// Takes the numbers from one on out of all lists.
pub(crate) fn drop_all_from(all: &mut Vec<Vec<u64>>, number: u64)
    ensures { lists all.new.items ≡ map (numbers_below number) (lists all.old.items) }
{
    let mut place = 0;
    'lists: while place < all.len() {
        drop_from(all, place, number);
        place += 1;
    }
}
