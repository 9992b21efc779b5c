//! Numbers by literals.

ghost use Rattle.std.specs.Prelude.{◌≡◌, ◌<◌, [], OnOk, OnErr, IfSome, MatchOption, length, map, set, get_or, All, Contains};
ghost use Rattle.watch_index.specs.Indexes.{code, list_of, numbers_below, renumbered, IsAppended, IsTakenOut, IsMoved, IsMovedOf, IsListTaken};

use crate::lists::{code_of, drop_all_from, exchange, place_of, put_at, take_out};
use crate::renumbering::renumber_all;
use no_memory::NoMemory;
use std::alloc::Global;
use std::marker::Model;
use term_core::Lit;

/// What the term of a literal must be below, to have a list.
const MOST: u64 = 1 << 62;

/// Finds a number at a place that is so far after another one, or so far before it.
fn beside(list: &[u64], number: u64, start: usize, distance: usize) -> Option<usize>
    ensures { IfSome result (λ at. (at < length list.now) × (get_or list.now at 0 ≡ number)) }
{
    if start > list.len() || distance > list.len() {
        return None;
    }
    let after = start + distance;
    if after < list.len() && list[after] == number {
        return Some(after);
    }
    let before = start.saturating_sub(distance);
    if before < list.len() && list[before] == number {
        return Some(before);
    }
    None
}

/// Finds a number in a list: the sooner the nearer it is to the list's end, or to a place where it may be.
fn place_near(list: &[u64], number: u64, start: usize) -> Option<usize>
    ensures { MatchOption result (Contains list.now number → ⊥)
        (λ at. (at < length list.now) × (get_or list.now at 0 ≡ number)) }
{
    let mut at = list.len();
    'entries: while at > 0 {
        at -= 1;
        if list[at] == number {
            return Some(at);
        }
        if let Some(found) = beside(list, number, start, list.len() - 1 - at) {
            return Some(found);
        }
    }
    None
}

/// Gives the place that is kept for a literal's term, and 0 where none is.
fn start_of(found: &[usize], lit: Lit) -> usize {
    match found.get(lit.term.0 as usize) {
        Some(at) => *at,
        None => 0,
    }
}

/// Keeps a place for a literal's term. Where there is no memory it keeps none.
fn keep_start(found: &mut Vec<usize>, lit: Lit, at: usize) {
    'terms: while found.len() as u64 <= lit.term.0 {
        let Ok(()) = found.push(0) else {
            return;
        };
    }
    found[lit.term.0 as usize] = at;
}

/// Holds for each literal a list of numbers of clauses.
///
/// Contracts see the lists by the codes of literals: twice the number of the term, and one more for the term as it is. Past
/// the last one all lists are empty.
#[derive(Drop)]
pub struct WatchIndex {
    alloc: Global,
    all: Vec<Vec<u64>>,
    /// For each term, as far as there was memory, the place at which `move_to` found a number last. It costs time alone.
    found: Vec<usize>,
}

impl Model for WatchIndex {
    ghost use Rattle.std.specs.Prelude.{ℕ, List};

    ghost Value = { List (List ℕ) };

    ghost use Rattle.clause_literals.specs.Literals.{lists};

    ghost view = { λ w. lists w.all.items };
}

impl WatchIndex {
    /// Makes the index of no lists, which takes no memory before the first entry.
    pub fn new(alloc: Global) -> WatchIndex
        ensures { result ≡ [] }
    {
        WatchIndex {
            alloc,
            all: Vec::new(alloc),
            found: Vec::new(alloc),
        }
    }

    /// Lends the list of a literal. It takes no memory.
    pub fn list(&self, lit: Lit) -> &[u64]
        ensures { result.now ≡ list_of self.now lit }
    {
        match place_of(&self.all, lit) {
            Some(place) => self.all[place].as_slice(),
            None => &[],
        }
    }

    /// Puts a number last into the list of a literal.
    ///
    /// `NoMemory` comes where the list, or the lists before it, find no memory; then the index is as it was.
    pub fn add(&mut self, lit: Lit, clause: u64) -> Result<(), NoMemory>
        ensures ok { OnOk result (IsAppended self.old (code lit) clause self.new) }
        ensures err { OnErr result (self.new ≡ self.old) }
    {
        if lit.term.0 >= MOST {
            return Err(NoMemory);
        }
        let len = self.all.len();
        match put_at(&mut self.all, self.alloc, code_of(lit), clause) {
            Ok(()) => Ok(()),
            Err(NoMemory) => {
                self.all.truncate(len);
                Err(NoMemory)
            }
        }
    }

    /// Takes the entry at a place out of a literal's list; the last one is there then. It takes no memory.
    pub fn take_out(&mut self, from: Lit, at: usize)
        requires { at < length (list_of self.old from) }
        ensures { IsTakenOut self.old (code from) at self.new }
    {
        match place_of(&self.all, from) {
            Some(place) => take_out(&mut self.all, place, at),
            None => {}
        }
    }

    /// Moves the entry at a place of one literal's list to the end of another's. The last entry of the one is there then.
    ///
    /// `NoMemory` comes where the other list finds no memory; then the index is as it was.
    pub fn move_at(&mut self, from: Lit, at: usize, to: Lit) -> Result<(), NoMemory>
        requires { at < length (list_of self.old from) }
        ensures ok { OnOk result (IsMoved self.old from at to self.new) }
        ensures err { OnErr result (self.new ≡ self.old) }
    {
        let number = self.list(from)[at];
        match self.add(to, number) {
            Ok(()) => {
                self.take_out(from, at);
                Ok(())
            }
            Err(NoMemory) => Err(NoMemory),
        }
    }

    /// Moves an entry of a number in one literal's list to the end of another's. It takes time in proportion to how far the entry
    /// is from the list's end, or from where the last one was that was so moved: so numbers that are moved in their order take
    /// constant time each.
    ///
    /// `NoMemory` comes where the other list finds no memory; then the index is as it was.
    pub fn move_to(&mut self, from: Lit, to: Lit, clause: u64) -> Result<(), NoMemory>
        requires { Contains (list_of self.old from) clause }
        ensures ok { OnOk result (IsMovedOf self.old from clause to self.new) }
        ensures err { OnErr result (self.new ≡ self.old) }
    {
        match place_near(self.list(from), clause, start_of(&self.found, from)) {
            Some(at) => {
                keep_start(&mut self.found, from, at);
                self.move_at(from, at, to)
            }
            None => Ok(()),
        }
    }

    /// Takes the list of a literal, if it has one; that is empty then, until `give_list` puts one there. It takes no memory.
    pub fn take_list(&mut self, lit: Lit) -> Option<Vec<u64>>
        ensures { MatchOption result ((self.new ≡ self.old) × (list_of self.old lit ≡ []))
            (λ v. IsListTaken self.old lit v.items self.new) }
    {
        match place_of(&self.all, lit) {
            Some(place) => {
                let empty = Vec::new(self.alloc);
                Some(exchange(&mut self.all, place, empty))
            }
            None => None,
        }
    }

    /// Puts a list in the place of a literal's, which was taken. It takes no memory.
    pub fn give_list(&mut self, lit: Lit, list: Vec<u64>)
        requires { code lit < length self.old }
        ensures { self.new ≡ set self.old (code lit) list.items }
    {
        match place_of(&self.all, lit) {
            Some(place) => {
                exchange(&mut self.all, place, list);
            }
            None => {}
        }
    }

    /// Takes out all entries of a number and of those above it, and keeps the order of the others. It takes no memory.
    pub fn drop_above(&mut self, clause: u64)
        ensures { self.new ≡ map (numbers_below clause) self.old }
    {
        drop_all_from(&mut self.all, clause);
    }

    /// Takes out the entries of the numbers that have None here, and puts in the place of each other one its new number, in order.
    /// It takes no memory.
    pub fn keep(&mut self, kept: &[Option<u64>])
        requires below { All (All (λ n. n < length kept.now)) self.old }
        ensures { self.new ≡ map (renumbered kept.now) self.old }
    {
        renumber_all(&mut self.all, kept);
    }
}
