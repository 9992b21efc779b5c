//! The sums that variables stand for.

ghost use Rattle.std.specs.Prelude.{◌≡◌, ◌<◌, [], ◌∷◌, IfOk, OnOk, MatchOption, Contains, IsPermutation};
ghost use Rattle.simplex_atoms.specs.Sums.{key_meant, IsKeyOf, sum_by, IsNew};

use crate::keys::{Key, key_of};
use no_memory::NoMemory;
use ratio128::Ratio;
use std::alloc::Global;
use std::collections::HashMap;
use std::marker::Model;
use tableau::Entry;

/// Says of which variable a sum is a multiple: it is the variable, or minus it.
#[derive(Clone, Copy, Debug, PartialEq, Eq)]
pub(crate) struct Multiple {
    /// The number of the variable, from 0.
    pub(crate) variable: u64,
    /// Whether the sum is minus the variable.
    pub(crate) opposite: bool,
}

/// Holds sums, each of which is a variable or minus it.
///
/// They are looked up by hashes of their keys, which take the memory of the entries. Contracts see the sums, in any
/// order, and the room: how many more sums there can be without memory.
#[derive(Drop)]
pub(crate) struct Sums {
    alloc: Global,
    multiples: HashMap<Vec<(u64, Ratio)>, Multiple>,
}

impl Model for Sums {
    ghost use Rattle.std.specs.HashMap.{spare};
    ghost use Rattle.simplex_atoms.specs.Sums.{SumsView, sums_meant};

    ghost Value = { SumsView };

    ghost view = { λ s. record { list = sums_meant s.multiples.entries; room = spare s.multiples } };
}

impl Sums {
    /// Makes the list without sums. It takes no memory.
    pub(crate) fn new(alloc: Global) -> Sums
        ensures { result.list ≡ [] }
    {
        Sums {
            alloc,
            multiples: HashMap::new(alloc),
        }
    }

    /// Makes the key of the sum of entries, which are in any order.
    ///
    /// `NoMemory` comes where there is no memory.
    pub(crate) fn key(&self, entries: &[Entry]) -> Result<Key, NoMemory>
        ensures { IfOk result (IsKeyOf entries.now) }
    {
        key_of(self.alloc, entries)
    }

    /// Finds the sum of a key's entries, if it is there. It takes no memory.
    pub(crate) fn find(&self, key: &Key) -> Option<Multiple>
        ensures { MatchOption result (IsNew self.now.list (key_meant key.now))
            (λ m. Contains self.now.list (sum_by (key_meant key.now) m)) }
    {
        match self.multiples.get(&key.entries) {
            None => None,
            Some(multiple) => Some(*multiple),
        }
    }

    /// Takes memory so that there is room for a sum more.
    ///
    /// `NoMemory` comes where there is none.
    pub(crate) fn reserve(&mut self) -> Result<(), NoMemory>
        ensures ok { OnOk result (0 < self.new.room) }
        ensures list { IsPermutation self.old.list self.new.list }
    {
        self.multiples.reserve(1)?;
        Ok(())
    }

    /// Adds the sum of a key's entries, which is the variable, or minus it where the key is that of the opposite.
    pub(crate) fn add(&mut self, key: Key, variable: u64)
        requires room { 0 < self.old.room }
        requires is_new { IsNew self.old.list (key_meant key) }
        ensures { IsPermutation
            (record { entries = key_meant key; variable = variable; opposite = key.opposite } ∷ self.old.list)
            self.new.list }
    {
        let multiple = Multiple {
            variable,
            opposite: key.opposite,
        };
        match self.multiples.insert(key.entries, multiple) {
            Ok(_) => {}
            Err(_) => {}
        }
    }
}
