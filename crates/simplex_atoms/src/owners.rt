//! The terms that variables of a tableau stand for.

ghost use Rattle.std.specs.Prelude.{◌≡◌, ◌<◌, Some, None, [], ◌∷◌, ◌++◌, length, OnOk, OnErr};
ghost use Rattle.simplex_atoms.specs.Owners.{owner_at, IsNumberOf, AreOwnedOnce};

use no_memory::NoMemory;
use std::alloc::Global;
use std::collections::HashMap;
use std::marker::Model;
use term_core::TermId;

/// Holds for each variable the term that it stands for, if it stands for one.
///
/// The variable of a term is looked up by a hash of the term's number. Contracts see the terms by variables, and the
/// room: how many more variables there can be without memory.
#[derive(Drop)]
pub(crate) struct Owners {
    list: Vec<Option<TermId>>,
    numbers: HashMap<u64, u64>,
}

impl Model for Owners {
    ghost use Rattle.std.specs.Prelude.{◌-◌, nat_eq, vec_len, vec_capacity};
    ghost use Rattle.std.specs.HashMap.{get};
    ghost use Rattle.simplex_atoms.specs.Owners.{OwnersView, IsInverse};

    ghost Value = { OwnersView };

    ghost view = { λ o. record { list = o.list.items; room = vec_capacity o.list - vec_len o.list } };

    ghost invariant = { λ o. IsInverse (get nat_eq o.numbers) o.list.items };
}

impl Owners {
    /// Makes the list without variables. It takes no memory.
    pub(crate) fn new(alloc: Global) -> Owners
        ensures { result.list ≡ [] }
    {
        Owners {
            list: Vec::new(alloc),
            numbers: HashMap::new(alloc),
        }
    }

    /// States that no two variables stand for one term.
    pub(crate) fn are_once(&self)
        ensures { AreOwnedOnce self.now.list }
    {
        let _ = &self.list;
    }

    /// Counts the variables.
    pub(crate) fn len(&self) -> u64
        ensures { result ≡ length self.now.list }
    {
        self.list.len() as u64
    }

    /// Gives the term that a variable stands for, if it stands for one.
    pub(crate) fn owner(&self, y: u64) -> Option<TermId>
        ensures { result ≡ owner_at self.now.list y }
    {
        match self.list.get(y as usize) {
            None => None,
            Some(owner) => *owner,
        }
    }

    /// Gives the variable that means a term, if one does.
    pub(crate) fn var(&self, id: TermId) -> Option<u64>
        ensures { IsNumberOf self.now.list id result }
    {
        match self.numbers.get(&id.0) {
            None => None,
            Some(y) => Some(*y),
        }
    }

    /// Takes memory so that there is room for a variable more.
    ///
    /// `NoMemory` comes where there is none.
    pub(crate) fn reserve(&mut self) -> Result<(), NoMemory>
        ensures ok { OnOk result (0 < self.new.room) }
        ensures list { self.new.list ≡ self.old.list }
    {
        self.list.reserve(1)?;
        Ok(())
    }

    /// Adds a variable that stands for no term.
    pub(crate) fn add_none(&mut self)
        requires { 0 < self.old.room }
        ensures { self.new.list ≡ self.old.list ++ None ∷ [] }
    {
        self.list.push_reserved(None);
    }

    /// Adds a variable that means a term that has none yet.
    ///
    /// `NoMemory` comes where there is no memory; the variable then stands for no term.
    pub(crate) fn add_term(&mut self, id: TermId) -> Result<(), NoMemory>
        requires room { 0 < self.old.room }
        requires is_new { IsNumberOf self.old.list id None }
        ensures ok { OnOk result (self.new.list ≡ self.old.list ++ Some id ∷ []) }
        ensures err { OnErr result (self.new.list ≡ self.old.list ++ None ∷ []) }
    {
        let y = self.list.len() as u64;
        match self.numbers.insert(id.0, y) {
            Ok(_) => {
                self.list.push_reserved(Some(id));
                Ok(())
            }
            Err(_) => {
                self.list.push_reserved(None);
                Err(NoMemory)
            }
        }
    }
}
