//! Names by their numbers: each name once.

ghost use Rattle.std.specs.Prelude.{◌≡◌, false, ◌<◌, [], ◌∷◌, ◌++◌, length, slice_index_or, take, MatchOption, OnErr, OnOk};
ghost use Rattle.spec_text.specs.Bytes.{among};
ghost use Rattle.term_core.specs.NameLists.{HaveNoTwice};

use indexmap::IndexSet;
use no_memory::NoMemory;
use std::alloc::Global;
use std::marker::Model;

/// Holds names in the order in which they came, no two the same.
///
/// A look-up is by hash and takes no memory.
#[derive(Drop)]
pub struct NameTable {
    alloc: Global,
    set: IndexSet<Vec<u8>>,
}

impl Model for NameTable {
    ghost use Rattle.std.specs.Prelude.{List, map};
    ghost use Rattle.spec_text.specs.Bytes.{Name};
    ghost use Rattle.term_core.specs.NameLists.{HaveNoTwice};

    ghost Value = { List Name };

    ghost view = { λ n. map (λ v. v.items) n.set.keys };

    ghost invariant = { λ n. HaveNoTwice (map (λ v. v.items) n.set.keys) };
}

impl NameTable {
    /// Makes an empty list of names, which takes no memory before the first name.
    pub fn new(alloc: Global) -> NameTable
        ensures { result ≡ [] }
    {
        NameTable {
            alloc,
            set: IndexSet::new(alloc),
        }
    }

    /// Counts the names.
    pub fn len(&self) -> u64
        ensures { result ≡ length self.now }
    {
        self.set.len() as u64
    }

    /// Finds the number of a name, from 0; `None` where it is none of these.
    pub fn find(&self, name: &[u8]) -> Option<u64>
        ensures { MatchOption result
            (among self.now name.now ≡ false)
            (λ k. (k < length self.now) × (slice_index_or self.now k [] ≡ name.now)) }
    {
        let number = self.set.get_index_of(name)?;
        Some(number as u64)
    }

    /// Says the name of a number.
    pub fn name(&self, number: u64) -> &[u8]
        requires { number < length self.now }
        ensures { result.now ≡ slice_index_or self.now number [] }
    {
        self.set.as_slice()[number as usize].as_slice()
    }

    /// States that no name occurs twice.
    pub fn no_name_twice(&self)
        ensures { HaveNoTwice self.now }
    {
        let _ = &self.set;
    }

    /// Puts a new name last, by a copy of its bytes.
    ///
    /// `NoMemory` comes where the copy or its place find no memory; then the names are as they were.
    pub fn add(&mut self, name: &[u8]) -> Result<(), NoMemory>
        requires { among self.old name.now ≡ false }
        ensures added { OnOk result (self.new ≡ self.old ++ name.now ∷ []) }
        ensures same { OnErr result (self.new ≡ self.old) }
    {
        let copy = name.to_vec(self.alloc)?;
        self.set.insert(copy)?;
        Ok(())
    }
    /// Takes away all names after the first `len`, none where there are no more. It takes no memory.
    pub fn cut(&mut self, len: u64)
        ensures { self.new ≡ take len self.old }
    {
        self.set.truncate(len as usize);
    }
}
