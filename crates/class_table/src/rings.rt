//! Class numbers with the rings of their members, and merges that can be undone.

ghost use Rattle.std.specs.Prelude.{◌≡◌, ◌-◌, ◌<◌, ◌≤◌, ◌++◌, ◌∷◌, [], length, take, slice_index, IfOk, OnOk, OnErr};
ghost use Rattle.class_table.specs.Classes.{class_at, members_count, renumbered, with_terms, AreMembers, ClassesAreNumbered};
ghost use Rattle.class_table.specs.Rings.{alone, Joins, AreJoins};
ghost use Rattle.class_table.specs.Kept.{numbers_at};

use crate::rows::{list_ring, push_terms, renumber, swap_next};
use no_memory::NoMemory;
use std::alloc::Global;
use std::marker::Model;
use term_core::TermId;

/// Says that one class went into another, by their numbers.
#[derive(Clone, Copy)]
pub(crate) struct Merge {
    /// The number of the class that was renumbered.
    pub(crate) from: u64,
    /// The number that its terms have since.
    pub(crate) into: u64,
}

/// Says how many terms and merges there were.
#[derive(Clone, Copy)]
pub(crate) struct MergeMark {
    /// The terms.
    pub(crate) terms: usize,
    /// The merges.
    pub(crate) merges: usize,
}

/// Holds the class number of each term, the rings, and the merges that made them.
///
/// A class has the number of one of its terms. Contracts see the class numbers, and the merges, oldest first.
#[derive(Drop)]
pub(crate) struct Rings {
    /// For each term the number of its class.
    numbers: Vec<u64>,
    /// For each term the next one in the ring of its class.
    next: Vec<u64>,
    /// For each class, by its number, how many terms are in it.
    sizes: Vec<u64>,
    /// The merges, oldest first, with room for as many as there are terms.
    merges: Vec<Merge>,
}

impl Model for Rings {
    ghost use Rattle.class_table.specs.Rings.{RingsView, MergesFit};

    ghost Value = { RingsView };

    ghost view = { λ r. record { numbers = r.numbers.items; merges = r.merges.items } };

    ghost invariant = { MergesFit };
}

impl Rings {
    /// Makes the rings of no terms. It takes no memory.
    pub(crate) fn new(alloc: Global) -> Rings
        ensures numbers { result.numbers ≡ [] }
        ensures merges { result.merges ≡ [] }
    {
        Rings {
            numbers: Vec::new(alloc),
            next: Vec::new(alloc),
            sizes: Vec::new(alloc),
            merges: Vec::new(alloc),
        }
    }

    /// Counts the terms.
    pub(crate) fn len(&self) -> u64
        ensures { result ≡ length self.now.numbers }
    {
        self.numbers.len() as u64
    }

    /// Gives the number of a term's class, which is that of one of its terms.
    pub(crate) fn number(&self, t: TermId) -> u64
        requires { t.0 < length self.now.numbers }
        ensures number { result ≡ class_at self.now.numbers t }
        ensures low { result < length self.now.numbers }
        ensures live { slice_index self.now.numbers result ≡ result }
    {
        self.numbers[t.0 as usize]
    }

    /// States that each class has the number of one of its terms.
    pub(crate) fn numbers_are_of_terms(&self)
        ensures { ClassesAreNumbered self.now.numbers }
    {
        let _ = &self.numbers;
    }

    /// Counts the terms of a class.
    pub(crate) fn size(&self, class: u64) -> u64
        requires low { class < length self.now.numbers }
        requires live { slice_index self.now.numbers class ≡ class }
        ensures { result ≡ members_count self.now.numbers class }
    {
        self.sizes[class as usize]
    }

    /// Lists the terms of a term's class. `NoMemory` comes where the list finds no memory.
    pub(crate) fn members(&self, alloc: Global, t: TermId) -> Result<Vec<TermId>, NoMemory>
        requires { t.0 < length self.now.numbers }
        ensures { IfOk result (λ members. AreMembers self.now.numbers t members.items) }
    {
        let size = self.sizes[self.numbers[t.0 as usize] as usize];
        list_ring(alloc, &self.next, t.0, size)
    }

    /// Says how many terms and merges there are.
    pub(crate) fn mark(&self) -> MergeMark
        ensures terms { result.terms ≡ length self.now.numbers }
        ensures merges { result.merges ≡ length self.now.merges }
        ensures numbers { numbers_at self.now.merges result ≡ self.now.numbers }
        ensures joins { AreJoins (alone result.terms) self.now.merges }
    {
        MergeMark {
            terms: self.numbers.len(),
            merges: self.merges.len(),
        }
    }

    /// Adds terms, each alone, so that there are so many at least, with all the memory that merges will need.
    ///
    /// `NoMemory` comes where it finds none; then all is as it was.
    pub(crate) fn grow(&mut self, terms: u64) -> Result<(), NoMemory>
        ensures ok { OnOk result (self.new.numbers ≡ with_terms terms self.old.numbers) }
        ensures merges { self.new.merges ≡ self.old.merges }
        ensures err { OnErr result (self.new ≡ self.old) }
    {
        let more = (terms as usize).saturating_sub(self.numbers.len());
        self.numbers.reserve(more)?;
        self.next.reserve(more)?;
        self.sizes.reserve(more)?;
        let room = (terms as usize).saturating_sub(self.merges.len());
        self.merges.reserve(room)?;
        push_terms(&mut self.numbers, &mut self.next, &mut self.sizes, more);
        Ok(())
    }

    /// Gives the terms of one class the number of another.
    ///
    /// It takes time in proportion to the first class, and no memory.
    pub(crate) fn join(&mut self, from: u64, into: u64)
        requires { Joins self.old.numbers (record { from = from; into = into }) }
        ensures numbers { self.new.numbers ≡ renumbered from into self.old.numbers }
        ensures merges { self.new.merges ≡ self.old.merges ++ record { from = from; into = into } ∷ [] }
    {
        let count = self.sizes[from as usize];
        renumber(&mut self.numbers, &self.next, from, count, into);
        swap_next(&mut self.next, from, into);
        self.sizes[into as usize] += count;
        self.merges.push_reserved(Merge { from, into });
    }

    /// Undoes the newest merge. It takes no memory, and time in proportion to the class that was renumbered.
    fn undo(&mut self)
        requires { 0 < length self.old.merges }
        ensures terms { length self.new.numbers ≡ length self.old.numbers }
        ensures merges { self.new.merges ≡ take (length self.old.merges - 1) self.old.merges }
    {
        let Some(Merge { from, into }) = self.merges.pop() else {
            return;
        };
        let count = self.sizes[from as usize];
        swap_next(&mut self.next, from, into);
        renumber(&mut self.numbers, &self.next, from, count, from);
        self.sizes[into as usize] -= count;
    }

    /// Goes back to what there was at a mark. It takes no memory.
    pub(crate) fn back(&mut self, mark: MergeMark)
        requires terms { mark.terms ≤ length self.old.numbers }
        requires merges { mark.merges ≤ length self.old.merges }
        requires joins { AreJoins (alone mark.terms) (take mark.merges self.old.merges) }
        ensures terms { length self.new.numbers ≡ mark.terms }
        ensures numbers { self.new.numbers ≡ numbers_at self.old.merges mark }
        ensures merges { self.new.merges ≡ take mark.merges self.old.merges }
    {
        'merges: while self.merges.len() > mark.merges {
            self.undo();
        }
        self.numbers.truncate(mark.terms);
        self.next.truncate(mark.terms);
        self.sizes.truncate(mark.terms);
    }
}
