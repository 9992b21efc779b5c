//! The table of classes, with marks.

ghost use Rattle.std.specs.Prelude.{◌≡◌, ◌≢◌, ◌-◌, ◌<◌, ◌≤◌, ◌==◌, ◌++◌, ◌∷◌, [], suc, length, take, slice_index_or, IfOk, OnOk, OnErr};
ghost use Rattle.class_table.specs.Classes.{class_at, members_count, joined, with_terms, AreMembers, ClassesAreNumbered};

use crate::rings::{MergeMark, Rings};
use no_memory::NoMemory;
use std::alloc::Global;
use std::marker::Model;
use term_core::TermId;

/// Holds terms in classes, joins two classes, and goes back to a mark.
///
/// Terms are numbered from 0 on, without gaps. Contracts see the class number of each term, by the term's number, now and at
/// each mark.
#[derive(Drop)]
pub struct ClassTable {
    alloc: Global,
    /// The classes.
    rings: Rings,
    /// How many terms and merges there were at each mark, oldest first.
    marks: Vec<MergeMark>,
}

impl Model for ClassTable {
    ghost use Rattle.std.specs.Prelude.{length};
    ghost use Rattle.class_table.specs.Classes.{ClassesView};

    ghost Value = { ClassesView };

    ghost use Rattle.class_table.specs.Kept.{classes_view, AreMergeMarks};

    ghost view = { classes_view };

    ghost invariant = { λ t. AreMergeMarks t.marks.items (length t.rings.numbers) t.rings.merges };
}

impl ClassTable {
    /// Makes the table of no terms and no marks. It takes no memory.
    pub fn new(alloc: Global) -> ClassTable
        ensures numbers { result.numbers ≡ [] }
        ensures marks { result.marks ≡ [] }
    {
        ClassTable {
            alloc,
            rings: Rings::new(alloc),
            marks: Vec::new(alloc),
        }
    }

    /// Counts the terms. It takes no memory.
    pub fn len(&self) -> u64
        ensures { result ≡ length self.now.numbers }
    {
        self.rings.len()
    }

    /// Adds the terms up to this one that are not there, each in a class of its own, which has the term's number.
    ///
    /// It takes the memory that later calls of `relabel` need. `NoMemory` comes where it finds none, and for the greatest
    /// number there is; then the table is as it was.
    pub fn add(&mut self, t: TermId) -> Result<(), NoMemory>
        ensures ok { OnOk result (self.new.numbers ≡ with_terms (suc t.0) self.old.numbers) }
        ensures marks { self.new.marks ≡ self.old.marks }
        ensures err { OnErr result (self.new ≡ self.old) }
    {
        if t.0 == u64::MAX {
            return Err(NoMemory);
        }
        self.rings.grow(t.0 + 1)
    }

    /// Sets a mark at the classes as they are.
    ///
    /// `NoMemory` comes where there is no memory for the mark; then the table is as it was.
    pub fn mark(&mut self) -> Result<(), NoMemory>
        ensures numbers { self.new.numbers ≡ self.old.numbers }
        ensures marks { OnOk result (self.new.marks ≡ self.old.marks ++ self.old.numbers ∷ []) }
        ensures err { OnErr result (self.new ≡ self.old) }
    {
        self.marks.push(self.rings.mark())?;
        Ok(())
    }

    /// Gives the number of a term's class, in constant time. It takes no memory.
    pub fn class_of(&self, t: TermId) -> u64
        requires { t.0 < length self.now.numbers }
        ensures { result ≡ class_at self.now.numbers t }
    {
        self.rings.number(t)
    }

    /// Tells whether two terms are in one class, in constant time. It takes no memory.
    pub fn same(&self, a: TermId, b: TermId) -> bool
        requires a { a.0 < length self.now.numbers }
        requires b { b.0 < length self.now.numbers }
        ensures { result ≡ (class_at self.now.numbers a == class_at self.now.numbers b) }
    {
        self.rings.number(a) == self.rings.number(b)
    }

    /// Counts the terms of a term's class, in constant time. It takes no memory.
    pub fn size_of(&self, t: TermId) -> u64
        requires { t.0 < length self.now.numbers }
        ensures { result ≡ members_count self.now.numbers (class_at self.now.numbers t) }
    {
        self.rings.size(self.rings.number(t))
    }

    /// Lists the terms of a term's class, each once, in time in proportion to how many there are.
    ///
    /// `NoMemory` comes where the list finds no memory.
    pub fn members(&self, t: TermId) -> Result<Vec<TermId>, NoMemory>
        requires { t.0 < length self.now.numbers }
        ensures { IfOk result (λ members. AreMembers self.now.numbers t members.items) }
    {
        self.rings.members(self.alloc, t)
    }

    /// Joins the classes of two terms: the terms of the smaller one get the number of the other.
    ///
    /// Where both are as large, those of the class of `a` get the number of the class of `b`. It takes time in proportion to
    /// the smaller class, and no memory.
    pub fn relabel(&mut self, a: TermId, b: TermId)
        requires a { a.0 < length self.old.numbers }
        requires b { b.0 < length self.old.numbers }
        requires apart { class_at self.old.numbers a ≢ class_at self.old.numbers b }
        ensures numbers { self.new.numbers ≡ joined a b self.old.numbers }
        ensures marks { self.new.marks ≡ self.old.marks }
    {
        let first = self.rings.number(a);
        let second = self.rings.number(b);
        if self.rings.size(first) <= self.rings.size(second) {
            self.rings.join(first, second);
        } else {
            self.rings.join(second, first);
        }
    }

    /// Goes back over so many marks: the classes are what they were at the oldest of them.
    ///
    /// Terms that were added since are gone. For `marks` 0 nothing changes. It takes time in proportion to what was
    /// renumbered since, and no memory.
    pub fn back(&mut self, marks: u32)
        requires { marks ≤ length self.old.marks }
        ensures numbers { self.new.numbers
            ≡ slice_index_or self.old.marks (length self.old.marks - marks) self.old.numbers }
        ensures marks { self.new.marks ≡ take (length self.old.marks - marks) self.old.marks }
    {
        let kept = self.marks.len() - marks as usize;
        let Some(&mark) = self.marks.get(kept) else {
            return;
        };
        self.marks.truncate(kept);
        self.rings.back(mark);
    }

    /// States that each class has the number of one of its terms.
    pub fn classes_have_numbers_of_terms(&self)
        ensures { ClassesAreNumbered self.now.numbers }
    {
        self.rings.numbers_are_of_terms();
    }
}
