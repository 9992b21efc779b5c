//! Marks: how much there was of what a script has stated when a level was opened.

ghost use Rattle.std.specs.Prelude.{◌≡◌, ◌<◌, ◌+◌, ◌≤◌, ◌++◌, [], length, take, replicate, slice_index_or, vec_len, vec_capacity, OnErr, OnOk};
ghost use Rattle.assertion_stack.specs.Levels.{no_mark};

use no_memory::NoMemory;
use std::alloc::Global;
use std::marker::Model;

/// Counts what there was of each list when a level was opened. What comes later goes when the level is closed.
///
/// Source: SMT-LIB 2.6, section 4.1.4.
#[derive(Clone, Copy, Debug, PartialEq, Eq)]
pub struct Mark {
    /// The names of sorts.
    pub sort_names: usize,
    /// The names of functions.
    pub names: usize,
    /// The declared sorts of the table.
    pub sorts: u64,
    /// The declared symbols of the table.
    pub symbols: u64,
    /// The terms of the table.
    pub terms: u64,
    /// The assertions.
    pub assertions: usize,
}

impl Mark {
    /// Makes the mark where nothing has been stated.
    pub fn none() -> Mark
        ensures { result ≡ no_mark }
    {
        Mark {
            sort_names: 0,
            names: 0,
            sorts: 0,
            symbols: 0,
            terms: 0,
            assertions: 0,
        }
    }
}

/// Holds a mark for each level that is open above the first one, the lowest first.
///
/// Source: SMT-LIB 2.6, section 4.1.4.
#[derive(Drop)]
pub struct Marks {
    marks: Vec<Mark>,
}

impl Model for Marks {
    ghost use Rattle.std.specs.Prelude.{List};
    ghost use Rattle.assertion_stack.specs.declared.marks.Mark.{Mark as LevelMark};

    ghost Value = { List LevelMark };

    ghost view = { λ m. m.marks.items };
}

/// Puts so many marks last, for which there is room.
fn fill(marks: &mut Vec<Mark>, n: usize, mark: Mark)
    requires { vec_len marks.old + n ≤ vec_capacity marks.old }
    ensures { marks.new.items ≡ marks.old.items ++ replicate n mark }
{
    for _ in 0..n {
        marks.push_reserved(mark);
    }
}

impl Marks {
    /// Makes the list without marks. It takes no memory.
    pub fn new(alloc: Global) -> Marks
        ensures { result ≡ [] }
    {
        Marks {
            marks: Vec::new(alloc),
        }
    }

    /// Counts the marks.
    pub fn len(&self) -> u64
        ensures { result ≡ length self.now }
    {
        self.marks.len() as u64
    }

    /// Says a mark by its place, from 0.
    pub fn at(&self, place: u64) -> Mark
        requires { place < length self.now }
        ensures { result ≡ slice_index_or self.now place no_mark }
    {
        self.marks[place as usize]
    }

    /// Puts a mark last, so many times.
    ///
    /// `NoMemory` comes where there is no room for them; then the marks are as they were.
    pub fn add(&mut self, n: u64, mark: Mark) -> Result<(), NoMemory>
        ensures added { OnOk result (self.new ≡ self.old ++ replicate n mark) }
        ensures same { OnErr result (self.new ≡ self.old) }
    {
        self.marks.reserve(n as usize)?;
        fill(&mut self.marks, n as usize, mark);
        Ok(())
    }

    /// Takes away all marks after the first `len`, none where there are no more. It takes no memory.
    pub fn back(&mut self, len: u64)
        ensures { self.new ≡ take len self.old }
    {
        self.marks.truncate(len as usize);
    }
}
