//! Rows of bytes in one list.

ghost use Rattle.std.specs.Prelude.{◌≡◌, ◌<◌, ◌≤◌, ◌++◌, [], ◌∷◌, length, take, slice_index_or, OnErr, OnOk};
ghost use Rattle.spec_text.specs.Printed.{printed};
ghost use Rattle.smt_sexpr.specs.Items.{tree_meant};
ghost use Rattle.assertion_stack.specs.Printing.{KeepsFront};
ghost use Rattle.assertion_stack.specs.Rows.{begin_of};

use crate::printing::print_to;
use no_memory::NoMemory;
use smt_sexpr::Trees;
use std::alloc::Global;
use std::marker::Model;

/// Holds rows of bytes, each right after the one before it in one list, with where each ends. Contracts see it as the rows.
///
/// A row takes its bytes and eight more.
#[derive(Drop)]
pub struct Rows {
    bytes: Vec<u8>,
    ends: Vec<usize>,
}

impl Model for Rows {
    ghost use Rattle.std.specs.Prelude.{ℕ, List, length};
    ghost use Rattle.assertion_stack.specs.Rows.{rows_from, AreEnds};

    ghost Value = { List (List ℕ) };

    ghost view = { λ r. rows_from r.bytes.items 0 r.ends.items };

    ghost invariant = { λ r. AreEnds 0 r.ends.items (length r.bytes.items) };
}

/// Says where a row begins, by its place from 0; of the place after the last row, where that one ends.
fn start_of(ends: &Vec<usize>, place: usize) -> usize
    requires { place ≤ length ends.now.items }
    ensures { result ≡ begin_of 0 ends.now.items place }
{
    if place == 0 {
        return 0;
    }
    ends[place - 1]
}

/// Puts two pieces last.
fn put(bytes: &mut Vec<u8>, first: &[u8], second: &[u8]) -> Result<(), NoMemory>
    ensures added { OnOk result (bytes.new.items ≡ bytes.old.items ++ (first.now ++ second.now)) }
    ensures keeps { KeepsFront bytes.old.items bytes.new.items }
{
    bytes.extend_from_slice(first)?;
    bytes.extend_from_slice(second)?;
    Ok(())
}

impl Rows {
    /// Makes the list without rows. It takes no memory.
    pub fn new(alloc: Global) -> Rows
        ensures { result ≡ [] }
    {
        Rows {
            bytes: Vec::new(alloc),
            ends: Vec::new(alloc),
        }
    }

    /// Counts the rows.
    pub fn len(&self) -> usize
        ensures { result ≡ length self.now }
    {
        self.ends.len()
    }

    /// Lends a row by its place, from 0.
    pub fn row(&self, place: usize) -> &[u8]
        requires { place < length self.now }
        ensures { result.now ≡ slice_index_or self.now place [] }
    {
        let start = start_of(&self.ends, place);
        &self.bytes[start..self.ends[place]]
    }

    /// Puts a row last, which is two pieces, one after the other.
    ///
    /// `NoMemory` comes where the row or its place find no memory; then all is as it was.
    pub fn add(&mut self, first: &[u8], second: &[u8]) -> Result<(), NoMemory>
        ensures added { OnOk result (self.new ≡ self.old ++ (first.now ++ second.now) ∷ []) }
        ensures same { OnErr result (self.new ≡ self.old) }
    {
        self.ends.reserve(1)?;
        let start = self.bytes.len();
        if let Err(_) = put(&mut self.bytes, first, second) {
            self.bytes.truncate(start);
            return Err(NoMemory);
        }
        self.ends.push_reserved(self.bytes.len());
        Ok(())
    }

    /// Puts a row last: the first tree, as `print` prints it.
    ///
    /// `NoMemory` comes where the row or its place find no memory; then all is as it was.
    pub fn add_printed(&mut self, alloc: Global, tree: Trees<'_>) -> Result<(), NoMemory>
        ensures added { OnOk result (self.new ≡ self.old ++ printed (tree_meant tree.entry) ∷ []) }
        ensures same { OnErr result (self.new ≡ self.old) }
    {
        self.ends.reserve(1)?;
        let start = self.bytes.len();
        if let Err(_) = print_to(alloc, &mut self.bytes, tree) {
            self.bytes.truncate(start);
            return Err(NoMemory);
        }
        self.ends.push_reserved(self.bytes.len());
        Ok(())
    }

    /// Takes away all rows after the first `len`, none where there are no more. It takes no memory.
    pub fn cut(&mut self, len: usize)
        ensures { self.new ≡ take len self.old }
    {
        if len < self.ends.len() {
            self.bytes.truncate(start_of(&self.ends, len));
            self.ends.truncate(len);
        }
    }
}
