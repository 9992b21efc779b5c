//! Terms of one declared sort.

use crate::fault::Fault;
use std::alloc::Global;
use term_core::{Head, Node, Sort, SymbolId, TermId, TermTable};

/// Holds a table with one declared sort, and puts terms of it.
#[derive(Drop)]
pub(crate) struct Terms {
    pub(crate) alloc: Global,
    pub(crate) table: TermTable,
    sort: Sort,
}

impl Terms {
    /// Makes a table without terms, with the sort `S`.
    pub(crate) fn new(alloc: Global) -> Result<Terms, Fault> {
        let mut table = TermTable::new(alloc);
        let sort = table.declare_sort(b"S")?;
        Ok(Terms {
            alloc,
            table,
            sort: Sort::Declared(sort),
        })
    }

    /// Declares a symbol with so many arguments of the sort, at most two; it gives one of the sort.
    ///
    /// `Refused` comes where the name is declared.
    pub(crate) fn declare(&mut self, name: &[u8], arguments: usize) -> Result<SymbolId, Fault> {
        let sorts = [self.sort, self.sort];
        let taken = &sorts[..arguments.min(2)];
        let symbols = self.table.symbols();
        if symbols.find(name).is_some()
            || !symbols.has_sorts(taken)
            || !symbols.has_sort(self.sort)
        {
            return Err(Fault::Refused);
        }
        Ok(self.table.declare(name, taken, self.sort)?)
    }

    /// Puts a term.
    ///
    /// `Refused` comes where its head does not take the arguments.
    pub(crate) fn put(&mut self, head: Head, arguments: &[TermId]) -> Result<TermId, Fault> {
        let node = Node::new(self.alloc, head, arguments)?;
        if !self.table.takes(&node) {
            return Err(Fault::Refused);
        }
        Ok(self.table.put(node)?)
    }

    /// Puts a constant whose name is a letter and a number.
    pub(crate) fn constant(&mut self, letter: char, number: u64) -> Result<TermId, Fault> {
        let name = format!(in self.alloc; "{letter}{number}")?;
        let symbol = self.declare(name.as_bytes(), 0)?;
        self.put(Head::Apply(symbol), &[])
    }

    /// Puts so many constants, whose names are a letter and the numbers from 0, and puts their numbers last in a list.
    pub(crate) fn constants(
        &mut self,
        letter: char,
        count: u64,
        all: &mut Vec<TermId>,
    ) -> Result<(), Fault> {
        for number in 0..count {
            all.push(self.constant(letter, number)?)?;
        }
        Ok(())
    }

    /// Puts the equality of two terms.
    pub(crate) fn equality(&mut self, a: TermId, b: TermId) -> Result<TermId, Fault> {
        self.put(Head::Equal, &[a, b])
    }
}
