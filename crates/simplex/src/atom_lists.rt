//! Which atoms bound a variable.

use no_memory::NoMemory;
use std::alloc::Global;

/// Lists for each variable the watched atoms on it, by their numbers among the watched terms, in rising order.
///
/// Of terms that are watched no more some numbers may be left, so whoever reads one looks at what has it now.
#[derive(Drop)]
pub(crate) struct AtomLists {
    alloc: Global,
    lists: Vec<Vec<u64>>,
}

/// Puts a number last, in place of those that are not below it.
fn put(list: &mut Vec<u64>, n: u64) -> Result<(), NoMemory> {
    'gone: while let Some(last) = list.last() {
        if *last < n {
            break 'gone;
        }
        list.truncate(list.len() - 1);
    }
    list.push(n)?;
    Ok(())
}

impl AtomLists {
    /// Makes lists without atoms. It takes no memory.
    pub(crate) fn new(alloc: Global) -> AtomLists {
        AtomLists {
            alloc,
            lists: Vec::new(alloc),
        }
    }

    /// Lists an atom with those on a variable, in place of numbers that are not below its own.
    ///
    /// `NoMemory` comes where there is no memory; such numbers may have gone then.
    pub(crate) fn add(&mut self, variable: u64, n: u64) -> Result<(), NoMemory> {
        'variables: while self.lists.len() as u64 <= variable {
            self.lists.push(Vec::new(self.alloc))?;
        }
        put(&mut self.lists[variable as usize], n)
    }

    /// Lends the numbers of the atoms on a variable.
    pub(crate) fn of(&self, variable: u64) -> &[u64] {
        if variable < self.lists.len() as u64 {
            return self.lists[variable as usize].as_slice();
        }
        &[]
    }
}
