//! Numbers for sums of terms.

use indexmap::IndexSet;
use no_memory::NoMemory;
use ratio128::Ratio;
use std::alloc::Global;

/// Numbers sums from 0, in the order in which they come.
#[derive(Drop)]
pub(crate) struct SumNumbers {
    /// The sums: the numbers of terms with their coefficients, by rising numbers.
    sums: IndexSet<Vec<(u64, Ratio)>>,
}

impl SumNumbers {
    /// Makes one that has no sums. It takes no memory.
    pub(crate) fn new(alloc: Global) -> SumNumbers {
        SumNumbers {
            sums: IndexSet::new(alloc),
        }
    }

    /// Gives the number of a sum, a new one where it comes first. `NoMemory` comes where there is no memory for it.
    pub(crate) fn number(&mut self, sum: Vec<(u64, Ratio)>) -> Result<u64, NoMemory> {
        let (at, _) = self.sums.insert_full(sum)?;
        Ok(at as u64)
    }
}
