//! What the variables of a tableau stand for.

ghost use Rattle.std.specs.Prelude.{◌≡◌, []};

use crate::owners::Owners;
use crate::sums::Sums;
use std::alloc::Global;

/// Holds what variables stand for: terms, and sums of multiples of others.
#[derive(Drop)]
pub(crate) struct Meanings {
    /// The terms.
    pub(crate) owners: Owners,
    /// The sums that have rows.
    pub(crate) sums: Sums,
}

impl Meanings {
    /// Makes those of no variable. It takes no memory.
    pub(crate) fn new(alloc: Global) -> Meanings
        ensures owners { result.owners.list ≡ [] }
        ensures sums { result.sums.list ≡ [] }
    {
        Meanings {
            owners: Owners::new(alloc),
            sums: Sums::new(alloc),
        }
    }
}
