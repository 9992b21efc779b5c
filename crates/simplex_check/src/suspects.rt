//! Variables that may violate a bound.

ghost use Rattle.std.specs.Prelude.{◌≡◌, ◌<◌, ◌⊎◌, ℕ, true, [], ◌∷◌, OnOk, MatchOption};
ghost use Rattle.simplex_check.specs.Changes.{is_changed};
ghost use Rattle.simplex_check.specs.Suspects.{is_among};

use crate::changes::ValueChange;
use no_memory::NoMemory;
use std::alloc::Global;
use std::collections::BTreeSet;
use std::marker::Model;

/// Holds numbers of variables in ascending order, none twice.
#[derive(Drop)]
pub(crate) struct Suspects {
    variables: BTreeSet<u64>,
}

impl Model for Suspects {
    ghost use Rattle.std.specs.Prelude.{ℕ, List};

    ghost Value = { List ℕ };

    ghost view = { λ s. s.variables.keys };
}

impl Suspects {
    /// Holds no variables. It takes no memory.
    pub(crate) fn new(alloc: Global) -> Suspects
        ensures { result ≡ [] }
    {
        Suspects {
            variables: BTreeSet::new(alloc),
        }
    }

    /// Adds a variable, if it is not there. `NoMemory` comes where it finds no memory; then nothing is changed.
    pub(crate) fn add(&mut self, y: u64) -> Result<(), NoMemory>
        ensures kept { (z : ℕ) → is_among z self.old ≡ true → is_among z self.new ≡ true }
        ensures added { OnOk result (is_among y self.new ≡ true) }
        ensures only { (z : ℕ) → is_among z self.new ≡ true → (is_among z self.old ≡ true) ⊎ (z ≡ y) }
    {
        self.variables.insert(y)?;
        Ok(())
    }

    /// Takes the least variable out, if there is one.
    pub(crate) fn pop(&mut self) -> Option<u64>
        ensures { MatchOption result (self.old ≡ []) (λ y. (self.old ≡ y ∷ self.new)
            × ((z : ℕ) → is_among z self.new ≡ true → y < z)) }
    {
        let Some(y) = self.variables.pop_first() else {
            return None;
        };
        Some(y)
    }

    /// Adds the variables of changes. `NoMemory` comes where one of them finds no memory.
    pub(crate) fn add_all(&mut self, changes: &[ValueChange]) -> Result<(), NoMemory>
        ensures kept { (z : ℕ) → is_among z self.old ≡ true → is_among z self.new ≡ true }
        ensures added { OnOk result ((z : ℕ) → is_changed z changes.now ≡ true → is_among z self.new ≡ true) }
    {
        let mut rest = changes;
        while let Some((change, more)) = rest.split_first() {
            self.add(change.variable)?;
            rest = more;
        }
        Ok(())
    }
}
