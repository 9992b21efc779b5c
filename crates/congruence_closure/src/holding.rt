//! The held literals.

ghost use Rattle.std.specs.Prelude.{◌≡◌, ◌<◌, ◌≤◌, ◌↔◌, ◌++◌, ◌∷◌, [], true, length, take, OnOk, Contains};
ghost use Rattle.congruence_closure.specs.Closure.{denial};
ghost use Rattle.congruence_closure.specs.Tables.{noted};

use crate::users::grow;
use no_memory::NoMemory;
use std::alloc::Global;
use std::marker::Model;
use term_core::{Lit, TermId};

/// Writes the place of a literal as its term's entry, if it denies its term.
fn note_denial(denials: &mut Vec<u64>, lit: Lit, place: u64)
    requires { lit.term.0 < length denials.old.items }
    ensures { denials.new.items ≡ noted denials.old.items lit place }
{
    if !lit.positive {
        denials[lit.term.0 as usize] = place;
    }
}

/// Holds literals, oldest first, each once, and tells which terms are denied.
///
/// Contracts see the literals, and how many terms there is room for.
#[derive(Drop)]
pub(crate) struct Holding {
    /// The literals, with room for two of each term.
    held: Vec<Lit>,
    /// For each term that is denied, by its number, the place of its denial. What is at the number of another term says nothing.
    denials: Vec<u64>,
}

impl Model for Holding {
    ghost use Rattle.std.specs.Prelude.{length, vec_capacity};
    ghost use Rattle.congruence_closure.specs.Tables.{HoldingView, AreDenials};

    ghost Value = { HoldingView };

    ghost view = { λ h. record { held = h.held.items; terms = length h.denials.items } };

    ghost invariant = { λ h. AreDenials h.held.items h.denials.items (vec_capacity h.held) };
}

impl Holding {
    /// Makes the list of no literals. It takes no memory.
    pub fn new(alloc: Global) -> Holding
        ensures held { result.held ≡ [] }
    {
        Holding {
            held: Vec::new(alloc),
            denials: Vec::new(alloc),
        }
    }

    /// Lends the literals, oldest first. It takes no memory.
    pub fn all(&self) -> &[Lit]
        ensures { result.now ≡ self.now.held }
    {
        &self.held
    }

    /// Tells whether the negation of a term is held. It takes no memory.
    pub fn denies(&self, t: TermId) -> bool
        ensures { (result ≡ true) ↔ Contains self.now.held (denial t) }
    {
        match self.denials.get(t.0 as usize) {
            Some(place) => match self.held.get(*place as usize) {
                Some(lit) => lit.term == t && !lit.positive,
                None => false,
            },
            None => false,
        }
    }

    /// Makes room for both literals of each term up to this one.
    ///
    /// `NoMemory` comes where it finds no memory.
    pub fn add(&mut self, t: TermId) -> Result<(), NoMemory>
        ensures held { self.new.held ≡ self.old.held }
        ensures kept { self.old.terms ≤ self.new.terms }
        ensures ok { OnOk result (t.0 < self.new.terms) }
    {
        if t.0 >= (1 << 62) {
            return Err(NoMemory);
        }
        let count = self.denials.len() as u64;
        if t.0 < count {
            return Ok(());
        }
        let room = 2 * (t.0 as usize + 1);
        self.held.reserve(room)?;
        self.denials.reserve((t.0 + 1 - count) as usize)?;
        grow(&mut self.denials, t)
    }

    /// Holds a literal, as the last one. It takes no memory.
    pub fn hold(&mut self, lit: Lit)
        requires term { lit.term.0 < self.old.terms }
        requires new { Contains self.old.held lit → ⊥ }
        ensures held { self.new.held ≡ self.old.held ++ lit ∷ [] }
        ensures terms { self.new.terms ≡ self.old.terms }
    {
        note_denial(&mut self.denials, lit, self.held.len() as u64);
        self.held.push_reserved(lit);
    }

    /// Keeps the oldest literals, so many of them. It takes no memory.
    pub fn cut(&mut self, count: usize)
        ensures held { self.new.held ≡ take count self.old.held }
        ensures terms { self.new.terms ≡ self.old.terms }
    {
        self.held.truncate(count);
    }
}
