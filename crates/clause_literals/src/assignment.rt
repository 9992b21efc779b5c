//! The literals that hold, in the order in which they came to.

ghost use Rattle.std.specs.Prelude.{◌≡◌, ◌<◌, [], map, length, Contains, IfOk, OnOk, MatchBool, MatchOption, slice_index_or, take};
ghost use Rattle.clause_literals.specs.Literals.{lit_complement, AddsLast, SameLits, HasBoth, IsConsistent};

use crate::literals::negated;
use indexmap::IndexSet;
use std::alloc::{AllocError, Global};
use std::marker::Model;
use term_core::Lit;

/// Holds literals, each once, in the order in which they were added.
///
/// Contracts see it as the list.
#[derive(Drop)]
pub struct Assignment {
    literals: IndexSet<Lit>,
}

impl Model for Assignment {
    ghost use Rattle.std.specs.Prelude.{List};
    ghost use Rattle.term_core.specs.declared.ids.Lit.{Lit};

    ghost Value = { List Lit };

    ghost view = { λ h. h.literals.keys };
}

impl Assignment {
    /// Makes the set of no literals, which takes no memory before the first of them.
    pub fn new(alloc: Global) -> Assignment
        ensures { result ≡ [] }
    {
        Assignment {
            literals: IndexSet::new(alloc),
        }
    }

    /// Counts the literals. It takes no memory.
    pub fn len(&self) -> usize
        ensures { result ≡ length self.now }
    {
        self.literals.len()
    }

    /// Gives the literal that was added after so many others. It takes no memory.
    pub fn at(&self, index: usize) -> Lit
        requires { index < length self.now }
        ensures { result ≡ slice_index_or self.now index result }
    {
        self.literals.as_slice()[index]
    }

    /// Tells whether a literal holds. It takes no memory.
    pub fn contains(&self, l: Lit) -> bool
        ensures { MatchBool result (Contains self.now l) (Contains self.now l → ⊥) }
    {
        self.literals.contains(&l)
    }

    /// Adds a literal as the last, unless it holds.
    ///
    /// `AllocError` comes where a new literal finds no memory.
    pub fn add(&mut self, l: Lit) -> Result<(), AllocError>
        ensures { OnOk result (AddsLast self.old l self.new) }
    {
        match self.literals.insert(l) {
            Ok(_) => Ok(()),
            Err(_) => Err(AllocError),
        }
    }

    /// Takes away all literals but the first `len`. It takes no memory.
    pub fn truncate(&mut self, len: usize)
        ensures { self.new ≡ take len self.old }
    {
        self.literals.truncate(len);
    }
}

/// Gives the complement of each literal of the clause, or nothing where it has a literal with its complement.
pub(crate) fn start_of(alloc: Global, clause: &[Lit]) -> Result<Option<Assignment>, AllocError>
    ensures { IfOk result (λ o. MatchOption o (HasBoth (map lit_complement clause.now))
        (λ held. SameLits held (map lit_complement clause.now) × IsConsistent held)) }
{
    let mut held = Assignment::new(alloc);
    for l in clause {
        if held.contains(*l) {
            return Ok(None);
        }
        held.add(negated(*l))?;
    }
    Ok(Some(held))
}
