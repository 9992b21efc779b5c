//! Literals of watched terms, held without memory, with marks.

ghost use Rattle.std.specs.Prelude.{◌≡◌, ◌<◌, ◌≤◌, [], length, get_or, Contains, MatchOption, MatchResult};
ghost use Rattle.proof_log.specs.Theories.{with_held, with_watched, with_mark, at_mark, gone_back};
ghost use Rattle.held_literals.specs.Room.{without_mark, IsHeldOver, AreHeldMarks};

use no_memory::NoMemory;
use std::alloc::Global;
use std::marker::Model;
use term_core::{Lit, TermId};

/// How many literals and terms there were.
#[derive(Clone, Copy, Debug, PartialEq, Eq)]
struct HeldCounts {
    held: usize,
    watched: usize,
}

/// Holds literals of watched terms, each once, with room for both literals of each term, and marks of both.
///
/// Contracts see it as the theory that holds and watches these. Whoever implements a theory can keep one, and besides it what the
/// theory makes of the literals.
#[derive(Drop)]
pub struct HeldLiterals {
    held: Vec<Lit>,
    watched: Vec<TermId>,
    marks: Vec<HeldCounts>,
}

impl Model for HeldLiterals {
    ghost use Rattle.std.specs.Prelude.{vec_capacity};
    ghost use Rattle.proof_log.specs.Theories.{TheoryView};
    ghost use Rattle.held_literals.specs.Room.{HasRoom, AreHeldMarks, marks_of};

    ghost Value = { TheoryView };

    ghost view = { λ h. record {
      held = h.held.items;
      watched = h.watched.items;
      marks = marks_of h.marks.items;
    } };

    ghost invariant = { λ h. HasRoom h.held.items h.watched.items (vec_capacity h.held)
        × AreHeldMarks h.held.items h.watched.items (marks_of h.marks.items) };
}

impl HeldLiterals {
    /// Holds and watches nothing. It takes no memory.
    pub fn new(alloc: Global) -> HeldLiterals
        ensures { result ≡ record { held = []; watched = []; marks = [] } }
    {
        HeldLiterals {
            held: Vec::new(alloc),
            watched: Vec::new(alloc),
            marks: Vec::new(alloc),
        }
    }

    /// Watches a term more, and takes the room for its two literals.
    ///
    /// `NoMemory` comes where the room or the term's place find no memory; then all is as it was.
    pub fn watch(&mut self, id: TermId) -> Result<(), NoMemory>
        ensures { MatchResult result (λ _. self.new ≡ with_watched self.old id) (λ _. self.new ≡ self.old) }
    {
        let wanted = 2 * self.watched.len() + 2;
        self.held.reserve(wanted.saturating_sub(self.held.len()))?;
        self.watched.push(id)?;
        Ok(())
    }

    /// Holds a literal more, of a watched term. It takes no memory.
    pub fn hold(&mut self, lit: Lit)
        requires watched { Contains self.old.watched lit.term }
        requires new { Contains self.old.held lit → ⊥ }
        ensures { self.new ≡ with_held self.old lit }
    {
        self.held.push_reserved(lit);
    }

    /// Counts the literals.
    pub fn len(&self) -> u64
        ensures { result ≡ length self.now.held }
    {
        self.held.len() as u64
    }

    /// Gives a literal by its number, from 0 for the oldest.
    pub fn literal(&self, n: u64) -> Lit
        requires { n < length self.now.held }
        ensures { result ≡ get_or self.now.held n result }
    {
        self.held[n as usize]
    }

    /// Counts the terms that are watched.
    pub fn terms_len(&self) -> u64
        ensures { result ≡ length self.now.watched }
    {
        self.watched.len() as u64
    }

    /// Gives a watched term by its number, from 0 for the oldest; `None` exactly where no more than so many are watched.
    pub fn term(&self, n: u64) -> Option<TermId>
        ensures { MatchOption result (length self.now.watched ≤ n) (λ id. (n < length self.now.watched)
            × (id ≡ get_or self.now.watched n id)) }
    {
        if n < self.watched.len() as u64 {
            return Some(self.watched[n as usize]);
        }
        None
    }

    /// States that each literal is held once, and is one of a watched term.
    pub fn are_of_watched_terms(&self)
        ensures { IsHeldOver self.now.held self.now.watched }
    {
        let _ = &self.held;
    }

    /// States that marks are in order, each of no more than what is held and watched.
    pub fn marks_are_prefixes(&self)
        ensures { AreHeldMarks self.now.held self.now.watched self.now.marks }
    {
        let _ = &self.held;
    }

    /// Marks what is held and watched.
    ///
    /// `NoMemory` comes where the mark finds no memory; then all is as it was.
    pub fn mark(&mut self) -> Result<(), NoMemory>
        ensures { MatchResult result (λ _. self.new ≡ with_mark self.old) (λ _. self.new ≡ self.old) }
    {
        self.marks.push(HeldCounts {
            held: self.held.len(),
            watched: self.watched.len(),
        })?;
        Ok(())
    }

    /// Takes the newest mark away, and leaves what is held and watched. It takes no memory.
    pub fn forget_mark(&mut self)
        requires { 0 < length self.old.marks }
        ensures { self.new ≡ without_mark self.old }
    {
        let kept = self.marks.len() - 1;
        self.marks.truncate(kept);
    }

    /// Goes back so many marks. It takes no memory, and time only for the literals, terms and marks that go.
    pub fn back(&mut self, marks: u32)
        requires { marks ≤ length self.old.marks }
        ensures { self.new ≡ gone_back marks self.old }
    {
        if marks > 0 {
            let kept = self.marks.len() - marks as usize;
            self.back_to(kept);
        }
    }

    /// Goes back to the mark of a number, from 0 for the oldest.
    fn back_to(&mut self, kept: usize)
        requires { kept < length self.old.marks }
        ensures { self.new ≡ at_mark self.old kept }
    {
        let place = self.marks[kept];
        self.held.truncate(place.held);
        self.watched.truncate(place.watched);
        self.marks.truncate(kept);
    }
}
