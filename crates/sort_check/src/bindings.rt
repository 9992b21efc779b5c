//! Bound names with their terms.

ghost use Rattle.std.specs.Prelude.{◌≡◌, ◌<◌, [], ◌∷◌, ◌++◌, length, take, drop, slice_index_or, OnErr, OnOk};
ghost use Rattle.spec_text.specs.Bytes.{among};
ghost use Rattle.spec_sorts.specs.Theory.{look_up};
ghost use Rattle.term_reader.specs.NameStacks.{newest};
ghost use Rattle.sort_check.specs.Bindings.{no_bindings, no_id};

use no_memory::NoMemory;
use std::alloc::Global;
use std::marker::Model;
use term_core::TermId;
use term_reader::NameStack;

/// Holds bound names with the terms that they stand for, oldest first. Of a name that is bound twice the newest counts.
///
/// A look-up is by hash and takes no memory. Source: SMT-LIB 2.6, section 3.6.1.
#[derive(Drop)]
pub struct Bindings {
    names: NameStack,
    terms: Vec<TermId>,
}

impl Model for Bindings {
    ghost use Rattle.std.specs.Prelude.{◌≡◌, length};
    ghost use Rattle.sort_check.specs.Bindings.{BindingsView};

    ghost Value = { BindingsView };

    ghost view = { λ b. record { names = b.names; terms = b.terms.items } };

    ghost invariant = { λ b. length b.names ≡ length b.terms.items };
}

impl Bindings {
    /// Makes a list without names, which takes no memory before the first of them.
    pub fn new(alloc: Global) -> Bindings
        ensures { result ≡ no_bindings }
    {
        Bindings {
            names: NameStack::new(alloc),
            terms: Vec::new(alloc),
        }
    }

    /// Counts the names.
    pub fn len(&self) -> usize
        ensures { result ≡ length self.now.names }
    {
        self.names.len()
    }

    /// States that each name has its term.
    pub fn each_name_has_a_term(&self)
        ensures { length self.now.names ≡ length self.now.terms }
    {
        let _ = &self.names;
    }

    /// Finds the term that a name stands for; `None` where it is none of these.
    pub fn find(&self, name: &[u8]) -> Option<TermId>
        ensures { result ≡ look_up (newest self.now.names self.now.terms) name.now }
    {
        match self.names.find(name) {
            None => None,
            Some(place) => Some(self.terms[place]),
        }
    }

    /// Tells whether a name is one of those from a place on.
    pub fn has_from(&self, name: &[u8], from: usize) -> bool
        ensures { result ≡ among (drop from self.now.names) name.now }
    {
        match self.names.find(name) {
            None => false,
            Some(place) => from <= place,
        }
    }

    /// Says the name of a place.
    pub fn name(&self, place: usize) -> &[u8]
        requires { place < length self.now.names }
        ensures { result.now ≡ slice_index_or self.now.names place [] }
    {
        self.names.name(place)
    }

    /// Says the term of a place.
    pub fn term(&self, place: usize) -> TermId
        requires { place < length self.now.names }
        ensures { result ≡ slice_index_or self.now.terms place no_id }
    {
        self.terms[place]
    }

    /// Binds a name to a term, by a copy of its bytes where it was not met before.
    ///
    /// `NoMemory` comes where the copy or its place find no memory; then all is as it was.
    pub fn push(&mut self, name: &[u8], term: TermId) -> Result<(), NoMemory>
        ensures added { OnOk result (self.new
            ≡ record { names = self.old.names ++ name.now ∷ []; terms = self.old.terms ++ term ∷ [] }) }
        ensures same { OnErr result (self.new ≡ self.old) }
    {
        self.terms.reserve(1)?;
        self.names.push(name)?;
        self.terms.push_reserved(term);
        Ok(())
    }

    /// Takes away all names after the first `len`, none where there are no more. It takes no memory.
    pub fn back(&mut self, len: usize)
        ensures { self.new ≡ record { names = take len self.old.names; terms = take len self.old.terms } }
    {
        self.names.back(len);
        self.terms.truncate(len);
    }
}
