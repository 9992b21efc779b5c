//! What names stand for.

ghost use Rattle.std.specs.Prelude.{◌≡◌, ◌+◌, ◌++◌, [], ◌∷◌, length, take, nat_le, option_map, OnOk, OnErr};
ghost use Rattle.term_reader.specs.Scopes.{no_names, sort_under, function_under, body_end, terms_needed};

use crate::name_stack::NameStack;
use no_memory::NoMemory;
use std::alloc::Global;
use std::marker::Model;
use term_core::{Sort, SymbolId, TermId};

/// Holds a definition of a function: what it takes and gives, and the term that it stands for.
///
/// Source: SMT-LIB 2.6, section 4.2.3.
#[derive(Drop)]
pub struct Macro {
    /// The sorts of its parameters, in their order.
    pub parameters: Vec<Sort>,
    /// The sort of its body.
    pub result: Sort,
    /// The term of its body, with each parameter by its number.
    pub body: TermId,
}

/// Holds what a function's name stands for.
#[derive(Drop)]
pub enum Function {
    /// A declared symbol.
    Declared(SymbolId),
    /// A definition.
    Defined(Macro),
}

/// Holds the names of sorts and of functions, in the order in which they came, with what each stands for in a table of
/// terms. Of a name that came twice the newest counts.
///
/// A look-up is by hash and takes no memory. Source: SMT-LIB 2.6, section 4.2.3.
#[derive(Drop)]
pub struct Scope {
    sort_names: NameStack,
    sorts: Vec<Sort>,
    names: NameStack,
    functions: Vec<Function>,
}

impl Model for Scope {
    ghost use Rattle.term_reader.specs.Scopes.{ScopeView, IsScope};

    ghost Value = { ScopeView };

    ghost view = { λ s. record {
      sort_names = s.sort_names;
      sorts = s.sorts.items;
      names = s.names;
      functions = s.functions.items;
    } };

    ghost invariant = { λ s. IsScope s.sort_names s.sorts.items s.names s.functions.items };
}

/// Gives one past the number of a function's body, where that is below `len`; else 0.
fn body_end(function: &Function, len: u64) -> u64
    ensures { result ≡ body_end len function.now }
{
    match function {
        Function::Declared(_) => 0,
        Function::Defined(defined) => {
            if defined.body.0 < len {
                return defined.body.0 + 1;
            }
            0
        }
    }
}

/// Counts how many of the first terms the bodies of functions are among, of those whose numbers are below `len`.
fn needed_by(functions: &[Function], len: u64) -> u64
    ensures { result ≡ terms_needed len functions.now }
{
    let mut needed = 0;
    let mut rest = functions;
    'functions: while let Some((function, after)) = rest.split_first() {
        needed = body_end(function, len).max(needed);
        rest = after;
    }
    needed
}

impl Scope {
    /// Makes a scope without names, which takes no memory before the first of them.
    pub fn new(alloc: Global) -> Scope
        ensures { result ≡ no_names }
    {
        Scope {
            sort_names: NameStack::new(alloc),
            sorts: Vec::new(alloc),
            names: NameStack::new(alloc),
            functions: Vec::new(alloc),
        }
    }

    /// Finds the sort that a name stands for; `None` where it stands for none. Bool and Real are none of these names.
    ///
    /// Source: SMT-LIB 2.6, section 4.2.3.
    pub fn sort(&self, name: &[u8]) -> Option<Sort>
        ensures { result ≡ sort_under self.now name.now }
    {
        match self.sort_names.find(name) {
            None => None,
            Some(place) => Some(self.sorts[place]),
        }
    }

    /// Finds the function that a name stands for; `None` where it stands for none. A theory's are none of these.
    ///
    /// Source: SMT-LIB 2.6, section 4.2.3.
    pub fn function(&self, name: &[u8]) -> Option<&Function>
        ensures { option_map (λ f. f.now) result ≡ function_under self.now name.now }
    {
        match self.names.find(name) {
            None => None,
            Some(place) => Some(&self.functions[place]),
        }
    }

    /// Puts a name of a sort last, by a copy of its bytes.
    ///
    /// `NoMemory` comes where the copy or its place find no memory; then the scope is as it was.
    /// Source: SMT-LIB 2.6, section 4.2.3.
    pub fn name_sort(&mut self, name: &[u8], sort: Sort) -> Result<(), NoMemory>
        ensures added { OnOk result (self.new
            ≡ record self.old {
              sort_names = self.old.sort_names ++ name.now ∷ [];
              sorts = self.old.sorts ++ sort ∷ [];
            }) }
        ensures same { OnErr result (self.new ≡ self.old) }
    {
        self.sorts.reserve(1)?;
        self.sort_names.push(name)?;
        self.sorts.push_reserved(sort);
        Ok(())
    }

    /// Puts a name of a function last, by a copy of its bytes.
    ///
    /// `NoMemory` comes where the copy or its place find no memory; then the scope is as it was.
    /// Source: SMT-LIB 2.6, section 4.2.3.
    pub fn name_function(&mut self, name: &[u8], function: Function) -> Result<(), NoMemory>
        ensures added { OnOk result (self.new
            ≡ record self.old {
              names = self.old.names ++ name.now ∷ [];
              functions = self.old.functions ++ function ∷ [];
            }) }
        ensures same { OnErr result (self.new ≡ self.old) }
    {
        self.functions.reserve(1)?;
        self.names.push(name)?;
        self.functions.push_reserved(function);
        Ok(())
    }

    /// States that each name stands for something.
    pub fn each_name_means_something(&self)
        ensures sorts { length self.now.sort_names ≡ length self.now.sorts }
        ensures functions { length self.now.names ≡ length self.now.functions }
    {
        let _ = &self.names;
    }

    /// Counts the names of sorts.
    pub fn sorts_len(&self) -> usize
        ensures { result ≡ length self.now.sort_names }
    {
        self.sort_names.len()
    }

    /// Counts the names of functions.
    pub fn len(&self) -> usize
        ensures { result ≡ length self.now.names }
    {
        self.names.len()
    }

    /// Tells whether there are no more names, of sorts and of functions together, than a limit.
    pub fn has_room(&self, limit: u64) -> bool
        ensures { result ≡ nat_le (length self.now.sort_names + length self.now.names) limit }
    {
        let sorts = self.sort_names.len() as u64;
        sorts <= limit && self.names.len() as u64 <= limit - sorts
    }

    /// Counts how many of the first `len` terms definitions need: one past the greatest number that a body has below `len`,
    /// and 0 where none has. It takes no memory, and its time goes with the names of functions.
    pub fn terms_needed(&self, len: u64) -> u64
        ensures { result ≡ terms_needed len self.now.functions }
    {
        needed_by(self.functions.as_slice(), len)
    }

    /// Takes away all names of sorts after the first `sorts`, and of functions after the first `functions`, none where
    /// there are no more. It takes no memory.
    pub fn back(&mut self, sorts: usize, functions: usize)
        ensures { self.new
            ≡ record {
              sort_names = take sorts self.old.sort_names;
              sorts = take sorts self.old.sorts;
              names = take functions self.old.names;
              functions = take functions self.old.functions;
            } }
    {
        self.sort_names.back(sorts);
        self.sorts.truncate(sorts);
        self.names.back(functions);
        self.functions.truncate(functions);
    }
}
