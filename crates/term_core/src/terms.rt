//! The table of terms: each term once, by its number.

ghost use Rattle.std.specs.Prelude.{◌⊎◌, ◌≡◌, List, map, MatchBool, true, false, Contains, [], ◌∷◌, ◌++◌, length, take, None, IfOk, OnErr, OnOk};
ghost use Rattle.spec_text.specs.Bytes.{among};
ghost use Rattle.spec_sorts.specs.Terms.{Sort as TermSort, Head as TermHead, Term, Terms, app, list_of, sort_of};
ghost use Rattle.spec_sorts.specs.WellSorted.{AllHeads, IsHeadOver, IsWellSorted};
ghost use Rattle.spec_sorts.specs.Theory.{is_constant, is_divisor, is_zero_divisor};
ghost use Rattle.spec_sorts.specs.Subsets.{arguments_of, AreAmong, IsClosed};
ghost use Rattle.spec_sorts.specs.Literals.{literal_of};
ghost use Rattle.term_core.specs.Symbols.{HasSortIn, HaveSortsIn, sort_meant, symbol_named, symbol_of};
ghost use Rattle.term_core.specs.Tables.{declared_in, term_at, IsIn, AreIn, literal_at, takes, IsParameterAmong, IsPlaced, node_term, NamesBelow, AreDifferent, Extends};
ghost use Rattle.term_core.specs.Uses.{UsesDeclared, first_declared};
ghost use Rattle.term_core.specs.declared.ids.TermId.{TermId as Number};

use crate::facts::{Facts, facts_of};
use crate::ids::{Lit, SortId, SymbolId, TermId};
use crate::nodes::Node;
use crate::sorts::Sort;
use crate::symbols::Symbols;
use crate::taking::{has_head, takes_arguments};
use indexmap::IndexSet;
use no_memory::NoMemory;
use std::alloc::Global;
use std::marker::Model;

/// Holds the terms that were put, each once and after its arguments, and the sorts and symbols of which they are made.
///
/// Terms, sorts and symbols keep their numbers while the table grows.
#[derive(Drop)]
pub struct TermTable {
    symbols: Symbols,
    nodes: IndexSet<Node>,
    facts: Vec<Facts>,
}

impl Model for TermTable {
    ghost use Rattle.term_core.specs.Tables.{TableView, table_code, table_of};
    ghost use Rattle.term_core.specs.Facts.{TableFits};

    ghost Value = { TableView };

    ghost coded = { table_code };

    ghost view = { λ t. table_of t.symbols t.nodes.keys };

    ghost invariant = { λ t. TableFits t.symbols t.nodes.keys t.facts.items };
}

impl TermTable {
    /// Makes a table without sorts, symbols and terms, which takes no memory before the first of them.
    pub fn new(alloc: Global) -> TermTable
        ensures { result ≡ record { sorts = []; symbols = []; terms = [] } }
    {
        TermTable {
            symbols: Symbols::new(alloc),
            nodes: IndexSet::new(alloc),
            facts: Vec::new(alloc),
        }
    }

    /// Counts the terms. It takes no memory.
    pub fn len(&self) -> u64
        ensures { result ≡ length self.now.terms }
    {
        self.nodes.len() as u64
    }

    /// Lends the declared sorts and symbols.
    pub fn symbols(&self) -> &Symbols
        ensures { result.now ≡ declared_in self.now }
    {
        &self.symbols
    }

    /// Declares a sort, whose name must be new among sorts, and says its number, which is the next.
    ///
    /// `NoMemory` comes where the name finds no memory; then the table is as it was.
    /// Source: SMT-LIB 2.6, section 4.2.3.
    pub fn declare_sort(&mut self, name: &[u8]) -> Result<SortId, NoMemory>
        requires { among self.old.sorts name.now ≡ false }
        ensures declared { OnOk result
            ((self.new.sorts ≡ self.old.sorts ++ name.now ∷ [])
            × (self.new.symbols ≡ self.old.symbols) × (self.new.terms ≡ self.old.terms)) }
        ensures number { IfOk result (λ s. s.0 ≡ length self.old.sorts) }
        ensures same { OnErr result (self.new ≡ self.old) }
    {
        self.symbols.add_sort(name)
    }

    /// Declares a symbol, whose name must be new among symbols and whose sorts must be there. It says its number, which is
    /// the next. `gives` is the sort that the symbol gives.
    ///
    /// `NoMemory` comes where name or sorts find no memory; then the table is as it was.
    /// Source: SMT-LIB 2.6, section 4.2.3.
    pub fn declare(
        &mut self,
        name: &[u8],
        parameters: &[Sort],
        gives: Sort,
    ) -> Result<SymbolId, NoMemory>
        requires new { symbol_named self.old.symbols name.now ≡ None }
        requires sorts { HaveSortsIn self.old.sorts parameters.now × HasSortIn self.old.sorts gives }
        ensures declared { OnOk result
            ((self.new.symbols ≡ self.old.symbols ++ symbol_of self.old.sorts name.now parameters.now gives ∷ [])
            × (self.new.sorts ≡ self.old.sorts) × (self.new.terms ≡ self.old.terms)) }
        ensures number { IfOk result (λ s. s.0 ≡ length self.old.symbols) }
        ensures same { OnErr result (self.new ≡ self.old) }
    {
        self.symbols.add(name, parameters, gives)
    }

    /// Puts a term by its node and says its number: the one that it has, or else the next.
    ///
    /// What the node names must be there, and of sorts that its head takes. A parameter may have any number.
    /// `NoMemory` comes where the term finds no memory; then the table is as it was.
    pub fn put(&mut self, node: Node) -> Result<TermId, NoMemory>
        requires { IsPlaced self.old node }
        ensures there { IfOk result (λ id. IsIn self.new id × (term_at self.new id ≡ node_term self.old node)) }
        ensures kept { Extends self.old self.new × (declared_in self.new ≡ declared_in self.old) }
        ensures once { IfOk result (λ id. IsIn self.old id → self.new ≡ self.old) }
        ensures known { (id : Number) → IsIn self.old id → term_at self.old id ≡ node_term self.old node
            → self.new ≡ self.old }
        ensures added { OnOk result
            ((self.new ≡ self.old) ⊎ (self.new.terms ≡ self.old.terms ++ node_term self.old node ∷ [])) }
        ensures same { OnErr result (self.new ≡ self.old) }
    {
        let facts = facts_of(self, &node);
        self.facts.reserve(1)?;
        let (at, is_new) = self.nodes.insert_full(node)?;
        if !is_new {
            return Ok(TermId(at as u64));
        }
        self.facts.push_reserved(facts);
        Ok(TermId(at as u64))
    }

    /// Lends a term's node, whose arguments have smaller numbers. It takes no memory.
    pub fn node(&self, id: TermId) -> &Node
        requires { IsIn self.now id }
        ensures means { term_at self.now id ≡ node_term self.now result.now }
        ensures placed { IsPlaced self.now result.now }
        ensures before { NamesBelow id.0 result.now }
    {
        &self.nodes.as_slice()[id.0 as usize]
    }

    /// Says a term's sort. It takes no memory.
    ///
    /// Source: SMT-LIB 2.6, section 5.2.
    pub fn sort(&self, id: TermId) -> Sort
        requires { IsIn self.now id }
        ensures means { sort_meant self.now.sorts result ≡ sort_of (term_at self.now id) }
        ensures there { HasSortIn self.now.sorts result }
    {
        self.facts[id.0 as usize].sort
    }

    /// Tells whether a term is a literal, or `-`, `+`, `*` or `/` before constant terms. It takes no memory.
    pub fn is_constant(&self, id: TermId) -> bool
        requires { IsIn self.now id }
        ensures { result ≡ is_constant (term_at self.now id) }
    {
        self.facts[id.0 as usize].constant
    }

    /// Tells whether a term may be a divisor: a literal, `(- d)` or `(/ d e)` of divisors. It takes no memory.
    pub fn is_divisor(&self, id: TermId) -> bool
        requires { IsIn self.now id }
        ensures { result ≡ is_divisor (term_at self.now id) }
    {
        self.facts[id.0 as usize].divisor
    }

    /// Tells whether a divisor is zero: a literal 0, or what `-` or `/` has first is zero. It takes no memory.
    pub fn is_zero_divisor(&self, id: TermId) -> bool
        requires { IsIn self.now id }
        ensures { result ≡ is_zero_divisor (term_at self.now id) }
    {
        self.facts[id.0 as usize].zero
    }

    /// Takes away all terms after the first `len`, none where there are no more, and keeps the sorts and symbols. It takes
    /// no memory.
    pub fn cut(&mut self, len: u64)
        ensures terms { self.new.terms ≡ take len self.old.terms }
        ensures declared { declared_in self.new ≡ declared_in self.old }
    {
        self.nodes.truncate(len as usize);
        self.facts.truncate(len as usize);
    }

    /// Takes away all sorts after the first `sorts` and all symbols after the first `symbols`, none where there are no more.
    ///
    /// No term and no symbol that is left may use one that goes. It takes no memory.
    pub fn undeclare(&mut self, sorts: u64, symbols: u64)
        requires { UsesDeclared (first_declared sorts symbols self.old) }
        ensures { self.new ≡ first_declared sorts symbols self.old }
    {
        self.symbols.cut(sorts, symbols);
    }

    /// Takes the negations off a term: what is left, and whether their number is even. It takes no memory.
    ///
    /// Source: Alethe specification, the rule `resolution`.
    pub fn literal(&self, id: TermId) -> Lit
        requires { IsIn self.now id }
        ensures means { literal_at self.now result ≡ literal_of (term_at self.now id) }
        ensures there { IsIn self.now result.term }
    {
        let facts = self.facts[id.0 as usize];
        Lit {
            term: facts.left,
            positive: facts.even,
        }
    }

    /// Tells whether what a node names is there, and of sorts that its head takes. It takes no memory.
    pub fn takes(&self, node: &Node) -> bool
        ensures { MatchBool result (IsPlaced self.now node.now) (IsPlaced self.now node.now → ⊥) }
    {
        let arguments = node.arguments.as_slice();
        if !has_head(self, node.head) {
            return false;
        }
        if !self.has_terms(arguments) {
            return false;
        }
        takes_arguments(self, node.head, arguments)
    }

    /// Tells whether each number is one of the table's. It takes no memory.
    pub fn has_terms(&self, ids: &[TermId]) -> bool
        ensures { MatchBool result (AreIn self.now ids.now) (AreIn self.now ids.now → ⊥) }
    {
        'terms: for id in ids.iter() {
            if id.0 >= self.len() {
                return false;
            }
        }
        true
    }

    /// States that different numbers mean different terms.
    pub fn ids_are_unique(&self)
        ensures { AreDifferent self.now.terms }
    {
        let _ = &self.symbols;
    }

    /// States that the arguments of the table's terms are among them.
    pub fn terms_are_closed(&self)
        ensures { IsClosed self.now.terms }
    {
        let _ = &self.symbols;
    }

    /// States that the arguments of each of the table's terms are before it.
    pub fn arguments_come_first(&self)
        ensures { (before after : List Term) (t : Term) → self.now.terms ≡ before ++ t ∷ after
            → AreAmong (arguments_of t) before }
    {
        let _ = &self.symbols;
    }

    /// States that the head of each of the table's terms takes arguments of the sorts of its own.
    ///
    /// Source: SMT-LIB 2.6, section 5.2.
    pub fn heads_take_their_arguments(&self)
        ensures { (h : TermHead) (ts : Terms) → Contains self.now.terms (app h ts)
            → takes h (map sort_of (list_of ts)) ≡ true }
    {
        let _ = &self.symbols;
    }

    /// States that the symbol that heads a term of the table, if one does, is declared, and that each number is in lowest
    /// terms.
    ///
    /// Source: SMT-LIB 2.6, section 5.2.
    pub fn heads_are_declared(&self)
        ensures { (h : TermHead) (ts : Terms) → Contains self.now.terms (app h ts) → IsHeadOver self.now.symbols h }
    {
        let _ = &self.symbols;
    }

    /// States that the sorts and symbols that the table's symbols and terms use are declared.
    pub fn uses_what_is_declared(&self)
        ensures { UsesDeclared self.now }
    {
        self.symbols.symbols_use_sorts();
    }

    /// States that each of the table's terms is well sorted, where its parameters have the sorts of their numbers.
    ///
    /// Source: SMT-LIB 2.6, section 5.2.
    pub fn terms_are_well_sorted(&self)
        ensures { (parameters : List TermSort) (t : Term) → Contains self.now.terms t
            → AllHeads (IsParameterAmong parameters) t → IsWellSorted self.now.symbols parameters t }
    {
        let _ = &self.symbols;
    }
}
