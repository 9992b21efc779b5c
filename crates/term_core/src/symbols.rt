//! The declared sorts and symbols: each name once.

ghost use Rattle.std.specs.Prelude.{◌≡◌, false, ◌<◌, [], ◌∷◌, ◌++◌, length, take, IfOk, OnErr, OnOk, MatchBool, MatchOption, None, Some};
ghost use Rattle.spec_text.specs.Bytes.{among};
ghost use Rattle.term_core.specs.Uses.{AreSymbolsOver};
ghost use Rattle.term_core.specs.Symbols.{sort_name, IsSort, HasSortIn, HaveSortsIn, sort_meant, sorts_meant, symbol_at, IsSymbol, symbol_named, symbol_of, AreDeclared};

use crate::ids::{SortId, SymbolId};
use crate::name_table::NameTable;
use crate::sorts::{Rank, Sort};
use no_memory::NoMemory;
use std::alloc::Global;
use std::marker::Model;

/// Holds the declared sorts and the declared symbols in the order in which they came. No name occurs twice among the sorts,
/// and none among the symbols.
///
/// A look-up is by hash and takes no memory. Source: SMT-LIB 2.6, section 4.2.3.
#[derive(Drop)]
pub struct Symbols {
    alloc: Global,
    sorts: NameTable,
    names: NameTable,
    ranks: Vec<Rank>,
}

impl Model for Symbols {
    ghost use Rattle.term_core.specs.Symbols.{SymbolsView, symbols_code, symbols_of, AreRanks};

    ghost Value = { SymbolsView };

    ghost coded = { symbols_code };

    ghost view = { λ s. record { sorts = s.sorts; symbols = symbols_of s.sorts s.names s.ranks.items } };

    ghost invariant = { λ s. AreRanks s.sorts s.names s.ranks.items };
}

impl Symbols {
    /// Makes empty lists of sorts and symbols, which take no memory before the first of them.
    pub fn new(alloc: Global) -> Symbols
        ensures { result ≡ record { sorts = []; symbols = [] } }
    {
        Symbols {
            alloc,
            sorts: NameTable::new(alloc),
            names: NameTable::new(alloc),
            ranks: Vec::new(alloc),
        }
    }

    /// Counts the symbols.
    pub fn len(&self) -> u64
        ensures { result ≡ length self.now.symbols }
    {
        self.names.len()
    }

    /// Counts the declared sorts.
    pub fn sorts_len(&self) -> u64
        ensures { result ≡ length self.now.sorts }
    {
        self.sorts.len()
    }

    /// Finds the number of the declared sort of that name; `None` where there is none.
    ///
    /// Source: SMT-LIB 2.6, section 4.2.3.
    pub fn find_sort(&self, name: &[u8]) -> Option<SortId>
        ensures { MatchOption result
            (among self.now.sorts name.now ≡ false)
            (λ s. IsSort self.now.sorts s × (sort_name self.now.sorts s ≡ name.now)) }
    {
        let number = self.sorts.find(name)?;
        Some(SortId(number))
    }

    /// Lends the name of a declared sort, without bars.
    pub fn sort_name(&self, id: SortId) -> &[u8]
        requires { IsSort self.now.sorts id }
        ensures { result.now ≡ sort_name self.now.sorts id }
    {
        self.sorts.name(id.0)
    }

    /// Tells whether a sort is there: Bool, Real, or one of the declared sorts.
    pub fn has_sort(&self, sort: Sort) -> bool
        ensures { MatchBool result (HasSortIn self.now.sorts sort) (HasSortIn self.now.sorts sort → ⊥) }
    {
        match sort {
            Sort::Declared(id) => id.0 < self.sorts.len(),
            _ => true,
        }
    }

    /// Tells whether each sort is there.
    pub fn has_sorts(&self, sorts: &[Sort]) -> bool
        ensures { MatchBool result (HaveSortsIn self.now.sorts sorts.now) (HaveSortsIn self.now.sorts sorts.now → ⊥) }
    {
        'sorts: for sort in sorts.iter() {
            if !self.has_sort(*sort) {
                return false;
            }
        }
        true
    }

    /// Finds the number of the symbol of that name; `None` where none is declared.
    ///
    /// Source: SMT-LIB 2.6, section 4.2.3.
    pub fn find(&self, name: &[u8]) -> Option<SymbolId>
        ensures { MatchOption result
            (symbol_named self.now.symbols name.now ≡ None)
            (λ s. IsSymbol self.now.symbols s
            × ((symbol_at self.now.symbols s).name ≡ name.now)
            × (symbol_named self.now.symbols name.now ≡ Some (symbol_at self.now.symbols s))) }
    {
        let number = self.names.find(name)?;
        Some(SymbolId(number))
    }

    /// Lends the name of a symbol, without bars.
    ///
    /// Source: SMT-LIB 2.6, section 3.1.
    pub fn name(&self, id: SymbolId) -> &[u8]
        requires { IsSymbol self.now.symbols id }
        ensures { result.now ≡ (symbol_at self.now.symbols id).name }
    {
        self.names.name(id.0)
    }

    /// Lends the sorts of a symbol's arguments, in their order.
    pub fn parameters(&self, id: SymbolId) -> &[Sort]
        requires { IsSymbol self.now.symbols id }
        ensures means { sorts_meant self.now.sorts result.now ≡ (symbol_at self.now.symbols id).parameters }
        ensures there { HaveSortsIn self.now.sorts result.now }
    {
        self.ranks[id.0 as usize].parameters.as_slice()
    }

    /// Says the sort that a symbol gives.
    pub fn result(&self, id: SymbolId) -> Sort
        requires { IsSymbol self.now.symbols id }
        ensures means { sort_meant self.now.sorts result ≡ (symbol_at self.now.symbols id).result }
        ensures there { HasSortIn self.now.sorts result }
    {
        self.ranks[id.0 as usize].result
    }

    /// Puts a sort last, by a copy of its name, which must be new among sorts, and says its number.
    ///
    /// `NoMemory` comes where the name finds no memory; then all is as it was. Source: SMT-LIB 2.6, section 4.2.3.
    pub fn add_sort(&mut self, name: &[u8]) -> Result<SortId, NoMemory>
        requires { among self.old.sorts name.now ≡ false }
        ensures added { OnOk result
            ((self.new.sorts ≡ self.old.sorts ++ name.now ∷ []) × (self.new.symbols ≡ self.old.symbols)) }
        ensures number { IfOk result (λ s. s.0 ≡ length self.old.sorts) }
        ensures same { OnErr result (self.new ≡ self.old) }
    {
        let number = self.sorts.len();
        self.sorts.add(name)?;
        Ok(SortId(number))
    }

    /// Puts a symbol last, by copies of its name and of the sorts of its arguments, and says its number. `gives` is the
    /// sort that it gives. The name must be new among symbols, and the sorts must be there.
    ///
    /// `NoMemory` comes where one of them finds no memory; then all is as it was. Source: SMT-LIB 2.6, section 4.2.3.
    pub fn add(
        &mut self,
        name: &[u8],
        parameters: &[Sort],
        gives: Sort,
    ) -> Result<SymbolId, NoMemory>
        requires new { symbol_named self.old.symbols name.now ≡ None }
        requires sorts { HaveSortsIn self.old.sorts parameters.now × HasSortIn self.old.sorts gives }
        ensures added { OnOk result
            ((self.new.symbols ≡ self.old.symbols ++ symbol_of self.old.sorts name.now parameters.now gives ∷ [])
            × (self.new.sorts ≡ self.old.sorts)) }
        ensures number { IfOk result (λ s. s.0 ≡ length self.old.symbols) }
        ensures same { OnErr result (self.new ≡ self.old) }
    {
        let number = self.names.len();
        let parameters = parameters.to_vec(self.alloc)?;
        self.ranks.reserve(1)?;
        self.names.add(name)?;
        self.ranks.push_reserved(Rank {
            parameters,
            result: gives,
        });
        Ok(SymbolId(number))
    }

    /// Takes away all sorts after the first `sorts` and all symbols after the first `symbols`, none where there are no more.
    ///
    /// No symbol that is left may use a sort that goes. It takes no memory.
    pub fn cut(&mut self, sorts: u64, symbols: u64)
        requires { AreSymbolsOver (take sorts self.old.sorts) (take symbols self.old.symbols) }
        ensures { self.new ≡ record { sorts = take sorts self.old.sorts; symbols = take symbols self.old.symbols } }
    {
        self.sorts.cut(sorts);
        self.names.cut(symbols);
        self.ranks.truncate(symbols as usize);
    }

    /// States that the symbols use declared sorts alone.
    pub fn symbols_use_sorts(&self)
        ensures { AreSymbolsOver self.now.sorts self.now.symbols }
    {
        let _ = &self.names;
    }

    /// States that no name occurs twice.
    pub fn are_declared(&self)
        ensures { AreDeclared self.now.sorts self.now.symbols }
    {
        let _ = &self.names;
    }
}
