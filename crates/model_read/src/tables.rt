//! The tables of symbols, by the definitions of a model.

ghost use Rattle.std.specs.Prelude.{◌≡◌, List};
ghost use Rattle.spec_text.specs.Bytes.{Name};
ghost use Rattle.spec_sorts.specs.Signatures.{Signature, known_as};
ghost use Rattle.spec_model_files.specs.Definitions.{usual_value, declared_symbol, usual_table};
ghost use Rattle.term_core.specs.Symbols.{HasSortIn, IsSymbol, sort_meant, symbol_at};
ghost use Rattle.term_reader.specs.Scopes.{ScopeMeans, HasSignature};
ghost use Rattle.term_walks.specs.Valuations.{value_meant, table_meant, IsNamed, IsTableNamed};

use crate::definitions::{SymbolTable, declared};
use no_memory::NoMemory;
use ratio128::Ratio;
use std::alloc::Global;
use term_core::{Sort, SymbolId, TermTable};
use term_reader::Scope;
use term_walks::{Table, Value};

/// Holds a table for each symbol by its number, and whether a definition gives it.
#[derive(Drop)]
pub(crate) struct Tables {
    /// The tables.
    pub(crate) tables: Vec<Table>,
    /// Which of them are by a definition.
    pub(crate) marks: Vec<bool>,
}

/// Gives the value that stands for a sort: false, 0, or the first element.
fn usual_value(sort: Sort) -> Value
    ensures means { (sorts : List Name) → value_meant sorts result ≡ usual_value (sort_meant sorts sort) }
    ensures named { (sorts : List Name) → HasSortIn sorts sort → IsNamed sorts result }
{
    match sort {
        Sort::Bool => Value::Bool(false),
        Sort::Real => Value::Number(Ratio::of(0, 1)),
        Sort::Declared(id) => Value::Element(id, 0),
    }
}

/// Gives the value of a symbol that no definition gives a table: that of its sort where its name is declared, else
/// false.
fn value_without(table: &TermTable, scope: &Scope, symbol: SymbolId) -> Value
    requires known { HasSignature table.now scope.now }
    requires symbol { IsSymbol table.now.symbols symbol }
    ensures means { (g : Signature) → ScopeMeans table.now scope.now g → value_meant table.now.sorts result
        ≡ (usual_table (declared_symbol (known_as g (symbol_at table.now.symbols symbol).name))).default }
    ensures named { IsNamed table.now.sorts result }
{
    match declared(scope, table.symbols().name(symbol)) {
        Some(id) => usual_value(table.symbols().result(id)),
        None => Value::Bool(false),
    }
}

/// Gives the table of a symbol that no definition gives one: no rows, and that value.
fn table_without(alloc: Global, table: &TermTable, scope: &Scope, symbol: SymbolId) -> Table
    requires known { HasSignature table.now scope.now }
    requires symbol { IsSymbol table.now.symbols symbol }
    ensures means { (g : Signature) → ScopeMeans table.now scope.now g → table_meant table.now.sorts result
        ≡ usual_table (declared_symbol (known_as g (symbol_at table.now.symbols symbol).name)) }
    ensures named { IsTableNamed table.now.sorts result }
{
    Table {
        rows: Vec::new(alloc),
        default: value_without(table, scope, symbol),
    }
}

impl Tables {
    ghost use Rattle.std.specs.Prelude.{◌<◌, [], true, length, slice_set, IfOk};
    ghost use Rattle.model_read.specs.Definitions.{AreTables};

    /// Gives the tables before the first definition.
    ///
    /// `NoMemory` comes where none is left.
    pub(crate) fn new(alloc: Global, table: &TermTable, scope: &Scope) -> Result<Tables, NoMemory>
        requires known { HasSignature table.now scope.now }
        ensures { (g : Signature) → ScopeMeans table.now scope.now g
            → IfOk result (λ m. AreTables table.now g [] m.tables.items m.marks.items) }
    {
        let mut tables = Vec::new(alloc);
        let mut marks = Vec::new(alloc);
        'symbols: for at in 0..table.symbols().len() {
            tables.push(table_without(alloc, table, scope, SymbolId(at)))?;
            marks.push(false)?;
        }
        Ok(Tables { tables, marks })
    }

    /// Puts the table of a definition, whose symbol had none by a definition.
    pub(crate) fn put(&mut self, made: SymbolTable)
        requires tables { made.symbol.0 < length self.old.tables.items }
        requires marks { made.symbol.0 < length self.old.marks.items }
        ensures tables { self.new.tables.items ≡ slice_set self.old.tables.items made.symbol.0 made.table }
        ensures marks { self.new.marks.items ≡ slice_set self.old.marks.items made.symbol.0 true }
    {
        let at = made.symbol.0 as usize;
        self.tables[at] = made.table;
        self.marks[at] = true;
    }
}
