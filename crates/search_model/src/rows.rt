//! The tables of symbols, term after term.

ghost use Rattle.std.specs.Prelude.{◌≡◌, ◌<◌, ◌++◌, ◌∷◌, [], List, length, All, Contains, OnOk, IfOk};
ghost use Rattle.spec_text.specs.Bytes.{Name};
ghost use Rattle.spec_numbers.specs.Fractions.{zero_fraction};
ghost use Rattle.spec_sorts.specs.Terms.{Term};
ghost use Rattle.spec_sorts.specs.Values.{number};
ghost use Rattle.spec_valuations.specs.Tables.{Valuation, default_value};
ghost use Rattle.term_core.specs.declared.ids.TermId.{TermId as Number};
ghost use Rattle.term_core.specs.Symbols.{HasSortIn, sort_meant};
ghost use Rattle.term_core.specs.Tables.{term_at, IsIn};
ghost use Rattle.term_walks.specs.Valuations.{value_meant, row_meant, IsNamed, IsRowNamed, IsTableNamed};
ghost use Rattle.search_model.specs.Made.{HasValues, meant, row_put, default_put, AreBlank, AreTables, IsApplied};

use crate::values::values_at;
use no_memory::NoMemory;
use ratio128::Ratio;
use std::alloc::Global;
use term_core::{Head, Sort, SymbolId, TermId, TermTable};
use term_walks::{Table, Value, ValueRow};

/// Gives the symbol that a head is; nothing where it is none.
fn applied(head: Head) -> Option<SymbolId>
    ensures { IsApplied head result }
{
    match head {
        Head::Apply(symbol) => Some(symbol),
        _ => None,
    }
}

/// Gives the number 0.
fn zero() -> Value
    ensures means { (sorts : List Name) → value_meant sorts result ≡ number zero_fraction }
    ensures named { (sorts : List Name) → IsNamed sorts result }
{
    Value::Number(Ratio::of(0, 1))
}

/// Gives a value of a sort: false, 0, or the first element.
fn default_of(sort: Sort) -> Value
    ensures means { (sorts : List Name) → value_meant sorts result ≡ default_value (sort_meant sorts sort) }
    ensures named { (sorts : List Name) → HasSortIn sorts sort → IsNamed sorts result }
{
    match sort {
        Sort::Bool => Value::Bool(false),
        Sort::Real => zero(),
        Sort::Declared(id) => Value::Element(id, 0),
    }
}

/// Gives a table without rows for each symbol, by its number.
pub(crate) fn blank_tables(alloc: Global, table: &TermTable) -> Result<Vec<Table>, NoMemory>
    ensures { IfOk result (λ tables. AreBlank table.now (length table.now.symbols) tables.items) }
{
    let mut tables = Vec::new(alloc);
    'symbols: for at in 0..table.symbols().len() {
        tables.push(Table {
            rows: Vec::new(alloc),
            default: default_of(table.symbols().result(SymbolId(at))),
        })?;
    }
    Ok(tables)
}

/// Puts a row last in one of the tables.
fn add_row(tables: &mut Vec<Table>, at: usize, row: ValueRow) -> Result<(), NoMemory>
    requires { at < length tables.old.items }
    ensures means { OnOk result ((sorts : List Name) → meant sorts tables.new.items
        ≡ row_put (meant sorts tables.old.items) at (row_meant sorts row)) }
    ensures named { OnOk result ((sorts : List Name) → All (IsTableNamed sorts) tables.old.items → IsRowNamed sorts row
        → All (IsTableNamed sorts) tables.new.items) }
{
    tables[at].rows.push(row)?;
    Ok(())
}

/// Gives one of the tables another default.
fn set_default(tables: &mut Vec<Table>, at: usize, value: Value)
    requires { at < length tables.old.items }
    ensures means { (sorts : List Name) → meant sorts tables.new.items
        ≡ default_put (meant sorts tables.old.items) at (value_meant sorts value) }
    ensures named { (sorts : List Name) → All (IsTableNamed sorts) tables.old.items → IsNamed sorts value
        → All (IsTableNamed sorts) tables.new.items }
{
    tables[at].default = value;
}

/// Puts the row of a term into the table of the symbol that heads it, if one does. The value of a constant is its
/// table's default.
pub(crate) fn note(
    alloc: Global,
    table: &TermTable,
    values: &[Value],
    id: TermId,
    tables: &mut Vec<Table>,
) -> Result<(), NoMemory>
    requires there { IsIn table.now id }
    requires valued { id.0 < length values.now }
    requires tables { length tables.old.items ≡ length table.now.symbols }
    ensures { OnOk result ((v : Valuation) (ids : List Number) (done : List Term) → HasValues table.now v ids values.now
        → Contains ids id → AreTables table.now v done tables.old.items
        → AreTables table.now v (done ++ term_at table.now id ∷ []) tables.new.items) }
{
    table.ids_are_unique();
    table.heads_take_their_arguments();
    table.symbols().are_declared();
    let node = table.node(id);
    let Some(symbol) = applied(node.head) else {
        return Ok(());
    };
    let at = symbol.0 as usize;
    let value = values[id.0 as usize];
    if node.arguments.is_empty() {
        set_default(tables, at, value);
        return Ok(());
    }
    let arguments = values_at(alloc, values, node.arguments.as_slice())?;
    add_row(tables, at, ValueRow { arguments, value })?;
    Ok(())
}
