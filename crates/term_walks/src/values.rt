//! Values, and interpretations of declared symbols.

ghost use Rattle.std.specs.Prelude.{◌≡◌, List};
ghost use Rattle.spec_text.specs.Bytes.{Name};
ghost use Rattle.spec_sorts.specs.Values.{is_true, number_in, same_value, same_values, first_fit};
ghost use Rattle.ratio128.specs.Meant.{fraction};
ghost use Rattle.term_core.specs.NameLists.{HaveNoTwice};
ghost use Rattle.term_walks.specs.Valuations.{value_meant, values_meant, table_meant, IsNamed, AreNamed, AreRowsNamed};

use crate::numbers::zero;
use no_memory::NoMemory;
use ratio128::{Ratio, Wide};
use std::alloc::{AllocError, AllocFailed};
use term_core::SortId;

/// Is what a term means.
///
/// Source: SMT-LIB 2.6, section 5.3.
#[derive(Clone, Copy, Debug, PartialEq, Eq)]
pub enum Value {
    /// A truth value.
    Bool(bool),
    /// A number.
    Number(Ratio),
    /// An element of a declared sort, by the numbers of both, from 0.
    Element(SortId, u64),
}

/// Says the value of a symbol at arguments.
#[derive(Drop, Debug)]
pub struct ValueRow {
    /// The arguments' values, in their order.
    pub arguments: Vec<Value>,
    /// The value there.
    pub value: Value,
}

/// Says the value of a symbol at all arguments: by its rows, of which the first that fits counts, or else by the default.
///
/// A symbol without parameters has no rows.
#[derive(Drop, Debug)]
pub struct Table {
    /// The rows.
    pub rows: Vec<ValueRow>,
    /// The value for all other arguments.
    pub default: Value,
}

/// Interprets the symbols of a table of terms: each by the table of its number.
///
/// Source: SMT-LIB 2.6, section 5.3; the finite tables are own.
#[derive(Drop, Debug)]
pub struct Interp {
    /// The tables, by the symbols' numbers.
    pub tables: Vec<Table>,
}

/// Says why a value is not found.
#[derive(Clone, Copy, Debug, PartialEq, Eq)]
pub enum ValueStop {
    /// An operation of the term whose result leaves the bound on fractions.
    Wide(Wide),
    /// Out of memory, which says nothing of the value.
    Memory,
}

impl From<Wide> for ValueStop {
    ghost use Rattle.term_walks.specs.declared.values.ValueStop.TheVariants.{Wide as too_wide};

    ghost from_gives = { λ w r. r ≡ too_wide w };

    fn from(wide: Wide) -> ValueStop {
        ValueStop::Wide(wide)
    }
}

impl From<NoMemory> for ValueStop {
    ghost use Rattle.term_walks.specs.declared.values.ValueStop.TheVariants.{Memory};

    ghost from_gives = { λ _ r. r ≡ Memory };

    fn from(_error: NoMemory) -> ValueStop {
        ValueStop::Memory
    }
}

impl From<AllocError> for ValueStop {
    ghost use Rattle.term_walks.specs.declared.values.ValueStop.TheVariants.{Memory};

    ghost from_gives = { λ _ r. r ≡ Memory };

    fn from(_error: AllocError) -> ValueStop {
        ValueStop::Memory
    }
}

impl<T: Drop> From<AllocFailed<T>> for ValueStop {
    ghost use Rattle.term_walks.specs.declared.values.ValueStop.TheVariants.{Memory};

    ghost from_gives = { λ _ r. r ≡ Memory };

    fn from(_error: AllocFailed<T>) -> ValueStop {
        ValueStop::Memory
    }
}

impl Value {
    /// Tells whether it is the truth value true.
    pub fn is_true(self) -> bool
        ensures { (sorts : List Name) → result ≡ is_true (value_meant sorts self) }
    {
        match self {
            Value::Bool(truth) => truth,
            _ => false,
        }
    }

    /// Says the number that it is, and 0 where it is none.
    pub fn number(self) -> Ratio
        ensures { (sorts : List Name) → fraction result ≡ number_in (value_meant sorts self) }
    {
        match self {
            Value::Number(number) => number,
            Value::Bool(_) => zero(),
            Value::Element(_, _) => zero(),
        }
    }

    /// Tells whether two values are the same.
    pub fn is_same(self, other: Value) -> bool
        ensures { (sorts : List Name) → HaveNoTwice sorts → IsNamed sorts self → IsNamed sorts other
            → result ≡ same_value (value_meant sorts self) (value_meant sorts other) }
    {
        match (self, other) {
            (Value::Bool(a), Value::Bool(b)) => a == b,
            (Value::Number(a), Value::Number(b)) => a == b,
            (Value::Element(s, a), Value::Element(t, b)) => s == t && a == b,
            _ => false,
        }
    }
}

impl ValueRow {
    /// Tells whether the row is the one for these arguments.
    fn fits(&self, arguments: &[Value]) -> bool
        ensures { (sorts : List Name) → HaveNoTwice sorts → AreNamed sorts self.now.arguments.items
            → AreNamed sorts arguments.now
            → result ≡ same_values (values_meant sorts self.now.arguments.items) (values_meant sorts arguments.now) }
    {
        are_same(self.arguments.as_slice(), arguments)
    }
}

impl Table {
    /// Says the value at arguments. It takes no memory.
    pub fn value_at(&self, arguments: &[Value]) -> Value
        ensures exact { (sorts : List Name) → HaveNoTwice sorts → AreRowsNamed sorts self.now.rows.items
            → AreNamed sorts arguments.now
            → value_meant sorts result
            ≡ first_fit (table_meant sorts self.now).rows (table_meant sorts self.now).default
            (values_meant sorts arguments.now) }
        ensures named { (sorts : List Name) → AreRowsNamed sorts self.now.rows.items → IsNamed sorts self.now.default
            → IsNamed sorts result }
    {
        'rows: for row in self.rows.iter() {
            if row.fits(arguments) {
                return row.value;
            }
        }
        self.default
    }
}

/// Tells whether there are as many values, and the same in their order.
fn are_same(left: &[Value], right: &[Value]) -> bool
    ensures { (sorts : List Name) → HaveNoTwice sorts → AreNamed sorts left.now → AreNamed sorts right.now
        → result ≡ same_values (values_meant sorts left.now) (values_meant sorts right.now) }
{
    if left.len() != right.len() {
        return false;
    }
    'values: for at in 0..left.len() {
        if !left[at].is_same(right[at]) {
            return false;
        }
    }
    true
}
