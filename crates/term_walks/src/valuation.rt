//! The value of a term under an interpretation.

ghost use Rattle.std.specs.Prelude.{◌≡◌, ◌<◌, [], length, All, List, IfOk, OnOk};
ghost use Rattle.spec_text.specs.Bytes.{Name};
ghost use Rattle.spec_sorts.specs.Terms.{terms_of};
ghost use Rattle.spec_sorts.specs.Values.{Interpretation};
ghost use Rattle.spec_sorts.specs.BoundedValues.{bounded_head, bounded_value, bounded_values};
ghost use Rattle.term_core.specs.Tables.{TableView, IsIn, term_at, clause_at, head_meant, HasHead};
ghost use Rattle.term_walks.specs.Valuations.{values_meant, IsNamed, AreNamed, HasTable, HasTables, HasSymbolTables, Tells, IsOutcome};
ghost use Rattle.term_walks.specs.Orders.{number_term, Ascends, IsOrder, IsAmongFirst, HasArgumentsBefore};
ghost use Rattle.term_walks.specs.KnownValues.{known_meant, taken_meant, IsKnownNamed, AreKnownValues};

use crate::heads::head_value;
use crate::order::{order_of, place_among};
use crate::values::{Interp, Value, ValueStop};
use no_memory::NoMemory;
use ratio128::Wide;
use std::alloc::Global;
use term_core::{Head, TermId, TermTable};

/// Says what is known of a term: its value, or its first operation that leaves the bound on fractions.
#[derive(Clone, Copy)]
pub enum KnownValue {
    /// The value.
    Value(Value),
    /// The operation.
    Wide(Wide),
}

/// Says a term's value under an interpretation, which must have a table for each symbol of the table of terms.
///
/// `Wide` comes exactly where an operation of the term leaves the bound on fractions, and tells the first one. Arguments
/// come before their term, from left to right, all three of `ite` too; then come the operations of the term's head.
/// A quotient by 0 is 0, and no operation; a parameter has the value false. `Memory` comes where the walk finds no memory.
/// Time and memory go with the number of the term's different subterms and of their arguments.
/// Source: SMT-LIB 2.6, section 5.3; the bound and the order are own.
pub fn value(
    alloc: Global,
    table: &TermTable,
    interp: &Interp,
    id: TermId,
) -> Result<Value, ValueStop>
    requires there { IsIn table.now id }
    requires interprets { HasTables table.now interp.now }
    ensures exact { (i : Interpretation) → HasSymbolTables table.now interp.now i
        → IsOutcome table.now.sorts result (bounded_value i [] (term_at table.now id)) }
    ensures named { IfOk result (IsNamed table.now.sorts) }
{
    let order = order_of(alloc, table, id)?;
    value_along(alloc, table, interp, id, order.as_slice())
}

/// Says a term's value by the order of a walk to it.
fn value_along(
    alloc: Global,
    table: &TermTable,
    interp: &Interp,
    id: TermId,
    order: &[u64],
) -> Result<Value, ValueStop>
    requires interprets { HasTables table.now interp.now }
    requires order { IsOrder table.now id.0 order.now }
    ensures exact { (i : Interpretation) → HasSymbolTables table.now interp.now i
        → IsOutcome table.now.sorts result (bounded_value i [] (term_at table.now id)) }
    ensures named { IfOk result (IsNamed table.now.sorts) }
{
    table.symbols().are_declared();
    let mut known = Vec::new(alloc);
    let mut taken = Vec::new(alloc);
    'terms: for at in 0..order.len() {
        let id = TermId(order[at]);
        let next = known_next(table, interp, id, order, known.as_slice(), &mut taken)?;
        known.push(next)?;
    }
    match known_at(order, known.as_slice(), id.0) {
        KnownValue::Value(value) => Ok(value),
        KnownValue::Wide(wide) => Err(ValueStop::Wide(wide)),
    }
}

/// Says what is known of a term by what is known of the terms before it in the order. What was taken is lost.
fn known_next(
    table: &TermTable,
    interp: &Interp,
    id: TermId,
    order: &[u64],
    known: &[KnownValue],
    taken: &mut Vec<Value>,
) -> Result<KnownValue, NoMemory>
    requires there { IsIn table.now id }
    requires interprets { HasTables table.now interp.now }
    requires ascends { Ascends order.now }
    requires ready { HasArgumentsBefore table.now order.now (length known.now) id.0 }
    requires named { All (IsKnownNamed table.now.sorts) known.now }
    ensures exact { (i : Interpretation) → Tells table.now interp.now i → AreKnownValues table.now i order.now known.now
        → IfOk result (λ k. known_meant table.now.sorts k ≡ bounded_value i [] (term_at table.now id)) }
    ensures named { IfOk result (IsKnownNamed table.now.sorts) }
{
    table.ids_are_unique();
    let node = table.node(id);
    match take_values(taken, order, known, node.arguments.as_slice())? {
        Some(wide) => Ok(KnownValue::Wide(wide)),
        None => Ok(known_by_head(interp, node.head, taken.as_slice())),
    }
}

/// Takes the values of arguments, in their order, in the place of what was taken; or says the first overflow of one.
fn take_values(
    taken: &mut Vec<Value>,
    order: &[u64],
    known: &[KnownValue],
    arguments: &[TermId],
) -> Result<Option<Wide>, NoMemory>
    requires ascends { Ascends order.now }
    requires there { All (λ id. IsAmongFirst order.now (length known.now) id.0) arguments.now }
    ensures exact { (t : TableView) (i : Interpretation) → AreKnownValues t i order.now known.now
        → IfOk result (λ w. taken_meant t.sorts w taken.new.items
        ≡ bounded_values i [] (terms_of (clause_at t arguments.now))) }
    ensures named { (sorts : List Name) → All (IsKnownNamed sorts) known.now
        → OnOk result (AreNamed sorts taken.new.items) }
{
    taken.clear();
    'arguments: for id in arguments.iter() {
        match known_at(order, known, id.0) {
            KnownValue::Value(value) => {
                taken.push(value)?;
            }
            KnownValue::Wide(wide) => return Ok(Some(wide)),
        }
    }
    Ok(None)
}

/// Says what is known of the term of a number.
fn known_at(order: &[u64], known: &[KnownValue], number: u64) -> KnownValue
    requires ascends { Ascends order.now }
    requires there { IsAmongFirst order.now (length known.now) number }
    ensures exact { (t : TableView) (i : Interpretation) → AreKnownValues t i order.now known.now
        → known_meant t.sorts result ≡ bounded_value i [] (number_term t number) }
    ensures named { (sorts : List Name) → All (IsKnownNamed sorts) known.now → IsKnownNamed sorts result }
{
    let place = place_among(order, number, known.len());
    known[place]
}

/// Says what is known of a head at its arguments' values.
fn known_by_head(interp: &Interp, head: Head, values: &[Value]) -> KnownValue
    requires { HasTable interp.now head }
    ensures exact { (t : TableView) (i : Interpretation) → Tells t interp.now i → HasHead t head
        → AreNamed t.sorts values.now
        → known_meant t.sorts result ≡ bounded_head i (head_meant t head) (values_meant t.sorts values.now) }
    ensures named { (t : TableView) → HasTables t interp.now → AreNamed t.sorts values.now
        → IsKnownNamed t.sorts result }
{
    match head_value(interp, head, values) {
        Ok(value) => KnownValue::Value(value),
        Err(wide) => KnownValue::Wide(wide),
    }
}
