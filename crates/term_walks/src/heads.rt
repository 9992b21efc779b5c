//! What a head gives at its arguments' values.

ghost use Rattle.std.specs.Prelude.{◌≡◌, [], ◌∷◌, List, IfOk};
ghost use Rattle.spec_text.specs.Bytes.{Name};
ghost use Rattle.spec_numbers.specs.Bounds.{divided};
ghost use Rattle.spec_sorts.specs.Terms.{Xor, Implies, Equal, Ite, Minus, Plus, Times, Divide, Less, AtMost};
ghost use Rattle.spec_sorts.specs.Values.{truth, Interpretation, all_true, any_true};
ghost use Rattle.spec_sorts.specs.TermValues.{less, head_value};
ghost use Rattle.spec_sorts.specs.BoundedValues.{folded, bounded_head};
ghost use Rattle.ratio128.specs.Meant.{fraction, outcome};
ghost use Rattle.term_core.specs.NameLists.{HaveNoTwice};
ghost use Rattle.term_core.specs.Tables.{TableView, head_meant, HasHead};
ghost use Rattle.term_walks.specs.Valuations.{value_meant, values_meant, answer_meant, IsNamed, AreNamed, HasTable, HasTables, Tells};
ghost use Rattle.term_walks.specs.Operations.{operated};

use crate::numbers::{one, zero};
use crate::values::{Interp, Value};
use ratio128::{Op, Ratio, Wide};
use std::cmp::Ordering;
use term_core::Head;

/// Tells whether each value is true.
fn all_true(values: &[Value]) -> bool
    ensures { (sorts : List Name) → result ≡ all_true (values_meant sorts values.now) }
{
    'values: for value in values.iter() {
        if !value.is_true() {
            return false;
        }
    }
    true
}

/// Tells whether one of the values is true.
fn any_true(values: &[Value]) -> bool
    ensures { (sorts : List Name) → result ≡ any_true (values_meant sorts values.now) }
{
    'values: for value in values.iter() {
        if value.is_true() {
            return true;
        }
    }
    false
}

/// Tells whether one of the first two values is true, and the other is not.
fn is_xor(values: &[Value]) -> bool
    ensures { (sorts : List Name) (i : Interpretation)
        → truth result ≡ head_value i Xor (values_meant sorts values.now) }
{
    match values {
        [v, w, ..] => v.is_true() != w.is_true(),
        _ => false,
    }
}

/// Tells whether the second value is true where the first is.
fn is_implied(values: &[Value]) -> bool
    ensures { (sorts : List Name) (i : Interpretation)
        → truth result ≡ head_value i Implies (values_meant sorts values.now) }
{
    match values {
        [v, w, ..] => !v.is_true() || w.is_true(),
        _ => false,
    }
}

/// Tells whether the first two values are the same.
fn are_equal(values: &[Value]) -> bool
    ensures { (sorts : List Name) (i : Interpretation) → HaveNoTwice sorts → AreNamed sorts values.now
        → truth result ≡ head_value i Equal (values_meant sorts values.now) }
{
    match values {
        [v, w, ..] => v.is_same(*w),
        _ => false,
    }
}

/// Chooses the second of three values where the first is true, else the third.
fn ite_value(values: &[Value]) -> Value
    ensures exact { (sorts : List Name) (i : Interpretation)
        → value_meant sorts result ≡ head_value i Ite (values_meant sorts values.now) }
    ensures named { (sorts : List Name) → AreNamed sorts values.now → IsNamed sorts result }
{
    match values {
        [c, v, w, ..] => { if c.is_true() { *v } else { *w } }
        _ => Value::Bool(false),
    }
}

/// Tells whether one fraction is less than another.
fn is_less(left: Ratio, right: Ratio) -> bool
    ensures { result ≡ less (fraction left) (fraction right) }
{
    matches!(left.cmp(&right), Ordering::Less)
}

/// Tells whether the first of two numbers is less than the second.
fn are_less(values: &[Value]) -> bool
    ensures { (sorts : List Name) (i : Interpretation)
        → truth result ≡ head_value i Less (values_meant sorts values.now) }
{
    match values {
        [v, w, ..] => is_less(v.number(), w.number()),
        _ => false,
    }
}

/// Tells whether the first of two numbers is at most the second.
fn are_at_most(values: &[Value]) -> bool
    ensures { (sorts : List Name) (i : Interpretation)
        → truth result ≡ head_value i AtMost (values_meant sorts values.now) }
{
    match values {
        [v, w, ..] => !is_less(w.number(), v.number()),
        _ => false,
    }
}

/// Says the quotient of two fractions, or its overflow. By 0 it is 0.
fn quotient(left: Ratio, right: Ratio) -> Result<Ratio, Wide>
    ensures { outcome result ≡ divided (fraction left) (fraction right) }
{
    if right.is_zero() {
        return Ok(zero());
    }
    left.div(right)
}

/// Says what an operation gives at two fractions, or its overflow.
fn operated(op: Op, left: Ratio, right: Ratio) -> Result<Ratio, Wide>
    ensures { outcome result ≡ operated op (fraction left) (fraction right) }
{
    match op {
        Op::Add => left.add(right),
        Op::Sub => left.sub(right),
        Op::Mul => left.mul(right),
        Op::Div => quotient(left, right),
    }
}

/// Takes a value with others to the left by an operation, or says the first overflow.
fn folded(op: Op, first: Value, rest: &[Value]) -> Result<Value, Wide>
    ensures exact { (sorts : List Name)
        → answer_meant sorts result ≡ folded (operated op) (value_meant sorts first) (values_meant sorts rest.now) }
    ensures named { (sorts : List Name) → IsNamed sorts first → IfOk result (IsNamed sorts) }
{
    let mut done = first;
    'rest: for value in rest.iter() {
        match operated(op, done.number(), value.number()) {
            Ok(number) => {
                done = Value::Number(number);
            }
            Err(wide) => return Err(wide),
        }
    }
    Ok(done)
}

/// Takes two values by an operation, or says its overflow.
fn pair_value(op: Op, left: Value, right: Value) -> Result<Value, Wide>
    ensures exact { (sorts : List Name) → answer_meant sorts result
        ≡ folded (operated op) (value_meant sorts left) (value_meant sorts right ∷ []) }
    ensures named { (sorts : List Name) → IfOk result (IsNamed sorts) }
{
    match operated(op, left.number(), right.number()) {
        Ok(number) => Ok(Value::Number(number)),
        Err(wide) => Err(wide),
    }
}

/// Says the sum of values, or its first overflow.
fn sum_value(values: &[Value]) -> Result<Value, Wide>
    ensures exact { (sorts : List Name) (i : Interpretation)
        → answer_meant sorts result ≡ bounded_head i Plus (values_meant sorts values.now) }
    ensures named { (sorts : List Name) → AreNamed sorts values.now → IfOk result (IsNamed sorts) }
{
    match values {
        [first, rest @ ..] => folded(Op::Add, *first, rest),
        _ => Ok(Value::Number(zero())),
    }
}

/// Says the product of values, or its first overflow.
fn product_value(values: &[Value]) -> Result<Value, Wide>
    ensures exact { (sorts : List Name) (i : Interpretation)
        → answer_meant sorts result ≡ bounded_head i Times (values_meant sorts values.now) }
    ensures named { (sorts : List Name) → AreNamed sorts values.now → IfOk result (IsNamed sorts) }
{
    match values {
        [first, rest @ ..] => folded(Op::Mul, *first, rest),
        _ => Ok(Value::Number(one())),
    }
}

/// Says the difference of two values or its overflow, or the negative of one.
fn minus_value(values: &[Value]) -> Result<Value, Wide>
    ensures exact { (sorts : List Name) (i : Interpretation)
        → answer_meant sorts result ≡ bounded_head i Minus (values_meant sorts values.now) }
    ensures named { (sorts : List Name) → IfOk result (IsNamed sorts) }
{
    match values {
        [v, w, ..] => pair_value(Op::Sub, *v, *w),
        [v] => Ok(Value::Number(v.number().neg())),
        _ => Ok(Value::Bool(false)),
    }
}

/// Says the quotient of two values, or its overflow.
fn divide_value(values: &[Value]) -> Result<Value, Wide>
    ensures exact { (sorts : List Name) (i : Interpretation)
        → answer_meant sorts result ≡ bounded_head i Divide (values_meant sorts values.now) }
    ensures named { (sorts : List Name) → IfOk result (IsNamed sorts) }
{
    match values {
        [v, w, ..] => pair_value(Op::Div, *v, *w),
        _ => Ok(Value::Bool(false)),
    }
}

/// Says what a head gives at its arguments' values, or its first operation that overflows.
pub fn head_value(interp: &Interp, head: Head, values: &[Value]) -> Result<Value, Wide>
    requires { HasTable interp.now head }
    ensures exact { (t : TableView) (i : Interpretation) → Tells t interp.now i → HasHead t head
        → AreNamed t.sorts values.now
        → answer_meant t.sorts result ≡ bounded_head i (head_meant t head) (values_meant t.sorts values.now) }
    ensures named { (t : TableView) → HasTables t interp.now → AreNamed t.sorts values.now
        → IfOk result (IsNamed t.sorts) }
{
    match head {
        Head::True => Ok(Value::Bool(true)),
        Head::False => Ok(Value::Bool(false)),
        Head::Not => Ok(Value::Bool(!all_true(values))),
        Head::And => Ok(Value::Bool(all_true(values))),
        Head::Or => Ok(Value::Bool(any_true(values))),
        Head::Xor => Ok(Value::Bool(is_xor(values))),
        Head::Implies => Ok(Value::Bool(is_implied(values))),
        Head::Equal => Ok(Value::Bool(are_equal(values))),
        Head::Ite => Ok(ite_value(values)),
        Head::Minus => minus_value(values),
        Head::Plus => sum_value(values),
        Head::Times => product_value(values),
        Head::Divide => divide_value(values),
        Head::Less => Ok(Value::Bool(are_less(values))),
        Head::AtMost => Ok(Value::Bool(are_at_most(values))),
        Head::Literal(number) => Ok(Value::Number(number)),
        Head::Apply(symbol) => Ok(interp.tables[symbol.0 as usize].value_at(values)),
        Head::Parameter(_, _) => Ok(Value::Bool(false)),
    }
}
