//! Weighted sums of negated literals.

ghost use Rattle.std.specs.Prelude.{◌≡◌, ◌&&◌, ◌||◌, pos, IfOk, OnOk};
ghost use Rattle.std.specs.Int.RustNames.{int_lt};
ghost use Rattle.spec_arithmetic.specs.Signs.{size, is_zero, is_above_zero};
ghost use Rattle.spec_arithmetic.specs.Contradictions.{is_nought, sum_of, weight_by, is_strict, is_strict_part, cannot_hold, judged_parts};
ghost use Rattle.ratio128.specs.Meant.{fraction};
ghost use Rattle.term_core.specs.Tables.{TableView, AreDifferent};
ghost use Rattle.linear_form.specs.Meant.{form_meant, AreVariablesOf};
ghost use Rattle.linear_form.specs.Making.{ReturnsMade, Comes};
ghost use Rattle.linear_form.specs.Literals.{relation_meant, AreSidesIn};
ghost use Rattle.linear_form.specs.Sums.{part_meant, parts_meant, HaveVariablesOf, added_part, difference_meant, judged_turned, JudgesSum};

use crate::arith_fault::ArithFault;
use crate::entries::is_zero;
use crate::form::{Form, FormChange, FormJoin, combine, constant_alone, made_by};
use crate::literals::{Negation, Relation};
use crate::numbers::zero;
use crate::stop::{FormFault, FormStop};
use crate::walk::form_of;
use ratio128::Ratio;
use std::alloc::Global;
use term_core::TermTable;

impl From<FormFault> for FormStop {
    ghost use Rattle.linear_form.specs.Sums.{stop_by};

    ghost from_gives = { λ f r. r ≡ stop_by f };

    fn from(fault: FormFault) -> FormStop {
        match fault {
            FormFault::Wide(_, wide) => FormStop::Wide(wide),
            FormFault::Memory => FormStop::Memory,
        }
    }
}

impl From<FormStop> for ArithFault {
    ghost use Rattle.linear_form.specs.Sums.{fault_by};

    ghost from_gives = { λ s r. r ≡ fault_by s };

    fn from(stop: FormStop) -> ArithFault {
        match stop {
            FormStop::Wide(wide) => ArithFault::Wide(wide),
            FormStop::Memory => ArithFault::Memory,
        }
    }
}

/// Holds what a literal brings to the sum.
#[derive(Drop)]
pub(crate) struct WeightedForm {
    /// How its form compares with 0 where the literal is false.
    pub relation: Relation,
    /// Its form.
    pub form: Form,
    /// Its argument.
    pub weight: Ratio,
}

/// Makes the form of the difference of a negation's two numbers.
pub(crate) fn difference_of(alloc: Global, table: &TermTable, n: Negation) -> Result<Form, FormStop>
    requires there { AreSidesIn table.now n }
    ensures comes { ReturnsMade (difference_meant table.now n) result (form_meant table.now) }
    ensures there { IfOk result (AreVariablesOf table.now) }
{
    table.ids_are_unique();
    let mut left = form_of(alloc, table, n.left)?;
    let right = form_of(alloc, table, n.right)?;
    combine(&mut left, FormJoin::Subtracting, &right)?;
    Ok(left)
}

/// Tells whether a number is above 0.
#[tactic(auto, unfolding(spec_arithmetic::specs::Signs::is_above_zero))]
fn is_above_zero(k: Ratio) -> bool
    ensures { result ≡ is_above_zero (fraction k) }
{
    k.num() > 0
}

/// Tells whether a number is below 0.
fn is_below_zero(k: Ratio) -> bool
    ensures { result ≡ int_lt (fraction k).num (pos 0) }
{
    k.num() < 0
}

/// Gives the size of a number, without its sign.
fn size_of(k: Ratio) -> Ratio
    ensures { fraction result ≡ size (fraction k) }
{
    if is_below_zero(k) { k.neg() } else { k }
}

/// Gives an equality's weight: its argument, or this with the other sign.
fn turned_if(turned: bool, k: Ratio) -> Ratio
    ensures { fraction result ≡ weight_by turned is_nought (fraction k) }
{
    if turned { k.neg() } else { k }
}

/// Gives by what a form is multiplied: an equality's by its argument, which may be turned, an order's by the size of its argument.
fn weight_of(turned: bool, relation: Relation, k: Ratio) -> Ratio
    ensures { fraction result ≡ weight_by turned (relation_meant relation) (fraction k) }
{
    match relation {
        Relation::Zero => turned_if(turned, k),
        Relation::BelowZero => size_of(k),
        Relation::AtMostZero => size_of(k),
    }
}

/// Adds a part to a sum, multiplied by its weight.
fn add_part(
    alloc: Global,
    sum: &mut Form,
    part: &WeightedForm,
    turned: bool,
) -> Result<(), FormStop>
    ensures comes { (t : TableView) → AreDifferent t.terms → AreVariablesOf t sum.old → AreVariablesOf t part.now.form
        → Comes (added_part turned (form_meant t sum.old) (part_meant t part.now)) result (form_meant t sum.new) }
    ensures there { OnOk result ((t : TableView) → AreVariablesOf t sum.old → AreVariablesOf t part.now.form
        → AreVariablesOf t sum.new) }
{
    let weight = weight_of(turned, part.relation, part.weight);
    let scaled = made_by(alloc, &part.form, FormChange::Times(weight))?;
    combine(sum, FormJoin::Adding, &scaled)
}

/// Sums parts, each multiplied by its weight, in their order.
fn sum_of(alloc: Global, parts: &[WeightedForm], turned: bool) -> Result<Form, FormStop>
    ensures { (t : TableView) → AreDifferent t.terms → HaveVariablesOf t parts.now
        → ReturnsMade (sum_of turned (parts_meant t parts.now)) result (form_meant t) }
{
    let mut sum = constant_alone(alloc, zero())?;
    for part in parts {
        add_part(alloc, &mut sum, part, turned)?;
    }
    Ok(sum)
}

/// Tells whether a part's form is below 0, and its argument other than 0.
fn is_strict_part(part: &WeightedForm) -> bool
    ensures { (t : TableView) → result
        ≡ is_strict_part (part_meant t part.now).relation (part_meant t part.now).weight }
{
    match part.relation {
        Relation::BelowZero => !is_zero(part.weight),
        _ => false,
    }
}

/// Tells whether a part is strict.
fn is_strict(parts: &[WeightedForm]) -> bool
    ensures { (t : TableView) → result ≡ is_strict (parts_meant t parts.now) }
{
    for part in parts {
        if is_strict_part(part) {
            return true;
        }
    }
    false
}

/// Tells whether a number is above 0, or is 0 where the sum is strict.
fn is_against(strict: bool, k: Ratio) -> bool
    ensures { result ≡ is_above_zero (fraction k) || (is_zero (fraction k) && strict) }
{
    is_above_zero(k) || (is_zero(k) && strict)
}

/// Tells whether a sum that is at most 0, or below 0 where it is strict, cannot be.
fn cannot_hold(strict: bool, sum: &Form) -> bool
    ensures { (t : TableView) → result ≡ cannot_hold strict (form_meant t sum.now) }
{
    sum.is_constant() && is_against(strict, sum.constant())
}

/// Judges parts by their sum with the equalities turned.
fn judge_turned(alloc: Global, parts: &[WeightedForm]) -> Result<(), ArithFault>
    ensures { (t : TableView) → AreDifferent t.terms → HaveVariablesOf t parts.now
        → JudgesSum (judged_turned (parts_meant t parts.now)) result }
{
    let sum = sum_of(alloc, parts, true)?;
    if cannot_hold(is_strict(parts), &sum) {
        return Ok(());
    }
    Err(ArithFault::NoContradiction)
}

/// Judges parts by their sum; where that is no contradiction, by the one with the equalities turned.
pub(crate) fn judge_parts(alloc: Global, parts: &[WeightedForm]) -> Result<(), ArithFault>
    ensures { (t : TableView) → AreDifferent t.terms → HaveVariablesOf t parts.now
        → JudgesSum (judged_parts (parts_meant t parts.now)) result }
{
    let sum = sum_of(alloc, parts, false)?;
    if cannot_hold(is_strict(parts), &sum) {
        return Ok(());
    }
    judge_turned(alloc, parts)
}
