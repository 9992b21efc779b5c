//! The form of a term by those of its arguments.

ghost use Rattle.std.specs.Prelude.{◌≢◌, ◌∷◌, IfOk, IfSome};
ghost use Rattle.spec_sorts.specs.Terms.{Minus, Divide};
ghost use Rattle.spec_arithmetic.specs.Forms.{all_added, all_multiplied, quotient_form, form_by};
ghost use Rattle.term_core.specs.Tables.{TableView, IsIn, AreDifferent, term_at, head_meant};
ghost use Rattle.linear_form.specs.Meant.{form_meant, AreVariablesOf};
ghost use Rattle.linear_form.specs.Making.{ReturnsMade, forms_meant, HaveVariables, product_step, option_meant};

use crate::entries::is_zero;
use crate::form::{
    Form, FormChange, FormJoin, combine, constant_alone, made_by, negative, variable_alone,
};
use crate::stop::FormStop;
use ratio128::Ratio;
use std::alloc::Global;
use term_core::{Head, TermId};

/// Adds forms, in order, to the first.
fn add_all(mut sum: Form, others: &[Form]) -> Result<Form, FormStop>
    ensures comes { (t : TableView) → AreDifferent t.terms → AreVariablesOf t sum → HaveVariables t others.now
        → ReturnsMade (all_added (form_meant t sum) (forms_meant t others.now)) result (form_meant t) }
    ensures there { IfOk result (λ f. (t : TableView) → AreVariablesOf t sum → HaveVariables t others.now
        → AreVariablesOf t f) }
{
    'forms: for at in 0..others.len() {
        combine(&mut sum, FormJoin::Adding, &others[at])?;
    }
    Ok(sum)
}

/// Multiplies two forms, where one has no variables: the left one is the factor if both have none.
fn multiply(alloc: Global, left: &Form, right: &Form) -> Result<Option<Form>, FormStop>
    ensures comes { (t : TableView)
        → ReturnsMade (product_step (form_meant t left.now) (form_meant t right.now)) result (option_meant t) }
    ensures there { IfOk result (λ o. IfSome o (λ f. (t : TableView)
        → AreVariablesOf t left.now → AreVariablesOf t right.now → AreVariablesOf t f)) }
{
    if left.is_constant() {
        let factor = left.constant();
        let product = made_by(alloc, right, FormChange::Times(factor))?;
        Ok(Some(product))
    } else if right.is_constant() {
        let factor = right.constant();
        let product = made_by(alloc, left, FormChange::Times(factor))?;
        Ok(Some(product))
    } else {
        Ok(None)
    }
}

/// Multiplies forms from the left; where two of them have variables, the term itself is a variable.
fn multiply_all(alloc: Global, id: TermId, first: Form, others: &[Form]) -> Result<Form, FormStop>
    ensures comes { (t : TableView)
        → ReturnsMade (all_multiplied (term_at t id) (form_meant t first) (forms_meant t others.now)) result
        (form_meant t) }
    ensures there { IfOk result (λ f. (t : TableView) → IsIn t id → AreVariablesOf t first → HaveVariables t others.now
        → AreVariablesOf t f) }
{
    let mut product = first;
    'forms: for at in 0..others.len() {
        match multiply(alloc, &product, &others[at])? {
            Some(next) => product = next,
            None => return variable_alone(alloc, id),
        }
    }
    Ok(product)
}

/// Divides a form by one that is a number other than 0; else the term itself is a variable.
fn divide(alloc: Global, id: TermId, left: &Form, right: &Form) -> Result<Form, FormStop>
    ensures comes { (t : TableView)
        → ReturnsMade (quotient_form (term_at t id) (form_meant t left.now) (form_meant t right.now)) result
        (form_meant t) }
    ensures there { IfOk result (λ f. (t : TableView) → IsIn t id → AreVariablesOf t left.now → AreVariablesOf t f) }
{
    if !right.is_constant() {
        return variable_alone(alloc, id);
    }
    let divisor = right.constant();
    if is_zero(divisor) {
        return variable_alone(alloc, id);
    }
    made_by(alloc, left, FormChange::Over(divisor))
}

/// Makes the form of a term by its head and the forms of its arguments.
///
/// Where two forms with variables meet in a product, or the divisor has variables or is 0, the term itself is a variable.
pub fn by_head(
    alloc: Global,
    id: TermId,
    head: Head,
    mut forms: Vec<Form>,
) -> Result<Form, FormStop>
    ensures comes { (t : TableView) → AreDifferent t.terms → HaveVariables t forms.items
        → ReturnsMade (form_by (term_at t id) (head_meant t head) (forms_meant t forms.items)) result (form_meant t) }
    ensures there { IfOk result (λ f. (t : TableView) → IsIn t id → HaveVariables t forms.items
        → AreVariablesOf t f) }
{
    if let Head::Literal(q) = head {
        return constant_alone(alloc, q);
    }
    if forms.is_empty() {
        return variable_alone(alloc, id);
    }
    let first = forms.remove(0);
    by_first(alloc, id, head, first, forms.as_slice())
}

/// Makes the form of a term by its head, its first argument's form and the others'.
fn by_first(
    alloc: Global,
    id: TermId,
    head: Head,
    first: Form,
    others: &[Form],
) -> Result<Form, FormStop>
    requires { (q : Ratio) → head ≢ Head.Literal q }
    ensures comes { (t : TableView) → AreDifferent t.terms → AreVariablesOf t first → HaveVariables t others.now
        → ReturnsMade (form_by (term_at t id) (head_meant t head) (form_meant t first ∷ forms_meant t others.now))
        result (form_meant t) }
    ensures there { IfOk result (λ f. (t : TableView) → IsIn t id → AreVariablesOf t first → HaveVariables t others.now
        → AreVariablesOf t f) }
{
    match head {
        Head::Plus => add_all(first, others),
        Head::Times => multiply_all(alloc, id, first, others),
        Head::Minus => by_minus(alloc, id, first, others),
        Head::Divide => by_divide(alloc, id, first, others),
        _ => variable_alone(alloc, id),
    }
}

/// Negates a form, or subtracts one other from it.
fn by_minus(alloc: Global, id: TermId, mut first: Form, others: &[Form]) -> Result<Form, FormStop>
    ensures comes { (t : TableView) → AreDifferent t.terms → AreVariablesOf t first → HaveVariables t others.now
        → ReturnsMade (form_by (term_at t id) Minus (form_meant t first ∷ forms_meant t others.now)) result
        (form_meant t) }
    ensures there { IfOk result (λ f. (t : TableView) → IsIn t id → AreVariablesOf t first → HaveVariables t others.now
        → AreVariablesOf t f) }
{
    if others.is_empty() {
        return negative(alloc, &first);
    }
    if others.len() != 1 {
        return variable_alone(alloc, id);
    }
    combine(&mut first, FormJoin::Subtracting, &others[0])?;
    Ok(first)
}

/// Divides a form by one other.
fn by_divide(alloc: Global, id: TermId, first: Form, others: &[Form]) -> Result<Form, FormStop>
    ensures comes { (t : TableView) → AreDifferent t.terms → AreVariablesOf t first → HaveVariables t others.now
        → ReturnsMade (form_by (term_at t id) Divide (form_meant t first ∷ forms_meant t others.now)) result
        (form_meant t) }
    ensures there { IfOk result (λ f. (t : TableView) → IsIn t id → AreVariablesOf t first → HaveVariables t others.now
        → AreVariablesOf t f) }
{
    if others.len() != 1 {
        return variable_alone(alloc, id);
    }
    divide(alloc, id, &first, &others[0])
}
