//! The rule `la_generic`.

ghost use Rattle.std.specs.Prelude.{◌≡◌, Some, true, IfOk, IfSome};
ghost use Rattle.spec_arithmetic.specs.Contradictions.{la_generic, judged_pairs, negation_of, paired, numbered, parts_of};
ghost use Rattle.term_core.specs.Tables.{TableView, IsIn, AreIn, term_at, clause_at};
ghost use Rattle.linear_form.specs.Coefficients.{coefficient_meant, coefficients_meant};
ghost use Rattle.linear_form.specs.Making.{ReturnsMade};
ghost use Rattle.linear_form.specs.Sums.{parts_meant, HaveVariablesOf, JudgesSum};
ghost use Rattle.linear_form.specs.Clauses.{pairs_meant, pairs_option, HasPairIn, HavePairsIn, numbered_meant, HaveNumbersIn, pair_option, paired_one, Pushes, with_coefficient, judged_numbers};

use crate::arith_fault::ArithFault;
use crate::coeff::Coeff;
use crate::literals::{Negation, negation_of};
use crate::stop::FormStop;
use crate::sums::{WeightedForm, difference_of, judge_parts};
use ratio128::Ratio;
use std::alloc::{AllocError, Global};
use term_core::{TermId, TermTable};

/// Gives what a literal's negation says with its argument, or nothing where one of them is none.
fn pair_of(table: &TermTable, id: TermId, coeff: Coeff) -> Option<(Negation, Coeff)>
    requires there { IsIn table.now id }
    ensures means { pair_option table.now result
        ≡ paired_one (negation_of true (term_at table.now id)) (coefficient_meant coeff) }
    ensures there { IfSome result (HasPairIn table.now) }
{
    let negation = negation_of(table, id)?;
    with_coefficient(negation, coeff)
}

/// Pairs a negation with an argument, where this is one.
fn with_coefficient(negation: Negation, coeff: Coeff) -> Option<(Negation, Coeff)>
    ensures { result ≡ with_coefficient negation coeff }
{
    match coeff {
        Coeff::Shape => None,
        _ => Some((negation, coeff)),
    }
}

/// Gives what each literal's negation says with its argument, or nothing where one of them is none or there is another number of
/// arguments than of literals.
fn pairs_of(
    alloc: Global,
    table: &TermTable,
    clause: &[TermId],
    coeffs: &[Coeff],
) -> Result<Option<Vec<(Negation, Coeff)>>, AllocError>
    requires there { AreIn table.now clause.now }
    ensures means { IfOk result (λ o. paired (clause_at table.now clause.now) (coefficients_meant coeffs.now)
        ≡ pairs_option table.now o) }
    ensures there { IfOk result (λ o. IfSome o (λ v. HavePairsIn table.now v.items)) }
{
    if clause.len() != coeffs.len() {
        return Ok(None);
    }
    let mut pairs = Vec::new(alloc);
    'literals: for at in 0..clause.len() {
        match pair_of(table, clause[at], coeffs[at]) {
            Some(pair) => pairs.push(pair)?,
            None => return Ok(None),
        }
    }
    Ok(Some(pairs))
}

/// Puts a pair's number after those that are there.
fn push_number(
    numbers: &mut Vec<(Negation, Ratio)>,
    pair: (Negation, Coeff),
) -> Result<(), FormStop>
    ensures { Pushes pair result numbers.old.items numbers.new.items }
{
    match pair.1 {
        Coeff::Number(number) => {
            numbers.push((pair.0, number))?;
            Ok(())
        }
        Coeff::Wide(wide) => Err(FormStop::Wide(wide)),
        Coeff::Shape => Ok(()),
    }
}

/// Gives the arguments' numbers, or the first that leaves the bound.
fn numbers_of(
    alloc: Global,
    pairs: &[(Negation, Coeff)],
) -> Result<Vec<(Negation, Ratio)>, FormStop>
    ensures comes { (t : TableView) → ReturnsMade (numbered (pairs_meant t pairs.now)) result
        (λ v. numbered_meant t v.items) }
    ensures there { IfOk result (λ v. (t : TableView) → HavePairsIn t pairs.now → HaveNumbersIn t v.items) }
{
    let mut numbers = Vec::new(alloc);
    for pair in pairs {
        push_number(&mut numbers, *pair)?;
    }
    Ok(numbers)
}

/// Makes what each literal brings to the sum, or tells the first operation of its forms that leaves the bound.
fn make_parts(
    alloc: Global,
    table: &TermTable,
    numbers: &[(Negation, Ratio)],
) -> Result<Vec<WeightedForm>, FormStop>
    requires there { HaveNumbersIn table.now numbers.now }
    ensures comes { ReturnsMade (parts_of (numbered_meant table.now numbers.now)) result
        (λ v. parts_meant table.now v.items) }
    ensures there { IfOk result (λ v. HaveVariablesOf table.now v.items) }
{
    let mut parts = Vec::new(alloc);
    for pair in numbers {
        let (negation, weight) = *pair;
        let form = difference_of(alloc, table, negation)?;
        parts.push(WeightedForm {
            relation: negation.relation,
            form,
            weight,
        })?;
    }
    Ok(parts)
}

/// Judges a clause by its negations with their numbers.
fn judge_numbers(
    alloc: Global,
    table: &TermTable,
    numbers: &[(Negation, Ratio)],
) -> Result<(), ArithFault>
    requires there { HaveNumbersIn table.now numbers.now }
    ensures { JudgesSum (judged_numbers (numbered_meant table.now numbers.now)) result }
{
    table.ids_are_unique();
    let parts = make_parts(alloc, table, numbers)?;
    judge_parts(alloc, parts.as_slice())
}

/// Judges a clause by its negations with their arguments.
fn judge_pairs(
    alloc: Global,
    table: &TermTable,
    pairs: &[(Negation, Coeff)],
) -> Result<(), ArithFault>
    requires there { HavePairsIn table.now pairs.now }
    ensures { JudgesSum (judged_pairs (Some (pairs_meant table.now pairs.now))) result }
{
    let numbers = numbers_of(alloc, pairs)?;
    judge_numbers(alloc, table, numbers.as_slice())
}

/// Judges a step of the rule `la_generic`, by which a clause of orders and equalities holds because the negations of its literals, each
/// multiplied by its argument, have a sum that cannot be.
///
/// A literal is an order of two terms of sort Real, or a negated equality of such; it may be below any number of `not`s. Its
/// negation says that the difference of the two is below 0, at most 0, or 0. An order's difference is multiplied by the size of its
/// argument, an equality's by its argument; where that sum is no contradiction, by the argument with the other sign. The sum cannot be
/// where no variable is left and its constant is above 0, or is 0 and one of those below 0 has an argument other than 0. By Farkas' lemma
/// there are arguments for each clause that holds of all real numbers.
///
/// `Shape` comes where a literal or an argument is none, or there is another number of arguments than of literals; `Wide` with the first
/// operation that leaves the bound on numbers: of the arguments first, then of the forms, in the order of the literals, then of the
/// sums. `NoContradiction` comes where neither sum is one. Memory is taken in proportion to the forms of the literals.
///
/// Source: Alethe specification, rule `la_generic`; that either orientation of equalities is taken, the order of the operations and the
/// bound are own.
pub fn la_generic(
    alloc: Global,
    table: &TermTable,
    clause: &[TermId],
    coeffs: &[Coeff],
) -> Result<(), ArithFault>
    requires there { AreIn table.now clause.now }
    ensures exact { JudgesSum (la_generic (clause_at table.now clause.now) (coefficients_meant coeffs.now)) result }
{
    match pairs_of(alloc, table, clause, coeffs)? {
        Some(pairs) => judge_pairs(alloc, table, pairs.as_slice()),
        None => Err(ArithFault::Shape),
    }
}
