//! The values of listed terms, by their numbers.

ghost use Rattle.std.specs.Prelude.{◌≡◌, ◌≢◌, ◌<◌, length, map, All, IfOk};
ghost use Rattle.std.specs.List.{AllPairs};
ghost use Rattle.spec_sorts.specs.Terms.{sort_of};
ghost use Rattle.spec_sorts.specs.Subsets.{IsClosed};
ghost use Rattle.spec_rules.specs.Truths.{term_true_by};
ghost use Rattle.spec_valuations.specs.Classes.{value_in};
ghost use Rattle.ratio128.specs.Meant.{fraction};
ghost use Rattle.term_core.specs.declared.ids.TermId.{TermId as Number};
ghost use Rattle.term_core.specs.Tables.{term_at, IsIn, AreIn, clause_at};
ghost use Rattle.clause_literals.specs.Literals.{AreLiteralsIn};
ghost use Rattle.term_walks.specs.Valuations.{value_meant, IsNamed};
ghost use Rattle.search_model.specs.Models.{truths_of, values_of};
ghost use Rattle.search_model.specs.Made.{value_at_id, HasValues};

use no_memory::NoMemory;
use ratio128::Ratio;
use sat_trail::SatTrail;
use std::alloc::Global;
use term_core::{Sort, TermId, TermTable};
use term_walks::Value;

/// Tells whether a term is true by the literals that hold. What is no negation and has no value is false.
fn truth_of(table: &TermTable, id: TermId, trail: &SatTrail) -> bool
    requires there { IsIn table.now id }
    requires known { id.0 < trail.now.vars }
    requires literals { AreLiteralsIn table.now trail.now.literals }
    ensures { result ≡ term_true_by (truths_of table.now trail.now.literals) (term_at table.now id) }
{
    table.ids_are_unique();
    table.arguments_come_first();
    trail.is_sound();
    let literal = table.literal(id);
    trail.value(literal).unwrap_or(!literal.positive)
}

/// Gives the value of a term: its truth, its number, or the element of the number of its class.
fn value_of(table: &TermTable, id: TermId, class: u64, number: Ratio, trail: &SatTrail) -> Value
    requires there { IsIn table.now id }
    requires known { id.0 < trail.now.vars }
    requires literals { AreLiteralsIn table.now trail.now.literals }
    ensures means { value_meant table.now.sorts result ≡ value_in (sort_of (term_at table.now id))
        (term_true_by (truths_of table.now trail.now.literals) (term_at table.now id)) (fraction number) class }
    ensures named { IsNamed table.now.sorts result }
{
    match table.sort(id) {
        Sort::Bool => Value::Bool(truth_of(table, id, trail)),
        Sort::Real => Value::Number(number),
        Sort::Declared(sort) => Value::Element(sort, class),
    }
}

/// Gives a number above those of all listed terms: how many terms the table has.
fn above(table: &TermTable, terms: &[TermId]) -> usize
    requires { AreIn table.now terms.now }
    ensures { All (λ id. id.0 < result) terms.now }
{
    table.len() as usize
}

/// Gives the values of listed terms, by their numbers. Other numbers have values without meaning.
pub(crate) fn listed_values(
    alloc: Global,
    table: &TermTable,
    terms: &[TermId],
    classes: &[u64],
    numbers: &[Ratio],
    trail: &SatTrail,
) -> Result<Vec<Value>, NoMemory>
    requires terms { AreIn table.now terms.now }
    requires once { AllPairs (λ (i j : Number). i ≢ j) terms.now }
    requires closed { IsClosed (clause_at table.now terms.now) }
    requires classes { length classes.now ≡ length terms.now }
    requires numbers { length numbers.now ≡ length terms.now }
    requires known { All (λ id. id.0 < trail.now.vars) terms.now }
    requires literals { AreLiteralsIn table.now trail.now.literals }
    ensures { IfOk result (λ values. HasValues table.now
        (values_of table.now trail.now.literals terms.now classes.now (map fraction numbers.now)) terms.now
        values.items) }
{
    table.ids_are_unique();
    let mut values = vec![in alloc; Value::Bool(false); above(table, terms)]?;
    'terms: for at in 0..terms.len() {
        let id = terms[at];
        values[id.0 as usize] = value_of(table, id, classes[at], numbers[at], trail);
    }
    Ok(values)
}

/// Gives the values of terms, in their order.
pub(crate) fn values_at(
    alloc: Global,
    values: &[Value],
    ids: &[TermId],
) -> Result<Vec<Value>, NoMemory>
    requires { All (λ id. id.0 < length values.now) ids.now }
    ensures { IfOk result (λ v. v.items ≡ map (value_at_id values.now) ids.now) }
{
    let mut found = Vec::new(alloc);
    'ids: for id in ids.iter() {
        found.push(values[id.0 as usize])?;
    }
    Ok(found)
}
