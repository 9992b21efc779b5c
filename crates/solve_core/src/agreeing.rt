//! Whether the theories agree where a search is saturated.

ghost use Rattle.std.specs.Prelude.{◌≡◌, ◌+◌, ◌++◌, length, map, IfOk, IfErr};
ghost use Rattle.spec_derivations.specs.Problems.{Problem};
ghost use Rattle.ratio128.specs.Meant.{fraction};
ghost use Rattle.sat_budget.specs.Budgets.{StopsBy};
ghost use Rattle.term_core.specs.Tables.{IsIn};
ghost use Rattle.proof_log.specs.Theories.{terms_watched, literals_held};
ghost use Rattle.congruence_relation.specs.Relation.{AreFactsOf};
ghost use Rattle.congruence.specs.Views.{theory_of};
ghost use Rattle.simplex.specs.Checks.{Suits};
ghost use Rattle.simplex.specs.Coming.{IsOverflowAt};
ghost use Rattle.search_loop.specs.Asking.{HasSaturated};
ghost use Rattle.solve_core.specs.Answering.{AgreeBoth};
ghost use Rattle.solve_core.specs.Sharing.{IsAskedOf};
ghost use Rattle.solve_core.specs.Agreeing.{AreTheoryValues, FindsAgreement};

use crate::modelling::TheoryAssignment;
use agreement::{Agreement, ArgumentPlace, Delta, Shared, agree};
use combined::Combined;
use no_memory::NoMemory;
use sat_budget::Stop;
use search_loop::Search;
use spec_valuations::laws::{
    interface_equalities_apply_nothing_more, listed_terms_have_their_places_class,
    sides_of_equalities_agree, terms_of_linear_checks_are_linear,
};
use std::alloc::Global;
use term_core::{Head, Sort, TermId, TermTable};

/// What is found where a search is saturated.
#[derive(Drop)]
pub(crate) enum AgreementFound {
    /// The theories agree on shared terms. This they say of the search's terms.
    Agreed(TheoryAssignment),
    /// They do not agree on these pairs of shared terms.
    Differ(Vec<(TermId, TermId)>),
}

/// Lists terms, and after them others.
fn joined(alloc: Global, front: &[TermId], back: &[TermId]) -> Result<Vec<TermId>, NoMemory>
    ensures { IfOk result (λ ids. ids.items ≡ front.now ++ back.now) }
{
    let mut ids = Vec::from_slice(alloc, front)?;
    ids.extend_from_slice(back)?;
    Ok(ids)
}

/// Tells whether this term stands at a place of a list.
fn stands_at(ids: &[TermId], at: usize, id: TermId) -> bool {
    match ids.get(at) {
        None => false,
        Some(there) => *there == id,
    }
}

/// Adds the places of those shared terms that an application shares, where they are the next: its arguments have one, and it has none
/// itself.
fn add_places(
    places: &mut Vec<Option<ArgumentPlace>>,
    table: &TermTable,
    id: TermId,
    shared: &[TermId],
) -> Result<(), NoMemory>
    requires { IsIn table.now id }
{
    let node = table.node(id);
    let Head::Apply(function) = node.head else {
        return Ok(());
    };
    let arguments = node.arguments.as_slice();
    if arguments.is_empty() {
        return Ok(());
    }
    let count = places.len();
    'arguments: for index in 0..arguments.len() {
        if stands_at(shared, places.len(), arguments[index]) {
            let index = index as u64;
            places.push(Some(ArgumentPlace { function, index }))?;
        }
    }
    if stands_at(shared, places.len(), id) {
        places.push(None)?;
    } else if table.sort(id) == Sort::Real {
        // Another check is about this application.
        places.truncate(count);
    }
    Ok(())
}

/// Gives for each shared term the place at which a function is applied to it. No answer depends on these places.
///
/// The terms are taken as `shared_terms` lists them: by rising numbers of the applications that share them, of each its arguments and
/// then itself.
fn places_of(
    alloc: Global,
    table: &TermTable,
    shared: &[TermId],
) -> Result<Vec<Option<ArgumentPlace>>, NoMemory> {
    let mut places = Vec::new(alloc);
    'terms: for number in 0..table.len() {
        add_places(&mut places, table, TermId(number), shared)?;
    }
    Ok(places)
}

/// Gives what is at a place of a list; nothing beyond its end.
fn place_at(places: &[Option<ArgumentPlace>], at: usize) -> Option<ArgumentPlace> {
    match places.get(at) {
        None => None,
        Some(place) => *place,
    }
}

/// Puts together what the theories say of the terms from a place on.
fn shared_of(
    alloc: Global,
    table: &TermTable,
    shared: &[TermId],
    assigned_values: &TheoryAssignment,
    from: usize,
) -> Result<Vec<Shared>, NoMemory>
    requires classes { length assigned_values.now.classes.items ≡ from + length shared.now }
    requires numbers { length assigned_values.now.numbers.items ≡ from + length shared.now }
    ensures { IfOk result (λ xs. AreTheoryValues shared.now assigned_values.now.classes.items
        (map fraction assigned_values.now.numbers.items) from xs.items) }
{
    let argument_places = places_of(alloc, table, shared)?;
    let mut xs = Vec::new(alloc);
    'places: for at in 0..shared.len() {
        xs.push(Shared {
            term: shared[at],
            place: place_at(&argument_places, at),
            class: assigned_values.classes[from + at],
            value: Delta::number(assigned_values.numbers[from + at]),
        })?;
    }
    Ok(xs)
}

/// Finds whether the theories agree on shared terms where a search is saturated. Each shared term gets a number, and by these numbers and those
/// of all other terms the literals hold. They agree where two shared terms have one number exactly where they have one class.
///
/// `Memory` comes where memory runs out, and `Strained` where an operation leaves 128 bits that computes a number.
/// Source: Nelson and Oppen, Simplification by Cooperating Decision Procedures, TOPLAS 1979.
pub(crate) fn agreement(
    search: &Search,
    table: &TermTable,
    theory: &Combined,
    shared: &[TermId],
) -> Result<AgreementFound, Stop>
    requires search_saturated { HasSaturated table.now search.now (theory_of theory.now.congruence)
        (AgreeBoth (terms_watched table.now (theory_of theory.now.congruence))
        (literals_held table.now (theory_of theory.now.congruence)) theory.now) }
    requires congruence { AreFactsOf table.now theory.now.congruence.now.facts }
    requires simplex { Suits theory.now.simplex table.now }
    requires asked { (p : Problem) × IsAskedOf table.now shared.now p search.now }
    ensures found { IfOk result (FindsAgreement table.now search.now (theory_of theory.now.congruence) shared.now) }
    ensures stops { IfErr result (StopsBy
        (λ s. IsOverflowAt table.now (terms_watched table.now theory.now.simplex.theory) s
        theory.now.simplex)) }
{
    terms_of_linear_checks_are_linear();
    listed_terms_have_their_places_class();
    sides_of_equalities_agree();
    interface_equalities_apply_nothing_more();
    theory.parts_hold_the_same();
    table.ids_are_unique();
    table.symbols().are_declared();
    search.trail.is_sound();
    let terms = joined(search.alloc, &search.terms, shared)?;
    let numbers = theory.simplex().numbers(table, &terms, shared)?;
    let classes = theory.congruence().classes(search.alloc, &terms)?;
    let mut assigned_values = TheoryAssignment { classes, numbers };
    let count = search.terms.len();
    let mut xs = shared_of(search.alloc, table, shared, &assigned_values, count)?;
    match agree(search.alloc, xs.as_mut_slice())? {
        Agreement::Pairs(pairs) => Ok(AgreementFound::Differ(pairs)),
        Agreement::Agreed => {
            assigned_values.classes.truncate(count);
            assigned_values.numbers.truncate(count);
            Ok(AgreementFound::Agreed(assigned_values))
        }
    }
}
