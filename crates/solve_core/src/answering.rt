//! The search with its theories, from the beginning to an answer.

ghost use Rattle.std.specs.Prelude.{◌≡◌, ◌≢◌, [], List, All, Contains, IfOk, MatchBool, MatchResult};
ghost use Rattle.spec_sorts.specs.Terms.{Number, Term, sort_of};
ghost use Rattle.spec_sorts.specs.Subterms.{subterms_of};
ghost use Rattle.spec_derivations.specs.Examples.{speaking};
ghost use Rattle.term_core.specs.Tables.{declared_in, Extends, clause_at};
ghost use Rattle.proof_log.specs.Logs.{AreFormulasIn};
ghost use Rattle.proof_log.specs.Theories.{IsTermIn};
ghost use Rattle.congruence_relation.specs.Relation.{AreFactsOf};
ghost use Rattle.congruence.specs.Views.{theory_of};
ghost use Rattle.simplex.specs.Checks.{Suits};
ghost use Rattle.simplex.specs.Coming.{CameBy};
ghost use Rattle.search_loop.specs.Asking.{state};
ghost use Rattle.search_loop.specs.Growing.{IsBegun};
ghost use Rattle.solve_core.specs.Beginning.{IsBegunFor};
ghost use Rattle.solve_core.specs.Sharing.{AreSharedOf};
ghost use Rattle.solve_core.specs.Answering.{HasNumber, IsAnswered, IsStoppedBy, AnswersStop};
ghost use Rattle.solve_core.specs.GoingOn.{CanGoOn};

use crate::agreeing::{AgreementFound, agreement};
use crate::bounding::relate_bounds;
use crate::cases::speak_of_cases;
use crate::choosing::denied_orders;
use crate::modelling::{TheoryAssignment, model, zeros};
use crate::propositional::{answer_propositional, are_propositional};
use crate::sharing::{is_number, shared_terms};
use crate::speaking::speak_of;
use crate::truths::truth_values;
use combined::Combined;
use congruence::Congruence;
use no_memory::NoMemory;
use proof_log::laws::logs_hold_in_grown_tables;
use sat_budget::{Reason, Stop};
use search_loop::{Answer, End, Search, watch_all};
use term_core::{TermId, TermTable};

/// Answers a stop of a theory: `Unknown` with the reason, or that memory ran out.
fn answer_to(stop: Stop) -> Result<Answer, NoMemory>
    ensures { AnswersStop stop result }
{
    match stop {
        Stop::Strained(strain) => Ok(Answer::Unknown(Reason::Overflow(strain))),
        Stop::Memory => Err(NoMemory),
    }
}

/// Tells whether one of these terms is a number.
fn have_numbers(table: &TermTable, terms: &[TermId]) -> bool
    requires { All (IsTermIn table.now) terms.now }
    ensures { MatchBool result (HasNumber (clause_at table.now terms.now))
        ((u : Term) → Contains (clause_at table.now terms.now) u → sort_of u ≢ Number) }
{
    'terms: for id in terms.iter() {
        if is_number(table, *id) {
            return true;
        }
    }
    false
}

/// Searches with no theory where all terms are propositional, else with the theory of equality and functions, and with that of linear
/// arithmetic as well where some term is a number. The search begins, for these roots: to what the cases of their disjunctions lead is
/// known first.
pub(crate) fn answer(
    search: &mut Search,
    table: &mut TermTable,
    roots: &[TermId],
) -> Result<Answer, NoMemory>
    ghost asked: { List Term }
    requires asked { asked ≡ clause_at table.old roots.now }
    requires roots { AreFormulasIn table.old roots.now }
    requires begun { IsBegun table.old (speaking asked []) [] search.old }
    ensures grown { Extends table.old table.new }
    ensures declared { declared_in table.new ≡ declared_in table.old }
    ensures answered { IfOk result (IsAnswered asked search.old.budget.limit (state table.new search.new)) }
{
    if are_propositional(table, &search.terms) {
        return answer_propositional(search, table);
    }
    speak_of_cases(search, table, roots)?;
    if have_numbers(table, &search.terms) {
        let shared = shared_terms(search.alloc, table, roots)?;
        return answer_numbers(search, table, &shared);
    }
    answer_classes(search, table)
}

/// Searches with the theory of equality and functions alone, where no term is a number.
fn answer_classes(search: &mut Search, table: &mut TermTable) -> Result<Answer, NoMemory>
    ghost asked: { List Term }
    requires begun { IsBegunFor asked (state table.old search.old) }
    requires plain { (u : Term) → Contains (clause_at table.old search.old.terms.items) u → sort_of u ≢ Number }
    ensures grown { Extends table.old table.new }
    ensures declared { declared_in table.new ≡ declared_in table.old }
    ensures answered { IfOk result (IsAnswered asked search.old.budget.limit (state table.new search.new)) }
{
    logs_hold_in_grown_tables();
    let truths = truth_values(search.alloc, table)?;
    let mut theory = Congruence::new(search.alloc, table, truths)?;
    search_classes(search, table, &mut theory)
}

/// Searches with the theory of equality and functions, which holds and watches nothing yet, where no term is a number.
fn search_classes(
    search: &mut Search,
    table: &mut TermTable,
    theory: &mut Congruence,
) -> Result<Answer, NoMemory>
    ghost asked: { List Term }
    requires begun { IsBegunFor asked (state table.old search.old) }
    requires plain { (u : Term) → Contains (clause_at table.old search.old.terms.items) u → sort_of u ≢ Number }
    requires empty { theory_of theory.old ≡ record { held = []; watched = []; marks = [] } }
    requires with { AreFactsOf table.old theory.old.now.facts }
    ensures grown { Extends table.old table.new }
    ensures declared { declared_in table.new ≡ declared_in table.old }
    ensures answered { IfOk result (IsAnswered asked search.old.budget.limit (state table.new search.new)) }
{
    // This theory stops for memory alone, as it computes with no numbers.
    let Ok(()) = watch_all(theory, table, &search.terms) else {
        return Err(NoMemory);
    };
    // So it does in a check.
    let Ok(end) = search.run(table, theory) else {
        return Err(NoMemory);
    };
    match end {
        End::Saturated => {
            table.ids_are_unique();
            table.symbols().are_declared();
            let classes = theory.classes(search.alloc, &search.terms)?;
            let numbers = zeros(search.alloc, search.terms.len())?;
            let assigned_values = TheoryAssignment { classes, numbers };
            let model = model(search, table, &assigned_values)?;
            Ok(Answer::Sat(model))
        }
        End::Refuted(step) => Ok(Answer::Unsat(step)),
        End::Stopped(reason) => Ok(Answer::Unknown(reason)),
    }
}

/// Searches with both theories, where some term is a number.
fn answer_numbers(
    search: &mut Search,
    table: &mut TermTable,
    shared: &[TermId],
) -> Result<Answer, NoMemory>
    ghost asked: { List Term }
    requires begun { IsBegunFor asked (state table.old search.old) }
    requires shared { AreSharedOf table.old (subterms_of asked) shared.now }
    ensures grown { Extends table.old table.new }
    ensures declared { declared_in table.new ≡ declared_in table.old }
    ensures answered { IfOk result (IsAnswered asked search.old.budget.limit (state table.new search.new)) }
{
    relate_bounds(search, table, 0)?;
    logs_hold_in_grown_tables();
    let truths = truth_values(search.alloc, table)?;
    let mut theory = Combined::new(search.alloc, table, truths)?;
    match begin_with(search, table, &mut theory, shared) {
        Ok(answer) => Ok(answer),
        Err(stop) => answer_to(stop),
    }
}

/// Searches with both theories, which hold and watch nothing yet.
///
/// `Memory` comes where memory ran out, here or in a theory, and `Strained` from linear arithmetic.
fn begin_with(
    search: &mut Search,
    table: &mut TermTable,
    theory: &mut Combined,
    shared: &[TermId],
) -> Result<Answer, Stop>
    ghost asked: { List Term }
    requires begun { IsBegunFor asked (state table.old search.old) }
    requires shared { AreSharedOf table.old (subterms_of asked) shared.now }
    requires empty { theory_of theory.old.congruence ≡ record { held = []; watched = []; marks = [] } }
    requires congruence { AreFactsOf table.old theory.old.congruence.now.facts }
    requires simplex { Suits theory.old.simplex table.old }
    requires came { (ts : List Term) → CameBy table.old ts 0 [] theory.old.simplex }
    ensures grown { Extends table.old table.new }
    ensures declared { declared_in table.new ≡ declared_in table.old }
    ensures answers { MatchResult result (IsAnswered asked search.old.budget.limit (state table.new search.new))
        (IsStoppedBy asked search.old.budget.limit (state table.new search.new)) }
{
    table.ids_are_unique();
    if let Err(stop) = watch_all(theory, table, &search.terms) {
        theory.parts_hold_the_same();
        return Err(stop);
    }
    theory.parts_hold_the_same();
    try_and_search(search, table, theory, shared)
}

/// Tries the orders of choices between numbers, and searches with both theories.
///
/// The search has not grown yet: so what the tries cost is paid. `Memory` comes where memory ran out, here or in a theory, and `Strained`
/// from linear arithmetic.
fn try_and_search(
    search: &mut Search,
    table: &mut TermTable,
    theory: &mut Combined,
    shared: &[TermId],
) -> Result<Answer, Stop>
    ghost asked: { List Term }
    requires ready { (h : CanGoOn asked shared.now (state table.old search.old) theory.old) × (h.grown ≡ 0) }
    requires level { search.old.trail.level ≡ 0 }
    ensures grown { Extends table.old table.new }
    ensures declared { declared_in table.new ≡ declared_in table.old }
    ensures answers { MatchResult result (IsAnswered asked search.old.budget.limit (state table.new search.new))
        (IsStoppedBy asked search.old.budget.limit (state table.new search.new)) }
{
    table.ids_are_unique();
    let orders = denied_orders(search.alloc, table, &search.terms)?;
    let tried = search.try_all(table, theory, &orders)?;
    let Some(end) = tried else {
        return search_with(search, table, theory, shared);
    };
    match end {
        End::Refuted(step) => Ok(Answer::Unsat(step)),
        End::Stopped(reason) => Ok(Answer::Unknown(reason)),
        End::Saturated => unreachable!(),
    }
}

/// Searches with both theories. Where it rests and they do not agree on pairs of shared terms, the equalities of these come in, and it
/// goes on.
///
/// `Memory` comes where memory ran out, here or in a theory, and `Strained` where a number leaves 128 bits.
/// Source: Nelson and Oppen, Simplification by Cooperating Decision Procedures, TOPLAS 1979.
fn search_with(
    search: &mut Search,
    table: &mut TermTable,
    theory: &mut Combined,
    shared: &[TermId],
) -> Result<Answer, Stop>
    ghost asked: { List Term }
    requires ready { CanGoOn asked shared.now (state table.old search.old) theory.old }
    ensures grown { Extends table.old table.new }
    ensures declared { declared_in table.new ≡ declared_in table.old }
    ensures answers { MatchResult result (IsAnswered asked search.old.budget.limit (state table.new search.new))
        (IsStoppedBy asked search.old.budget.limit (state table.new search.new)) }
{
    'rests: loop {
        table.ids_are_unique();
        match search.run(table, theory)? {
            End::Saturated => {}
            End::Refuted(step) => return Ok(Answer::Unsat(step)),
            End::Stopped(reason) => return Ok(Answer::Unknown(reason)),
        }
        table.ids_are_unique();
        theory.parts_hold_the_same();
        match agreement(search, table, theory, shared)? {
            AgreementFound::Differ(pairs) => speak_of(search, table, theory, &pairs)?,
            AgreementFound::Agreed(assigned_values) => {
                let model = model(search, table, &assigned_values)?;
                return Ok(Answer::Sat(model));
            }
        }
    }
}
