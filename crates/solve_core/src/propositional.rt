//! The search without a theory, where its terms are propositional.

ghost use Rattle.std.specs.Prelude.{◌≡◌, ◌≢◌, ◌↔◌, true, List, All, IfOk, MatchBool};
ghost use Rattle.spec_sorts.specs.Terms.{Truth, Term, sort_of};
ghost use Rattle.spec_valuations.specs.Propositional.{AppliesNothing, IsPropositional};
ghost use Rattle.term_core.specs.Tables.{declared_in, Extends, IsIn, AreIn, term_at, clause_at};
ghost use Rattle.proof_log.specs.Theories.{TheoryView};
ghost use Rattle.search_loop.specs.declared.cdcl.Answer.TheVariants.{Sat};
ghost use Rattle.search_loop.specs.Rounds.{ShowsAnswer};
ghost use Rattle.search_loop.specs.Asking.{HasSaturated, state};
ghost use Rattle.solve_core.specs.Beginning.{IsBegunFor};
ghost use Rattle.solve_core.specs.Answering.{IsAnswered};

use crate::modelling::zeros;
use crate::sharing::is_declared;
use held_literals::PropositionalTheory;
use no_memory::NoMemory;
use search_loop::{Answer, End, Search, watch_all};
use search_model::laws::{made_models_are_those_of_numbers, made_models_have_interpretations};
use search_model::model_of;
use spec_valuations::propositional::saturated_propositional_searches_have_models;
use term_core::{Sort, TermId, TermTable};
use term_walks::Interp;

/// Tells whether a term has the sort Bool.
fn is_truth(table: &TermTable, id: TermId) -> bool
    requires { IsIn table.now id }
    ensures { MatchBool result (sort_of (term_at table.now id) ≡ Truth) (sort_of (term_at table.now id) ≢ Truth) }
{
    table.sort(id) == Sort::Bool
}

/// Tells whether a term applies no symbol to arguments.
fn applies_nothing(table: &TermTable, id: TermId) -> bool
    requires { IsIn table.now id }
    ensures { (result ≡ true) ↔ AppliesNothing (term_at table.now id) }
{
    let node = table.node(id);
    if !is_declared(node.head) {
        return true;
    }
    node.arguments.as_slice().is_empty()
}

/// Tells whether a term is of sort Bool and applies no symbol to arguments.
fn is_propositional(table: &TermTable, id: TermId) -> bool
    requires { IsIn table.now id }
    ensures { (result ≡ true) ↔ IsPropositional (term_at table.now id) }
{
    if !is_truth(table, id) {
        return false;
    }
    applies_nothing(table, id)
}

/// Tells whether all of these terms are propositional.
pub(crate) fn are_propositional(table: &TermTable, terms: &[TermId]) -> bool
    requires { AreIn table.now terms.now }
    ensures { (result ≡ true) ↔ All IsPropositional (clause_at table.now terms.now) }
{
    'terms: for id in terms.iter() {
        if !is_propositional(table, *id) {
            return false;
        }
    }
    true
}

/// Searches with no theory from the beginning to an answer, where all terms are propositional.
pub(crate) fn answer_propositional(
    search: &mut Search,
    table: &mut TermTable,
) -> Result<Answer, NoMemory>
    ghost asked: { List Term }
    requires begun { IsBegunFor asked (state table.old search.old) }
    requires propositional { All IsPropositional (clause_at table.old search.old.terms.items) }
    ensures grown { Extends table.old table.new }
    ensures declared { declared_in table.new ≡ declared_in table.old }
    ensures answered { IfOk result (IsAnswered asked search.old.budget.limit (state table.new search.new)) }
{
    let mut theory = PropositionalTheory::new(search.alloc);
    // This theory stops for memory alone.
    let Ok(()) = watch_all(&mut theory, table, &search.terms) else {
        return Err(NoMemory);
    };
    // So it does in a check.
    let Ok(end) = search.run(table, &mut theory) else {
        return Err(NoMemory);
    };
    match end {
        End::Saturated => {
            let model = propositional_model(search, table)?;
            Ok(Answer::Sat(model))
        }
        End::Refuted(step) => Ok(Answer::Unsat(step)),
        End::Stopped(reason) => Ok(Answer::Unknown(reason)),
    }
}

/// Makes a model of the terms where the search is saturated and all of them are propositional, by the truths of its literals.
///
/// `NoMemory` comes where its tables find no memory.
fn propositional_model(search: &Search, table: &TermTable) -> Result<Interp, NoMemory>
    requires search_saturated { (v : TheoryView) × HasSaturated table.now search.now v (Unit {0}) }
    requires propositional { All IsPropositional (clause_at table.now search.now.terms.items) }
    ensures { IfOk result (λ interp. ShowsAnswer table.now table.now search.now search.now (Sat interp)) }
{
    saturated_propositional_searches_have_models();
    made_models_have_interpretations();
    made_models_are_those_of_numbers();
    table.ids_are_unique();
    table.symbols().are_declared();
    search.trail.is_sound();
    // Truth values have neither classes nor numbers, so any will do.
    let count = search.terms.len();
    let classes = vec![in search.alloc; 0; count]?;
    let numbers = zeros(search.alloc, count)?;
    model_of(
        search.alloc,
        table,
        &search.terms,
        &classes,
        &numbers,
        &search.trail,
    )
}
