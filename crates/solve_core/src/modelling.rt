//! The model where a search is saturated.

ghost use Rattle.std.specs.Prelude.{◌≡◌, map, replicate, IfOk};
ghost use Rattle.spec_equality.specs.Congruence.{IsFine};
ghost use Rattle.spec_tableaux.specs.Numbers.{numbers as exact};
ghost use Rattle.ratio128.specs.Meant.{fraction};
ghost use Rattle.proof_log.specs.Theories.{TheoryView, terms_watched, literals_held};
ghost use Rattle.search_loop.specs.declared.cdcl.Answer.TheVariants.{Sat};
ghost use Rattle.search_loop.specs.Rounds.{ShowsAnswer};
ghost use Rattle.search_loop.specs.Asking.{HasSaturated};
ghost use Rattle.solve_core.specs.Answering.{HoldTogether};

use no_memory::NoMemory;
use ratio128::Ratio;
use search_loop::Search;
use search_model::laws::{made_models_are_those_of_numbers, made_models_have_interpretations};
use search_model::model_of;
use spec_valuations::laws::{
    listed_terms_have_their_places_class, searches_saturated_on_numbers_have_models,
    terms_of_linear_checks_are_linear,
};
use std::alloc::Global;
use tableau::numbers::zero;
use term_core::TermTable;
use term_walks::Interp;

/// What the theories say of terms, in the order of these.
#[derive(Drop)]
pub(crate) struct TheoryAssignment {
    /// The number of the class of each. Those of one class are equal.
    pub(crate) classes: Vec<u64>,
    /// The number of each; any of a term that is not Real.
    pub(crate) numbers: Vec<Ratio>,
}

/// Lists 0 so many times.
pub(crate) fn zeros(alloc: Global, count: usize) -> Result<Vec<Ratio>, NoMemory>
    ensures { IfOk result (λ v. map fraction v.items ≡ replicate count exact.zero.fraction) }
{
    let list = vec![in alloc; zero(); count]?;
    Ok(list)
}

/// Makes a model of the terms where the search is saturated: by the truths of its literals, by the classes of the theory of equality, and by
/// a number for each of the terms, in their order. By these numbers the literals hold, and they agree with the classes on shared terms.
///
/// `NoMemory` comes where its tables find no memory.
pub(crate) fn model(
    search: &Search,
    table: &TermTable,
    assigned_values: &TheoryAssignment,
) -> Result<Interp, NoMemory>
    requires search_saturated { (v : TheoryView)
        × HasSaturated table.now search.now v (IsFine (terms_watched table.now v) (literals_held table.now v))
        × HoldTogether table.now search.now.terms.items v assigned_values.now.classes.items
        (map fraction assigned_values.now.numbers.items) }
    ensures { IfOk result (λ interp. ShowsAnswer table.now table.now search.now search.now (Sat interp)) }
{
    listed_terms_have_their_places_class();
    terms_of_linear_checks_are_linear();
    searches_saturated_on_numbers_have_models();
    made_models_have_interpretations();
    made_models_are_those_of_numbers();
    table.ids_are_unique();
    table.symbols().are_declared();
    search.trail.is_sound();
    model_of(
        search.alloc,
        table,
        &search.terms,
        &assigned_values.classes,
        &assigned_values.numbers,
        &search.trail,
    )
}
