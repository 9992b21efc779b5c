//! The tables of all symbols, by the values of listed terms.

ghost use Rattle.std.specs.Prelude.{◌≡◌, ◌≢◌, ◌<◌, length, map, All, IfOk};
ghost use Rattle.std.specs.List.{AllPairs};
ghost use Rattle.spec_sorts.specs.Subsets.{IsClosed};
ghost use Rattle.ratio128.specs.Meant.{fraction};
ghost use Rattle.term_core.specs.declared.ids.TermId.{TermId as Number};
ghost use Rattle.term_core.specs.Tables.{AreIn, clause_at};
ghost use Rattle.clause_literals.specs.Literals.{AreLiteralsIn};
ghost use Rattle.search_model.specs.Models.{IsModelOf};

use crate::rows::{blank_tables, note};
use crate::values::listed_values;
use no_memory::NoMemory;
use ratio128::Ratio;
use sat_trail::SatTrail;
use std::alloc::Global;
use term_core::{TermId, TermTable};
use term_walks::Interp;

/// Makes the interpretation that truths, classes and numbers give. A symbol's table has a row for each listed term with
/// it in front, and for all other arguments false, 0 or the first element. A constant that is listed has its value
/// alone.
///
/// The terms are listed in any order, each once.
///
/// A listed term of sort Bool has its truth by the literals that hold. What has no value there is false, and its
/// negation true. One of a declared sort is the element of the number of its class; `classes` has the class of each
/// listed term, at the same place.
///
/// `numbers` has the number of each listed term of sort Real, at the same place. Those of terms of other sorts do not
/// matter. The number of a term with a head of arithmetic is taken as given.
///
/// It takes time in proportion to the listed terms with their arguments and leading negations, to the symbols, and to
/// the number of the table's terms. `NoMemory` comes where values or tables find no memory.
pub fn model_of(
    alloc: Global,
    table: &TermTable,
    terms: &[TermId],
    classes: &[u64],
    numbers: &[Ratio],
    trail: &SatTrail,
) -> Result<Interp, NoMemory>
    requires terms { AreIn table.now terms.now }
    requires once { AllPairs (λ (i j : Number). i ≢ j) terms.now }
    requires closed { IsClosed (clause_at table.now terms.now) }
    requires classes { length classes.now ≡ length terms.now }
    requires numbers { length numbers.now ≡ length terms.now }
    requires known { All (λ id. id.0 < trail.now.vars) terms.now }
    requires literals { AreLiteralsIn table.now trail.now.literals }
    ensures { IfOk result (λ interp. IsModelOf table.now trail.now.literals terms.now classes.now
        (map fraction numbers.now) interp) }
{
    let values = listed_values(alloc, table, terms, classes, numbers, trail)?;
    let mut tables = blank_tables(alloc, table)?;
    'terms: for id in terms.iter() {
        note(alloc, table, &values, *id, &mut tables)?;
    }
    Ok(Interp { tables })
}
