//! The form of a term of a table.

ghost use Rattle.std.specs.Prelude.{IfOk};
ghost use Rattle.spec_arithmetic.specs.Forms.{form};
ghost use Rattle.term_core.specs.Tables.{IsIn, term_at};
ghost use Rattle.linear_form.specs.Meant.{AreVariablesOf};
ghost use Rattle.linear_form.specs.Making.{Finds};
ghost use Rattle.linear_form.specs.Walks.{IsKnown};

use crate::form::Form;
use crate::known::{KnownForm, known_of};
use crate::needed::needed;
use crate::plan::plan_of;
use crate::slots::{fetch, fetch_all};
use crate::stop::FormFault;
use no_memory::NoMemory;
use std::alloc::Global;
use term_core::{TermId, TermTable};

/// Makes the ordered form of a term.
///
/// Arguments come first, from left to right, and then the operations of the term's head. A term is itself a variable under a
/// head that is none of arithmetic, where two forms with variables meet in a product, and where the divisor of a quotient
/// has variables or is 0. `Wide` comes exactly where an operation leaves the bound on fractions, and tells the first one.
/// Time goes with the number of terms below arithmetic heads and the lengths of the forms that are joined.
pub fn form_of(alloc: Global, table: &TermTable, id: TermId) -> Result<Form, FormFault>
    requires there { IsIn table.now id }
    ensures exact { Finds table.now (form (term_at table.now id)) result }
    ensures there { IfOk result (AreVariablesOf table.now) }
{
    match walk(alloc, table, id) {
        Ok(KnownForm::Form(form)) => Ok(form),
        Ok(KnownForm::Wide(term, wide)) => Err(FormFault::Wide(term, wide)),
        Err(_) => Err(FormFault::Memory),
    }
}

/// Says what is known of a term, by a walk over the terms of which its form is made, each once.
///
/// What is known of a term is moved to its last user, and copied for those before: so one form goes up along nested sums.
fn walk(alloc: Global, table: &TermTable, id: TermId) -> Result<KnownForm, NoMemory>
    requires { IsIn table.now id }
    ensures { IfOk result (IsKnown table.now id.0) }
{
    let plan = plan_of(alloc, table, id)?;
    let mut slots = Vec::new(alloc);
    let mut tick = 0;
    'terms: for at in 0..plan.order.len() {
        let id = TermId(plan.order[at]);
        let count = needed(table, id).len();
        let arguments = fetch_all(alloc, &plan, &mut slots, tick, count)?;
        let known = known_of(alloc, table, id, arguments)?;
        slots.push(Some(known))?;
        tick += count;
    }
    fetch(alloc, &plan, &mut slots, tick)
}
