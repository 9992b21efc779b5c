//! Ordered linear forms: a constant, and variables with coefficients other than 0.

ghost use Rattle.std.specs.Prelude.{◌≡◌, ◌≢◌, [], ◌∷◌, ◌++◌, map, IfOk, IfErr, OnOk, MatchBool};
ghost use Rattle.spec_arithmetic.specs.Forms.{constant_form, variable_form, combined, changed, opposite_form};
ghost use Rattle.ratio128.specs.Meant.{fraction};
ghost use Rattle.term_core.specs.Tables.{TableView, IsIn, AreDifferent, term_at};
ghost use Rattle.linear_form.specs.Meant.{form_meant, AreVariablesOf};
ghost use Rattle.linear_form.specs.Entries.{live, pair_view};
ghost use Rattle.linear_form.specs.Making.{way_meant, change_meant, CanChange, Comes, ReturnsMade};

use crate::entries::{both, change_all, changed_number, is_zero, join_all, push_entry};
pub use crate::entries::{FormChange, FormJoin};
use crate::numbers::{one, zero};
use crate::stop::FormStop;
use no_memory::NoMemory;
use ratio128::Ratio;
use std::alloc::Global;
use std::collections::HashMap;
use std::marker::Model;
use term_core::TermId;

/// Holds a constant, and variables with coefficients other than 0, in their order.
///
/// A variable is looked up by a hash of its number where there are many, and one by one else.
#[derive(Drop)]
pub struct Form {
    constant: Ratio,
    entries: Vec<(TermId, Ratio)>,
    places: HashMap<u64, usize>,
}

impl Model for Form {
    ghost use Rattle.std.specs.Prelude.{nat_eq};
    ghost use Rattle.std.specs.HashMap.{get};
    ghost use Rattle.ratio128.specs.Meant.{fraction};
    ghost use Rattle.linear_form.specs.Meant.{FormView};
    ghost use Rattle.linear_form.specs.Entries.{live, IsKept};

    ghost Value = { FormView };

    ghost view = { λ f. record { constant = fraction f.constant; variables = live f.entries.items } };

    ghost invariant = { λ f. IsKept (get nat_eq f.places) f.entries.items };
}

impl Form {
    /// Gives the constant.
    pub fn constant(&self) -> Ratio
        ensures { fraction result ≡ self.now.constant }
    {
        self.constant
    }

    /// Tells whether there is no variable. It takes no memory.
    pub fn is_constant(&self) -> bool
        ensures { MatchBool result (self.now.variables ≡ []) (self.now.variables ≢ []) }
    {
        are_dead(self.entries.as_slice())
    }

    /// Lists the variables with their coefficients, in their order.
    pub fn variables(&self, alloc: Global) -> Result<Vec<(TermId, Ratio)>, NoMemory>
        ensures { IfOk result (λ v. map pair_view v.items ≡ self.now.variables) }
    {
        let mut variables = Vec::new(alloc);
        add_live(&mut variables, self.entries.as_slice())?;
        Ok(variables)
    }
}

/// Tells whether all entries are dead.
fn are_dead(entries: &[(TermId, Ratio)]) -> bool
    ensures { MatchBool result (live entries.now ≡ []) (live entries.now ≢ []) }
{
    'entries: for at in 0..entries.len() {
        let (_, k) = entries[at];
        if !is_zero(k) {
            return false;
        }
    }
    true
}

/// Puts the entries that are not dead after those that are there.
fn add_live(
    variables: &mut Vec<(TermId, Ratio)>,
    entries: &[(TermId, Ratio)],
) -> Result<(), NoMemory>
    ensures { OnOk result
        (map pair_view variables.new.items ≡ map pair_view variables.old.items ++ live entries.now) }
{
    'entries: for at in 0..entries.len() {
        push_live(variables, entries[at])?;
    }
    Ok(())
}

/// Puts an entry after those that are there, unless it is dead.
fn push_live(variables: &mut Vec<(TermId, Ratio)>, entry: (TermId, Ratio)) -> Result<(), NoMemory>
    ensures { OnOk result
        (map pair_view variables.new.items ≡ map pair_view variables.old.items ++ live (entry ∷ [])) }
{
    if is_zero(entry.1) {
        return Ok(());
    }
    variables.push(entry)?;
    Ok(())
}

/// Makes the form of a number.
pub fn constant_alone(alloc: Global, q: Ratio) -> Result<Form, FormStop>
    ensures comes { IfOk result (λ f. (t : TableView) → form_meant t f ≡ constant_form (fraction q)) }
    ensures there { IfOk result (λ f. (t : TableView) → AreVariablesOf t f) }
    ensures stop { IfErr result (λ e. e ≡ FormStop.Memory) }
{
    Ok(Form {
        constant: q,
        entries: Vec::new(alloc),
        places: HashMap::new(alloc),
    })
}

/// Makes the form of a variable, once.
pub fn variable_alone(alloc: Global, id: TermId) -> Result<Form, FormStop>
    ensures comes { IfOk result (λ f. (t : TableView) → form_meant t f ≡ variable_form (term_at t id)) }
    ensures there { IfOk result (λ f. (t : TableView) → IsIn t id → AreVariablesOf t f) }
    ensures stop { IfErr result (λ e. e ≡ FormStop.Memory) }
{
    let mut entries = Vec::new(alloc);
    let mut places = HashMap::new(alloc);
    push_entry(&mut entries, &mut places, id, one())?;
    Ok(Form {
        constant: zero(),
        entries,
        places,
    })
}

/// Joins the second form to the first: the constants, then the variables of the second in their order.
///
/// On an error the first form is lost: what it then holds is left open.
pub fn combine(e: &mut Form, way: FormJoin, f: &Form) -> Result<(), FormStop>
    ensures comes { (t : TableView) → AreDifferent t.terms → AreVariablesOf t e.old → AreVariablesOf t f.now
        → Comes (combined (way_meant way) (form_meant t e.old) (form_meant t f.now)) result (form_meant t e.new) }
    ensures there { OnOk result ((t : TableView) → AreVariablesOf t e.old → AreVariablesOf t f.now
        → AreVariablesOf t e.new) }
{
    e.constant = both(way, e.constant, f.constant)?;
    join_all(&mut e.entries, &mut e.places, way, f.entries.as_slice())
}

/// Makes a form by a change of each number: the constant, then the coefficients in their order.
pub fn made_by(alloc: Global, f: &Form, change: FormChange) -> Result<Form, FormStop>
    requires { CanChange change }
    ensures comes { (t : TableView)
        → ReturnsMade (changed (change_meant change) (form_meant t f.now)) result (form_meant t) }
    ensures there { IfOk result (λ g. (t : TableView) → AreVariablesOf t f.now → AreVariablesOf t g) }
{
    let constant = changed_number(change, f.constant)?;
    let mut entries = Vec::new(alloc);
    let mut places = HashMap::new(alloc);
    change_all(&mut entries, &mut places, change, f.entries.as_slice())?;
    Ok(Form {
        constant,
        entries,
        places,
    })
}

/// Makes the form whose numbers are the negatives of another's.
pub fn negative(alloc: Global, f: &Form) -> Result<Form, FormStop>
    ensures comes { IfOk result (λ g. (t : TableView) → form_meant t g ≡ opposite_form (form_meant t f.now)) }
    ensures there { IfOk result (λ g. (t : TableView) → AreVariablesOf t f.now → AreVariablesOf t g) }
    ensures stop { IfErr result (λ e. e ≡ FormStop.Memory) }
{
    // No coefficient of a form is 0, and so no negative of one is.
    let _ = &f.entries;
    made_by(alloc, f, FormChange::Negative)
}

/// Copies a form.
pub fn copy(alloc: Global, f: &Form) -> Result<Form, FormStop>
    ensures same { IfOk result (λ g. (t : TableView) → form_meant t g ≡ form_meant t f.now) }
    ensures there { IfOk result (λ g. (t : TableView) → AreVariablesOf t f.now → AreVariablesOf t g) }
    ensures stop { IfErr result (λ e. e ≡ FormStop.Memory) }
{
    // No coefficient of a form is 0, and so all stay.
    let _ = &f.entries;
    made_by(alloc, f, FormChange::Nothing)
}
