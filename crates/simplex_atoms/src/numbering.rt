//! Numbers of variables for terms, and entries for the variables of forms.

ghost use Rattle.std.specs.Prelude.{◌≡◌, Some, IfOk, OnOk};
ghost use Rattle.term_core.specs.Tables.{IsIn};
ghost use Rattle.ratio128.specs.declared.ratio.Ratio.{Ratio as Coefficient};
ghost use Rattle.simplex_atoms.specs.Owners.{owner_at};
ghost use Rattle.simplex_atoms.specs.Watching.{IsNumbered, EntriesAreNumbered};
ghost use Rattle.simplex_atoms.specs.Grown.{MeaningsFit, VariablesAreIn, Grown, LeadsByVariable, LeadsByVariables};

use crate::meanings::Meanings;
use no_memory::NoMemory;
use ratio128::Ratio;
use simplex_check::RealAssignment;
use std::alloc::Global;
use tableau::Entry;
use term_core::TermId;

/// Gives the variable that means a term, which is added where none does.
///
/// `NoMemory` comes where there is no memory; there may then be one variable more, which stands for no term.
pub(crate) fn variable_of(
    meanings: &mut Meanings,
    assignment: &mut RealAssignment,
    id: TermId,
) -> Result<u64, NoMemory>
    requires { MeaningsFit meanings.old assignment.old }
    ensures grown { Grown (λ t. IsIn t id) meanings.old assignment.old meanings.new assignment.new }
    ensures ok { IfOk result (λ y. owner_at meanings.new.owners.list y ≡ Some id) }
    ensures came { OnOk result ((k : Coefficient)
        → LeadsByVariable (id, k) meanings.old assignment.old meanings.new assignment.new) }
{
    if let Some(y) = meanings.owners.var(id) {
        return Ok(y);
    }
    meanings.owners.reserve()?;
    let y = meanings.owners.len();
    assignment.add_var()?;
    meanings.owners.add_term(id)?;
    Ok(y)
}

/// Makes the entry of a variable of a form.
fn entry_of(
    meanings: &mut Meanings,
    assignment: &mut RealAssignment,
    variable: (TermId, Ratio),
) -> Result<Entry, NoMemory>
    requires { MeaningsFit meanings.old assignment.old }
    ensures grown { Grown (λ t. IsIn t variable.0) meanings.old assignment.old meanings.new assignment.new }
    ensures ok { IfOk result (λ e. IsNumbered meanings.new.owners.list e variable) }
    ensures came { OnOk result (LeadsByVariable variable meanings.old assignment.old meanings.new assignment.new) }
{
    let y = variable_of(meanings, assignment, variable.0)?;
    Ok(Entry {
        variable: y,
        coefficient: variable.1,
    })
}

/// Makes the entries of the variables of a form, in order. Terms without a variable get one.
///
/// `NoMemory` comes where there is no memory; there may then be more variables.
pub(crate) fn entries_of(
    alloc: Global,
    meanings: &mut Meanings,
    assignment: &mut RealAssignment,
    variables: &[(TermId, Ratio)],
) -> Result<Vec<Entry>, NoMemory>
    requires { MeaningsFit meanings.old assignment.old }
    ensures grown { Grown (VariablesAreIn variables.now) meanings.old assignment.old meanings.new assignment.new }
    ensures ok { IfOk result (λ es. EntriesAreNumbered meanings.new.owners.list es.items variables.now) }
    ensures came { OnOk result
        (LeadsByVariables variables.now meanings.old assignment.old meanings.new assignment.new) }
{
    let mut entries = Vec::new(alloc);
    'variables: for at in 0..variables.len() {
        let entry = entry_of(meanings, assignment, variables[at])?;
        entries.push(entry)?;
    }
    Ok(entries)
}
