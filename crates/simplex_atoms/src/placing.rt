//! The place of a form.

ghost use Rattle.std.specs.Prelude.{◌≡◌, ◌<◌, false, IfOk, IfErr, Err};
ghost use Rattle.spec_numbers.specs.Fractions.{opposite};
ghost use Rattle.spec_numbers.specs.Bounds.{divided};
ghost use Rattle.spec_tableaux.specs.SolvedForms.{AllVariables};
ghost use Rattle.spec_tableaux.specs.Numbers.{numbers};
ghost use Rattle.ratio128.specs.Meant.{fraction, overflow};
ghost use Rattle.term_core.specs.Tables.{TableView};
ghost use Rattle.spec_causes.specs.Reached.{IsLonger};
ghost use Rattle.linear_form.specs.Meant.{form_meant, AreVariablesOf};
ghost use Rattle.tableau.specs.Numbers.{number_of};
ghost use Rattle.tableau.specs.Entries.{entries_of};
ghost use Rattle.simplex_atoms.specs.Sums.{sign_by, key_meant, IsKeyOf, IsNew};
ghost use Rattle.simplex_atoms.specs.Slacks.{IsSign, IsFormOf};
ghost use Rattle.simplex_atoms.specs.Atoms.{setting_of, IsMultiple};
ghost use Rattle.simplex_atoms.specs.Watching.{OnAtomOverflow, OverflowsForm};
ghost use Rattle.simplex_atoms.specs.Made.{IsMade, Covers, IsOnEntry, IsSingle, OverflowsEntries};
ghost use Rattle.simplex_atoms.specs.TermTableauViews.{ButForMemory};
ghost use Rattle.simplex_atoms.specs.Grown.{MeaningsFit, any_table, Grown, LeadsByEntries, LeadsByForm, ground_on};

use crate::keys::Key;
use crate::meanings::Meanings;
use crate::numbering::entries_of;
use crate::slack::{Comparison, Slack};
use crate::stop::AtomStop;
use crate::sums::Multiple;
use linear_form::Form;
use ratio128::{Ratio, Wide};
use simplex_check::RealAssignment;
use std::alloc::Global;
use tableau::Entry;
use tableau::numbers::{is_zero, negative, one, quotient};

/// Gives the one entry, whose coefficient is not 0; nothing where the entries are no such one.
fn single(entries: &[Entry]) -> Option<Entry>
    ensures { IsSingle entries.now result }
{
    let [entry] = entries else {
        return None;
    };
    if is_zero(entry.coefficient) {
        return None;
    }
    Some(*entry)
}

/// Makes the place on the variable of an entry.
fn on_variable(kind: Comparison, constant: Ratio, entry: Entry) -> Result<Slack, Wide>
    requires { numbers.is_zero (number_of entry.coefficient) ≡ false }
    ensures made { IfOk result (IsMade kind constant) }
    ensures variable { IfOk result (λ p. (p.variable ≡ entry.variable) × (p.factor ≡ entry.coefficient)) }
    ensures wide { IfErr result (λ w.
        divided (opposite (fraction constant)) (fraction entry.coefficient) ≡ Err (overflow w)) }
{
    let bound = quotient(negative(constant), entry.coefficient)?;
    Ok(Slack {
        kind,
        variable: entry.variable,
        factor: entry.coefficient,
        constant,
        bound,
    })
}

/// Gives 1, or -1.
fn sign(opposite: bool) -> Ratio
    ensures { number_of result ≡ sign_by opposite }
{
    if opposite { negative(one()) } else { one() }
}

/// Gives the value of a variable at which it, or minus it, and the constant come to 0.
fn bound_by(constant: Ratio, opposite: bool) -> Ratio
    ensures { number_of result
        ≡ numbers.times (numbers.opposite (number_of constant)) (numbers.inverse (sign_by opposite)) }
{
    if opposite {
        constant
    } else {
        negative(constant)
    }
}

/// Makes the place on a variable of which the form is a multiple by 1 or -1, but for the constant.
fn on_multiple(kind: Comparison, constant: Ratio, multiple: Multiple) -> Slack
    ensures made { IsMade kind constant result }
    ensures variable { result.variable ≡ multiple.variable }
    ensures factor { number_of result.factor ≡ sign_by multiple.opposite }
    ensures unit { IsSign (number_of result.factor) }
{
    Slack {
        kind,
        variable: multiple.variable,
        factor: sign(multiple.opposite),
        constant,
        bound: bound_by(constant, multiple.opposite),
    }
}

/// Adds a variable that is the sum of the entries, which have this key, and gives its number.
fn add_row(
    meanings: &mut Meanings,
    assignment: &mut RealAssignment,
    entries: &[Entry],
    key: Key,
) -> Result<u64, AtomStop>
    requires fit { MeaningsFit meanings.old assignment.old }
    requires over { AllVariables (λ y. y < assignment.old.tableau.variables) (entries_of entries.now) }
    requires longer { IsLonger (entries_of entries.now) }
    requires key { IsKeyOf entries.now key }
    requires is_new { IsNew meanings.old.sums.list (key_meant key) }
    ensures grown { Grown any_table meanings.old assignment.old meanings.new assignment.new }
    ensures is { IfOk result (IsMultiple (ground_on meanings.new assignment.new) (entries_of entries.now)
        numbers.one) }
    ensures wide { (constant : Ratio)
        → IfErr result (OnAtomOverflow (OverflowsEntries assignment.new constant entries.now)) }
    ensures came { ButForMemory
        (LeadsByEntries (entries_of entries.now) meanings.old assignment.old meanings.new assignment.new) result }
{
    meanings.sums.reserve()?;
    meanings.owners.reserve()?;
    let variable = assignment.add_row(entries)?;
    meanings.owners.add_none();
    meanings.sums.add(key, variable);
    Ok(variable)
}

/// Makes the place on the variable that is the sum of the entries or minus it: the one that there is, else a new one.
fn on_row(
    meanings: &mut Meanings,
    assignment: &mut RealAssignment,
    kind: Comparison,
    constant: Ratio,
    entries: &[Entry],
) -> Result<Slack, AtomStop>
    requires fit { MeaningsFit meanings.old assignment.old }
    requires over { AllVariables (λ y. y < assignment.old.tableau.variables) (entries_of entries.now) }
    requires longer { IsLonger (entries_of entries.now) }
    ensures grown { Grown any_table meanings.old assignment.old meanings.new assignment.new }
    ensures made { IfOk result (IsMade kind constant) }
    ensures covers { IfOk result (Covers (ground_on meanings.new assignment.new) entries.now) }
    ensures unit { IfOk result (λ p. IsSign (number_of p.factor)) }
    ensures wide { IfErr result (OnAtomOverflow (OverflowsEntries assignment.new constant entries.now)) }
    ensures came { ButForMemory
        (LeadsByEntries (entries_of entries.now) meanings.old assignment.old meanings.new assignment.new) result }
{
    let key = meanings.sums.key(entries)?;
    if let Some(known) = meanings.sums.find(&key) {
        let multiple = Multiple {
            variable: known.variable,
            opposite: known.opposite != key.opposite,
        };
        return Ok(on_multiple(kind, constant, multiple));
    }
    let variable = add_row(meanings, assignment, entries, key)?;
    let multiple = Multiple {
        variable,
        opposite: false,
    };
    Ok(on_multiple(kind, constant, multiple))
}

/// Makes the place of the form that has this constant, and the sum of the entries: on the variable of the one entry,
/// else on that of a row.
fn slack_by(
    meanings: &mut Meanings,
    assignment: &mut RealAssignment,
    kind: Comparison,
    constant: Ratio,
    entries: &[Entry],
) -> Result<Slack, AtomStop>
    requires fit { MeaningsFit meanings.old assignment.old }
    requires over { AllVariables (λ y. y < assignment.old.tableau.variables) (entries_of entries.now) }
    ensures grown { Grown any_table meanings.old assignment.old meanings.new assignment.new }
    ensures made { IfOk result (IsMade kind constant) }
    ensures covers { IfOk result (Covers (ground_on meanings.new assignment.new) entries.now) }
    ensures on { IfOk result (IsOnEntry entries.now) }
    ensures wide { IfErr result (OnAtomOverflow (OverflowsEntries assignment.new constant entries.now)) }
    ensures came { ButForMemory
        (LeadsByEntries (entries_of entries.now) meanings.old assignment.old meanings.new assignment.new) result }
{
    match single(entries) {
        Some(entry) => {
            let slack = on_variable(kind, constant, entry)?;
            Ok(slack)
        }
        None => on_row(meanings, assignment, kind, constant, entries),
    }
}

/// Makes the place of a form. Its variables get variables where they have none. Unless it has one, so does their sum,
/// where neither it nor its opposite has one.
///
/// `Wide` comes where an operation leaves the bound on fractions, and `Memory` where there is no memory. There may
/// then be more variables and rows.
pub(crate) fn slack_of(
    alloc: Global,
    meanings: &mut Meanings,
    assignment: &mut RealAssignment,
    kind: Comparison,
    form: &Form,
) -> Result<Slack, AtomStop>
    requires fit { MeaningsFit meanings.old assignment.old }
    ensures grown { Grown (λ t. AreVariablesOf t form.now) meanings.old assignment.old meanings.new assignment.new }
    ensures kind { IfOk result (λ p. p.kind ≡ kind) }
    ensures is { IfOk result (λ p. (t : TableView)
        → IsFormOf (setting_of t (ground_on meanings.new assignment.new)) p (form_meant t form.now)) }
    ensures wide { IfErr result (OnAtomOverflow (λ o. (t : TableView)
        → OverflowsForm t meanings.new.owners.list assignment.new (form_meant t form.now) o)) }
    ensures came { ButForMemory (LeadsByForm form.now meanings.old assignment.old meanings.new assignment.new) result }
{
    let variables = form.variables(alloc)?;
    let entries = entries_of(alloc, meanings, assignment, &variables)?;
    slack_by(meanings, assignment, kind, form.constant(), &entries)
}
