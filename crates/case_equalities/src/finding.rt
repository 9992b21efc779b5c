//! Which terms all cases of a disjunction join.

ghost use Rattle.std.specs.Prelude.{All, IfOk, OnOk};
ghost use Rattle.term_core.specs.Tables.{IsIn, AreIn};
ghost use Rattle.proof_log.specs.Logs.{AreFormulasIn};
ghost use Rattle.case_equalities.specs.Leads.{IsLeadOver};
ghost use Rattle.case_equalities.specs.Finding.{AddsLeads};

use crate::cases::are_linking;
use crate::conjuncts::disjunctions_of;
use crate::forest::CaseForest;
use crate::joining::{Pair, pairs_of};
use crate::judging::is_marked_lead;
use crate::lead::{Chain, Lead};
use indexmap::IndexSet;
use no_memory::NoMemory;
use std::alloc::Global;
use term_clauses::marks::marks_of;
use term_core::{TermId, TermTable};

/// Lists the pairs of terms that all cases join, of the disjunctions among asserted terms and their conjuncts, by rising numbers of these.
/// A pair comes once.
///
/// `NoMemory` comes where memory ran out.
pub(crate) fn leads_of(
    alloc: Global,
    table: &TermTable,
    roots: &[TermId],
) -> Result<Vec<Lead>, NoMemory>
    requires { AreFormulasIn table.now roots.now }
    ensures { IfOk result (λ leads. All (IsLeadOver table.now roots.now) leads.items) }
{
    let marks = marks_of(alloc, table, roots)?;
    let disjunctions = disjunctions_of(alloc, table, roots)?;
    let mut found = IndexSet::new(alloc);
    let mut leads = Vec::new(alloc);
    'disjunctions: for disjunction in disjunctions.iter() {
        add_leads(alloc, table, &marks, *disjunction, &mut found, &mut leads)?;
    }
    Ok(leads)
}

/// Adds what a disjunction leads to, but for pairs that were found before.
fn add_leads(
    alloc: Global,
    table: &TermTable,
    marks: &[bool],
    disjunction: TermId,
    found: &mut IndexSet<Pair>,
    leads: &mut Vec<Lead>,
) -> Result<(), NoMemory>
    requires { IsIn table.now disjunction }
    ensures { OnOk result (AddsLeads table.now marks.now disjunction leads.old.items leads.new.items) }
{
    let cases = table.node(disjunction).arguments.as_slice();
    if !are_linking(table, cases) {
        return Ok(());
    }
    let forests = forests_of(alloc, table, cases)?;
    let pairs = pairs_of(alloc, &forests)?;
    'pairs: for pair in pairs.iter() {
        if is_found(found, *pair)? {
            continue;
        }
        let Some(chains) = chains_of(alloc, &forests, *pair)? else {
            continue;
        };
        let lead = Lead {
            disjunction,
            left: pair.left,
            right: pair.right,
            chains,
        };
        add_lead(table, marks, lead, leads)?;
    }
    Ok(())
}

/// Makes the forest of each case, in order.
fn forests_of(
    alloc: Global,
    table: &TermTable,
    cases: &[TermId],
) -> Result<Vec<CaseForest>, NoMemory>
    requires { AreIn table.now cases.now }
{
    let mut forests = Vec::new(alloc);
    'cases: for case in cases.iter() {
        forests.push(CaseForest::of_case(alloc, table, *case)?)?;
    }
    Ok(forests)
}

/// Notes a pair, and tells whether it was found before.
fn is_found(found: &mut IndexSet<Pair>, pair: Pair) -> Result<bool, NoMemory> {
    let (_, is_new) = found.insert_full(pair)?;
    Ok(!is_new)
}

/// Lists the chains between two terms, one in each case; nothing where one would be too long.
fn chains_of(
    alloc: Global,
    forests: &[CaseForest],
    pair: Pair,
) -> Result<Option<Vec<Chain>>, NoMemory> {
    let mut chains = Vec::new(alloc);
    'cases: for forest in forests.iter() {
        let Some(chain) = forest.chain(alloc, pair.left, pair.right)? else {
            return Ok(None);
        };
        chains.push(chain)?;
    }
    Ok(Some(chains))
}

/// Adds a lead, where all that it names is marked. So nothing rests on how it was found.
fn add_lead(
    table: &TermTable,
    marks: &[bool],
    lead: Lead,
    leads: &mut Vec<Lead>,
) -> Result<(), NoMemory>
    ensures { OnOk result (AddsLeads table.now marks.now lead.disjunction leads.old.items leads.new.items) }
{
    if !is_marked_lead(table, marks, &lead) {
        return Ok(());
    }
    leads.push(lead)?;
    Ok(())
}
