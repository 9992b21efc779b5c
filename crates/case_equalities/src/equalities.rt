//! The equalities that asserted disjunctions lead to, each with the step by which it follows.

ghost use Rattle.std.specs.Prelude.{All, IfOk};
ghost use Rattle.proof_log.specs.Logs.{IsLogOf, AreFormulasIn};
ghost use Rattle.proof_log.specs.Theories.{DerivesLemmas, derived};
ghost use Rattle.case_equalities.specs.Leads.{asserted_below, IsCaseEquality};

use crate::finding::leads_of;
use crate::stating::state_all;
use no_memory::NoMemory;
use proof_log::{ProofLog, StepId};
use std::alloc::Global;
use term_core::{TermId, TermTable};

/// Holds an equality that an asserted term leads to.
#[derive(Clone, Copy, Debug, PartialEq, Eq)]
pub struct CaseEquality {
    /// The disjunction, which is asserted, or a conjunct of what is.
    pub disjunction: TermId,
    /// The equality.
    pub equality: TermId,
    /// The step of the clause that the disjunction is false or the equality true.
    pub step: StepId,
}

/// Logs, for the disjunctions among asserted terms and their conjuncts, which equalities of elements each of their cases leads to, and
/// gives these with their steps, by rising numbers of the disjunctions. Of terms that all cases of one disjunction join, each but the first
/// has its equality with the first, where a chain of no more than 64 equalities leads there in each case.
///
/// Terms and steps that come are lemmas. A case is an equality, or a conjunction of equalities and others; no equality comes twice.
/// `NoMemory` comes where memory ran out; what came until then stays. Time and memory go in proportion to the disjunctions whose cases
/// are such, but for sorting.
/// Source: Alethe specification, rules `or_pos`, `and_pos`, `eq_transitive` and `resolution`.
pub fn equalities_of_cases(
    alloc: Global,
    table: &mut TermTable,
    log: &mut ProofLog,
    roots: &[TermId],
) -> Result<Vec<CaseEquality>, NoMemory>
    requires log { IsLogOf table.old log.old }
    requires roots { AreFormulasIn table.old roots.now }
    ensures derives { DerivesLemmas (asserted_below table.old roots.now) (derived table.old log.old)
        (derived table.new log.new) }
    ensures found { IfOk result (λ found. All (IsCaseEquality table.new log.new roots.now) found.items) }
{
    let leads = leads_of(alloc, table, roots)?;
    state_all(alloc, table, log, roots, &leads)
}
