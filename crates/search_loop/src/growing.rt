//! How a search begins, and how it grows: terms come in of which it did not speak, with their clauses.

ghost use Rattle.std.specs.Prelude.{◌≡◌, List, IfErr, OnOk, MatchResult};
ghost use Rattle.spec_sorts.specs.Literals.{Literal};
ghost use Rattle.search_loop.specs.Answered.{AreAnswered};
ghost use Rattle.spec_derivations.specs.Problems.{Problem};
ghost use Rattle.term_core.specs.Tables.{declared_in, Extends, clause_at};
ghost use Rattle.proof_log.specs.Logs.{IsLogOf, AreStepsOf, AreFormulasIn};
ghost use Rattle.clausify.specs.Overflows.{OnClauseOverflow, IsOrderOverflow};
ghost use Rattle.search_loop.specs.Search.{SearchFits, Reaches};
ghost use Rattle.search_loop.specs.Asking.{state};
ghost use Rattle.search_loop.specs.Growing.{IsEmptySearch, GrowsTo, HasGrown, StoresAll};

use crate::atoms::atoms_of;
use crate::balances::balances_of;
use crate::decider::Decider;
use crate::restarts::Restarts;
use crate::search::Search;
use clause_store::ClauseStore;
use clause_store::laws::{reasons_stay_right, what_is_marked_was_seen};
use clausify::{ClauseStop, Stated, clauses_of_new};
use no_memory::NoMemory;
use proof_log::laws::empty_logs_are_right;
use proof_log::{ProofLog, StepId};
use sat_budget::{Budget, Limits};
use sat_trail::SatTrail;
use std::alloc::Global;
use term_core::{TermId, TermTable};

/// Puts the clauses of steps of a log last in a store, in their order.
///
/// `NoMemory` comes where a clause finds no memory; those before it stay.
fn store_all(
    store: &mut ClauseStore,
    table: &TermTable,
    log: &ProofLog,
    steps: &[StepId],
) -> Result<(), NoMemory>
    requires log { IsLogOf table.now log.now }
    requires steps { AreStepsOf log.now steps.now }
    ensures { OnOk result (StoresAll table.now log.now steps.now store.old store.new) }
{
    what_is_marked_was_seen();
    reasons_stay_right();
    'steps: for step in steps.iter() {
        store.add(table, log, *step)?;
    }
    Ok(())
}

/// Gives a trail variables until there is one for each term of a table.
///
/// `NoMemory` comes where a variable finds no memory; those before it stay.
fn reach(trail: &mut SatTrail, table: &TermTable) -> Result<(), NoMemory>
    ensures { OnOk result (Reaches table.now trail.old trail.new) }
{
    'variables: while trail.vars() < table.len() {
        trail.add_var()?;
    }
    Ok(())
}

impl Search {
    /// Makes a search that speaks of nothing: its log is empty, it has no clause, and a new budget.
    ///
    /// `NoMemory` never comes, as empty lists take no memory.
    pub fn new(alloc: Global, limits: &Limits) -> Result<Search, NoMemory>
        ensures { MatchResult result (IsEmptySearch limits.now) (λ _. ⊥) }
    {
        empty_logs_are_right();
        what_is_marked_was_seen();
        reasons_stay_right();
        let budget = Budget::new(alloc, limits)?;
        Ok(Search {
            alloc,
            log: ProofLog::new(alloc),
            store: ClauseStore::new(alloc),
            trail: SatTrail::new(alloc),
            terms: Vec::new(alloc),
            atoms: Vec::new(alloc),
            decider: Decider::new(alloc),
            restarts: Restarts::new(),
            budget,
            fed: 0,
            since: 0,
        })
    }

    /// Lets a search at level 0 speak of terms, which come in with their subterms and their clauses: roots, which are asserted, and
    /// interface equalities, which need not be true. What there is stays: the log, learned clauses, activities and signs. A search
    /// that begins is the empty one, grown by its roots, and so is one that starts a further check by further roots.
    ///
    /// `Wide` comes where an operation leaves 128 bits that judges a clause of an equality's orders; then all is as it was. Where memory
    /// runs out, some of the terms may have come into the table, and the search is of no use any more.
    pub fn grow(
        &mut self,
        table: &mut TermTable,
        roots: &[TermId],
        interface: &[TermId],
    ) -> Result<(), ClauseStop>
        requires ready { SearchFits table.old self.old }
        requires level { self.old.trail.level ≡ 0 }
        requires roots { AreFormulasIn table.old roots.now }
        requires interface { AreFormulasIn table.old interface.now }
        requires answered { AreAnswered (clause_at table.old roots.now) }
        requires answered_interface { AreAnswered (clause_at table.old interface.now) }
        ensures grown { Extends table.old table.new }
        ensures declared { declared_in table.new ≡ declared_in table.old }
        ensures grows { OnOk result (HasGrown (state table.old self.old) (state table.new self.new)
            roots.now interface.now) }
        ensures same { IfErr result (OnClauseOverflow
            (λ _. (table.new ≡ table.old) × (self.new ≡ self.old))) }
        ensures wide { IfErr result (OnClauseOverflow (λ o. (p : Problem) (earlier : List (List Literal))
            → GrowsTo table.old self.old roots.now interface.now earlier p → IsOrderOverflow p o)) }
    {
        what_is_marked_was_seen();
        reasons_stay_right();
        let Stated { steps, terms } = clauses_of_new(
            self.alloc,
            table,
            &mut self.log,
            &self.terms,
            roots,
            interface,
        )?;
        table.ids_are_unique();
        self.trail.is_sound();
        let atoms = atoms_of(self.alloc, table, &terms)?;
        reach(&mut self.trail, table)?;
        self.decider.wait_for(&atoms, self.trail.vars())?;
        let balances = balances_of(self.alloc, table, &self.log, steps.as_slice(), roots)?;
        self.decider.lean(&atoms, &balances);
        self.decider.affirm(interface);
        store_all(&mut self.store, table, &self.log, steps.as_slice())?;
        self.terms.extend_from_slice(&terms)?;
        self.atoms.extend_from_slice(&atoms)?;
        Ok(())
    }
}
