//! Terms are watched, with places and room for their literals' bounds.

ghost use Rattle.std.specs.Prelude.{◌≡◌, ◌++◌, ◌∷◌, ℕ, List, [], Contains, OnOk, IfOk, IfErr, MatchResult};
ghost use Rattle.spec_sorts.specs.Terms.{Term};
ghost use Rattle.spec_causes.specs.Counts.{counted};
ghost use Rattle.ratio128.specs.declared.wide.Wide.{Wide};
ghost use Rattle.term_core.specs.Tables.{IsIn, term_at};
ghost use Rattle.sat_budget.specs.Budgets.{StopsBy};
ghost use Rattle.sat_budget.specs.declared.limits.Stop.TheVariants as stops;
ghost use Rattle.proof_log.specs.Theories.{with_watched, terms_watched, IsTermIn, CameTo};
ghost use Rattle.simplex_check.specs.Assignments.{IsBasisOf};
ghost use Rattle.simplex_explain.specs.Stated.{IsKnownIn};
ghost use Rattle.simplex.specs.Views.{IsOf, slack_count};
ghost use Rattle.simplex.specs.Coming.{CameBy, StoppedBy, IsOverflowAt};

use crate::atom_lists::AtomLists;
use crate::simplex::Simplex;
use no_memory::NoMemory;
use ratio128::Wide;
use sat_budget::{Stop, Strain};
use simplex_atoms::{AtomStop, Atoms};
use simplex_check::RealAssignment;
use term_core::{TermId, TermTable};

/// Makes the stop of an overflow, with the basic variables and the values of the assignment. It is out of memory where their lists
/// find none.
fn overflowed(assignment: &RealAssignment, wide: Wide) -> Stop
    ensures { StopsBy (λ s. (s.wide ≡ wide) × IsBasisOf assignment.now s.basis) result }
{
    match assignment.basis() {
        Ok(basis) => Stop::Strained(Strain { wide, basis }),
        Err(_) => Stop::Memory,
    }
}

/// Lists a term of a number with the atoms on its variable, if it has a place.
///
/// `NoMemory` comes where there is no memory; numbers that are not below that one may have gone from the variable's list then.
fn list_atom(lists: &mut AtomLists, atoms: &Atoms, id: TermId, n: u64) -> Result<(), NoMemory> {
    match atoms.slack(id) {
        None => Ok(()),
        Some(slack) => lists.add(slack.variable, n),
    }
}

impl Simplex {
    /// Gives an atom of linear arithmetic its place.
    fn slack_term(&mut self, table: &TermTable, id: TermId) -> Result<(), Stop>
        requires term { IsIn table.now id }
        requires new { Contains self.old.theory.watched id → ⊥ }
        requires with { IsOf self.old table.now }
        ensures with { IsOf self.new table.now }
        ensures theory { self.new.theory ≡ self.old.theory }
        ensures known { OnOk result (IsKnownIn table.now self.new.atoms.slack_list id) }
        ensures came { (ts : List Term) (n : ℕ) (es : List (ℕ × ℕ)) → Contains ts (term_at table.now id)
            → CameBy table.now ts n es self.old → CameTo result
            (λ _. CameBy table.now ts (counted (term_at table.now id) n) es self.new)
            (StoppedBy table.now ts n es self.new) }
        ensures stops { IfErr result (StopsBy (λ s. (ts : List Term) → Contains ts (term_at table.now id)
            → IsOverflowAt table.now ts s self.new)) }
    {
        self.literals.are_of_watched_terms();
        self.literals.marks_are_prefixes();
        self.kept = 0;
        match self
            .atoms
            .watch(table, id, &mut self.assignment, &mut self.bounds)
        {
            Ok(()) => Ok(()),
            Err(AtomStop::Wide(wide)) => Err(overflowed(&self.assignment, wide)),
            Err(AtomStop::Memory) => Err(Stop::Memory),
        }
    }

    /// Counts the watched terms that have a place, and a term more.
    fn slacked_with(&self, id: TermId) -> Result<u64, Stop>
        ensures count { IfOk result (λ n. n ≡ slack_count self.now.atoms.slack_list (self.now.theory.watched ++ id
            ∷ [])) }
        ensures stop { IfErr result (λ stop. stop ≡ stops.Memory) }
    {
        if self.atoms.slack(id).is_none() {
            return Ok(self.slack_list);
        }
        match self.slack_list.checked_add(1) {
            Some(n) => Ok(n),
            None => Err(Stop::Memory),
        }
    }

    /// Watches a term that it does not watch yet, which must be one over the table's symbols. An atom of linear arithmetic gets
    /// its place, and the room for the bounds of its two literals.
    ///
    /// `Memory` comes where memory ran out, and `Strained` where an operation on the atom's form or its row leaves 128 bits, with
    /// the basic variables and the values there. After a stop it watches what it did.
    pub fn watch_term(&mut self, table: &TermTable, id: TermId) -> Result<(), Stop>
        requires term { IsTermIn table.now id }
        requires new { Contains self.old.theory.watched id → ⊥ }
        requires with { IsOf self.old table.now }
        ensures with { IsOf self.new table.now }
        ensures watches { MatchResult result (λ _. self.new.theory ≡ with_watched self.old.theory id)
            (λ _. self.new.theory ≡ self.old.theory) }
        ensures came { (ts : List Term) (n : ℕ) (es : List (ℕ × ℕ)) → Contains ts (term_at table.now id)
            → CameBy table.now ts n es self.old → CameTo result
            (λ _. CameBy table.now ts (counted (term_at table.now id) n) es self.new)
            (StoppedBy table.now ts n es self.new) }
        ensures stops { IfErr result (StopsBy (λ s. IsOverflowAt table.now
            (terms_watched table.now (with_watched self.old.theory id)) s self.new)) }
    {
        self.slack_term(table, id)?;
        let slack_list = self.slacked_with(id)?;
        let Some(room) = slack_list.checked_mul(4) else {
            return Err(Stop::Memory);
        };
        let n = self.literals.terms_len();
        list_atom(&mut self.atom_lists, &self.atoms, id, n)?;
        self.literals.are_of_watched_terms();
        self.literals.marks_are_prefixes();
        self.bounds.reserve(room)?;
        self.literals.watch(id)?;
        self.slack_list = slack_list;
        Ok(())
    }
}
