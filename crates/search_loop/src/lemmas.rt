//! Clauses of lemmas that come into the store where no decision stands.

ghost use Rattle.std.specs.Prelude.{◌≡◌, List, MatchResult, OnOk};
ghost use Rattle.term_core.specs.declared.ids.Lit.{Lit};
ghost use Rattle.proof_log.specs.Clashes.{IsClash};
ghost use Rattle.search_loop.specs.Waiting.{AreOfAtoms};
ghost use Rattle.search_loop.specs.Search.{SearchFits};
ghost use Rattle.search_loop.specs.Rounds.{Continues, HasKept};

use crate::search::Search;
use clause_store::laws::{reasons_stay_right, what_is_marked_was_seen};
use no_memory::NoMemory;
use proof_log::StepId;
use term_core::TermTable;

impl Search {
    /// Puts the clause of a step of the log last in the store of a search at level 0, where it is over the search's atoms.
    ///
    /// So the clause of a lemma that came into the log is searched with. The search is asked what it was. `NoMemory` comes where the
    /// clause finds no memory; then all is as it was.
    pub fn keep(&mut self, table: &TermTable, step: StepId) -> Result<(), NoMemory>
        requires ready { SearchFits table.now self.old }
        requires level { self.old.trail.level ≡ 0 }
        requires clash { (held : List Lit) × IsClash table.now self.old.log held step
            × AreOfAtoms self.old.atoms.items held }
        ensures kept { MatchResult result (λ _. HasKept table.now step self.old self.new) (λ _. self.new ≡ self.old) }
        ensures continues { OnOk result (Continues table.now table.now self.old self.new) }
        ensures ready { OnOk result (SearchFits table.now self.new) }
    {
        what_is_marked_was_seen();
        reasons_stay_right();
        self.trail.is_sound();
        self.store.steps_are_paired();
        self.store.add(table, &self.log, step)?;
        Ok(())
    }
}
