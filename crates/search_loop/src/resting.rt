//! Back to level 0, so that a search can grow.

ghost use Rattle.std.specs.Prelude.{◌≡◌};
ghost use Rattle.term_core.specs.Tables.{TableView};
ghost use Rattle.proof_log.specs.Meanings.{KeepsRuns};
ghost use Rattle.search_loop.specs.Search.{SearchFits};
ghost use Rattle.search_loop.specs.Rounds.{Continues};
ghost use Rattle.search_loop.specs.Asking.{IsAsked};

use crate::feeding::go_back;
use crate::search::Search;
use clause_store::laws::{reasons_stay_right, what_is_marked_was_seen};
use proof_log::Theory;

impl Search {
    /// Goes back to level 0, and lets the theory do so. What has its value since level 0 keeps it, and signs and activities stay. It takes
    /// no memory.
    pub fn rest<T: Theory>(&mut self, theory: &mut T)
        requires ready { (t : TableView) × SearchFits t self.old }
        requires asked { IsAsked (T.meaning theory.old).view self.old }
        ensures ready { (t : TableView) → SearchFits t self.old → SearchFits t self.new }
        ensures level { self.new.trail.level ≡ 0 }
        ensures budget { self.new.budget ≡ self.old.budget }
        ensures continues { (t : TableView) → Continues t t self.old self.new }
        ensures asked { IsAsked (T.meaning theory.new).view self.new }
        ensures keeps { KeepsRuns (T.meaning theory.old) (T.meaning theory.new) }
    {
        what_is_marked_was_seen();
        reasons_stay_right();
        self.trail.is_sound();
        if self.trail.level() == 0 {
            return;
        }
        self.decider.put_back(&self.trail, 0);
        go_back(theory, &mut self.trail, 0);
        self.fed = self.trail.len();
    }
}
