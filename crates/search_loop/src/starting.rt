//! A further check of a search starts.

ghost use Rattle.std.specs.Prelude.{MatchResult};
ghost use Rattle.term_core.specs.Tables.{TableView};
ghost use Rattle.search_loop.specs.Search.{SearchFits};
ghost use Rattle.search_loop.specs.Growing.{HasStarted};

use crate::restarts::Restarts;
use crate::search::Search;
use clause_store::laws::{reasons_stay_right, what_is_marked_was_seen};
use no_memory::NoMemory;
use sat_budget::{Budget, Limits};

impl Search {
    /// Starts a further check: with a new budget, and no literals. What the search has derived stays, and what it learned is learned
    /// earlier from now on. Activities and signs stay, too.
    ///
    /// The check is to have a theory of its own, which holds nothing. `NoMemory` never comes, as empty lists take no memory.
    pub fn start(&mut self, limits: &Limits) -> Result<(), NoMemory>
        requires ready { (t : TableView) × SearchFits t self.old }
        ensures { MatchResult result (λ _. HasStarted limits.now self.old self.new) (λ _. ⊥) }
    {
        what_is_marked_was_seen();
        reasons_stay_right();
        let budget = Budget::new(self.alloc, limits)?;
        self.decider.put_all_back(&self.trail);
        let vars = self.trail.vars();
        self.trail.clear(vars);
        self.budget = budget;
        self.restarts = Restarts::new();
        self.fed = 0;
        self.since = self.log.len();
        Ok(())
    }
}
