//! What follows from the literals that hold, and whether something is wrong with them.

ghost use Rattle.search_loop.specs.Loops.{loop_state, CanLoop, Looks};

use crate::feeding::feed;
use crate::search::Search;
use clause_store::Propagation;
use clause_store::laws::{reasons_stay_right, what_is_marked_was_seen};
use proof_log::laws::logs_hold_in_grown_tables;
use proof_log::{Theory, Verdict};
use sat_budget::Stop;
use term_core::TermTable;

impl Search {
    /// Propagates, lets the theory hold what the trail holds, and lets it check that: `Clash` comes where a clause of the store is false,
    /// and else where the theory finds that something is wrong.
    ///
    /// `Memory` comes where memory ran out, here or in the theory. `Strained` is the theory's; then the budget keeps the exchanges that it
    /// made.
    pub(crate) fn look<T: Theory>(
        &mut self,
        table: &mut TermTable,
        theory: &mut T,
    ) -> Result<Verdict, Stop>
        requires { CanLoop (loop_state table.old self.old (T.meaning theory.old)) }
        ensures { Looks (loop_state table.old self.old (T.meaning theory.old))
            (loop_state table.new self.new (T.meaning theory.new)) result }
    {
        what_is_marked_was_seen();
        reasons_stay_right();
        logs_hold_in_grown_tables();
        table.ids_are_unique();
        self.trail.is_sound();
        if let Propagation::Clash(step) = self.store.propagate(&mut self.trail)? {
            return Ok(Verdict::Clash(step));
        }
        self.trail.is_sound();
        feed(theory, &self.trail, self.fed);
        self.fed = self.trail.len();
        let verdict = theory.check(table, &mut self.log, &mut self.budget)?;
        Ok(verdict)
    }
}
