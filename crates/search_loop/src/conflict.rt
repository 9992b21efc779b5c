//! What comes of a conflict.

ghost use Rattle.std.specs.Prelude.{◌≡◌, ◌<◌, length, IfOk, OnOk, ℕ};
ghost use Rattle.term_core.specs.Tables.{declared_in, Extends};
ghost use Rattle.proof_log.specs.Logs.{IsLogOf};
ghost use Rattle.proof_log.specs.Clashes.{IsClash};
ghost use Rattle.conflict_learn.specs.Conflicts.{IsOfZero, IsAboveZero};
ghost use Rattle.search_loop.specs.Search.{SearchFits, conflict_of};
ghost use Rattle.search_loop.specs.Appending.{Appends};
ghost use Rattle.search_loop.specs.Rounds.{IsNoted, LogsEmptyClause, ShowsAnswer};
ghost use Rattle.search_loop.specs.Loops.{loop_state, CanLoop, ResolvesClash, LearnsFrom};
ghost use Rattle.search_loop.specs.declared.cdcl.Answer.TheVariants.{Unsat, Unknown};
ghost use Rattle.sat_budget.specs.declared.limits.Reason.TheVariants.{Conflicts};

use crate::cdcl::End;
use crate::feeding::go_back;
use crate::search::Search;
use clause_store::laws::{reasons_stay_right, what_is_marked_was_seen};
use conflict_learn::{conflict_level, learn, refute};
use no_memory::NoMemory;
use proof_log::laws::logs_hold_in_grown_tables;
use proof_log::{StepId, Theory};
use sat_budget::{Budget, BudgetStop, Reason};
use term_core::{Lit, TermTable};

/// Puts a learned clause last in a budget that has room for it.
fn note(budget: &mut Budget, clause: &[Lit]) -> Result<(), NoMemory>
    requires { length budget.old.learned < budget.old.limit }
    ensures { OnOk result (IsNoted clause.now budget.old budget.new) }
{
    match budget.learnt(clause) {
        Ok(()) => Ok(()),
        Err(BudgetStop::Spent(_)) => unreachable!(),
        Err(BudgetStop::Memory) => Err(NoMemory),
    }
}

impl Search {
    /// Says how the search ends at a conflict, or learns from it and goes back.
    pub(crate) fn resolve_conflict<T: Theory>(
        &mut self,
        table: &mut TermTable,
        theory: &mut T,
        clash: StepId,
    ) -> Result<Option<End>, NoMemory>
        requires going { CanLoop (loop_state table.old self.old (T.meaning theory.old)) }
        requires clash { IsClash table.old self.old.log self.old.trail.literals clash }
        ensures { ResolvesClash (loop_state table.old self.old (T.meaning theory.old))
            (loop_state table.new self.new (T.meaning theory.new)) result }
    {
        table.ids_are_unique();
        self.trail.is_sound();
        if conflict_level(table, &self.trail, &self.log, clash) == 0 {
            let step = self.refuted(table, clash)?;
            return Ok(Some(End::Refuted(step)));
        }
        if let Some(n) = self.budget.spent() {
            self.forgo(table, clash)?;
            return Ok(Some(End::Stopped(Reason::Conflicts(n))));
        }
        self.learn_and_go_back(table, theory, clash)?;
        Ok(None)
    }

    /// Gives the step that shows that the terms cannot all be true, where a clause is false since level 0. It is resolved from what the
    /// conflict depends on.
    fn refuted(&mut self, table: &TermTable, clash: StepId) -> Result<StepId, NoMemory>
        requires ready { SearchFits table.now self.old }
        requires clash { IsClash table.now self.old.log self.old.trail.literals clash }
        requires of_zero { IsOfZero (conflict_of table.now self.old clash) }
        ensures right { IfOk result (λ _. IsLogOf table.now self.new.log) }
        ensures ready { IfOk result (λ _. SearchFits table.now self.new) }
        ensures appended { IfOk result (λ _. Appends self.old self.new) }
        ensures budget { self.new.budget ≡ self.old.budget }
        ensures terms { self.new.terms ≡ self.old.terms }
        ensures step { IfOk result (LogsEmptyClause (conflict_of table.now self.old clash) self.new.log) }
        ensures shows { IfOk result (λ step. ShowsAnswer table.now table.now self.old self.new (Unsat step)) }
    {
        table.ids_are_unique();
        let step = refute(self.alloc, table, &self.trail, &mut self.log, clash)?;
        Ok(step)
    }

    /// Shows that one clause more could be learned, from a conflict above level 0 where the budget is spent. It learns it, and takes its
    /// step from the log again.
    fn forgo(&mut self, table: &mut TermTable, clash: StepId) -> Result<(), NoMemory>
        requires ready { SearchFits table.old self.old }
        requires clash { IsClash table.old self.old.log self.old.trail.literals clash }
        requires above { IsAboveZero (conflict_of table.old self.old clash) }
        ensures grown { Extends table.old table.new }
        ensures declared { declared_in table.new ≡ declared_in table.old }
        ensures same { OnOk result (self.new ≡ self.old) }
        ensures right { OnOk result (IsLogOf table.new self.new.log) }
        ensures ready { OnOk result (SearchFits table.new self.new) }
        ensures shows { OnOk result ((n : ℕ) → length self.old.budget.learned ≡ self.old.budget.limit
            → n ≡ self.old.budget.limit
            → ShowsAnswer table.old table.new self.old self.new (Unknown (Conflicts n))) }
    {
        logs_hold_in_grown_tables();
        table.ids_are_unique();
        self.trail.is_sound();
        let len = self.log.len();
        learn(self.alloc, table, &self.trail, &mut self.log, clash)?;
        table.ids_are_unique();
        self.log.cut(len);
        Ok(())
    }

    /// Learns a clause from a conflict above level 0, and goes back to the level at which it is unit, or to level 0 at a restart.
    ///
    /// The budget must have room for it. The log grows by its one step, which is resolved from what the conflict depends on.
    fn learn_and_go_back<T: Theory>(
        &mut self,
        table: &mut TermTable,
        theory: &mut T,
        clash: StepId,
    ) -> Result<(), NoMemory>
        requires going { CanLoop (loop_state table.old self.old (T.meaning theory.old)) }
        requires clash { IsClash table.old self.old.log self.old.trail.literals clash }
        requires above { IsAboveZero (conflict_of table.old self.old clash) }
        requires room { length self.old.budget.learned < self.old.budget.limit }
        ensures grown { Extends table.old table.new }
        ensures declared { declared_in table.new ≡ declared_in table.old }
        ensures learns { OnOk result (LearnsFrom clash (loop_state table.old self.old (T.meaning theory.old))
            (loop_state table.new self.new (T.meaning theory.new))) }
    {
        what_is_marked_was_seen();
        reasons_stay_right();
        logs_hold_in_grown_tables();
        table.ids_are_unique();
        self.trail.is_sound();
        self.store.steps_are_paired();
        let learned = learn(self.alloc, table, &self.trail, &mut self.log, clash)?;
        table.ids_are_unique();
        note(&mut self.budget, learned.clause.as_slice())?;
        self.decider
            .learnt(table, &self.trail, &self.log, learned.step);
        self.store.add(table, &self.log, learned.step)?;
        let level = self.restarts.level_after(learned.level);
        self.decider.put_back(&self.trail, level);
        go_back(theory, &mut self.trail, level);
        self.fed = self.trail.len();
        Ok(())
    }
}
