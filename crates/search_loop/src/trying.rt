//! Literals that are tried at level 0: from a conflict that one leads to, the search learns. Source: Freeman, Improvements to propositional
//! satisfiability search algorithms, 1995; Le Berre, SAT 2001.

ghost use Rattle.std.specs.Prelude.{◌≡◌, length, IfOk, IfNone, true};
ghost use Rattle.proof_log.specs.Clashes.{IsClash};
ghost use Rattle.clause_store.specs.Propagating.{IsPropagated};
ghost use Rattle.search_loop.specs.Waiting.{IsOpen};
ghost use Rattle.variable_order.specs.Orders.{IsIn};
ghost use Rattle.search_loop.specs.Paying.{counted_held};
ghost use Rattle.search_loop.specs.Loops.{loop_state, CanLoop, ResolvesClash, TriesAll};

use crate::cdcl::End;
use crate::search::Search;
use clause_store::laws::{reasons_stay_right, what_is_marked_was_seen};
use no_memory::NoMemory;
use proof_log::{StepId, Theory, Verdict};
use sat_budget::Stop;
use term_core::{Lit, TermTable};

/// After how many tries in sequence that teach nothing no more are made.
const MOST_VAIN: u64 = 64;

impl Search {
    /// Tries literals one after the other at level 0: it decides each, and looks. It learns from a conflict, and goes back. It gives the
    /// end where the search has one.
    ///
    /// A literal is left out whose variable has a value or does not wait to be decided. After 64 tries by which nothing came to hold at
    /// level 0, the rest is left out. No answer depends on which literals are tried.
    /// A try may cost as many runs as there are atoms of linear arithmetic. `Memory` comes where memory ran out, here or in the theory,
    /// and `Strained` from the theory's check.
    pub fn try_all<T: Theory>(
        &mut self,
        table: &mut TermTable,
        theory: &mut T,
        lits: &[Lit],
    ) -> Result<Option<End>, Stop>
        requires going { CanLoop (loop_state table.old self.old (T.meaning theory.old)) }
        requires level { self.old.trail.level ≡ 0 }
        ensures { TriesAll (length lits.now) 0 (loop_state table.old self.old (T.meaning theory.old))
            (loop_state table.new self.new (T.meaning theory.new)) result }
    {
        let mut vain: u64 = 0;
        'literals: for lit in lits.iter() {
            if vain >= MOST_VAIN {
                return Ok(None);
            }
            let before = self.trail.len();
            if let Some(end) = self.try_one(table, theory, *lit)? {
                return Ok(Some(end));
            }
            vain = if self.trail.len() > before {
                0
            } else {
                vain + 1
            };
        }
        Ok(None)
    }

    /// Tries a literal, where nothing is wrong without it, and goes back to level 0.
    fn try_one<T: Theory>(
        &mut self,
        table: &mut TermTable,
        theory: &mut T,
        l: Lit,
    ) -> Result<Option<End>, Stop>
        requires { CanLoop (loop_state table.old self.old (T.meaning theory.old)) }
        ensures { TriesAll 1 0 (loop_state table.old self.old (T.meaning theory.old))
            (loop_state table.new self.new (T.meaning theory.new)) result }
    {
        match self.look(table, theory)? {
            Verdict::Fine => self.try_at_quiet(table, theory, l),
            Verdict::Clash(clash) => {
                let end = self.learn_and_rest(table, theory, clash)?;
                Ok(end)
            }
        }
    }

    /// Tries a literal where nothing follows and nothing is wrong, if its variable waits and has no value.
    fn try_at_quiet<T: Theory>(
        &mut self,
        table: &mut TermTable,
        theory: &mut T,
        l: Lit,
    ) -> Result<Option<End>, Stop>
        requires going { CanLoop (loop_state table.old self.old (T.meaning theory.old)) }
        requires quiet { IsPropagated self.old.store.clauses self.old.trail.literals }
        requires held { (T.meaning theory.old).view.held ≡ self.old.trail.literals }
        ensures { TriesAll 1 (counted_held table.old (T.meaning theory.old).view.held)
            (loop_state table.old self.old (T.meaning theory.old))
            (loop_state table.new self.new (T.meaning theory.new)) result }
    {
        what_is_marked_was_seen();
        reasons_stay_right();
        table.ids_are_unique();
        self.trail.is_sound();
        if !self.can_try(l) {
            self.rest(theory);
            return Ok(None);
        }
        theory.mark()?;
        self.trail.decide(l);
        self.settle(table, theory)
    }

    /// Looks, learns from a conflict if there is one, and goes back to level 0.
    fn settle<T: Theory>(
        &mut self,
        table: &mut TermTable,
        theory: &mut T,
    ) -> Result<Option<End>, Stop>
        requires { CanLoop (loop_state table.old self.old (T.meaning theory.old)) }
        ensures { TriesAll 1 (counted_held table.old (T.meaning theory.old).view.held)
            (loop_state table.old self.old (T.meaning theory.old))
            (loop_state table.new self.new (T.meaning theory.new)) result }
    {
        match self.look(table, theory)? {
            Verdict::Fine => {
                self.rest(theory);
                Ok(None)
            }
            Verdict::Clash(clash) => {
                let end = self.learn_and_rest(table, theory, clash)?;
                Ok(end)
            }
        }
    }

    /// Says how the search ends at a conflict, or learns from it and goes back to level 0.
    fn learn_and_rest<T: Theory>(
        &mut self,
        table: &mut TermTable,
        theory: &mut T,
        clash: StepId,
    ) -> Result<Option<End>, NoMemory>
        requires going { CanLoop (loop_state table.old self.old (T.meaning theory.old)) }
        requires clash { IsClash table.old self.old.log self.old.trail.literals clash }
        ensures resolves { ResolvesClash (loop_state table.old self.old (T.meaning theory.old))
            (loop_state table.new self.new (T.meaning theory.new)) result }
        ensures level { IfOk result (λ end. IfNone end (self.new.trail.level ≡ 0)) }
    {
        if let Some(end) = self.resolve_conflict(table, theory, clash)? {
            return Ok(Some(end));
        }
        self.rest(theory);
        Ok(None)
    }

    /// Tells whether a literal is one of a variable that waits to be decided and has no value.
    fn can_try(&self, l: Lit) -> bool
        requires { length self.now.decider ≡ self.now.trail.vars }
        ensures { (result ≡ true) → IsOpen self.now.trail l × IsIn self.now.decider l.term }
    {
        if l.term.0 >= self.trail.vars() {
            return false;
        }
        if self.trail.value(l).is_some() {
            return false;
        }
        self.decider.waits(l.term)
    }
}
