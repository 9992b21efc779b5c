//! The search loop: propagate, ask the theory, decide, learn, go back. Source: Marques Silva and Sakallah 1999; Nieuwenhuis, Oliveras
//! and Tinelli, JACM 2006, for the theory.

ghost use Rattle.search_loop.specs.Loops.{loop_state, CanLoop, RunsLoop};

use crate::search::Search;
use clause_store::laws::{reasons_stay_right, what_is_marked_was_seen};
use proof_log::{StepId, Theory, Verdict};
use sat_budget::{Reason, Stop};
use term_core::TermTable;
use term_walks::Interp;

/// What a check is answered, with the evidence for it.
#[derive(Drop)]
pub enum Answer {
    /// Its terms are true under this interpretation.
    Sat(Interp),
    /// No interpretation makes them true: the clause of this step of the log is empty.
    Unsat(StepId),
    /// It was not found out, for this reason.
    Unknown(Reason),
}

/// How a search ends.
#[derive(Drop)]
pub enum End {
    /// Each atom has a value, of each clause a literal holds, and the theory finds nothing wrong.
    Saturated,
    /// The clause of this step of the log is empty.
    Refuted(StepId),
    /// It was not found out, for this reason.
    Stopped(Reason),
}

impl Search {
    /// Searches until the theory and the clauses agree to values of all atoms, or cannot, or the budget is spent.
    ///
    /// Each round assigns atoms more, or learns a clause and takes one from the budget. The theory is asked wherever propagation is
    /// quiet. A conflict that it finds is a step of the log, as one of the clauses is; its clause is not kept. Where it finds nothing
    /// wrong, it may add lemmas. Of these the clauses are kept that imply literals, and before something is decided, these hold.
    ///
    /// `Memory` comes where memory ran out, here or in the theory, and `Strained` from the theory's check.
    pub fn run<T: Theory>(&mut self, table: &mut TermTable, theory: &mut T) -> Result<End, Stop>
        requires { CanLoop (loop_state table.old self.old (T.meaning theory.old)) }
        ensures { RunsLoop (loop_state table.old self.old (T.meaning theory.old))
            (loop_state table.new self.new (T.meaning theory.new)) result }
    {
        what_is_marked_was_seen();
        reasons_stay_right();
        self.budget.is_within();
        'rounds: loop {
            match self.look(table, theory)? {
                Verdict::Fine => {
                    if self.take_implied(table, theory)? {
                        self.trail.is_sound();
                        continue;
                    }
                    let Some(l) = self.decider.next(&self.trail) else {
                        return Ok(End::Saturated);
                    };
                    self.trail.is_sound();
                    theory.mark()?;
                    self.trail.decide(l);
                    self.trail.is_sound();
                }
                Verdict::Clash(clash) => {
                    if let Some(end) = self.resolve_conflict(table, theory, clash)? {
                        return Ok(end);
                    }
                }
            }
        }
    }
}
