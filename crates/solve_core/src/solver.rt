//! The solver, with what shows its last answer.

ghost use Rattle.std.specs.Prelude.{◌≡◌, [], IfOk, OnErr, MatchResult};
ghost use Rattle.search_loop.specs.Answered.{AreAnswered};
ghost use Rattle.term_core.specs.Tables.{declared_in, Extends, clause_at};
ghost use Rattle.proof_log.specs.Logs.{AreFormulasIn};
ghost use Rattle.solve_core.specs.Decisions.{SolverView, IsShownBy};

use crate::outcome::{Outcome, decide};
use no_memory::NoMemory;
use proof_log::ProofLog;
use sat_budget::{Budget, Limits};
use search_loop::Answer;
use std::alloc::Global;
use std::marker::Model;
use term_core::{TermId, TermTable};

/// Decides whether terms can be true, and keeps what shows its last answer.
///
/// Contracts see its log and its budget, which are those of the last decision that ended with an answer.
#[derive(Drop)]
pub struct Solver {
    alloc: Global,
    log: ProofLog,
    budget: Budget,
}

impl Model for Solver {
    ghost use Rattle.solve_core.specs.Decisions.{SolverView};

    ghost Value = { SolverView };

    ghost view = { λ s. record { log = s.log; budget = s.budget } };
}

impl Solver {
    /// Makes a solver that has decided nothing: its log is empty, and its budget has the limit, no clause and no exchange.
    ///
    /// `NoMemory` never comes, as empty lists take no memory.
    pub fn new(alloc: Global, limits: &Limits) -> Result<Solver, NoMemory>
        ensures { MatchResult result (λ s. s ≡ record {
          log = [];
          budget = record { limit = limits.now.conflicts; learned = []; exchanges = [] };
        }) (λ _. ⊥) }
    {
        let budget = Budget::new(alloc, limits)?;
        Ok(Solver {
            alloc,
            log: ProofLog::new(alloc),
            budget,
        })
    }

    /// Decides whether some interpretation makes all of the terms true, or says why it was not found out. They must be formulas that the
    /// search answers for: products and quotients are linear.
    ///
    /// Each decision begins anew, under these limits. The table grows by the terms of the clauses that define the terms, and of what
    /// is learned. `NoMemory` comes where memory runs out, the one failure; table and solver are then as they were.
    pub fn decide(
        &mut self,
        table: &mut TermTable,
        roots: &[TermId],
        limits: &Limits,
    ) -> Result<Answer, NoMemory>
        requires roots { AreFormulasIn table.old roots.now }
        requires answered { AreAnswered (clause_at table.old roots.now) }
        ensures grown { Extends table.old table.new }
        ensures declared { declared_in table.new ≡ declared_in table.old }
        ensures decided { IfOk result
            (IsShownBy table.new (clause_at table.old roots.now) limits.now self.new) }
        ensures same { OnErr result (table.new ≡ table.old) }
        ensures kept { OnErr result (self.new ≡ self.old) }
    {
        let Outcome {
            answer,
            log,
            budget,
        } = decide(self.alloc, table, roots, limits)?;
        self.log = log;
        self.budget = budget;
        Ok(answer)
    }

    /// Lends the log of the last decision. It takes no memory.
    pub fn log(&self) -> &ProofLog
        ensures { result.now ≡ self.now.log }
    {
        &self.log
    }

    /// Lends the budget of the last decision, with what was learned and exchanged. It takes no memory.
    pub fn budget(&self) -> &Budget
        ensures { result.now ≡ self.now.budget }
    {
        &self.budget
    }
}
