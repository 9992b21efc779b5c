//! The answer of a check.

ghost use Rattle.std.specs.Prelude.{◌≡◌, IfOk, OnErr};
ghost use Rattle.search_loop.specs.Answered.{AreAnswered};
ghost use Rattle.term_core.specs.Tables.{declared_in, Extends, clause_at};
ghost use Rattle.proof_log.specs.Logs.{AreFormulasIn};
ghost use Rattle.solve_core.specs.Decisions.{IsOverflowedBy, HasDecision};

use crate::answering::answer;
use crate::forms::first_overflow;
use clausify::ClauseStop;
use no_memory::NoMemory;
use proof_log::ProofLog;
use proof_log::laws::empty_logs_are_right;
use ratio128::Wide;
use sat_budget::{Basis, Budget, Limits, Reason, Strain};
use search_loop::{Answer, Search};
use std::alloc::Global;
use term_core::{TermId, TermTable};

/// A check's answer, with the log of its steps, and the budget: its limit, what was learned and what was exchanged.
#[derive(Drop)]
pub struct Outcome {
    /// The answer.
    pub answer: Answer,
    /// The clauses of the terms, what was learned, and how they are derived.
    pub log: ProofLog,
    /// The clauses that were learned and how many might have been, and the exchanges that were made.
    pub budget: Budget,
}

/// Decides whether some interpretation makes all of the terms true, or says why it was not found out. They must be formulas that the
/// search answers for: products and quotients are linear.
///
/// The forms of their arithmetic atoms are taken first, in ascending order of the atoms' numbers. Then it searches. Where the search
/// rests and its theories do not agree on shared terms, equalities of these come in, and it goes on. The table grows by the terms of the
/// clauses that define the terms and those equalities. It stays as it was where memory runs out, the one failure.
/// Source: Nelson and Oppen, Simplification by Cooperating Decision Procedures, TOPLAS 1979.
pub fn decide(
    alloc: Global,
    table: &mut TermTable,
    roots: &[TermId],
    limits: &Limits,
) -> Result<Outcome, NoMemory>
    requires roots { AreFormulasIn table.old roots.now }
    requires answered { AreAnswered (clause_at table.old roots.now) }
    ensures grown { Extends table.old table.new }
    ensures declared { declared_in table.new ≡ declared_in table.old }
    ensures decided { IfOk result (HasDecision table.new (clause_at table.old roots.now) limits.now) }
    ensures same { OnErr result (table.new ≡ table.old) }
{
    let len = table.len();
    match decided(alloc, table, roots, limits) {
        Ok(decision) => Ok(decision),
        Err(NoMemory) => {
            table.cut(len);
            Err(NoMemory)
        }
    }
}

/// The outcome where an operation leaves 128 bits before a search begins: with no basis, no log, and nothing spent.
fn overflowed(alloc: Global, wide: Wide, limits: &Limits) -> Result<Outcome, NoMemory>
    ensures { IfOk result (IsOverflowedBy limits.now wide) }
{
    let basis = Basis {
        variables: Vec::new(alloc),
        values: Vec::new(alloc),
    };
    let budget = Budget::new(alloc, limits)?;
    Ok(Outcome {
        answer: Answer::Unknown(Reason::Overflow(Strain { wide, basis })),
        log: ProofLog::new(alloc),
        budget,
    })
}

/// Decides it; where memory runs out, the terms that it has put stay.
fn decided(
    alloc: Global,
    table: &mut TermTable,
    roots: &[TermId],
    limits: &Limits,
) -> Result<Outcome, NoMemory>
    requires roots { AreFormulasIn table.old roots.now }
    requires answered { AreAnswered (clause_at table.old roots.now) }
    ensures grown { Extends table.old table.new }
    ensures declared { declared_in table.new ≡ declared_in table.old }
    ensures decided { IfOk result (HasDecision table.new (clause_at table.old roots.now) limits.now) }
{
    empty_logs_are_right();
    if let Some(wide) = first_overflow(alloc, table, roots)? {
        return overflowed(alloc, wide, limits);
    }
    let mut search = Search::new(alloc, limits)?;
    match search.grow(table, roots, &[]) {
        Ok(()) => {}
        Err(ClauseStop::Wide(wide)) => return overflowed(alloc, wide, limits),
        Err(ClauseStop::Memory) => return Err(NoMemory),
    }
    let answer = answer(&mut search, table, roots)?;
    let Search { log, budget, .. } = search;
    budget.is_within();
    Ok(Outcome {
        answer,
        log,
        budget,
    })
}
