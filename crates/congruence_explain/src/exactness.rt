//! Whether a clause is what a chain of resolutions over other clauses gives, and no more.

ghost use Rattle.std.specs.Prelude.{Contains, All, IfOk, MatchBool};
ghost use Rattle.term_core.specs.Tables.{AreIn};
ghost use Rattle.term_core.specs.declared.ids.Lit.{Lit as LitView};
ghost use Rattle.proof_log.specs.Logs.{IsLogOf, AreStepsOf};
ghost use Rattle.congruence_explain.specs.Choosing.{ComesFrom, IsNotFound};

use crate::chain::needed_if_refuted;
use crate::choosing::clauses_of;
use clause_literals::{Assignment, literals_of};
use no_memory::NoMemory;
use proof_log::{ProofLog, StepId};
use std::alloc::Global;
use term_core::{Lit, TermId, TermTable};

/// Tells whether each literal of a clause is needed.
fn has_all(needed: &Assignment, clause: &[Lit]) -> bool
    ensures { MatchBool result (All (λ (l : LitView). Contains needed.now l) clause.now)
        ((l : LitView) × Contains clause.now l × (Contains needed.now l → ⊥)) }
{
    'literals: for l in clause {
        if !needed.contains(*l) {
            return false;
        }
    }
    true
}

/// Tells whether a clause is what a chain of resolutions over the clauses of steps gives, and no more.
///
/// It tries one chain, to which unit propagation from the complements of the clause's literals leads. The answer is no where none of the
/// steps' clauses comes to be false so, and where the chain gives fewer literals. Another chain may give all of them then.
/// `NoMemory` comes where memory ran out.
pub fn is_exact(
    alloc: Global,
    table: &TermTable,
    log: &ProofLog,
    steps: &[StepId],
    clause: &[TermId],
) -> Result<bool, NoMemory>
    requires log { IsLogOf table.now log.now }
    requires there { AreStepsOf log.now steps.now }
    requires clause { AreIn table.now clause.now }
    ensures { IfOk result (λ exact. MatchBool exact (ComesFrom table.now log.now steps.now clause.now)
        (IsNotFound table.now log.now steps.now clause.now)) }
{
    table.ids_are_unique();
    let literals = literals_of(alloc, table, clause)?;
    let premises = clauses_of(alloc, table, log, steps)?;
    let Some(needed) = needed_if_refuted(alloc, table, premises, &literals)? else {
        return Ok(false);
    };
    Ok(has_all(&needed, &literals))
}
