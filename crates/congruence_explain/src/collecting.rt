//! The edges that are needed, from the newest down.

ghost use Rattle.proof_log.specs.Theories.{derived};
ghost use Rattle.std.specs.Prelude.{IfOk};
ghost use Rattle.congruence_explain.specs.Basis.{IsBasis, AreLinkedIn};
ghost use Rattle.congruence_explain.specs.Steps.{Start, spoken, Explains, setting, steps_since, IsCollected};

use crate::claims::SignedClaim;
use crate::edges::turn;
use crate::paths::tell;
use congruence_relation::Truths;
use explain_forest::Forest;
use no_memory::NoMemory;
use proof_log::ProofLog;
use std::alloc::Global;
use std::collections::BTreeSet;
use term_core::{TermId, TermTable};

/// Logs that two linked terms are equal, and why each edge is there that this depends on.
///
/// Gives the literals that deny what is held. The newest of the edges that are needed comes next: what it depends on is older, so each
/// is explained once. Edges that are not needed cost nothing.
pub(crate) fn collect(
    alloc: Global,
    table: &mut TermTable,
    log: &mut ProofLog,
    forest: &Forest,
    truths: Truths,
    x: TermId,
    y: TermId,
) -> Result<Vec<SignedClaim>, NoMemory>
    ghost start: { Start }
    requires derives { Explains start (derived table.old log.old) }
    requires basis { IsBasis start.table truths forest.now.now start.facts }
    requires linked { AreLinkedIn (spoken start) start.table forest.now.now x y }
    ensures derives { Explains start (derived table.new log.new) }
    ensures collected { IfOk result (λ stated. IsCollected (setting start.table truths forest.now.now)
        (steps_since start (derived table.new log.new)) x y stated.items) }
{
    let mut needed = BTreeSet::new(alloc);
    tell(alloc, table, log, forest, truths, x, y, &mut needed)?;
    let mut stated = Vec::new(alloc);
    'edges: while let Some(k) = needed.pop_last() {
        turn(
            alloc,
            table,
            log,
            forest,
            truths,
            k,
            &mut needed,
            &mut stated,
        )?;
    }
    Ok(stated)
}
