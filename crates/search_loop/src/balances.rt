//! Which sign of each variable clauses have more often. No answer depends on it.

use no_memory::NoMemory;
use proof_log::{ProofLog, StepId};
use std::alloc::Global;
use term_core::{TermId, TermTable};

/// Adds to balances the literals of a clause: 1 where one affirms its variable, and -1 where it denies it.
fn add_clause(balances: &mut Vec<i64>, table: &TermTable, clause: &[TermId]) {
    'literals: for id in clause.iter() {
        if id.0 >= table.len() {
            continue;
        }
        let l = table.literal(*id);
        let at = l.term.0 as usize;
        if at >= balances.len() {
            continue;
        }
        let one = if l.positive { 1 } else { -1 };
        balances[at] = balances[at].saturating_add(one);
    }
}

/// Gives for each term of the table how many more literals affirm it than deny it, of the clauses of these steps; nothing where there
/// are roots, since a search begins sooner with signs that are false.
///
/// `NoMemory` comes where there is no memory for a number for each term.
pub(crate) fn balances_of(
    alloc: Global,
    table: &TermTable,
    log: &ProofLog,
    steps: &[StepId],
    roots: &[TermId],
) -> Result<Vec<i64>, NoMemory> {
    if !roots.is_empty() {
        return Ok(Vec::new(alloc));
    }
    let mut balances = vec![in alloc; 0_i64; table.len() as usize]?;
    'steps: for step in steps.iter() {
        if step.0 >= log.len() {
            continue;
        }
        add_clause(&mut balances, table, log.clause(*step));
    }
    Ok(balances)
}
