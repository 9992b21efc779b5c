//! Steps without premises.

ghost use Rattle.std.specs.Prelude.{[], ◌∷◌, OnOk};
ghost use Rattle.spec_text.specs.Trees.{none};
ghost use Rattle.spec_rules.specs.Rules.{IsRight};
ghost use Rattle.term_core.specs.Tables.{clause_at};
ghost use Rattle.proof_log.specs.Logs.{AreFormulasIn, IsLogOf};
ghost use Rattle.term_clauses.specs.Growth.{Grows};
ghost use Rattle.term_clauses.specs.Stating.{listed_steps, Tells};

use no_memory::NoMemory;
use proof_log::{Clause, Numbers, ProofLog, Rule, Step, StepId, StepIds};
use std::alloc::Global;
use term_core::{TermId, TermTable};

/// Logs a step that is right without premises, and puts its number after the others. It is not judged.
pub fn state(
    alloc: Global,
    table: &TermTable,
    log: &mut ProofLog,
    steps: &mut Vec<StepId>,
    rule: Rule,
    clause: Vec<TermId>,
) -> Result<(), NoMemory>
    requires log { IsLogOf table.now log.old }
    requires clause { AreFormulasIn table.now clause.items }
    requires right { IsRight rule [] none (clause_at table.now clause.items) }
    ensures grows { Grows [] table.now table.now log.old log.new }
    ensures tells { OnOk result (Tells (listed_steps table.now log.old steps.old.items)
        (listed_steps table.now log.new steps.new.items) (clause_at table.now clause.items ∷ [])) }
{
    let step = Step {
        rule,
        premises: StepIds::from(Vec::new(alloc)),
        arguments: Numbers::from(Vec::new(alloc)),
        clause: Clause::from(clause),
    };
    let number = log.add_right(table, step)?;
    steps.push(number)?;
    Ok(())
}
