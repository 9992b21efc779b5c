//! A whole proof.

ghost use Rattle.std.specs.Prelude.{◌<◌, ◌≤◌, length};
ghost use Rattle.spec_proof_texts.specs.Lines.{proof_text};
ghost use Rattle.spec_proof_texts.specs.Plans.{lines_of};
ghost use Rattle.term_core.specs.Tables.{IsIn};
ghost use Rattle.proof_log.specs.Logs.{IsLogOf, derivation_in};
ghost use Rattle.world_io.specs.Writing.{Sends};
ghost use Rattle.alethe_writer.specs.Printing.{PlanFits, term_number, clause_number, definition_text, definitions_text, clause_text, clauses_text};

use crate::lines::{write_clause, write_definition};
use crate::plans::Plan;
use proof_log::{ProofLog, StepId};
use term_core::{TermId, TermTable};
use world_io::{Failed, Sink, write_all};

/// Writes a proof by a plan that was prepared for the log and the table: `(`, one command on each line, and `)`, each line with a
/// line feed after it. It takes no memory.
///
/// Each term with arguments that a printed clause needs is in place where the plan has no number for it. Each other one is defined
/// once, as `@p1` and so on, before the assumes and steps; assumes are `h1` and so on, steps `t1` and so on, in the log's order.
///
/// `Failed` comes only where the sink's count of faults rose in this call; a prefix of the text was then appended.
/// Source: Alethe specification, proofs as lists of commands; what is defined, and the names, are own.
pub fn send<K: Sink>(
    plan: &Plan,
    log: &ProofLog,
    table: &TermTable,
    out: &mut K,
) -> Result<(), Failed>
    requires log { IsLogOf table.now log.now }
    requires fits { PlanFits table.now log.now plan.now }
    ensures { Sends (proof_text (lines_of table.now.terms (derivation_in table.now log.now) plan.now)) result
        (K.state out.old) (K.state out.new) }
{
    write_all(out, b"(\n")?;
    write_definitions(plan, table, out)?;
    write_clauses(plan, log, table, out)?;
    write_all(out, b")\n")
}

/// Writes the definitions.
fn write_definitions<K: Sink>(plan: &Plan, table: &TermTable, out: &mut K) -> Result<(), Failed>
    requires { length plan.now.terms ≤ length table.now.terms }
    ensures { Sends (definitions_text table.now plan.now) result (K.state out.old) (K.state out.new) }
{
    'terms: for number in 0..plan.terms_len() {
        write_term(plan, table, TermId(number), out)?;
    }
    Ok(())
}

/// Writes the definition of a term, where it has a number.
fn write_term<K: Sink>(
    plan: &Plan,
    table: &TermTable,
    id: TermId,
    out: &mut K,
) -> Result<(), Failed>
    requires there { IsIn table.now id }
    ensures { Sends (definition_text table.now plan.now id (term_number plan.now id)) result
        (K.state out.old) (K.state out.new) }
{
    match plan.definition(id) {
        None => Ok(()),
        Some(number) => write_definition(plan, table, id, number, out),
    }
}

/// Writes the assumes and steps.
fn write_clauses<K: Sink>(
    plan: &Plan,
    log: &ProofLog,
    table: &TermTable,
    out: &mut K,
) -> Result<(), Failed>
    requires log { IsLogOf table.now log.now }
    requires fits { PlanFits table.now log.now plan.now }
    ensures { Sends (clauses_text table.now log.now plan.now) result (K.state out.old) (K.state out.new) }
{
    'clauses: for number in 0..plan.steps_len() {
        write_numbered(plan, log, table, StepId(number), out)?;
    }
    Ok(())
}

/// Writes the line of a clause, where it has a number.
fn write_numbered<K: Sink>(
    plan: &Plan,
    log: &ProofLog,
    table: &TermTable,
    id: StepId,
    out: &mut K,
) -> Result<(), Failed>
    requires there { id.0 < length log.now }
    requires log { IsLogOf table.now log.now }
    ensures { Sends (clause_text table.now log.now plan.now id (clause_number plan.now id)) result
        (K.state out.old) (K.state out.new) }
{
    match plan.clause(id) {
        None => Ok(()),
        Some(number) => write_clause(plan, log, table, id, number, out),
    }
}
