//! The lines of a proof.

ghost use Rattle.std.specs.Prelude.{◌<◌, ◌++◌, length, Some, codes};
ghost use Rattle.spec_proofs.specs.RuleNames.{rule_name};
ghost use Rattle.term_core.specs.Tables.{IsIn, AreIn};
ghost use Rattle.proof_log.specs.Logs.{IsLogOf};
ghost use Rattle.rule_bool.specs.Arguments.{fractions_of};
ghost use Rattle.world_io.specs.Writing.{Sends};
ghost use Rattle.alethe_writer.specs.Printing.{premises_listed, given_listed, fractions_spaced, references_text, reference_text, definition_text, clause_text, assume_text, step_text};

use crate::arguments::{write_argument, write_arguments, write_head, write_sort, write_words};
use crate::numbers::{write_fraction, write_number};
use crate::plans::Plan;
use itoa::Buffer;
use proof_log::{ProofLog, Ratio, Rule, Step, StepId};
use spec_models::laws::numerals_are_decimal;
use term_core::{TermId, TermTable};
use world_io::{Failed, Sink, write_all, write_pieces};

/// Writes the definition of a term by its number.
pub(crate) fn write_definition<K: Sink>(
    plan: &Plan,
    table: &TermTable,
    id: TermId,
    number: u64,
    out: &mut K,
) -> Result<(), Failed>
    requires there { IsIn table.now id }
    ensures { Sends (definition_text table.now plan.now id (Some number)) result (K.state out.old) (K.state out.new) }
{
    let node = table.node(id);
    let sort = table.sort(id);
    write_number(b"(define-fun @p", number as u128, out)?;
    write_sort(b" () ", table, sort, out)?;
    write_head(table, node.head, out)?;
    write_arguments(plan, table, node.arguments.as_slice(), out)?;
    write_all(out, b"))\n")
}

/// Writes the line of a clause by its number: an assume or a step.
pub(crate) fn write_clause<K: Sink>(
    plan: &Plan,
    log: &ProofLog,
    table: &TermTable,
    id: StepId,
    number: u64,
    out: &mut K,
) -> Result<(), Failed>
    requires there { id.0 < length log.now }
    requires log { IsLogOf table.now log.now }
    ensures { Sends (clause_text table.now log.now plan.now id (Some number)) result
        (K.state out.old) (K.state out.new) }
{
    match log.step(id) {
        None => write_assume(plan, table, log.clause(id)[0], number, out),
        Some(step) => write_step(plan, log, table, step, number, out),
    }
}

/// Writes an assume by its number.
fn write_assume<K: Sink>(
    plan: &Plan,
    table: &TermTable,
    term: TermId,
    number: u64,
    out: &mut K,
) -> Result<(), Failed>
    requires there { IsIn table.now term }
    ensures { Sends (assume_text table.now plan.now term number) result (K.state out.old) (K.state out.new) }
{
    write_number(b"(assume h", number as u128, out)?;
    write_argument(plan, table, term, out)?;
    write_all(out, b")\n")
}

/// Writes a step by its number.
fn write_step<K: Sink>(
    plan: &Plan,
    log: &ProofLog,
    table: &TermTable,
    step: &Step,
    number: u64,
    out: &mut K,
) -> Result<(), Failed>
    requires there { AreIn table.now step.now.clause }
    ensures { Sends (step_text table.now log.now plan.now step.now number) result (K.state out.old) (K.state out.new) }
{
    write_number(b"(step t", number as u128, out)?;
    write_all(out, b" (cl")?;
    write_arguments(plan, table, step.clause.as_slice(), out)?;
    write_rule(step.rule, out)?;
    write_premises(plan, log, step.premises.as_slice(), out)?;
    write_given(step.arguments.as_slice(), out)?;
    write_all(out, b")\n")
}

/// Writes the end of a clause, and the rule by which it follows.
fn write_rule<K: Sink>(rule: Rule, out: &mut K) -> Result<(), Failed>
    ensures { Sends (codes ") :rule " ++ rule_name rule) result (K.state out.old) (K.state out.new) }
{
    write_words(b") :rule ", rule.name(), out)
}

/// Writes the premises of a step, or nothing where there are none.
fn write_premises<K: Sink>(
    plan: &Plan,
    log: &ProofLog,
    premises: &[StepId],
    out: &mut K,
) -> Result<(), Failed>
    ensures { Sends (premises_listed log.now plan.now premises.now) result (K.state out.old) (K.state out.new) }
{
    let Some((first, others)) = premises.split_first() else {
        return Ok(());
    };
    write_reference(plan, log, b" :premises (", *first, out)?;
    write_references(plan, log, others, out)?;
    write_all(out, b")")
}

/// Writes premises, each after a space.
fn write_references<K: Sink>(
    plan: &Plan,
    log: &ProofLog,
    premises: &[StepId],
    out: &mut K,
) -> Result<(), Failed>
    ensures { Sends (references_text log.now plan.now premises.now) result (K.state out.old) (K.state out.new) }
{
    'premises: for premise in premises.iter() {
        write_reference(plan, log, b" ", *premise, out)?;
    }
    Ok(())
}

/// Writes the name of a premise after a word.
fn write_reference<K: Sink>(
    plan: &Plan,
    log: &ProofLog,
    before: &[u8],
    premise: StepId,
    out: &mut K,
) -> Result<(), Failed>
    ensures { Sends (before.now ++ reference_text log.now plan.now premise) result (K.state out.old) (K.state out.new) }
{
    numerals_are_decimal();
    let letter: &[u8] = match log.step(premise) {
        None => b"h",
        Some(_) => b"t",
    };
    let mut buffer = Buffer::new();
    let number = buffer.format(plan.number(premise));
    write_pieces(out, &[before, letter, number.as_bytes()])
}

/// Writes the arguments of a step's rule, or nothing where there are none.
fn write_given<K: Sink>(arguments: &[Ratio], out: &mut K) -> Result<(), Failed>
    ensures { Sends (given_listed (fractions_of arguments.now)) result (K.state out.old) (K.state out.new) }
{
    let Some((first, others)) = arguments.split_first() else {
        return Ok(());
    };
    write_fraction(b" :args (", *first, out)?;
    write_others(others, out)?;
    write_all(out, b")")
}

/// Writes arguments of a rule, each after a space.
fn write_others<K: Sink>(arguments: &[Ratio], out: &mut K) -> Result<(), Failed>
    ensures { Sends (fractions_spaced (fractions_of arguments.now)) result (K.state out.old) (K.state out.new) }
{
    'arguments: for argument in arguments.iter() {
        write_fraction(b" ", *argument, out)?;
    }
    Ok(())
}
