//! The step of a clause that one side of an equality is at most the other, by the rule `la_generic`.

ghost use Rattle.std.specs.Prelude.{◌≡◌, [], ◌∷◌, Ok, Err, IfErr, OnOk};
ghost use Rattle.spec_numbers.specs.Fractions.{one_fraction};
ghost use Rattle.spec_arithmetic.specs.Contradictions.{wide, la_generic};
ghost use Rattle.spec_simplex.specs.Weights.{IsTakenOrWide};
ghost use Rattle.ratio128.specs.Meant.{fraction};
ghost use Rattle.term_core.specs.Tables.{AreIn, clause_at};
ghost use Rattle.proof_log.specs.Logs.{AreFormulasIn, IsLogOf};
ghost use Rattle.term_clauses.specs.Growth.{Grows};
ghost use Rattle.term_clauses.specs.Stating.{listed_steps, Tells};
ghost use Rattle.clausify.specs.Orders.{arguments_by};
ghost use Rattle.clausify.specs.Overflows.{OnClauseOverflow};

use crate::stop::ClauseStop;
use linear_form::{ArithFault, Coeff, la_generic};
use no_memory::NoMemory;
use proof_log::{Clause, Numbers, ProofLog, Rule, Step, StepId, StepIds};
use ratio128::Ratio;
use ratio128::laws::ratios_are_fractions;
use std::alloc::Global;
use term_core::{TermId, TermTable};

/// Gives the number 1.
pub(crate) fn one() -> Ratio
    ensures { fraction result ≡ one_fraction }
{
    Ratio::of(1, 1)
}

/// Logs a clause of two literals that the rule takes with this argument and 1, unless an operation of it leaves the
/// bound on numbers, and puts its number after the others.
pub(crate) fn state_judged(
    alloc: Global,
    table: &TermTable,
    log: &mut ProofLog,
    steps: &mut Vec<StepId>,
    clause: Vec<TermId>,
    weight: Ratio,
) -> Result<(), ClauseStop>
    requires log { IsLogOf table.now log.old }
    requires clause { AreFormulasIn table.now clause.items }
    requires taken { IsTakenOrWide (la_generic (clause_at table.now clause.items) (arguments_by weight)) }
    ensures grows { Grows [] table.now table.now log.old log.new }
    ensures tells { OnOk result (Tells (listed_steps table.now log.old steps.old.items)
        (listed_steps table.now log.new steps.new.items) (clause_at table.now clause.items ∷ [])) }
    ensures wide { IfErr result (OnClauseOverflow
        (λ o. la_generic (clause_at table.now clause.items) (arguments_by weight) ≡ Err (wide o))) }
{
    judge(alloc, table, &clause, weight)?;
    state_taken(alloc, table, log, steps, clause, weight)?;
    Ok(())
}

/// Judges a clause of two literals by the rule, with this argument and 1.
fn judge(
    alloc: Global,
    table: &TermTable,
    clause: &[TermId],
    weight: Ratio,
) -> Result<(), ClauseStop>
    requires there { AreIn table.now clause.now }
    requires taken { IsTakenOrWide (la_generic (clause_at table.now clause.now) (arguments_by weight)) }
    ensures taken { OnOk result (la_generic (clause_at table.now clause.now) (arguments_by weight) ≡ Ok tt) }
    ensures wide { IfErr result (OnClauseOverflow
        (λ o. la_generic (clause_at table.now clause.now) (arguments_by weight) ≡ Err (wide o))) }
{
    let arguments = [Coeff::Number(weight), Coeff::Number(one())];
    match la_generic(alloc, table, clause, &arguments) {
        Ok(()) => Ok(()),
        Err(ArithFault::Wide(wide)) => Err(ClauseStop::Wide(wide)),
        Err(ArithFault::Memory) => Err(ClauseStop::Memory),
        Err(ArithFault::Shape) => unreachable!(),
        Err(ArithFault::NoContradiction) => unreachable!(),
    }
}

/// Logs a clause of two literals that the rule takes with this argument and 1, and puts its number after the others.
fn state_taken(
    alloc: Global,
    table: &TermTable,
    log: &mut ProofLog,
    steps: &mut Vec<StepId>,
    clause: Vec<TermId>,
    weight: Ratio,
) -> Result<(), NoMemory>
    requires log { IsLogOf table.now log.old }
    requires clause { AreFormulasIn table.now clause.items }
    requires taken { la_generic (clause_at table.now clause.items) (arguments_by weight) ≡ Ok tt }
    ensures grows { Grows [] table.now table.now log.old log.new }
    ensures tells { OnOk result (Tells (listed_steps table.now log.old steps.old.items)
        (listed_steps table.now log.new steps.new.items) (clause_at table.now clause.items ∷ [])) }
{
    ratios_are_fractions();
    let weights = vec![in alloc; weight, one()]?;
    let step = Step {
        rule: Rule::LaGeneric,
        premises: StepIds::from(Vec::new(alloc)),
        arguments: Numbers::from(weights),
        clause: Clause::from(clause),
    };
    let number = log.add_right(table, step)?;
    steps.push(number)?;
    Ok(())
}
