//! The clauses of the orders of an equality of numbers.

ghost use Rattle.std.specs.Prelude.{◌≡◌, [], ◌∷◌, Err, IfErr, OnOk};
ghost use Rattle.spec_arithmetic.specs.Contradictions.{wide, la_generic};
ghost use Rattle.spec_simplex.specs.Weights.{IsTakenOrWide};
ghost use Rattle.spec_derivations.specs.Orders.{order_fact, order_clauses};
ghost use Rattle.term_core.specs.Tables.{term_at};
ghost use Rattle.proof_log.specs.Logs.{IsFormulaIn, IsLogOf};
ghost use Rattle.proof_log.specs.Theories.{IsTermIn};
ghost use Rattle.term_clauses.specs.Growth.{Grows};
ghost use Rattle.term_clauses.specs.Stating.{listed_steps, Tells};
ghost use Rattle.clausify.specs.Orders.{IsNumberIn, AreSidesOf, order_clause, arguments_by};
ghost use Rattle.clausify.specs.Overflows.{OnClauseOverflow};
ghost use Rattle.spec_causes.specs.Checks.{IsOverflowAmong};

use crate::judged::{one, state_judged};
use crate::sides::{Sides, at_most, order_fact, sides_of};
use crate::stop::ClauseStop;
use no_memory::NoMemory;
use proof_log::{ProofLog, Rule, StepId};
use ratio128::Ratio;
use std::alloc::Global;
use term_clauses::signs::signed;
use term_clauses::steps::state;
use term_core::{TermId, TermTable};

/// States the three clauses of the orders of an equality of numbers; other terms have none.
///
/// `Wide` comes where the rule `la_generic` cannot judge one of them within the bound on numbers.
pub(crate) fn state_orders(
    alloc: Global,
    table: &mut TermTable,
    log: &mut ProofLog,
    steps: &mut Vec<StepId>,
    id: TermId,
) -> Result<(), ClauseStop>
    requires there { IsTermIn table.old id }
    requires log { IsLogOf table.old log.old }
    ensures grows { Grows [] table.old table.new log.old log.new }
    ensures tells { OnOk result (Tells (listed_steps table.old log.old steps.old.items)
        (listed_steps table.new log.new steps.new.items) (order_clauses (term_at table.old id))) }
    ensures wide { IfErr result (OnClauseOverflow (IsOverflowAmong (term_at table.old id ∷ []))) }
{
    let Some(sides) = sides_of(table, id) else {
        return Ok(());
    };
    state_fact(alloc, table, log, steps, id, sides)?;
    let weight = one();
    state_order(
        alloc,
        table,
        log,
        steps,
        id,
        sides.left,
        sides.right,
        weight,
    )?;
    state_order(
        alloc,
        table,
        log,
        steps,
        id,
        sides.right,
        sides.left,
        weight.neg(),
    )
}

/// States that the sides of an equality are equal, or one of them is not at most the other.
fn state_fact(
    alloc: Global,
    table: &mut TermTable,
    log: &mut ProofLog,
    steps: &mut Vec<StepId>,
    id: TermId,
    sides: Sides,
) -> Result<(), NoMemory>
    requires there { IsTermIn table.old id }
    requires sides { AreSidesOf table.old (term_at table.old id) sides }
    requires log { IsLogOf table.old log.old }
    ensures grows { Grows [] table.old table.new log.old log.new }
    ensures tells { OnOk result (Tells (listed_steps table.old log.old steps.old.items)
        (listed_steps table.new log.new steps.new.items)
        ((order_fact (term_at table.old sides.left) (term_at table.old sides.right) ∷ []) ∷ [])) }
{
    proof_log::laws::logs_hold_in_grown_tables();
    let fact = order_fact(alloc, table, id, sides)?;
    let clause = vec![in alloc; fact]?;
    state(alloc, table, log, steps, Rule::LaDisequality, clause)
}

/// States that one side of an equality is at most the other, where both are equal. The equality has this argument of
/// the rule, and the order 1.
fn state_order(
    alloc: Global,
    table: &mut TermTable,
    log: &mut ProofLog,
    steps: &mut Vec<StepId>,
    id: TermId,
    a: TermId,
    b: TermId,
    weight: Ratio,
) -> Result<(), ClauseStop>
    requires there { IsFormulaIn table.old id }
    requires left { IsNumberIn table.old a }
    requires right { IsNumberIn table.old b }
    requires log { IsLogOf table.old log.old }
    requires taken { IsTakenOrWide (la_generic (order_clause table.old id a b) (arguments_by weight)) }
    ensures grows { Grows [] table.old table.new log.old log.new }
    ensures tells { OnOk result (Tells (listed_steps table.old log.old steps.old.items)
        (listed_steps table.new log.new steps.new.items) (order_clause table.old id a b ∷ [])) }
    ensures wide { IfErr result (OnClauseOverflow
        (λ o. la_generic (order_clause table.old id a b) (arguments_by weight) ≡ Err (wide o))) }
{
    proof_log::laws::logs_hold_in_grown_tables();
    let denied = signed(alloc, table, id, false)?;
    let order = at_most(alloc, table, a, b)?;
    let clause = vec![in alloc; denied, order]?;
    state_judged(alloc, table, log, steps, clause, weight)
}
