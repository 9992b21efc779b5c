//! Which variables become more active at a conflict.

ghost use Rattle.std.specs.Prelude.{◌≡◌, ◌<◌, length, All};
ghost use Rattle.term_core.specs.Tables.{IsIn};
ghost use Rattle.proof_log.specs.Logs.{IsLogOf};

use proof_log::{ProofLog, StepId};
use sat_trail::SatTrail;
use term_core::{Lit, TermId, TermTable};
use variable_order::VariableOrder;

/// Makes the variable of a literal more active, but where it has its value since level 0.
fn bump_literal(order: &mut VariableOrder, trail: &SatTrail, l: Lit)
    requires { length order.old ≡ trail.now.vars }
    ensures { order.new ≡ order.old }
{
    // Terms that came in later are no variables: they state negations, which name none as a literal.
    if l.term.0 >= trail.vars() {
        return;
    }
    if trail.level_by(l) > 0 {
        order.bump(l.term);
    }
}

/// Makes the variables of a clause more active.
fn bump_clause(order: &mut VariableOrder, table: &TermTable, trail: &SatTrail, clause: &[TermId])
    requires clause { All (λ id. IsIn table.now id) clause.now }
    requires vars { length order.old ≡ trail.now.vars }
    ensures { order.new ≡ order.old }
{
    for id in clause {
        bump_literal(order, trail, table.literal(*id));
    }
}

/// Makes the variables of a step's clause and of its premises more active.
pub(crate) fn bump_conflict(
    order: &mut VariableOrder,
    table: &TermTable,
    trail: &SatTrail,
    log: &ProofLog,
    step: StepId,
)
    requires log { IsLogOf table.now log.now }
    requires step { step.0 < length log.now }
    requires vars { length order.old ≡ trail.now.vars }
    ensures { order.new ≡ order.old }
{
    log.premises_are_earlier();
    bump_clause(order, table, trail, log.clause(step));
    let Some(learned) = log.step(step) else {
        return;
    };
    for premise in learned.premises.as_slice() {
        bump_clause(order, table, trail, log.clause(*premise));
    }
}
