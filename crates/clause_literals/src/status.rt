//! The status of a clause under the literals that hold.

ghost use Rattle.std.specs.Prelude.{◌∷◌, ◌++◌, [], List};
ghost use Rattle.clause_literals.specs.Statuses.{HasStatus};

use crate::assignment::Assignment;
use crate::literals::{negated, same};
use term_core::Lit;

/// Says what a clause is under literals that hold.
///
/// Source: Davis, Logemann and Loveland 1962, for unit clauses.
#[derive(Clone, Copy, Debug, PartialEq, Eq)]
pub enum ClauseStatus {
    /// Each literal is false.
    Falsified,
    /// This literal is open, and each other one is false.
    Unit(Lit),
    /// Two different literals are open.
    Unresolved,
    /// A literal holds.
    Satisfied,
}

/// Gives the status with one more literal.
fn status_with(status: ClauseStatus, m: Lit, held: &Assignment) -> ClauseStatus
    ensures { (front : List Lit) → HasStatus held.now front status → HasStatus held.now (front ++ m ∷ []) result }
{
    if held.contains(negated(m)) {
        return status;
    }
    if held.contains(m) {
        return ClauseStatus::Satisfied;
    }
    match status {
        ClauseStatus::Falsified => ClauseStatus::Unit(m),
        ClauseStatus::Unit(l) => {
            if same(l, m) {
                return status;
            }
            ClauseStatus::Unresolved
        }
        ClauseStatus::Unresolved => ClauseStatus::Unresolved,
        ClauseStatus::Satisfied => ClauseStatus::Satisfied,
    }
}

/// Gives the status of a clause under the literals that hold. It takes no memory, and time in proportion to the clause.
pub fn clause_status(clause: &[Lit], held: &Assignment) -> ClauseStatus
    ensures { HasStatus held.now clause.now result }
{
    let mut status = ClauseStatus::Falsified;
    for m in clause {
        status = status_with(status, *m, held);
    }
    status
}
