//! One pass of unit propagation over all premises.

ghost use Rattle.std.specs.Prelude.{IfOk};
ghost use Rattle.clause_literals.specs.Literals.{lists};
ghost use Rattle.clause_literals.specs.Scanning.{Scans, Moves};

use crate::assignment::Assignment;
use crate::status::{ClauseStatus, clause_status};
use std::alloc::AllocError;
use term_core::Lit;

/// What a pass over the premises comes to.
#[derive(Clone, Copy, Debug, PartialEq, Eq)]
pub(crate) enum Pass {
    /// A premise is false.
    Conflict,
    /// Some literals were added.
    Added,
    /// Nothing was added.
    Same,
}

/// Looks at a clause, and adds the literal that follows from it.
fn take_up(clause: &[Lit], held: &mut Assignment) -> Result<ClauseStatus, AllocError>
    ensures { IfOk result (λ found. Scans clause.now held.old held.new found) }
{
    match clause_status(clause, held) {
        ClauseStatus::Unit(l) => {
            held.add(l)?;
            Ok(ClauseStatus::Unit(l))
        }
        found => Ok(found),
    }
}

/// Takes up each premise once, from the last to the first, until one is false.
pub(crate) fn pass_over(premises: &[Vec<Lit>], held: &mut Assignment) -> Result<Pass, AllocError>
    ensures { IfOk result (λ p. Moves (lists premises.now) (lists premises.now) held.old held.new p) }
{
    let mut added = false;
    for at in (0..premises.len()).rev() {
        match take_up(&premises[at], held)? {
            ClauseStatus::Falsified => return Ok(Pass::Conflict),
            ClauseStatus::Unit(_) => added = true,
            ClauseStatus::Unresolved | ClauseStatus::Satisfied => {}
        }
    }
    Ok(if added { Pass::Added } else { Pass::Same })
}
