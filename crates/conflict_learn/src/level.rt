//! Levels of conflicts.

ghost use Rattle.std.specs.Prelude.{◌++◌, ◌∷◌, [], List, Contains};
ghost use Rattle.spec_sorts.specs.Literals.{Literal};
ghost use Rattle.term_core.specs.Tables.{TableView, IsIn, AreDifferent, literal_at};
ghost use Rattle.clause_literals.specs.Literals.{lit_complement};
ghost use Rattle.proof_log.specs.Logs.{IsLogOf};
ghost use Rattle.proof_log.specs.Clashes.{IsClash};
ghost use Rattle.conflict_learn.specs.Conflicts.{IsConflictLevel};
ghost use Rattle.conflict_learn.specs.Analyses.{IsGreatestOf};

use proof_log::{ProofLog, StepId};
use sat_trail::SatTrail;
use term_core::{Lit, TermTable};

/// Gives the greater of a level and that since which a literal is false.
fn higher(trail: &SatTrail, level: u64, m: Lit) -> u64
    requires { Contains trail.now.literals (lit_complement m) }
    ensures { (t : TableView) (ls : List Literal) → AreDifferent t.terms → IsIn t m.term
        → IsGreatestOf t trail.now ls level → IsGreatestOf t trail.now (ls ++ literal_at t m ∷ []) result }
{
    trail.is_sound();
    let own = trail.level_by(m);
    if own > level {
        return own;
    }
    level
}

/// Gives the level of a conflict: the greatest since which a literal of the false clause is false, or 0 where it has none. It takes
/// no memory.
///
/// `clash` must be the step of a clause that is false under the trail.
/// Source: Marques Silva and Sakallah 1999.
pub fn conflict_level(table: &TermTable, trail: &SatTrail, log: &ProofLog, clash: StepId) -> u64
    requires log { IsLogOf table.now log.now }
    requires clash { IsClash table.now log.now trail.now.literals clash }
    ensures { IsConflictLevel (record { table = table.now; log = log.now; trail = trail.now; clash = clash }) result }
{
    table.ids_are_unique();
    let mut level = 0;
    for id in log.clause(clash) {
        level = higher(trail, level, table.literal(*id));
    }
    level
}
