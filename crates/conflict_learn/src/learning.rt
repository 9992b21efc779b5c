//! Learning from a conflict.

ghost use Rattle.std.specs.Prelude.{◌≡◌, IfOk, OnErr};
ghost use Rattle.term_core.specs.Tables.{declared_in, Extends};
ghost use Rattle.proof_log.specs.Logs.{IsLogOf};
ghost use Rattle.proof_log.specs.Clashes.{IsClash};
ghost use Rattle.conflict_learn.specs.Conflicts.{AreTrailReasons, IsAboveZero, IsOfZero};
ghost use Rattle.conflict_learn.specs.Learned.{IsLearned, Refutes};

use crate::dropping::{drop_fixed, find};
use crate::learned::Learned;
use crate::level::conflict_level;
use crate::lits::Lits;
use crate::marks::mark;
use crate::stated::{log_step, terms_of};
use no_memory::NoMemory;
use proof_log::laws::logs_hold_in_grown_tables;
use proof_log::{ProofLog, StepId};
use sat_trail::SatTrail;
use std::alloc::Global;
use term_core::TermTable;

/// Learns the clause of a conflict's first unique implication point, and logs it as a step by `resolution`.
///
/// One begins with the false clause. While two or more of the literals are false only since the conflict's level, the one that became
/// so last is replaced by the others of the reason for its complement. Those false since level 0 are dropped. The step's premises are
/// exactly the false clause, the reasons that were used so, and those on which the dropped literals depend. The clause is what a chain
/// of resolutions over these gives, and has no other literals. They are in no special order.
///
/// It takes time in proportion to the trail from its end to the point, and to the clauses used; where literals are dropped, to the
/// literals of level 0 too. Each call takes a mark for each variable.
///
/// Three conditions: the clause of the step `clash` is false under the trail; one of its literals is so only since a level above 0;
/// and each reason of the trail is a step of the log that has the implied literal and whose other literals are false by earlier
/// literals of the trail. Negations that the clause needs come into the table.
///
/// `NoMemory` comes where a list, a term or the step finds no memory; then table and log are as they were.
/// Source: Zhang, Madigan, Moskewicz and Malik, ICCAD 2001, the scheme 1UIP.
pub fn learn(
    alloc: Global,
    table: &mut TermTable,
    trail: &SatTrail,
    log: &mut ProofLog,
    clash: StepId,
) -> Result<Learned, NoMemory>
    requires log { IsLogOf table.old log.old }
    requires clash { IsClash table.old log.old trail.now.literals clash }
    requires above { IsAboveZero (record { table = table.old; log = log.old; trail = trail.now; clash = clash }) }
    requires reasons { AreTrailReasons table.old log.old trail.now }
    ensures grown { Extends table.old table.new }
    ensures declared { declared_in table.new ≡ declared_in table.old }
    ensures learned { IfOk result (IsLearned
        (record { table = table.old; log = log.old; trail = trail.now; clash = clash }) table.new log.new) }
    ensures table { OnErr result (table.new ≡ table.old) }
    ensures log { OnErr result (log.new ≡ log.old) }
{
    let terms = table.len();
    match learned(alloc, table, trail, log, clash) {
        Ok(found) => Ok(found),
        Err(NoMemory) => {
            table.cut(terms);
            Err(NoMemory)
        }
    }
}

/// Learns it; where memory runs out, the terms that it has put stay.
fn learned(
    alloc: Global,
    table: &mut TermTable,
    trail: &SatTrail,
    log: &mut ProofLog,
    clash: StepId,
) -> Result<Learned, NoMemory>
    requires log { IsLogOf table.old log.old }
    requires clash { IsClash table.old log.old trail.now.literals clash }
    requires above { IsAboveZero (record { table = table.old; log = log.old; trail = trail.now; clash = clash }) }
    requires reasons { AreTrailReasons table.old log.old trail.now }
    ensures grown { Extends table.old table.new }
    ensures declared { declared_in table.new ≡ declared_in table.old }
    ensures learned { IfOk result (IsLearned
        (record { table = table.old; log = log.old; trail = trail.now; clash = clash }) table.new log.new) }
    ensures log { OnErr result (log.new ≡ log.old) }
{
    trail.is_sound();
    table.ids_are_unique();
    table.terms_are_closed();
    logs_hold_in_grown_tables();
    let level = conflict_level(table, trail, log, clash);
    let found = find(alloc, table, trail, log, level, clash)?;
    let terms = terms_of(alloc, table, &found.clause)?;
    let step = log_step(alloc, table, log, found.premises, terms)?;
    Ok(Learned {
        clause: Lits::from(found.clause),
        step,
        level: found.back,
    })
}

/// Derives the clause without literals from a conflict of level 0, as a step by `resolution` from the false clause and the reasons
/// that it depends on.
///
/// Three conditions: the clause of the step `clash` is false under the trail; each of its literals is so since level 0; and each
/// reason of the trail is a step of the log that has the implied literal and whose other literals are false by earlier literals of
/// the trail. Decisions may be on the trail.
///
/// `NoMemory` comes where a list or the step finds no memory; then the log is as it was.
/// Source: Marques Silva and Sakallah 1999, the analysis of conflicts.
pub fn refute(
    alloc: Global,
    table: &TermTable,
    trail: &SatTrail,
    log: &mut ProofLog,
    clash: StepId,
) -> Result<StepId, NoMemory>
    requires log { IsLogOf table.now log.old }
    requires clash { IsClash table.now log.old trail.now.literals clash }
    requires of_zero { IsOfZero (record { table = table.now; log = log.old; trail = trail.now; clash = clash }) }
    requires reasons { AreTrailReasons table.now log.old trail.now }
    ensures { Refutes (record { table = table.now; log = log.old; trail = trail.now; clash = clash }) result log.new }
{
    trail.is_sound();
    table.ids_are_unique();
    table.terms_are_closed();
    let mut marks = vec![in alloc; false; trail.vars() as usize]?;
    let mut premises = Vec::new(alloc);
    premises.push(clash)?;
    mark(table, log.clause(clash), &mut marks);
    drop_fixed(table, trail, log, &mut marks, &mut premises)?;
    log_step(alloc, table, log, premises, Vec::new(alloc))
}
