//! Literals of level 0, which are dropped for the reasons that they depend on.

ghost use Rattle.std.specs.Prelude.{◌≡◌, ◌<◌, ◌≤◌, ◌+◌, ℕ, length, get_or, OnOk, IfOk};
ghost use Rattle.proof_log.specs.declared.premises.StepId.{StepId as Number};
ghost use Rattle.proof_log.specs.Logs.{IsLogOf};
ghost use Rattle.proof_log.specs.Clashes.{IsClash};
ghost use Rattle.conflict_learn.specs.Conflicts.{AreTrailReasons, IsConflictLevel};
ghost use Rattle.conflict_learn.specs.Analyses.{HasPassed, AreDropped, HasFound};

use crate::analysis::{Analysis, analyze, newest_before};
use crate::marks::mark;
use clause_literals::negated;
use no_memory::NoMemory;
use proof_log::{ProofLog, StepId};
use sat_trail::SatTrail;
use std::alloc::Global;
use term_core::{Lit, TermTable};

/// The clause that was found, and from which steps it follows.
#[derive(Drop)]
pub(crate) struct LearnedParts {
    /// Its literals; the one of the conflict's level is the last.
    pub(crate) clause: Vec<Lit>,
    /// The conflict, the reasons that were passed, and those of the literals that were dropped.
    pub(crate) premises: Vec<StepId>,
    /// The greatest level of the others, or 0 where there are none.
    pub(crate) back: u64,
}

/// Counts the literals of level 0, which come first.
fn fixed_len(trail: &SatTrail) -> u64
    ensures within { result ≤ length trail.now.literals }
    ensures fixed { (p : ℕ) → p < result → get_or trail.now.levels p 0 ≡ 0 }
    ensures others { (p : ℕ) → result ≤ p → p < length trail.now.literals → 0 < get_or trail.now.levels p 0 }
{
    trail.is_sound();
    let mut low = 0;
    let mut high = trail.len();
    'halves: while low < high {
        let middle = low + (high - low) / 2;
        if trail.level_of(middle) > 0 {
            high = middle;
            continue;
        }
        low = middle + 1;
    }
    high
}

/// Drops the literal of a place of level 0, where it is marked: takes its reason as a premise, and marks the others of it.
fn drop_at(
    table: &TermTable,
    trail: &SatTrail,
    log: &ProofLog,
    at: u64,
    marks: &mut Vec<bool>,
    premises: &mut Vec<StepId>,
) -> Result<(), NoMemory>
    requires log { IsLogOf table.now log.now }
    requires at { at < length trail.now.literals }
    requires fixed { get_or trail.now.levels at 0 ≡ 0 }
    requires reasons { AreTrailReasons table.now log.now trail.now }
    requires size { length marks.old.items ≡ trail.now.vars }
    ensures size { length marks.new.items ≡ trail.now.vars }
    ensures dropped { OnOk result ((clash : Number) (from : ℕ) → IsClash table.now log.now trail.now.literals clash
        → AreDropped (record { table = table.now; log = log.now; trail = trail.now; clash = clash })
        from (at + 1) marks.old.items premises.old.items
        → AreDropped (record { table = table.now; log = log.now; trail = trail.now; clash = clash })
        from at marks.new.items premises.new.items) }
{
    trail.is_sound();
    table.ids_are_unique();
    let l = trail.literal(at);
    if !marks[l.term.0 as usize] {
        return Ok(());
    }
    let Some(number) = trail.reason(at) else {
        return Ok(());
    };
    let reason = StepId(number);
    premises.push(reason)?;
    mark(table, log.clause(reason), marks);
    Ok(())
}

/// Drops the marked literals of level 0, and those of level 0 that they depend on.
pub(crate) fn drop_fixed(
    table: &TermTable,
    trail: &SatTrail,
    log: &ProofLog,
    marks: &mut Vec<bool>,
    premises: &mut Vec<StepId>,
) -> Result<(), NoMemory>
    requires log { IsLogOf table.now log.now }
    requires reasons { AreTrailReasons table.now log.now trail.now }
    requires size { length marks.old.items ≡ trail.now.vars }
    ensures dropped { OnOk result ((clash : Number) (from : ℕ) → IsClash table.now log.now trail.now.literals clash
        → AreDropped (record { table = table.now; log = log.now; trail = trail.now; clash = clash })
        from (length trail.now.literals) marks.old.items premises.old.items
        → AreDropped (record { table = table.now; log = log.now; trail = trail.now; clash = clash })
        from 0 marks.new.items premises.new.items) }
{
    'places: for at in (0..fixed_len(trail)).rev() {
        drop_at(table, trail, log, at, marks, premises)?;
    }
    Ok(())
}

/// Drops the literals of level 0 that came up on the way to the point. There is no walk where none did.
fn drop_seen(
    table: &TermTable,
    trail: &SatTrail,
    log: &ProofLog,
    analysis: &mut Analysis,
) -> Result<(), NoMemory>
    requires log { IsLogOf table.now log.now }
    requires reasons { AreTrailReasons table.now log.now trail.now }
    requires size { length analysis.old.seen.marks.items ≡ trail.now.vars }
    ensures lower { analysis.new.seen.lower ≡ analysis.old.seen.lower }
    ensures back { analysis.new.seen.back ≡ analysis.old.seen.back }
    ensures dropped { OnOk result ((clash : Number) (n : ℕ) → IsClash table.now log.now trail.now.literals clash
        → IsConflictLevel (record { table = table.now; log = log.now; trail = trail.now; clash = clash }) n → 0 < n
        → HasPassed (record { table = table.now; log = log.now; trail = trail.now; clash = clash }) n analysis.old
        → AreDropped (record { table = table.now; log = log.now; trail = trail.now; clash = clash })
        analysis.old.at 0 analysis.new.seen.marks.items analysis.new.premises.items) }
{
    trail.is_sound();
    table.ids_are_unique();
    if !analysis.seen.fixed {
        return Ok(());
    }
    drop_fixed(
        table,
        trail,
        log,
        &mut analysis.seen.marks,
        &mut analysis.premises,
    )?;
    Ok(())
}

/// Finds the clause of the first unique implication point of a conflict, whose level must be above 0.
pub(crate) fn find(
    alloc: Global,
    table: &TermTable,
    trail: &SatTrail,
    log: &ProofLog,
    level: u64,
    clash: StepId,
) -> Result<LearnedParts, NoMemory>
    requires log { IsLogOf table.now log.now }
    requires clash { IsClash table.now log.now trail.now.literals clash }
    requires level { IsConflictLevel
        (record { table = table.now; log = log.now; trail = trail.now; clash = clash }) level }
    requires above { 0 < level }
    requires reasons { AreTrailReasons table.now log.now trail.now }
    ensures { IfOk result (HasFound
        (record { table = table.now; log = log.now; trail = trail.now; clash = clash }) level) }
{
    trail.is_sound();
    table.ids_are_unique();
    let mut analysis = analyze(alloc, table, trail, log, level, clash)?;
    let one = newest_before(trail, &analysis.seen.marks, analysis.at);
    drop_seen(table, trail, log, &mut analysis)?;
    analysis.seen.lower.push(negated(one))?;
    let premises = analysis.premises;
    let seen = analysis.seen;
    Ok(LearnedParts {
        clause: seen.lower,
        premises,
        back: seen.back,
    })
}
