//! The way from a conflict to its first unique implication point.

ghost use Rattle.std.specs.Prelude.{◌≡◌, ◌<◌, ◌≤◌, ◌+◌, ℕ, length, get_or, OnOk, IfOk};
ghost use Rattle.proof_log.specs.declared.premises.StepId.{StepId as Number};
ghost use Rattle.proof_log.specs.Logs.{IsLogOf};
ghost use Rattle.proof_log.specs.Clashes.{IsClash};
ghost use Rattle.conflict_learn.specs.Conflicts.{AreTrailReasons, IsConflictLevel};
ghost use Rattle.conflict_learn.specs.Analyses.{IsMarkedAt, IsNewest, HasComeTo, HasPassed};

use crate::meeting::{Seen, meet_all};
use no_memory::NoMemory;
use proof_log::{ProofLog, StepId};
use sat_trail::SatTrail;
use std::alloc::Global;
use term_core::{Lit, TermTable};

/// The analysis of a conflict, as far down the trail as it has come.
#[derive(Drop)]
pub(crate) struct Analysis {
    /// What came up.
    pub(crate) seen: Seen,
    /// The step of the false clause, and the reasons that were passed, newest first.
    pub(crate) premises: Vec<StepId>,
    /// The place that it has come to: all marked literals from there on were replaced by the others of their reasons.
    pub(crate) at: u64,
}

/// Begins the analysis of a false clause, at the end of the trail.
fn begin(
    alloc: Global,
    table: &TermTable,
    trail: &SatTrail,
    log: &ProofLog,
    level: u64,
    clash: StepId,
) -> Result<Analysis, NoMemory>
    requires log { IsLogOf table.now log.now }
    requires clash { IsClash table.now log.now trail.now.literals clash }
    ensures size { IfOk result (λ a. length a.seen.marks.items ≡ trail.now.vars) }
    ensures begun { IfOk result (λ a. (a.at ≡ length trail.now.literals)
        × HasComeTo (record { table = table.now; log = log.now; trail = trail.now; clash = clash }) level a.at a) }
{
    trail.is_sound();
    table.ids_are_unique();
    let marks = vec![in alloc; false; trail.vars() as usize]?;
    let mut seen = Seen {
        marks,
        many: 0,
        lower: Vec::new(alloc),
        back: 0,
        fixed: false,
    };
    meet_all(table, trail, level, log.clause(clash), &mut seen)?;
    let mut premises = Vec::new(alloc);
    premises.push(clash)?;
    Ok(Analysis {
        seen,
        premises,
        at: trail.len(),
    })
}

/// Passes a place: where its literal is marked, it is replaced by the others of its reason.
fn pass(
    table: &TermTable,
    trail: &SatTrail,
    log: &ProofLog,
    level: u64,
    at: u64,
    analysis: &mut Analysis,
) -> Result<(), NoMemory>
    requires log { IsLogOf table.now log.now }
    requires at { at < length trail.now.literals }
    requires reasons { AreTrailReasons table.now log.now trail.now }
    requires size { length analysis.old.seen.marks.items ≡ trail.now.vars }
    requires some { 0 < analysis.old.seen.many }
    requires few { analysis.old.seen.many ≤ at + 1 }
    requires of_level { IsMarkedAt trail.now analysis.old.seen.marks.items at → get_or trail.now.levels at 0 ≡ level }
    ensures size { length analysis.new.seen.marks.items ≡ trail.now.vars }
    ensures passed { OnOk result ((clash : Number) → IsClash table.now log.now trail.now.literals clash
        → HasComeTo (record { table = table.now; log = log.now; trail = trail.now; clash = clash })
        level (at + 1) analysis.old
        → HasComeTo (record { table = table.now; log = log.now; trail = trail.now; clash = clash })
        level at analysis.new) }
{
    trail.is_sound();
    table.ids_are_unique();
    let l = trail.literal(at);
    if !analysis.seen.marks[l.term.0 as usize] {
        return Ok(());
    }
    analysis.seen.many -= 1;
    let Some(number) = trail.reason(at) else {
        return Ok(());
    };
    let reason = StepId(number);
    analysis.premises.push(reason)?;
    meet_all(table, trail, level, log.clause(reason), &mut analysis.seen)?;
    Ok(())
}

/// Goes down the trail from a conflict above level 0 to its first unique implication point.
pub(crate) fn analyze(
    alloc: Global,
    table: &TermTable,
    trail: &SatTrail,
    log: &ProofLog,
    level: u64,
    clash: StepId,
) -> Result<Analysis, NoMemory>
    requires log { IsLogOf table.now log.now }
    requires clash { IsClash table.now log.now trail.now.literals clash }
    requires level { IsConflictLevel
        (record { table = table.now; log = log.now; trail = trail.now; clash = clash }) level }
    requires reasons { AreTrailReasons table.now log.now trail.now }
    ensures size { IfOk result (λ a. length a.seen.marks.items ≡ trail.now.vars) }
    ensures passed { IfOk result (HasPassed
        (record { table = table.now; log = log.now; trail = trail.now; clash = clash }) level) }
{
    trail.is_sound();
    table.ids_are_unique();
    let mut analysis = begin(alloc, table, trail, log, level, clash)?;
    let mut at = trail.len();
    'places: while analysis.seen.many > 1 {
        at -= 1;
        pass(table, trail, log, level, at, &mut analysis)?;
    }
    analysis.at = at;
    Ok(analysis)
}

/// Gives the newest literal before a place whose variable is marked.
pub(crate) fn newest_before(trail: &SatTrail, marks: &[bool], place: u64) -> Lit
    requires size { length marks.now ≡ trail.now.vars }
    requires place { place ≤ length trail.now.literals }
    requires some { (p : ℕ) × (p < place) × IsMarkedAt trail.now marks.now p }
    ensures { IsNewest trail.now marks.now place result }
{
    trail.is_sound();
    'places: for at in (0..place).rev() {
        let l = trail.literal(at);
        if marks[l.term.0 as usize] {
            return l;
        }
    }
    unreachable!()
}
