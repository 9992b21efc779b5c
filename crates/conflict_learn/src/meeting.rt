//! Literals that come up in an analysis, sorted by their levels.

ghost use Rattle.std.specs.Prelude.{◌≡◌, ◌<◌, ◌≤◌, ◌+◌, ◌^◌, ◌++◌, ◌∷◌, [], ℕ, Bool, List, length, Contains, OnOk};
ghost use Rattle.spec_sorts.specs.Literals.{Literal, literals_of};
ghost use Rattle.term_core.specs.declared.ids.Lit.{Lit};
ghost use Rattle.term_core.specs.Tables.{TableView, IsIn, AreIn, clause_at, literal_at};
ghost use Rattle.conflict_learn.specs.Analyses.{MarksVariables, AreSorted, IsBefore};

use no_memory::NoMemory;
use sat_trail::SatTrail;
use term_core::{Lit, TermId, TermTable};

/// What came up in the analysis of a conflict.
#[derive(Drop)]
pub(crate) struct Seen {
    /// For each variable, whether its literal came up.
    pub(crate) marks: Vec<bool>,
    /// How many literals of the conflict's level are left.
    pub(crate) many: u64,
    /// The literals of other levels above 0 that came up. None of them is replaced.
    pub(crate) lower: Vec<Lit>,
    /// The greatest level of these, or 0 where there are none.
    pub(crate) back: u64,
    /// Whether a literal of level 0 came up.
    pub(crate) fixed: bool,
}

/// Marks the variable of a false literal, and sorts the literal by its level, where it was not marked.
fn meet(trail: &SatTrail, level: u64, m: Lit, seen: &mut Seen) -> Result<(), NoMemory>
    requires known { m.term.0 < trail.now.vars }
    requires size { length seen.old.marks.items ≡ trail.now.vars }
    requires fits { seen.old.many + 1 < 2 ^ 64 }
    ensures size { length seen.new.marks.items ≡ trail.now.vars }
    ensures bound { seen.new.many ≤ seen.old.many + 1 }
    ensures marks { OnOk result ((t : TableView) (ls : List Literal) (first : List Bool) → IsIn t m.term
        → MarksVariables t ls first seen.old.marks.items
        → MarksVariables t (ls ++ literal_at t m ∷ []) first seen.new.marks.items) }
    ensures sorts { OnOk result ((k : ℕ) → IsBefore trail.now k seen.old.marks.items m
        → AreSorted trail.now level k seen.old → AreSorted trail.now level k seen.new) }
{
    trail.is_sound();
    let variable = m.term.0 as usize;
    if seen.marks[variable] {
        return Ok(());
    }
    seen.marks[variable] = true;
    let own = trail.level_by(m);
    if own == level {
        seen.many += 1;
        return Ok(());
    }
    if own == 0 {
        seen.fixed = true;
        return Ok(());
    }
    seen.lower.push(m)?;
    if own <= seen.back {
        return Ok(());
    }
    seen.back = own;
    Ok(())
}

/// Marks the variables of a clause's literals, and sorts those of new ones by their levels.
pub(crate) fn meet_all(
    table: &TermTable,
    trail: &SatTrail,
    level: u64,
    clause: &[TermId],
    seen: &mut Seen,
) -> Result<(), NoMemory>
    requires there { AreIn table.now clause.now }
    requires known { (m : Lit) → IsIn table.now m.term
        → Contains (literals_of (clause_at table.now clause.now)) (literal_at table.now m) → m.term.0 < trail.now.vars }
    requires size { length seen.old.marks.items ≡ trail.now.vars }
    requires fits { seen.old.many + length clause.now < 2 ^ 64 }
    ensures size { length seen.new.marks.items ≡ trail.now.vars }
    ensures marks { OnOk result
        (MarksVariables table.now (literals_of (clause_at table.now clause.now)) seen.old.marks.items
        seen.new.marks.items) }
    ensures sorts { OnOk result ((k : ℕ) → ((m : Lit) → IsIn table.now m.term
        → Contains (literals_of (clause_at table.now clause.now)) (literal_at table.now m)
        → IsBefore trail.now k seen.old.marks.items m)
        → AreSorted trail.now level k seen.old → AreSorted trail.now level k seen.new) }
{
    for id in clause {
        meet(trail, level, table.literal(*id), seen)?;
    }
    Ok(())
}
