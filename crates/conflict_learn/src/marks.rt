//! Marks by variable.

ghost use Rattle.std.specs.Prelude.{◌<◌, length, Contains};
ghost use Rattle.spec_sorts.specs.Literals.{literals_of};
ghost use Rattle.term_core.specs.declared.ids.Lit.{Lit};
ghost use Rattle.term_core.specs.Tables.{IsIn, AreIn, clause_at, literal_at};
ghost use Rattle.conflict_learn.specs.Analyses.{MarksVariables};

use term_core::{TermId, TermTable};

/// Marks the variables of a clause's literals.
pub(crate) fn mark(table: &TermTable, clause: &[TermId], marks: &mut Vec<bool>)
    requires there { AreIn table.now clause.now }
    requires known { (m : Lit) → IsIn table.now m.term
        → Contains (literals_of (clause_at table.now clause.now)) (literal_at table.now m)
        → m.term.0 < length marks.old.items }
    ensures { MarksVariables table.now (literals_of (clause_at table.now clause.now)) marks.old.items marks.new.items }
{
    for id in clause {
        let l = table.literal(*id);
        marks[l.term.0 as usize] = true;
    }
}
