//! Literals that the clauses of lemmas imply.

ghost use Rattle.std.specs.Prelude.{◌≡◌, ◌<◌, length, Contains, IsTrue, IfSome, MatchBool, MatchResult};
ghost use Rattle.term_core.specs.Tables.{AreIn};
ghost use Rattle.clause_literals.specs.Literals.{lit_complement};
ghost use Rattle.search_loop.specs.Waiting.{IsOpen};
ghost use Rattle.search_loop.specs.Search.{SearchFits};
ghost use Rattle.search_loop.specs.Loops.{loop_state, CanLoop, TakesImplied};
ghost use Rattle.search_loop.specs.Implying.{IsLitOf, AreFalseBut, HasLate, IsImplying, HasImplied};

use crate::search::Search;
use clause_literals::same;
use clause_store::laws::{reasons_stay_right, what_is_marked_was_seen};
use no_memory::NoMemory;
use proof_log::{StepId, Theory};
use sat_trail::SatTrail;
use term_core::{Lit, TermId, TermTable};

/// Tells whether a literal is false. One whose term came after the variables is not.
fn is_false(trail: &SatTrail, m: Lit) -> bool
    ensures { IsTrue result → Contains trail.now.literals (lit_complement m) }
{
    if m.term.0 >= trail.vars() {
        return false;
    }
    match trail.value(m) {
        Some(sign) => !sign,
        None => false,
    }
}

/// Gives the first literal of a clause without a value; nothing where a term before it came after the variables, too.
fn first_open(table: &TermTable, trail: &SatTrail, clause: &[TermId]) -> Option<Lit>
    requires { AreIn table.now clause.now }
    ensures { IfSome result (λ l. IsLitOf table.now clause.now l × IsOpen trail.now l) }
{
    for id in clause {
        let l = table.literal(*id);
        if l.term.0 >= trail.vars() {
            return None;
        }
        if trail.value(l).is_none() {
            return Some(l);
        }
    }
    None
}

/// Tells whether all literals of a clause are false but for one.
fn are_false_but(table: &TermTable, trail: &SatTrail, clause: &[TermId], one: Lit) -> bool
    requires { AreIn table.now clause.now }
    ensures { IsTrue result → AreFalseBut table.now trail.now.literals clause.now one }
{
    table.ids_are_unique();
    for id in clause {
        let m = table.literal(*id);
        if same(m, one) {
            continue;
        }
        if !is_false(trail, m) {
            return false;
        }
    }
    true
}

/// Tells whether a literal of a clause is false since the trail's level, where all are false but for one.
fn has_late(table: &TermTable, trail: &SatTrail, clause: &[TermId], one: Lit) -> bool
    requires there { AreIn table.now clause.now }
    requires others { AreFalseBut table.now trail.now.literals clause.now one }
    ensures { IsTrue result → HasLate table.now trail.now clause.now one }
{
    trail.is_sound();
    for id in clause {
        let m = table.literal(*id);
        if same(m, one) {
            continue;
        }
        if trail.level_by(m) == trail.level() {
            return true;
        }
    }
    false
}

/// Gives the literal that a clause implies, where it did not before the last decision; else nothing. It takes no memory.
fn implied_by(table: &TermTable, trail: &SatTrail, clause: &[TermId]) -> Option<Lit>
    requires { AreIn table.now clause.now }
    ensures { IfSome result (IsImplying table.now trail.now clause.now) }
{
    let l = first_open(table, trail, clause)?;
    if !are_false_but(table, trail, clause, l) {
        return None;
    }
    if trail.level() == 0 || has_late(table, trail, clause, l) {
        return Some(l);
    }
    None
}

impl Search {
    /// Lets a literal hold that the clause of a step of the log implies, and puts the clause last in the store; tells whether it does.
    ///
    /// The literal is one of an atom, and has no value; all others of the clause are false. Above level 0 one of them is so since the
    /// search's level: a clause that implied it before would have to be there from then on. Where the answer is `false`, and where
    /// `NoMemory` comes as the clause finds no memory, all is as it was.
    pub(crate) fn imply(&mut self, table: &TermTable, step: StepId) -> Result<bool, NoMemory>
        requires ready { SearchFits table.now self.old }
        requires step { step.0 < length self.old.log }
        ensures { MatchResult result
            (λ came. MatchBool came (HasImplied table.now step self.old self.new) (self.new ≡ self.old))
            (λ _. self.new ≡ self.old) }
    {
        what_is_marked_was_seen();
        reasons_stay_right();
        table.ids_are_unique();
        self.trail.is_sound();
        self.store.steps_are_paired();
        let Some(l) = implied_by(table, &self.trail, self.log.clause(step)) else {
            return Ok(false);
        };
        if !self.decider.waits(l.term) {
            return Ok(false);
        }
        self.store.add(table, &self.log, step)?;
        self.trail.imply(l, step.0);
        Ok(true)
    }

    /// Lets a theory add lemmas that may imply literals, and lets those hold that they do imply; tells whether there are such.
    ///
    /// The theory must hold what the trail holds. Lemmas that imply nothing here stay in the log alone. Where the answer is `false`, nothing
    /// but table and log is changed. `NoMemory` comes where memory ran out, here or in the theory.
    pub(crate) fn take_implied<T: Theory>(
        &mut self,
        table: &mut TermTable,
        theory: &mut T,
    ) -> Result<bool, NoMemory>
        requires going { CanLoop (loop_state table.old self.old (T.meaning theory.old)) }
        requires held { (T.meaning theory.old).view.held ≡ self.old.trail.literals }
        ensures { TakesImplied (loop_state table.old self.old (T.meaning theory.old))
            (loop_state table.new self.new (T.meaning theory.new)) result }
    {
        let steps = theory.implied(table, &mut self.log, &self.trail)?;
        let mut implied = false;
        'steps: for step in steps.iter() {
            if self.imply(table, *step)? {
                implied = true;
            }
        }
        Ok(implied)
    }
}
