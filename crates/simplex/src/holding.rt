//! Literals are held as bounds, marks are set, and the way back.

ghost use Rattle.std.specs.Prelude.{◌≡◌, ◌+◌, ◌<◌, ◌≤◌, ◌++◌, ℕ, List, length, map, take, None, Contains, IfSome, MatchResult};
ghost use Rattle.term_core.specs.Tables.{TableView};
ghost use Rattle.proof_log.specs.Theories.{with_held, with_mark, gone_back};
ghost use Rattle.held_literals.specs.Room.{without_mark};
ghost use Rattle.simplex_bounds.specs.declared.bounds.Bound.{Bound};
ghost use Rattle.simplex_atoms.specs.Slacks.{slack_in};
ghost use Rattle.simplex_atoms.specs.Limits.{limit_of, one_of, limits_by};
ghost use Rattle.simplex.specs.Views.{IsOf};

use crate::simplex::Simplex;
use crate::starts::Start;
use no_memory::NoMemory;
use simplex_atoms::laws::bounds_have_weights;
use simplex_atoms::{Slack, bounds_by};
use simplex_bounds::{Bound, Bounds};
use term_core::Lit;

/// Holds a bound, if there is one. It takes no memory.
fn hold_one(bounds: &mut Bounds, bound: Option<Bound>)
    requires there { IfSome bound (λ b. b.variable < bounds.old.variables) }
    requires room { length (one_of bound) ≤ bounds.old.room }
    ensures held { bounds.new.held ≡ bounds.old.held ++ one_of bound }
    ensures variables { bounds.new.variables ≡ bounds.old.variables }
    ensures room { bounds.new.room + length (one_of bound) ≡ bounds.old.room }
{
    if let Some(bound) = bound {
        bounds.hold(bound);
    }
}

/// Holds the bounds that a literal states whose atom has this place. It takes no memory.
fn hold_by(bounds: &mut Bounds, slack: Slack, lit: Lit)
    requires there { slack.variable < bounds.old.variables }
    requires room { length (limits_by slack lit) ≤ bounds.old.room }
    ensures held { map limit_of bounds.new.held ≡ map limit_of bounds.old.held ++ limits_by slack lit }
    ensures more { (bs : List Bound) × (bounds.new.held ≡ bounds.old.held ++ bs) }
    ensures variables { bounds.new.variables ≡ bounds.old.variables }
    ensures room { bounds.new.room + length (limits_by slack lit) ≡ bounds.old.room }
{
    bounds_have_weights();
    let (first, second) = bounds_by(slack, lit);
    hold_one(bounds, first);
    hold_one(bounds, second);
}

impl Simplex {
    /// Holds a literal more, of a term that it watches: its bounds, if the term has a place. It takes no memory.
    pub fn assume_lit(&mut self, lit: Lit)
        requires watched { Contains self.old.theory.watched lit.term }
        requires new { Contains self.old.theory.held lit → ⊥ }
        ensures with { (t : TableView) → IsOf self.old t → IsOf self.new t }
        ensures holds { self.new.theory ≡ with_held self.old.theory lit }
        ensures atoms { self.new.atoms ≡ self.old.atoms }
        ensures assignment { self.new.assignment ≡ self.old.assignment }
        ensures plain { slack_in self.old.atoms.slack_list lit.term ≡ None → self.new.bounds.held
            ≡ self.old.bounds.held }
    {
        self.literals.are_of_watched_terms();
        self.literals.marks_are_prefixes();
        self.literals.hold(lit);
        if let Some(slack) = self.atoms.slack(lit.term) {
            hold_by(&mut self.bounds, slack, lit);
        }
    }

    /// Marks what it holds and watches.
    ///
    /// `NoMemory` comes where the mark finds no memory; then all is as it was.
    pub fn mark(&mut self) -> Result<(), NoMemory>
        ensures with { (t : TableView) → IsOf self.old t → IsOf self.new t }
        ensures marks { MatchResult result (λ _. self.new.theory ≡ with_mark self.old.theory)
            (λ _. self.new.theory ≡ self.old.theory) }
        ensures atoms { self.new.atoms ≡ self.old.atoms }
        ensures assignment { self.new.assignment ≡ self.old.assignment }
        ensures bounds { self.new.bounds ≡ self.old.bounds }
    {
        let start = Start {
            bounds: self.bounds.held_len(),
            slack_list: self.slack_list,
        };
        self.starts.reserve(1)?;
        self.literals.mark()?;
        self.starts.push_reserved(start);
        Ok(())
    }

    /// Takes the newest mark away: what it holds and watches stays, with the bounds and the rows. It takes no memory.
    pub fn forget_mark(&mut self)
        requires there { 0 < length self.old.theory.marks }
        ensures with { (t : TableView) → IsOf self.old t → IsOf self.new t }
        ensures forgets { self.new.theory ≡ without_mark self.old.theory }
        ensures atoms { self.new.atoms ≡ self.old.atoms }
        ensures assignment { self.new.assignment ≡ self.old.assignment }
        ensures bounds { self.new.bounds ≡ self.old.bounds }
    {
        let kept = self.starts.len() - 1;
        self.literals.forget_mark();
        self.starts.truncate(kept);
    }

    /// Goes back so many marks: it holds and watches what it did there, with the bounds of the literals that are left. The
    /// rows, the values and the slack variables of atoms stay. It takes no memory.
    pub fn back(&mut self, marks: u32)
        requires there { marks ≤ length self.old.theory.marks }
        ensures with { (t : TableView) → IsOf self.old t → IsOf self.new t }
        ensures back { self.new.theory ≡ gone_back marks self.old.theory }
        ensures atoms { self.new.atoms ≡ self.old.atoms }
        ensures assignment { self.new.assignment ≡ self.old.assignment }
        ensures bounds { (n : ℕ) × (self.new.bounds.held ≡ take n self.old.bounds.held) }
    {
        if marks > 0 {
            self.literals.marks_are_prefixes();
            let kept = self.starts.len() - marks as usize;
            let start = self.starts[kept];
            self.bounds.back(start.bounds);
            self.literals.back(marks);
            self.starts.truncate(kept);
            self.slack_list = start.slack_list;
            self.kept = self.kept.min(start.bounds);
            self.told = self.told.min(start.bounds);
        }
    }
}
