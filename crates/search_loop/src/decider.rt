//! The order of decisions: which variables wait, how active they are, and the signs that they had last.

ghost use Rattle.std.specs.Prelude.{◌≡◌, ◌<◌, ◌≤◌, [], ◌∷◌, ◌++◌, false, length, get_or, List, All, IfSome, OnOk, OnErr};
ghost use Rattle.term_core.specs.declared.ids.TermId.{TermId as Number};
ghost use Rattle.term_core.specs.declared.ids.Lit.{Lit as Literal};
ghost use Rattle.proof_log.specs.Logs.{IsLogOf};
ghost use Rattle.sat_trail.specs.Trails.{TrailView, IsCutTo};
ghost use Rattle.search_loop.specs.Waiting.{AreWaiting, AreOfAtoms, IsOpen, Chooses};

use crate::activity::bump_conflict;
use crate::decision::next_decision;
use crate::waiting::{insert_all, put_all_back, put_back};
use no_memory::NoMemory;
use proof_log::{ProofLog, StepId};
use sat_trail::SatTrail;
use std::alloc::Global;
use std::marker::Model;
use term_core::{Lit, TermId, TermTable};
use variable_order::VariableOrder;

/// Says which literal is decided next: that of the most active variable without a value, with the sign that it had last.
///
/// Contracts see of each variable whether it waits to be decided. What is decided is right whatever its activity and sign are.
/// Source: Pipatsrisawat and Darwiche, SAT 2007, for the signs.
#[derive(Drop)]
pub struct Decider {
    /// The variables that wait.
    order: VariableOrder,
    /// For each variable the sign that it had last; at first false, or the one that clauses have more often.
    phases: Vec<bool>,
}

impl Model for Decider {
    ghost use Rattle.std.specs.Prelude.{◌≡◌, List, Bool, length};

    ghost Value = { List Bool };

    ghost view = { λ d. d.order };

    ghost invariant = { λ d. length d.phases.items ≡ length d.order };
}

impl Decider {
    /// Knows no variable yet. It takes no memory.
    pub(crate) fn new(alloc: Global) -> Decider
        ensures { result ≡ [] }
    {
        Decider {
            order: VariableOrder::new(alloc),
            phases: Vec::new(alloc),
        }
    }

    /// Adds a variable, which does not wait. Its first sign is false.
    ///
    /// `NoMemory` comes where its place finds no memory; then all is as it was.
    fn add_var(&mut self) -> Result<(), NoMemory>
        ensures ok { OnOk result (self.new ≡ self.old ++ false ∷ []) }
        ensures err { OnErr result (self.new ≡ self.old) }
    {
        self.phases.reserve(1)?;
        self.order.add_var()?;
        self.phases.push_reserved(false);
        Ok(())
    }

    /// Adds variables until there are so many, and lets these atoms wait, besides those that do.
    ///
    /// `NoMemory` comes where variables find no memory; those that came stay.
    pub(crate) fn wait_for(&mut self, atoms: &[TermId], vars: u64) -> Result<(), NoMemory>
        requires fewer { length self.old ≤ vars }
        requires known { All (λ v. v.0 < vars) atoms.now }
        ensures size { OnOk result (length self.new ≡ vars) }
        ensures waiting { OnOk result ((before : List Number) (held : List Literal) → AreWaiting before held self.old
            → AreWaiting (before ++ atoms.now) held self.new) }
    {
        'variables: while self.order.vars() < vars {
            self.add_var()?;
        }
        insert_all(&mut self.order, atoms);
        Ok(())
    }

    /// Tells whether a variable waits to be decided. It takes no memory.
    pub(crate) fn waits(&self, v: TermId) -> bool
        requires { v.0 < length self.now }
        ensures { result ≡ get_or self.now v.0 false }
    {
        self.order.has(v)
    }

    /// Gives these atoms the sign that affirms them where their balance is above 0, and the other where it is not. One that has no balance
    /// keeps its sign. It takes no memory.
    pub(crate) fn lean(&mut self, atoms: &[TermId], balances: &[i64])
        ensures { self.new ≡ self.old }
    {
        'atoms: for atom in atoms.iter() {
            let at = atom.0 as usize;
            if at >= self.phases.len() || at >= balances.len() {
                continue;
            }
            self.phases[at] = balances[at] > 0;
        }
    }

    /// Gives variables the sign that affirms them, and makes the first of them more active: so the search tries soon that its equality
    /// is true. With all of them in front it is slow where most equalities are false. It takes no memory.
    pub(crate) fn affirm(&mut self, ids: &[TermId])
        ensures { self.new ≡ self.old }
    {
        'ids: for id in ids.iter() {
            if id.0 >= self.order.vars() {
                continue;
            }
            self.phases[id.0 as usize] = true;
        }
        if let Some(first) = ids.first() {
            if first.0 < self.order.vars() {
                self.order.bump(*first);
            }
        }
    }

    /// Takes the next decision, which then waits no more; nothing where each of the atoms has a value. It takes no memory.
    pub(crate) fn next(&mut self, trail: &SatTrail) -> Option<Lit>
        requires vars { length self.old ≡ trail.now.vars }
        ensures size { length self.new ≡ length self.old }
        ensures open { IfSome result (IsOpen trail.now) }
        ensures choice { (atoms : List Number) → AreWaiting atoms trail.now.literals self.old
            → Chooses atoms trail.now.literals self.new result }
    {
        next_decision(&mut self.order, &self.phases, trail)
    }

    /// Lets the variables wait whose literals are of higher levels than this, and keeps their signs: those that lose their value where the
    /// trail goes back to it. It takes no memory.
    pub(crate) fn put_back(&mut self, trail: &SatTrail, level: u64)
        requires vars { length self.old ≡ trail.now.vars }
        ensures size { length self.new ≡ length self.old }
        ensures waiting { (atoms : List Number) (after : TrailView) → AreOfAtoms atoms trail.now.literals
            → IsCutTo trail.now level after → AreWaiting atoms trail.now.literals self.old
            → AreWaiting atoms after.literals self.new }
    {
        put_back(&mut self.order, &mut self.phases, trail, level);
    }

    /// Lets all variables wait that have a value, and keeps their signs: those that lose it where the trail is cleared. It takes no memory.
    pub(crate) fn put_all_back(&mut self, trail: &SatTrail)
        requires vars { length self.old ≡ trail.now.vars }
        ensures size { length self.new ≡ length self.old }
        ensures waiting { (atoms : List Number) → AreOfAtoms atoms trail.now.literals
            → AreWaiting atoms trail.now.literals self.old → AreWaiting atoms [] self.new }
    {
        put_all_back(&mut self.order, &mut self.phases, trail);
    }

    /// Makes the variables more active that a learned step is about: those of its clause and of its premises, but for those that have
    /// their value since level 0. It takes no memory.
    pub(crate) fn learnt(
        &mut self,
        table: &TermTable,
        trail: &SatTrail,
        log: &ProofLog,
        step: StepId,
    )
        requires log { IsLogOf table.now log.now }
        requires step { step.0 < length log.now }
        requires vars { length self.old ≡ trail.now.vars }
        ensures { self.new ≡ self.old }
    {
        bump_conflict(&mut self.order, table, trail, log, step);
        self.order.decay();
    }
}
