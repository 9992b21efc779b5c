//! The first look at a clause.

ghost use Rattle.std.specs.Prelude.{◌≡◌, ◌≢◌, ◌<◌, [], Contains, OnOk, IfOk, get_or, length};
ghost use Rattle.clause_store.specs.Stores.{no_pair};
ghost use Rattle.clause_store.specs.Entries.{clauses_of, bare};
ghost use Rattle.clause_store.specs.Propagating.{Advances};
ghost use Rattle.clause_store.specs.Watching.{IsWatched, AreKnownIn, Has, IsAnother, IsOpenIn, AreFalseBut, IsRepaired, PropagatesPart, Freshly};

use crate::literals::{find_open, first_open, is_true, latest_but};
use crate::pair::{Pair, other_of};
use crate::watched::Watched;
use clause_literals::same;
use no_memory::NoMemory;
use sat_trail::SatTrail;
use term_core::Lit;

/// What the first look at a clause comes to.
#[derive(Clone, Copy, Debug, PartialEq, Eq)]
pub(crate) enum Fresh {
    /// Two different literals are not false.
    Open,
    /// One holds, and all others are false, the last of them since this level.
    Forced(u64),
    /// It has no second literal, and its only one holds.
    Single,
    /// It is false.
    Clash,
}

impl Watched {
    /// Lets a literal of a clause watch it, in the place of the one that is not `kept`.
    fn watch(&mut self, n: usize, wanted: Lit, kept: Lit) -> Result<(), NoMemory>
        requires watched { IsWatched self.old }
        requires there { n < length self.old.pairs.items }
        requires differ { (get_or self.old.pairs.items n no_pair).first ≢
            (get_or self.old.pairs.items n no_pair).second }
        requires wanted { IsAnother (get_or (clauses_of self.old.entries.items) n []) kept wanted }
        ensures watched { IsWatched self.new }
        ensures entries { self.new.entries.items ≡ self.old.entries.items }
        ensures repaired { IsRepaired n self.old.pairs.items self.new.pairs.items }
        ensures has { OnOk result (Has (get_or self.new.pairs.items n no_pair) wanted) }
        ensures keeps { Has (get_or self.old.pairs.items n no_pair) kept
            → Has (get_or self.new.pairs.items n no_pair) kept }
    {
        let pair = self.pairs[n];
        if same(pair.first, wanted) || same(pair.second, wanted) {
            return Ok(());
        }
        let from = other_of(pair, kept);
        match self.index.move_to(from, wanted, n as u64) {
            Ok(()) => {
                self.pairs[n] = Pair {
                    first: other_of(pair, from),
                    second: wanted,
                };
                Ok(())
            }
            Err(NoMemory) => Err(NoMemory),
        }
    }

    /// Looks at a clause for the first time, lets the literals watch it that are false last if at all, and implies what it forces.
    pub(crate) fn attach(&mut self, n: usize, trail: &mut SatTrail) -> Result<Fresh, NoMemory>
        requires watched { IsWatched self.old }
        requires known { AreKnownIn self.old trail.old.vars }
        requires there { n < length self.old.pairs.items }
        ensures watched { IsWatched self.new }
        ensures entries { self.new.entries.items ≡ self.old.entries.items }
        ensures goes { PropagatesPart (bare self.old.entries.items) n self.old.pairs.items self.new.pairs.items
            trail.old trail.new }
        ensures repaired { IsRepaired n self.old.pairs.items self.new.pairs.items }
        ensures fresh { IfOk result (Freshly (get_or (clauses_of self.old.entries.items) n [])
            (get_or self.new.pairs.items n no_pair) trail.new) }
    {
        trail.is_sound();
        let Some(one) = first_open(&self.entries[n].literals, trail) else {
            return Ok(Fresh::Clash);
        };
        if let Some(two) = find_open(&self.entries[n].literals, one, trail) {
            self.watch(n, one, two)?;
            self.watch(n, two, one)?;
            return Ok(Fresh::Open);
        }
        let pair = self.pairs[n];
        if same(pair.first, pair.second) {
            self.force(n, one, trail);
            return Ok(Fresh::Single);
        }
        let last = latest_but(&self.entries[n].literals, one, other_of(pair, one), trail);
        self.watch(n, one, last)?;
        self.watch(n, last, one)?;
        self.force(n, one, trail);
        trail.is_sound();
        Ok(Fresh::Forced(trail.level_by(last)))
    }

    /// Implies the only literal of a clause that is not false, if it does not hold yet.
    pub(crate) fn force(&self, n: usize, one: Lit, trail: &mut SatTrail)
        requires known { AreKnownIn self.now trail.old.vars }
        requires there { n < length self.now.entries.items }
        requires is_open { IsOpenIn trail.old.literals (get_or (clauses_of self.now.entries.items) n []) one }
        requires others { AreFalseBut trail.old.literals (get_or (clauses_of self.now.entries.items) n []) one }
        ensures advances { Advances (bare self.now.entries.items) trail.old trail.new }
        ensures holds { Contains trail.new.literals one }
    {
        if !is_true(one, trail) {
            trail.imply(one, self.entries[n].step.0);
        }
    }
}
