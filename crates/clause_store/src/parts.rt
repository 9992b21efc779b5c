//! What a store has in hand: clauses, and at which prefixes of what it saw they are quiet.

ghost use Rattle.std.specs.Prelude.{◌≡◌, ◌+◌, ◌<◌, ◌≤◌, ◌⊎◌, [], ℕ, Contains, OnOk, OnErr, IfOk, MatchOption, length, take};
ghost use Rattle.clause_store.specs.Entries.{clauses_of, bare};
ghost use Rattle.clause_store.specs.Keeping.{numbered_from, KeepsEntries};
ghost use Rattle.clause_store.specs.Stores.{HasSeen};
ghost use Rattle.clause_store.specs.Watching.{AreKnownIn, AreQuietPairs, IsFalseOf, Below};
ghost use Rattle.clause_store.specs.Propagating.{AddsImplied, Advances, IsPropagated};
ghost use Rattle.clause_store.specs.QuietPairs.{LengthsRise, IsPrefixOf, last_of, StoreFits, IsAtWork, WorksOn, AttachesOne, IsSameBut, store_of};

use crate::fresh::Fresh;
use crate::keeping::count_kept;
use crate::watched::Watched;
use clause_literals::negated;
use no_memory::NoMemory;
use proof_log::StepId;
use sat_trail::SatTrail;
use term_core::Lit;
use watch_index::renumber;

/// Holds clauses, and at which prefixes of what was seen they are quiet: where one of two watched literals is false, the other holds.
#[derive(Drop)]
pub(crate) struct StoreParts {
    /// The clauses.
    pub(crate) watched: Watched,
    /// How many of them were looked at.
    pub(crate) attached: usize,
    /// The numbers of those that have no second literal.
    pub(crate) short: Vec<u64>,
    /// What held when propagation was quiet last.
    pub(crate) seen: Vec<Lit>,
    /// The lengths of prefixes of this at which those that were looked at are quiet, rising.
    pub(crate) quiet_at: Vec<usize>,
}

/// Drops the prefixes that are longer than one.
fn drop_longer(quiet_at: &mut Vec<usize>, most: usize)
    requires { LengthsRise quiet_at.old.items }
    ensures front { IsPrefixOf quiet_at.new.items quiet_at.old.items }
    ensures within { (r : ℕ) → Contains quiet_at.new.items r → r ≤ most }
{
    'prefixes: while quiet_at.len() > 0 {
        if quiet_at[quiet_at.len() - 1] <= most {
            return;
        }
        quiet_at.pop();
    }
}

/// Drops the prefixes of a trail that have literals of a level or of one above.
fn drop_levels(quiet_at: &mut Vec<usize>, level: u64, trail: &SatTrail)
    requires rising { LengthsRise quiet_at.old.items }
    requires within { (r : ℕ) → Contains quiet_at.old.items r → r ≤ length trail.now.literals }
    ensures front { IsPrefixOf quiet_at.new.items quiet_at.old.items }
    ensures below { (r : ℕ) → Contains quiet_at.new.items r → Below trail.now level r }
{
    trail.is_sound();
    'prefixes: while quiet_at.len() > 0 {
        let last = quiet_at[quiet_at.len() - 1];
        if last == 0 || trail.level_of(last as u64 - 1) < level {
            return;
        }
        quiet_at.pop();
    }
}

/// Keeps what a trail holds as what was seen; what is marked was seen before.
fn see(seen: &mut Vec<Lit>, trail: &SatTrail) -> Result<(), NoMemory>
    requires within { trail.now.propagated ≤ length seen.old.items }
    requires same { take trail.now.propagated trail.now.literals ≡ take trail.now.propagated seen.old.items }
    ensures within { trail.now.propagated ≤ length seen.new.items }
    ensures same { seen.new.items ≡ take (length seen.new.items) trail.now.literals }
    ensures ok { OnOk result (seen.new.items ≡ trail.now.literals) }
{
    trail.is_sound();
    seen.truncate(trail.propagated() as usize);
    'literals: while (seen.len() as u64) < trail.len() {
        seen.push(trail.literal(seen.len() as u64))?;
    }
    Ok(())
}

/// Puts a length last, if it is not the last already.
fn note(quiet_at: &mut Vec<usize>, len: usize) -> Result<(), NoMemory>
    requires rising { LengthsRise quiet_at.old.items }
    requires most { (r : ℕ) → Contains quiet_at.old.items r → r ≤ len }
    ensures rising { LengthsRise quiet_at.new.items }
    ensures each { (r : ℕ) → Contains quiet_at.new.items r → Contains quiet_at.old.items r ⊎ (r ≡ len) }
    ensures err { OnErr result (quiet_at.new.items ≡ quiet_at.old.items) }
{
    if !quiet_at.is_empty() && quiet_at[quiet_at.len() - 1] == len {
        return Ok(());
    }
    match quiet_at.push(len) {
        Ok(()) => Ok(()),
        Err(_) => Err(NoMemory),
    }
}

impl StoreParts {
    /// Looks again at the clauses without a second literal, and gives the number of one that is false.
    fn look_again(&self, trail: &mut SatTrail) -> Option<usize>
        requires { IsAtWork self.now trail.old }
        ensures goes { Advances (bare self.now.watched.entries.items) trail.old trail.new }
        ensures ends { MatchOption result
            (AreQuietPairs self.now.attached self.now.watched.pairs.items [] trail.new.literals)
            (IsFalseOf (clauses_of self.now.watched.entries.items) trail.new.literals) }
    {
        for n in &self.short {
            let l = self.watched.pairs[*n as usize].first;
            trail.is_sound();
            match trail.value(l) {
                Some(true) => {}
                Some(false) => return Some(*n as usize),
                None => trail.imply(l, self.watched.entries[*n as usize].step.0),
            }
        }
        None
    }

    /// Looks at a clause for the first time, and tells whether it is false.
    fn attach_next(&mut self, trail: &mut SatTrail) -> Result<bool, NoMemory>
        requires work { IsAtWork self.old trail.old }
        requires there { self.old.attached < length self.old.watched.entries.items }
        ensures work { IsAtWork self.new trail.new }
        ensures goes { WorksOn self.old self.new trail.old trail.new }
        ensures ends { IfOk result (AttachesOne self.old self.new trail.new.literals) }
    {
        trail.is_sound();
        let n = self.attached;
        match self.watched.attach(n, trail)? {
            Fresh::Clash => return Ok(true),
            Fresh::Open => {}
            Fresh::Forced(level) => drop_levels(&mut self.quiet_at, level, trail),
            Fresh::Single => {
                self.short.push(n as u64)?;
                self.quiet_at.clear();
            }
        }
        self.attached = n + 1;
        Ok(false)
    }

    /// Looks at the clauses that were not looked at yet, and gives the number of one that is false.
    fn attach_all(&mut self, trail: &mut SatTrail) -> Result<Option<usize>, NoMemory>
        requires { IsAtWork self.old trail.old }
        ensures work { IsAtWork self.new trail.new }
        ensures goes { WorksOn self.old self.new trail.old trail.new }
        ensures ends { IfOk result (λ o. MatchOption o (self.new.attached ≡ length self.new.watched.entries.items)
            (IsFalseOf (clauses_of self.new.watched.entries.items) trail.new.literals)) }
    {
        'clauses: while self.attached < self.watched.entries.len() {
            if self.attach_next(trail)? {
                return Ok(Some(self.attached));
            }
        }
        Ok(None)
    }

    /// Goes through the lists of the literals from a place on, and gives the number of a clause that is false.
    fn walk_from(&mut self, from: usize, trail: &mut SatTrail) -> Result<Option<usize>, NoMemory>
        requires work { IsAtWork self.old trail.old }
        requires all { self.old.attached ≡ length self.old.watched.entries.items }
        requires from { from ≤ length trail.old.literals }
        requires were_quiet { AreQuietPairs self.old.attached self.old.watched.pairs.items
            (take from trail.old.literals) trail.old.literals }
        ensures work { IsAtWork self.new trail.new }
        ensures all { self.new.attached ≡ length self.new.watched.entries.items }
        ensures goes { WorksOn self.old self.new trail.old trail.new }
        ensures ends { IfOk result (λ o. MatchOption o
            (AreQuietPairs self.new.attached self.new.watched.pairs.items trail.new.literals trail.new.literals)
            (IsFalseOf (clauses_of self.new.watched.entries.items) trail.new.literals)) }
    {
        let mut done = from;
        'literals: while (done as u64) < trail.len() {
            trail.is_sound();
            let f = negated(trail.literal(done as u64));
            match self.watched.walk(f, trail)? {
                Some(n) => return Ok(Some(n)),
                None => done += 1,
            }
        }
        Ok(None)
    }

    /// Drops the prefixes that the trail left, and looks at the clauses without a second literal where none is left. It gives the
    /// number of one that is false.
    fn begin(&mut self, trail: &mut SatTrail) -> Option<usize>
        requires kept { StoreFits self.old }
        requires known { AreKnownIn self.old.watched trail.old.vars }
        requires seen { HasSeen (store_of self.old) trail.old }
        ensures work { IsAtWork self.new trail.new }
        ensures watched { self.new.watched ≡ self.old.watched }
        ensures seen { self.new.seen.items ≡ self.old.seen.items }
        ensures advances { Advances (bare self.old.watched.entries.items) trail.old trail.new }
        ensures ends { MatchOption result (AreQuietPairs self.new.attached self.new.watched.pairs.items
            (take (last_of self.new.quiet_at.items) trail.new.literals) trail.new.literals)
            (IsFalseOf (clauses_of self.new.watched.entries.items) trail.new.literals) }
    {
        trail.is_sound();
        drop_longer(&mut self.quiet_at, trail.propagated() as usize);
        if self.quiet_at.is_empty() {
            return self.look_again(trail);
        }
        None
    }

    /// Keeps what holds as what was seen, with a prefix of its length, and marks the trail.
    fn finish(&mut self, trail: &mut SatTrail) -> Result<(), NoMemory>
        requires work { IsAtWork self.old trail.old }
        requires were_quiet { AreQuietPairs self.old.attached self.old.watched.pairs.items
            trail.old.literals trail.old.literals }
        ensures kept { StoreFits self.new }
        ensures watched { self.new.watched ≡ self.old.watched }
        ensures seen { HasSeen (store_of self.new) trail.new }
        ensures same { IsSameBut trail.old trail.new }
    {
        trail.is_sound();
        see(&mut self.seen, trail)?;
        note(&mut self.quiet_at, trail.len() as usize)?;
        trail.mark_propagated();
        Ok(())
    }

    /// Implies what the clauses force, and gives the number of one that is false.
    pub(crate) fn propagate(&mut self, trail: &mut SatTrail) -> Result<Option<usize>, NoMemory>
        requires kept { StoreFits self.old }
        requires known { AreKnownIn self.old.watched trail.old.vars }
        requires seen { HasSeen (store_of self.old) trail.old }
        ensures kept { StoreFits self.new }
        ensures entries { self.new.watched.entries.items ≡ self.old.watched.entries.items }
        ensures seen { HasSeen (store_of self.new) trail.new }
        ensures adds { AddsImplied (bare self.old.watched.entries.items) trail.old trail.new }
        ensures ends { IfOk result (λ o. MatchOption o
            (IsPropagated (clauses_of self.old.watched.entries.items) trail.new.literals)
            (IsFalseOf (clauses_of self.old.watched.entries.items) trail.new.literals)) }
    {
        if let Some(n) = self.begin(trail) {
            return Ok(Some(n));
        }
        trail.is_sound();
        let from = if self.quiet_at.is_empty() {
            0
        } else {
            self.quiet_at[self.quiet_at.len() - 1]
        };
        if let Some(n) = self.attach_all(trail)? {
            return Ok(Some(n));
        }
        if let Some(n) = self.walk_from(from, trail)? {
            return Ok(Some(n));
        }
        self.finish(trail)?;
        Ok(None)
    }

    /// Keeps the clauses that have a step, each with this step and by these numbers, and forgets what was seen.
    pub(crate) fn keep(&mut self, kept: &[Option<StepId>], numbers: &[Option<u64>])
        requires fits { StoreFits self.old }
        requires count { length kept.now ≡ length self.old.watched.entries.items }
        requires numbers { numbers.now ≡ numbered_from 0 kept.now }
        ensures fits { StoreFits self.new }
        ensures entries { KeepsEntries kept.now self.old.watched.entries.items self.new.watched.entries.items }
        ensures seen { self.new.seen.items ≡ [] }
    {
        self.watched.keep(kept, numbers);
        self.attached = count_kept(kept, self.attached);
        renumber(&mut self.short, numbers);
        self.seen.clear();
        self.quiet_at.clear();
    }
}
