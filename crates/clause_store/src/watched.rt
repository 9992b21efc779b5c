//! Clauses, the two literals of each that are watched, and the lists of those that a literal watches.

ghost use Rattle.std.specs.Prelude.{◌≡◌, ◌≢◌, ◌+◌, ◌<◌, Contains, OnOk, OnErr, IfOk, MatchOption, get_or, length};
ghost use Rattle.clause_literals.specs.Literals.{lit_complement};
ghost use Rattle.clause_store.specs.Entries.{clauses_of, bare};
ghost use Rattle.clause_store.specs.Keeping.{staying, numbered_from, KeepsEntries};
ghost use Rattle.clause_store.specs.Watching.{IsWatched, IsWatchedWith, with_list, AreKnownIn, IsPairOf, HaveSameLists, IsEntered, IsEnteredIfTwo, IsOneMore, IsAsBefore, HaveAllPassed, IsFalseOf, PropagatesPart, VisitsClause};

use crate::entry::StoredClause;
use crate::keeping::{choose, set_steps};
use crate::literals::{is_false, is_true, next_open};
use crate::pair::{Pair, other_of};
use clause_literals::same;
use no_memory::NoMemory;
use proof_log::StepId;
use sat_trail::SatTrail;
use term_core::{Lit, TermId};
use watch_index::WatchIndex;

/// Holds clauses, of each the two literals that are watched, and for each literal the numbers of the clauses that watch it.
#[derive(Drop)]
pub(crate) struct Watched {
    /// The clauses, oldest first.
    pub(crate) entries: Vec<StoredClause>,
    /// Of each the two that are watched.
    pub(crate) pairs: Vec<Pair>,
    /// For each literal the clauses that watch it.
    pub(crate) index: WatchIndex,
    /// For each clause the place at which its last watched literal was found. What else is here costs time alone.
    pub(crate) starts: Vec<usize>,
}

/// A literal for the pair of a clause that has none.
const NO_LIT: Lit = Lit {
    term: TermId(0),
    positive: false,
};

/// What a look at a clause comes to.
#[derive(Clone, Copy, Debug, PartialEq, Eq)]
pub(crate) enum WatchOutcome {
    /// The literal still watches the clause.
    Stays,
    /// Another one does.
    Moved,
    /// The clause is false.
    Clash,
}

/// Gives the first two different literals of a clause, or twice its only one.
fn pair_of(clause: &[Lit]) -> Pair
    ensures { IsPairOf clause.now result }
{
    let Some(first) = clause.first() else {
        return Pair {
            first: NO_LIT,
            second: NO_LIT,
        };
    };
    for l in clause {
        if !same(*l, *first) {
            return Pair {
                first: *first,
                second: *l,
            };
        }
    }
    Pair {
        first: *first,
        second: *first,
    }
}

/// Puts the number of a clause into the lists of two different literals.
///
/// `NoMemory` comes where one of them finds no memory; then all lists are as they were.
fn enter(index: &mut WatchIndex, pair: Pair, n: u64) -> Result<(), NoMemory>
    requires { pair.first ≢ pair.second }
    ensures ok { OnOk result (IsEntered index.old pair n index.new) }
    ensures err { OnErr result (HaveSameLists index.old index.new) }
{
    match index.add(pair.first, n) {
        Ok(()) => match index.add(pair.second, n) {
            Ok(()) => Ok(()),
            Err(NoMemory) => {
                let at = index.list(pair.first).len() - 1;
                index.take_out(pair.first, at);
                Err(NoMemory)
            }
        },
        Err(NoMemory) => Err(NoMemory),
    }
}

/// Puts the number of a clause into the lists of a pair, if its literals are two.
///
/// `NoMemory` comes where one of them finds no memory; then all lists are as they were.
fn enter_two(index: &mut WatchIndex, pair: Pair, n: u64) -> Result<(), NoMemory>
    ensures ok { OnOk result (IsEnteredIfTwo index.old pair n index.new) }
    ensures err { OnErr result (HaveSameLists index.old index.new) }
{
    if same(pair.first, pair.second) {
        return Ok(());
    }
    match enter(index, pair, n) {
        Ok(()) => Ok(()),
        Err(NoMemory) => Err(NoMemory),
    }
}

impl Watched {
    /// Looks at the clause of a place of the list of a literal that came to be false; the list was taken from the index.
    fn take_up(
        &mut self,
        n: usize,
        list: &mut Vec<u64>,
        at: usize,
        f: Lit,
        trail: &mut SatTrail,
    ) -> Result<WatchOutcome, NoMemory>
        requires watched { IsWatchedWith self.old f list.old.items }
        requires known { AreKnownIn self.old trail.old.vars }
        requires fails { Contains trail.old.literals (lit_complement f) }
        requires place { at < length list.old.items }
        requires number { n ≡ get_or list.old.items at 0 }
        ensures watched { IsWatchedWith self.new f list.new.items }
        ensures entries { self.new.entries.items ≡ self.old.entries.items }
        ensures goes { PropagatesPart (bare self.old.entries.items) (length self.old.pairs.items) self.old.pairs.items
            self.new.pairs.items trail.old trail.new }
        ensures looks { IfOk result (VisitsClause (record { number = n; place = at; literal = f })
            (with_list self.old f list.old.items) (with_list self.new f list.new.items) trail.new.literals) }
    {
        trail.is_sound();
        let other = other_of(self.pairs[n], f);
        if is_true(other, trail) {
            return Ok(WatchOutcome::Stays);
        }
        match next_open(&self.entries[n].literals, &mut self.starts, n, other, trail) {
            Some(d) => match self.index.add(d, n as u64) {
                Ok(()) => {
                    list.swap_remove(at);
                    self.pairs[n] = Pair {
                        first: other,
                        second: d,
                    };
                    Ok(WatchOutcome::Moved)
                }
                Err(NoMemory) => Err(NoMemory),
            },
            None => {
                if is_false(other, trail) {
                    return Ok(WatchOutcome::Clash);
                }
                trail.imply(other, self.entries[n].step.0);
                Ok(WatchOutcome::Stays)
            }
        }
    }

    /// Goes through the list of a literal that came to be false, taken from the index, and gives the number of a clause that is false.
    fn walk_list(
        &mut self,
        list: &mut Vec<u64>,
        f: Lit,
        trail: &mut SatTrail,
    ) -> Result<Option<usize>, NoMemory>
        requires watched { IsWatchedWith self.old f list.old.items }
        requires known { AreKnownIn self.old trail.old.vars }
        requires fails { Contains trail.old.literals (lit_complement f) }
        ensures watched { IsWatchedWith self.new f list.new.items }
        ensures entries { self.new.entries.items ≡ self.old.entries.items }
        ensures goes { PropagatesPart (bare self.old.entries.items) (length self.old.pairs.items) self.old.pairs.items
            self.new.pairs.items trail.old trail.new }
        ensures ends { IfOk result (λ o. MatchOption o (HaveAllPassed self.new.pairs.items trail.new.literals f)
            (IsFalseOf (clauses_of self.old.entries.items) trail.new.literals)) }
    {
        let mut at = 0;
        'places: while at < list.len() {
            let n = list[at] as usize;
            match self.take_up(n, list, at, f, trail)? {
                WatchOutcome::Clash => return Ok(Some(n)),
                WatchOutcome::Moved => {}
                WatchOutcome::Stays => at += 1,
            }
        }
        Ok(None)
    }

    /// Goes through the list of a literal that came to be false, and gives the number of a clause that is false.
    ///
    /// The list is out of the index meanwhile, so that a step of the walk does not look for it there.
    pub(crate) fn walk(&mut self, f: Lit, trail: &mut SatTrail) -> Result<Option<usize>, NoMemory>
        requires watched { IsWatched self.old }
        requires known { AreKnownIn self.old trail.old.vars }
        requires fails { Contains trail.old.literals (lit_complement f) }
        ensures watched { IsWatched self.new }
        ensures entries { self.new.entries.items ≡ self.old.entries.items }
        ensures goes { PropagatesPart (bare self.old.entries.items) (length self.old.pairs.items) self.old.pairs.items
            self.new.pairs.items trail.old trail.new }
        ensures ends { IfOk result (λ o. MatchOption o (HaveAllPassed self.new.pairs.items trail.new.literals f)
            (IsFalseOf (clauses_of self.old.entries.items) trail.new.literals)) }
    {
        match self.index.take_list(f) {
            Some(list) => {
                let mut list = list;
                let found = self.walk_list(&mut list, f, trail);
                self.index.give_list(f, list);
                found
            }
            None => Ok(None),
        }
    }

    /// Puts a clause last, watched by its first two different literals, if it has two.
    ///
    /// `NoMemory` comes where there is no room; then clauses and pairs are as they were.
    pub(crate) fn add(&mut self, entry: StoredClause) -> Result<(), NoMemory>
        requires { IsWatched self.old }
        ensures watched { IsWatched self.new }
        ensures ok { OnOk result (IsOneMore self.old entry self.new) }
        ensures err { OnErr result (IsAsBefore self.old self.new) }
    {
        self.entries.reserve(1)?;
        self.pairs.reserve(1)?;
        self.starts.reserve(1)?;
        let pair = pair_of(&entry.literals);
        match enter_two(&mut self.index, pair, self.entries.len() as u64) {
            Ok(()) => {
                self.entries.push_reserved(entry);
                self.pairs.push_reserved(pair);
                self.starts.push_reserved(0);
                Ok(())
            }
            Err(NoMemory) => Err(NoMemory),
        }
    }

    /// Keeps the clauses that have a step, each with this step, in order. They have these numbers, and the literals that watched them.
    pub(crate) fn keep(&mut self, kept: &[Option<StepId>], numbers: &[Option<u64>])
        requires watched { IsWatched self.old }
        requires count { length kept.now ≡ length self.old.entries.items }
        requires numbers { numbers.now ≡ numbered_from 0 kept.now }
        ensures watched { IsWatched self.new }
        ensures entries { KeepsEntries kept.now self.old.entries.items self.new.entries.items }
        ensures pairs { self.new.pairs.items ≡ staying kept.now self.old.pairs.items }
    {
        self.index.keep(numbers);
        set_steps(&mut self.entries, kept);
        choose(&mut self.entries, kept);
        choose(&mut self.pairs, kept);
        choose(&mut self.starts, kept);
    }
}
