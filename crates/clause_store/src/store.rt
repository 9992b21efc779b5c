//! Clauses by their literals, each with the step that derives it.

ghost use Rattle.std.specs.Prelude.{◌≡◌, ◌≢◌, ◌<◌, [], ℕ, Some, None, length, get_or, Contains, MatchResult};
ghost use Rattle.term_core.specs.declared.ids.Lit.{Lit as Literal};
ghost use Rattle.proof_log.specs.declared.premises.StepId.{StepId as Step};
ghost use Rattle.proof_log.specs.Logs.{IsLogOf};
ghost use Rattle.clause_store.specs.Stores.{StoreView, empty, no_step, no_pair, IsAdded, IsWatchedTwice, AreWatchedBy};
ghost use Rattle.clause_store.specs.Keeping.{staying, steps_in};

use crate::entry::StoredClause;
use crate::keeping::number_all;
use crate::parts::StoreParts;
use crate::watched::Watched;
use clause_literals::literals_of;
use no_memory::NoMemory;
use proof_log::{ProofLog, StepId};
use std::alloc::Global;
use std::marker::Model;
use term_core::{Lit, TermTable};
use watch_index::WatchIndex;

/// Holds clauses by their literals, and of each the step that derives it, oldest first.
///
/// Contracts see the lists of clauses and of steps, what was seen of a trail, and the two literals of each clause that watch it.
/// Literals are those of the table and steps those of the log that each call was given.
#[derive(Drop)]
pub struct ClauseStore {
    alloc: Global,
    pub(crate) parts: StoreParts,
    /// Room for the number of each clause, which `keep` writes.
    pub(crate) numbers: Vec<Option<u64>>,
}

impl Model for ClauseStore {
    ghost use Rattle.clause_store.specs.Stores.{StoreView};

    ghost Value = { StoreView };

    ghost use Rattle.clause_store.specs.QuietPairs.{store_of, StoreHasRoom};

    ghost view = { λ s. store_of s.parts };

    ghost invariant = { λ s. StoreHasRoom s.parts s.numbers.items };
}

impl ClauseStore {
    /// Makes the store of no clauses, which takes no memory before the first of them.
    pub fn new(alloc: Global) -> ClauseStore
        ensures { result ≡ empty }
    {
        ClauseStore {
            alloc,
            parts: StoreParts {
                watched: Watched {
                    entries: Vec::new(alloc),
                    pairs: Vec::new(alloc),
                    index: WatchIndex::new(alloc),
                    starts: Vec::new(alloc),
                },
                attached: 0,
                short: Vec::new(alloc),
                seen: Vec::new(alloc),
                quiet_at: Vec::new(alloc),
            },
            numbers: Vec::new(alloc),
        }
    }

    /// Counts the clauses. It takes no memory.
    pub fn len(&self) -> usize
        ensures { result ≡ length self.now.clauses }
    {
        self.parts.watched.entries.len()
    }

    /// Lends the literals of a clause by its place, from 0 for the oldest. It takes no memory.
    pub fn clause(&self, n: usize) -> &[Lit]
        requires { n < length self.now.clauses }
        ensures { result.now ≡ get_or self.now.clauses n [] }
    {
        self.parts.watched.entries[n].literals.as_slice()
    }

    /// Gives the step of a clause by its place, from 0 for the oldest. It takes no memory.
    pub fn step(&self, n: usize) -> StepId
        requires { n < length self.now.clauses }
        ensures { result ≡ get_or self.now.steps n no_step }
    {
        self.parts.watched.entries[n].step
    }

    /// Puts the clause of a step of the log last, by the literals of its terms.
    ///
    /// `NoMemory` comes where the literals or their place find no memory; then the store is as it was.
    pub fn add(&mut self, table: &TermTable, log: &ProofLog, step: StepId) -> Result<(), NoMemory>
        requires log { IsLogOf table.now log.now }
        requires step { step.0 < length log.now }
        ensures { MatchResult result (λ _. IsAdded table.now log.now step self.old self.new)
            (λ _. self.new ≡ self.old) }
    {
        self.numbers.reserve(1)?;
        let literals = literals_of(self.alloc, table, log.clause(step))?;
        match self.parts.watched.add(StoredClause { literals, step }) {
            Ok(()) => {
                self.numbers.push_reserved(None);
                Ok(())
            }
            Err(NoMemory) => Err(NoMemory),
        }
    }

    /// Keeps the clauses that have a step here, each with this step of the log from now on, in order, and drops the others. What was
    /// seen of a trail is forgotten. It takes no memory, and time in proportion to all clauses and to what watches them.
    pub fn keep(&mut self, log: &ProofLog, kept: &[Option<StepId>])
        requires count { length kept.now ≡ length self.old.clauses }
        requires there { (k : ℕ) (s : Step) → get_or kept.now k None ≡ Some s → s.0 < length log.now }
        ensures clauses { self.new.clauses ≡ staying kept.now self.old.clauses }
        ensures steps { self.new.steps ≡ steps_in kept.now }
        ensures seen { self.new.seen ≡ [] }
    {
        let _ = log;
        number_all(&mut self.numbers, kept);
        self.parts.keep(kept, &self.numbers);
        self.numbers.truncate(self.parts.watched.entries.len());
    }

    /// Lends the numbers of the clauses that a literal watches. It takes no memory.
    pub fn watches(&self, lit: Lit) -> &[u64]
        ensures { AreWatchedBy self.now lit result.now }
    {
        self.parts.watched.index.list(lit)
    }

    /// States that two of its literals watch each clause that has two different ones.
    pub fn are_watched_twice(&self)
        ensures { (n : ℕ) (l m : Literal) → n < length self.now.clauses → Contains (get_or self.now.clauses n []) l
            → Contains (get_or self.now.clauses n []) m → l ≢ m
            → IsWatchedTwice (get_or self.now.clauses n []) (get_or self.now.pairs n no_pair) }
    {
        let _ = &self.parts;
    }

    /// States that each clause has a step.
    pub fn steps_are_paired(&self)
        ensures { length self.now.steps ≡ length self.now.clauses }
    {
        let _ = &self.parts;
    }
}
