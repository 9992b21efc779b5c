//! The order of variables by activity.

ghost use Rattle.std.specs.Prelude.{◌≡◌, ◌<◌, ◌++◌, ◌∷◌, [], true, false, length, get_or, set, take, OnOk, OnErr, MatchOption};
ghost use Rattle.variable_order.specs.Orders.{IsEmpty, IsRemoved};

use crate::places::Places;
use crate::score::{Score, scale};
use crate::sift::{sift_down, sift_up};
use no_memory::NoMemory;
use std::alloc::Global;
use std::marker::Model;
use term_core::TermId;

/// What the first bumps add.
const FIRST_STEP: u64 = 1 << 10;

/// Where a number grows above this, all are scaled down. Twice as much is no overflow.
const LIMIT: u64 = 1 << 62;

/// By how many bits numbers are scaled down.
const SHIFT: u32 = 52;

/// Holds variables, and gives the most active first.
///
/// Variables are terms by their numbers: the n-th `add_var`, from 0, adds the variable of `TermId(n)`. Its activity grows by bumps, each
/// of which adds more the later it comes, by a sixteenth for each decay. Contracts see for each variable whether it is in the order. Of
/// variables that are as active, the same comes first each time. Numbers are whole; where one grows above 2^62, all lose 52 bits, which
/// takes time in proportion to the variables, once in some hundred decays. Other calls take time in proportion to the binary logarithm
/// of the number of variables, or less.
/// Source: Eén and Sörensson, SAT 2003, for the order; Moskewicz and others, DAC 2001, for activities.
#[derive(Drop)]
pub struct VariableOrder {
    /// The variables that are in it: each is at least as active as those at twice its place and 1 or 2.
    places: Places,
    /// For each variable how active it is.
    scores: Vec<Score>,
    /// What a bump adds now.
    step: u64,
    /// The number of the period between two decays, from 1.
    period: u64,
}

impl Model for VariableOrder {
    ghost use Rattle.std.specs.Prelude.{◌≡◌, List, Bool, length};

    ghost Value = { List Bool };

    ghost view = { λ o. o.places.members };

    ghost invariant = { λ o. length o.scores.items ≡ length o.places.members };
}

impl VariableOrder {
    /// Makes the order of no variables, which takes no memory before the first of them.
    pub fn new(alloc: Global) -> VariableOrder
        ensures { result ≡ [] }
    {
        VariableOrder {
            places: Places::new(alloc),
            scores: Vec::new(alloc),
            step: FIRST_STEP,
            period: 1,
        }
    }

    /// Adds a variable that is not in the order and not active, and takes all memory that it will need.
    ///
    /// `NoMemory` comes where it finds none; then the order is as it was.
    pub fn add_var(&mut self) -> Result<(), NoMemory>
        ensures ok { OnOk result (self.new ≡ self.old ++ false ∷ []) }
        ensures err { OnErr result (self.new ≡ self.old) }
    {
        self.scores.reserve(1)?;
        self.places.add_var()?;
        self.scores.push_reserved(Score {
            activity: 0,
            period: 0,
        });
        Ok(())
    }

    /// Counts the variables, in the order or not. It takes no memory.
    pub fn vars(&self) -> u64
        ensures { result ≡ length self.now }
    {
        self.places.vars() as u64
    }

    /// Tells whether a variable is in the order. It takes no memory.
    pub fn has(&self, v: TermId) -> bool
        requires known { v.0 < length self.now }
        ensures { result ≡ get_or self.now v.0 false }
    {
        self.places.place(v).is_some()
    }

    /// Puts a variable into the order; where it is in, nothing changes. It takes no memory.
    pub fn insert(&mut self, v: TermId)
        requires known { v.0 < length self.old }
        ensures { self.new ≡ set self.old v.0 true }
    {
        if self.places.place(v).is_some() {
            return;
        }
        let last = self.places.len();
        self.places.push(v);
        sift_up(&mut self.places, &self.scores, last);
    }

    /// Takes a most active variable; `None` exactly where none is in the order. It takes no memory.
    pub fn pop(&mut self) -> Option<TermId>
        ensures { MatchOption result (IsEmpty self.old × (self.new ≡ self.old)) (λ v. IsRemoved self.old v self.new) }
    {
        let len = self.places.len();
        if len > 1 {
            self.places.swap(0, len - 1);
        }
        let v = self.places.pop()?;
        sift_down(&mut self.places, &self.scores, 0);
        Some(v)
    }

    /// Takes all variables from `vars` on away, in the order or not; where there are no more than that, nothing changes. The others
    /// stay as active as they are. It takes no memory, and for each variable that goes the time of a `pop`.
    pub fn cut(&mut self, vars: u64)
        ensures { self.new ≡ take vars self.old }
    {
        'out: for v in vars..self.vars() {
            self.remove(TermId(v));
        }
        self.places.cut(vars as usize);
        self.scores.truncate(vars as usize);
    }

    /// Takes a variable out; where it is not in the order, nothing changes.
    #[tactic(auto, using(crate::proofs::Rows::last_taken))]
    fn remove(&mut self, v: TermId)
        requires known { v.0 < length self.old }
        ensures { self.new ≡ set self.old v.0 false }
    {
        let Some(place) = self.places.place(v) else {
            return;
        };
        let last = self.places.len() - 1;
        self.places.swap(place, last);
        self.places.pop();
        if place == last {
            return;
        }
        sift_up(&mut self.places, &self.scores, place);
        sift_down(&mut self.places, &self.scores, place);
    }

    /// Makes a variable more active, in the order or not; once between two decays, so that further calls change nothing. It takes no
    /// memory.
    pub fn bump(&mut self, v: TermId)
        requires known { v.0 < length self.old }
        ensures { self.new ≡ self.old }
    {
        let score = self.scores[v.0 as usize];
        if score.period == self.period {
            return;
        }
        let activity = score.activity.saturating_add(self.step);
        self.scores[v.0 as usize] = Score {
            activity,
            period: self.period,
        };
        if activity > LIMIT {
            self.scale();
        }
        if let Some(at) = self.places.place(v) {
            sift_up(&mut self.places, &self.scores, at);
        }
    }

    /// Makes all variables less active, compared with those whose bumps are to come. It takes no memory.
    pub fn decay(&mut self)
        ensures { self.new ≡ self.old }
    {
        self.period = self.period.wrapping_add(1);
        self.step = self.step.saturating_add(self.step / 16);
        if self.step > LIMIT {
            self.scale();
        }
    }

    /// Scales all numbers down.
    fn scale(&mut self)
        ensures { self.new ≡ self.old }
    {
        scale(&mut self.scores, SHIFT);
        self.step = (self.step >> SHIFT).max(FIRST_STEP);
    }
}
