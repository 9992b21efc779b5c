//! The budget of conflicts of one search, and the exchanges that it makes.

ghost use Rattle.std.specs.Prelude.{◌≡◌, ◌<◌, ◌≤◌, [], length, get_or, slice_index_or, IfOk, MatchOption, MatchResult};
ghost use Rattle.sat_budget.specs.Budgets.{Learns, Exchanges, no_exchange};

use crate::limits::{BudgetStop, Limits};
use no_memory::NoMemory;
use std::alloc::Global;
use std::marker::Model;
use term_core::Lit;

/// Holds the limit of one search on conflicts, the clauses that it has learned, and the exchanges that it has made, oldest first.
///
/// Each conflict that is learned from is a clause here, so that what is spent can be seen. Each pivot of arithmetic is an exchange of
/// two variables by their numbers, so that an overflow can be followed. Exchanges have no limit, as each feasibility check ends.
#[derive(Drop)]
pub struct Budget {
    alloc: Global,
    limit: u64,
    learned: Vec<Vec<Lit>>,
    exchanges: Vec<(u64, u64)>,
}

impl Model for Budget {
    ghost use Rattle.std.specs.Prelude.{◌≤◌, length};
    ghost use Rattle.sat_budget.specs.Budgets.{BudgetView, lists};

    ghost Value = { BudgetView };

    ghost view = { λ b. record {
      limit = b.limit;
      learned = lists b.learned.items;
      exchanges = b.exchanges.items;
    } };

    ghost invariant = { λ b. length b.learned.items ≤ b.limit };
}

impl Budget {
    /// Makes the budget of a new search, which has learned and exchanged nothing.
    ///
    /// `NoMemory` never comes, as empty lists take no memory.
    pub fn new(alloc: Global, limits: &Limits) -> Result<Budget, NoMemory>
        ensures { MatchResult result (λ b. b ≡ record {
          limit = limits.now.conflicts;
          learned = [];
          exchanges = [];
        }) (λ _. ⊥) }
    {
        Ok(Budget {
            alloc,
            limit: limits.conflicts,
            learned: Vec::new(alloc),
            exchanges: Vec::new(alloc),
        })
    }

    /// Puts a learned clause last, by a copy of its literals.
    ///
    /// `Spent` comes exactly where as many clauses were learned as the limit allows, and says that number; `Memory` where the
    /// copy or its place find no memory before that. After both the budget is as it was.
    pub fn learnt(&mut self, clause: &[Lit]) -> Result<(), BudgetStop>
        ensures { Learns self.old clause.now result self.new }
    {
        if self.learned.len() as u64 >= self.limit {
            return Err(BudgetStop::Spent(self.limit));
        }
        let copy = Vec::from_slice(self.alloc, clause)?;
        self.learned.push(copy)?;
        Ok(())
    }

    /// Gives the limit where as many clauses were learned as it allows; `None` exactly where there is room for another. It takes
    /// no memory.
    pub fn spent(&self) -> Option<u64>
        ensures { MatchOption result (length self.now.learned < self.now.limit)
            (λ n. (length self.now.learned ≡ self.now.limit) × (n ≡ self.now.limit)) }
    {
        if (self.learned.len() as u64) < self.limit {
            return None;
        }
        Some(self.limit)
    }

    /// Counts the learned clauses. It takes no memory.
    pub fn learnt_len(&self) -> u64
        ensures { result ≡ length self.now.learned }
    {
        self.learned.len() as u64
    }

    /// Lends a learned clause by its number, from 0 for the oldest. It takes no memory.
    pub fn clause(&self, n: u64) -> &[Lit]
        requires { n < length self.now.learned }
        ensures { result.now ≡ slice_index_or self.now.learned n [] }
    {
        self.learned[n as usize].as_slice()
    }

    /// Puts an exchange last: the variable that leaves the basis and the one that enters it, by their numbers.
    ///
    /// `NoMemory` comes where its place finds no memory; then the budget is as it was.
    pub fn exchanged(&mut self, leaving: u64, entering: u64) -> Result<(), NoMemory>
        ensures { Exchanges self.old (leaving, entering) result self.new }
    {
        self.exchanges.push((leaving, entering))?;
        Ok(())
    }

    /// Counts the exchanges. It takes no memory.
    pub fn exchanged_len(&self) -> u64
        ensures { result ≡ length self.now.exchanges }
    {
        self.exchanges.len() as u64
    }

    /// Gives an exchange by its number, from 0 for the oldest: the variable that left the basis, and the one that entered it. It takes
    /// no memory.
    pub fn exchange(&self, n: u64) -> (u64, u64)
        requires { n < length self.now.exchanges }
        ensures { result ≡ get_or self.now.exchanges n no_exchange }
    {
        self.exchanges[n as usize]
    }

    /// Makes a copy, which is spent as far.
    ///
    /// `NoMemory` comes where one of the lists, a clause or its place find no memory.
    pub fn copy(&self) -> Result<Budget, NoMemory>
        ensures { IfOk result (λ b. b ≡ self.now) }
    {
        let mut learned = Vec::new(self.alloc);
        for clause in &self.learned {
            learned.push(Vec::from_slice(self.alloc, clause)?)?;
        }
        let exchanges = Vec::from_slice(self.alloc, &self.exchanges)?;
        Ok(Budget {
            alloc: self.alloc,
            limit: self.limit,
            learned,
            exchanges,
        })
    }

    /// States that no more clauses are learned than the limit allows.
    pub fn is_within(&self)
        ensures learned { length self.now.learned ≤ self.now.limit }
    {
        let _ = &self.limit;
    }
}
