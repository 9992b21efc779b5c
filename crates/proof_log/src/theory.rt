//! What the search asks of a theory.

ghost use Rattle.std.specs.Prelude.{◌≡◌, ◌≤◌, length, Contains};
ghost use Rattle.proof_log.specs.Logs.{IsLogOf};
ghost use Rattle.proof_log.specs.Theories.{IsTermIn, IsTheoryOver, derived};
ghost use Rattle.proof_log.specs.Meanings.{Meaning, IsLawful, Watches, Holds, check_state, AnswersCheck, Implies, Marks, GoesBack};

use crate::log::ProofLog;
use crate::premises::StepId;
use no_memory::NoMemory;
use sat_budget::{Budget, Stop};
use sat_trail::SatTrail;
use term_core::{Lit, TermId, TermTable};

/// What a theory says of the literals that it holds.
#[derive(Clone, Copy, Debug, PartialEq, Eq)]
pub enum Verdict {
    /// Nothing is wrong with them.
    Fine,
    /// They cannot all be true: each literal of this step's clause is false under them.
    Clash(StepId),
}

/// What the search asks of a theory: to watch terms, to hold literals of them, to find what is wrong with these, and to go
/// back to a mark.
///
/// Contracts see what it means: the literals that it holds, the terms that it watches, and what these were at each mark. What it keeps
/// of the terms goes with a table: it is right there, and stays so while the table grows.
/// Source: Nieuwenhuis, Oliveras and Tinelli, Solving SAT and SAT modulo theories, JACM 2006.
pub trait Theory {
    /// What it means.
    ghost meaning: { Self → Meaning };

    /// Watches a term that it does not watch yet, which must be one over the table's symbols. It takes the memory for literals of it, too.
    ///
    /// `Memory` comes where memory ran out, and `Strained` where a number of the term, or one made of it, leaves 128 bits. After a
    /// stop it watches what it did.
    fn watch_term(&mut self, table: &TermTable, id: TermId) -> Result<(), Stop>
        requires term { IsTermIn table.now id }
        requires new { Contains (meaning self.old).view.watched id → ⊥ }
        requires with { (meaning self.old).goes_with table.now }
        ensures { Watches table.now id (meaning self.old) (meaning self.new) result };

    /// Holds a literal more, of a term that it watches. It takes no memory.
    fn assume_lit(&mut self, lit: Lit)
        requires watched { Contains (meaning self.old).view.watched lit.term }
        requires new { Contains (meaning self.old).view.held lit → ⊥ }
        ensures { Holds lit (meaning self.old) (meaning self.new) };

    /// Checks whether something is wrong with the literals that it holds.
    ///
    /// It may put terms into the table and steps into the log. These steps depend on each other alone, and their clauses are of terms
    /// made of the watched ones. `Clash` names one of them, whose clause is false under the held literals. The budget may keep further
    /// exchanges. `Memory` comes where memory ran out, and `Strained` where a number leaves 128 bits. After a stop table and log are as
    /// they were, and the budget keeps the exchanges up to there.
    ///
    /// Conditions: with each watched term its arguments are watched.
    fn check(
        &mut self,
        table: &mut TermTable,
        log: &mut ProofLog,
        budget: &mut Budget,
    ) -> Result<Verdict, Stop>
        requires over { IsTheoryOver table.old (meaning self.old).view }
        requires with { (meaning self.old).goes_with table.old }
        requires log { IsLogOf table.old log.old }
        ensures { AnswersCheck (check_state (meaning self.old) (derived table.old log.old) budget.old)
            (check_state (meaning self.new) (derived table.new log.new) budget.new) result };

    /// Adds lemmas to the log that may imply literals, where the last check answered `Fine`, and lists their steps.
    ///
    /// The trail has the literals that it holds. A lemma may imply a literal where one has no value there, and all others are false. No
    /// answer depends on which come, as the search looks at each. `NoMemory` comes where memory ran out; then some of the terms may have come
    /// into the table, and it holds and watches what it did.
    fn implied(
        &mut self,
        table: &mut TermTable,
        log: &mut ProofLog,
        trail: &SatTrail,
    ) -> Result<Vec<StepId>, NoMemory>
        requires over { IsTheoryOver table.old (meaning self.old).view }
        requires with { (meaning self.old).goes_with table.old }
        requires log { IsLogOf table.old log.old }
        requires held { (meaning self.old).view.held ≡ trail.now.literals }
        ensures { Implies (meaning self.old) (meaning self.new) (derived table.old log.old) (derived table.new log.new)
            result };

    /// Marks what it holds and watches.
    ///
    /// `NoMemory` comes where the mark finds no memory; then all is as it was.
    fn mark(&mut self) -> Result<(), NoMemory>
        ensures { Marks (meaning self.old) (meaning self.new) result };

    /// Goes back so many marks: it holds and watches what it did there. It takes no memory.
    fn back(&mut self, marks: u32)
        requires there { marks ≤ length (meaning self.old).view.marks }
        ensures { GoesBack marks (meaning self.old) (meaning self.new) };

    // what it means is so of each theory
    ghost lawful: { (x : Self) → IsLawful (meaning x) };
}
