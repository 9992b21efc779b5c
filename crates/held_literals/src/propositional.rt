//! The theory of formulas whose clauses say all.

ghost use Rattle.std.specs.Prelude.{◌≡◌, []};

use crate::held::HeldLiterals;
use no_memory::NoMemory;
use proof_log::{ProofLog, StepId, Theory, Verdict};
use sat_budget::{Budget, Stop};
use sat_trail::SatTrail;
use std::alloc::Global;
use std::marker::Model;
use term_core::{Lit, TermId, TermTable};

/// Holds literals of watched terms, and finds nothing wrong with them.
///
/// A search of propositional formulas needs no more, as their clauses define each connective.
#[derive(Drop)]
pub struct PropositionalTheory {
    /// Where its memory comes from.
    alloc: Global,
    literals: HeldLiterals,
}

impl Model for PropositionalTheory {
    ghost use Rattle.proof_log.specs.Theories.{TheoryView};

    ghost Value = { TheoryView };

    ghost view = { λ p. p.literals };
}

impl PropositionalTheory {
    /// Holds and watches nothing. It takes no memory.
    pub fn new(alloc: Global) -> PropositionalTheory
        ensures { result ≡ record { held = []; watched = []; marks = [] } }
    {
        PropositionalTheory {
            alloc,
            literals: HeldLiterals::new(alloc),
        }
    }
}

impl Theory for PropositionalTheory {
    ghost use Rattle.proof_log.specs.Meanings.{no_runs};

    ghost meaning = { λ p. record {
      view = p;
      goes_with = λ _. Unit {0};
      agrees = λ _ _. Unit {0};
      refuses = λ _ _. ⊥;
      running = no_runs;
    } };

    /// Watches a term that it does not watch yet. `Memory` comes where memory ran out, the one stop; then it watches what it did.
    fn watch_term(&mut self, table: &TermTable, id: TermId) -> Result<(), Stop> {
        let _ = table;
        self.literals.watch(id)?;
        Ok(())
    }

    fn assume_lit(&mut self, lit: Lit) {
        self.literals.hold(lit);
    }

    /// Finds nothing wrong: it answers `Fine` always, in a time that depends on nothing, and changes nothing.
    fn check(
        &mut self,
        table: &mut TermTable,
        log: &mut ProofLog,
        budget: &mut Budget,
    ) -> Result<Verdict, Stop> {
        let _ = table;
        let _ = log;
        let _ = budget;
        Ok(Verdict::Fine)
    }

    fn implied(
        &mut self,
        table: &mut TermTable,
        log: &mut ProofLog,
        trail: &SatTrail,
    ) -> Result<Vec<StepId>, NoMemory> {
        let _ = table;
        let _ = log;
        let _ = trail;
        Ok(Vec::new(self.alloc))
    }

    fn mark(&mut self) -> Result<(), NoMemory> {
        self.literals.mark()
    }

    fn back(&mut self, marks: u32) {
        self.literals.back(marks);
    }

    ghost lawful = { λ p. record {
      grown = λ t u more with. with;
      came_grown = λ t u more with ts n es came. came;
      exact = λ ts ls fine refuted. refuted;
    } };
}
