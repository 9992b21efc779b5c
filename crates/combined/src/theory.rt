//! Both theories as one theory.

use crate::combined::Combined;
use congruence::Congruence;
use no_memory::NoMemory;
use proof_log::{ProofLog, StepId, Theory, Verdict};
use sat_budget::{Budget, Stop};
use sat_trail::SatTrail;
use simplex::Simplex;
use term_core::{Lit, TermId, TermTable};

impl Theory for Combined {
    ghost use Rattle.std.proofs.Common.{⊎_elim};
    ghost use Rattle.combined.specs.Views.{both};
    ghost use Rattle.congruence.specs.contracts.theory.CongruenceTheory.TheImpl.Laws as of_congruence;
    ghost use Rattle.simplex.specs.contracts.theory.SimplexTheory.TheImpl.Laws as of_simplex;

    ghost meaning = { λ c. both (⟦<Congruence as Theory>⟧.meaning c.congruence)
        (⟦<Simplex as Theory>⟧.meaning c.simplex) };

    fn watch_term(&mut self, table: &TermTable, id: TermId) -> Result<(), Stop> {
        // Nothing can be unwatched, but simplex can go back to a mark.
        self.simplex.mark()?;
        if let Err(stop) = self.simplex.watch_term(table, id) {
            self.simplex.forget_mark();
            return Err(stop);
        }
        if let Err(stop) = self.congruence.watch_term(table, id) {
            self.simplex.back(1);
            return Err(stop);
        }
        self.simplex.forget_mark();
        Ok(())
    }

    fn assume_lit(&mut self, lit: Lit) {
        self.congruence.assume_lit(lit);
        Theory::assume_lit(&mut self.simplex, lit);
    }

    fn check(
        &mut self,
        table: &mut TermTable,
        log: &mut ProofLog,
        budget: &mut Budget,
    ) -> Result<Verdict, Stop> {
        match self.congruence.check(table, log, budget)? {
            Verdict::Clash(step) => Ok(Verdict::Clash(step)),
            Verdict::Fine => Theory::check(&mut self.simplex, table, log, budget),
        }
    }

    fn implied(
        &mut self,
        table: &mut TermTable,
        log: &mut ProofLog,
        trail: &SatTrail,
    ) -> Result<Vec<StepId>, NoMemory> {
        let steps = self.congruence.implied(table, log, trail)?;
        if !steps.is_empty() {
            return Ok(steps);
        }
        Theory::implied(&mut self.simplex, table, log, trail)
    }

    fn mark(&mut self) -> Result<(), NoMemory> {
        self.congruence.mark()?;
        if let Err(no_memory) = Theory::mark(&mut self.simplex) {
            self.congruence.back(1);
            return Err(no_memory);
        }
        Ok(())
    }

    fn back(&mut self, marks: u32) {
        self.congruence.back(marks);
        Theory::back(&mut self.simplex, marks);
    }

    ghost lawful = { λ c. record {
      grown = λ t u more with. (
        (of_congruence.lawful-law c.congruence).grown t u more with.0,
        (of_simplex.lawful-law c.simplex).grown t u more with.1,
      );
      came_grown = λ t u more with. (of_simplex.lawful-law c.simplex).came_grown t u more with.1;
      exact = λ ts ls agree refused. ⊎_elim ((of_congruence.lawful-law c.congruence).exact ts ls agree.0)
          ((of_simplex.lawful-law c.simplex).exact ts ls agree.1) refused;
    } };
}
