//! Simplex as a theory of the search.

use crate::simplex::Simplex;
use no_memory::NoMemory;
use proof_log::{ProofLog, StepId, Theory, Verdict};
use sat_budget::{Budget, Stop};
use sat_trail::SatTrail;
use term_core::{Lit, TermId, TermTable};

impl Theory for Simplex {
    ghost use Rattle.std.proofs.Common.{sym, subst};
    ghost use Rattle.std.proofs.lemmas.List.Elements.{All-weaker, All-contains};
    ghost use Rattle.spec_sorts.specs.Terms.{Term};
    ghost use Rattle.spec_causes.specs.Reached.{IsReached};
    ghost use Rattle.spec_simplex.specs.Constraints.{constraint_of, HaveForms};
    ghost use Rattle.spec_simplex.specs.Points.{IsFeasible, IsInfeasible};
    ghost use Rattle.term_core.specs.declared.ids.Lit.{Lit};
    ghost use Rattle.term_core.specs.Tables.{IsIn, positive_literal};
    ghost use Rattle.term_core.proofs.TermsExtend.{IsIn-kept, term_at-kept};
    ghost use Rattle.simplex_atoms.specs.Slacks.{slack_in};
    ghost use Rattle.simplex_atoms.specs.Watching.{IsWatched};
    ghost use Rattle.simplex_atoms.proofs.Fitting.{right_after};
    ghost use Rattle.simplex_explain.specs.Stated.{IsKnownIn};
    ghost use Rattle.simplex_explain.proofs.StatedBounds.{all_from};
    ghost use Rattle.simplex_explain.proofs.TermTableauViews.{term_tableau_kept, among_kept, atoms_kept};
    ghost use Rattle.simplex.specs.Checks.{Suits, KeepsBounds};
    ghost use Rattle.simplex.specs.Coming.{CameBy, StoppedBy, IsOverflowAt};

    ghost meaning = { λ s. record {
      view = s.theory;
      goes_with = Suits s;
      agrees = λ ts ls. HaveForms ls × IsFeasible ls × KeepsBounds s;
      refuses = λ ts ls. IsInfeasible ls;
      running = record {
        came_by = λ t ts n es. CameBy t ts n es s;
        stopped_by = λ t ts n es. StoppedBy t ts n es s;
        may_overflow = λ t ts x. IsOverflowAt t ts x s;
      };
    } };

    fn watch_term(&mut self, table: &TermTable, id: TermId) -> Result<(), Stop> {
        Simplex::watch_term(self, table, id)
    }

    fn assume_lit(&mut self, lit: Lit) {
        Simplex::assume_lit(self, lit)
    }

    fn check(
        &mut self,
        table: &mut TermTable,
        log: &mut ProofLog,
        budget: &mut Budget,
    ) -> Result<Verdict, Stop> {
        Simplex::check(self, table, log, budget)
    }

    fn implied(
        &mut self,
        table: &mut TermTable,
        log: &mut ProofLog,
        trail: &SatTrail,
    ) -> Result<Vec<StepId>, NoMemory> {
        Simplex::implied(self, table, log, trail)
    }

    fn mark(&mut self) -> Result<(), NoMemory> {
        Simplex::mark(self)
    }

    fn back(&mut self, marks: u32) {
        Simplex::back(self, marks)
    }

    ghost lawful = { λ s. record {
      grown = λ t u more with. record {
        is = record {
          right = right_after t u more s.atoms s.assignment s.bounds with.is.right;
          known = all_from (IsKnownIn u s.atoms.slack_list) s.theory.watched (λ id has. subst
              (λ (x : Term). IsWatched (slack_in s.atoms.slack_list id) (constraint_of (positive_literal x)))
              (sym (term_at-kept t u more id (All-contains (IsIn t) s.theory.watched id with.there has)))
              (All-contains (IsKnownIn t s.atoms.slack_list) s.theory.watched id with.is.known has));
        };
        there = All-weaker (IsIn t) (IsIn u) (λ id within. IsIn-kept t u more id within) s.theory.watched with.there;
        held = All-weaker (λ (l : Lit). IsIn t l.term) (λ (l : Lit). IsIn u l.term)
            (λ l within. IsIn-kept t u more l.term within) s.theory.held with.held;
      };
      came_grown = λ t u more with ts n es came. record {
        watched = among_kept t u more ts s.theory.watched with.there came.watched;
        held = atoms_kept t u more ts s.theory.held with.held came.held;
        runs = came.runs;
        reached = subst (IsReached ts came.runs es)
            (sym (term_tableau_kept t u more s.atoms.owners s.assignment with.is.right.owners_in)) came.reached;
        few = came.few;
      };
      exact = λ ts ls fine refuted. refuted fine.1.0 fine.1.1;
    } };
}
