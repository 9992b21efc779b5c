//! The check of simplex: literals that it holds, and a step of the log where they cannot all hold.

ghost use Rattle.std.specs.Prelude.{◌≡◌, ℕ, List, Result, IfOk, IfErr, OnOk, OnErr};
ghost use Rattle.spec_sorts.specs.Terms.{Term};
ghost use Rattle.spec_simplex.specs.Constraints.{HaveForms};
ghost use Rattle.spec_simplex.specs.Points.{IsFeasible, IsInfeasible};
ghost use Rattle.ratio128.specs.declared.wide.Wide.{Wide};
ghost use Rattle.sat_budget.specs.Budgets.{Spends, StopsBy};
ghost use Rattle.sat_budget.specs.declared.limits.Stop.{Stop};
ghost use Rattle.proof_log.specs.Logs.{IsLogOf};
ghost use Rattle.proof_log.specs.Clashes.{IsClash};
ghost use Rattle.proof_log.specs.Theories.{IsTheoryOver, terms_watched, literals_held, DerivesLemmas, Checks, CameTo, paid_after, derived};
ghost use Rattle.simplex_bounds.specs.Held.{ranges_in};
ghost use Rattle.simplex_check.specs.Assignments.{IsBasisOf};
ghost use Rattle.simplex_check.specs.Ends.{EndsCheck};
ghost use Rattle.simplex_check.specs.declared.check.CheckOutcome.{CheckOutcome};
ghost use Rattle.simplex_explain.specs.Reasons.{Refutes};
ghost use Rattle.simplex_explain.specs.BoundReasons.{AreOfHeld, OnReasonOverflow};
ghost use Rattle.simplex.specs.Views.{IsOf};
ghost use Rattle.simplex.specs.Checks.{Case, KeepsBounds, Found, OverflowsFound, AreReasonsOf, AnswersOutcome};
ghost use Rattle.simplex.specs.Coming.{CameBy, StoppedBy, IsOverflowAt};

use crate::simplex::Simplex;
use proof_log::{ProofLog, StepId, Verdict};
use ratio128::Wide;
use sat_budget::{Budget, Stop, Strain};
use simplex_check::CheckOutcome;
use simplex_explain::{ExplainStop, ReasonStop, Weighted, crossing_reasons, explain, row_reasons};
use term_core::TermTable;

impl Simplex {
    /// Makes the stop of an overflow, with the basic variables and the values. It is out of memory where their lists find
    /// none.
    pub fn stop_of(&self, wide: Wide) -> Stop
        ensures { StopsBy (λ s. (s.wide ≡ wide) × IsBasisOf self.now.assignment s.basis) result }
    {
        match self.assignment.basis() {
            Ok(basis) => Stop::Strained(Strain { wide, basis }),
            Err(_) => Stop::Memory,
        }
    }

    /// Gives literals that cannot all hold, with their weights, where bounds cross or a basic variable is stuck.
    ///
    /// `Wide` comes where a weight leaves the bound on fractions, and `Memory` where there is no memory.
    fn reasons(&self, outcome: CheckOutcome) -> Result<Vec<Weighted>, ReasonStop>
        ghost of: { Case }
        requires of { of.simplex ≡ self.now }
        requires with { IsOf self.now of.table }
        requires found { Found self.now outcome }
        ensures reasons { IfOk result (λ reasons. AreReasonsOf self.now outcome reasons.items) }
        ensures refutes { IfOk result (λ reasons. Refutes of.table reasons.items) }
        ensures held { IfOk result (λ reasons. AreOfHeld self.now.bounds.held reasons.items) }
        ensures wide { IfErr result (OnReasonOverflow (OverflowsFound self.now outcome)) }
    {
        match outcome {
            CheckOutcome::Fine => unreachable!(),
            CheckOutcome::Crossed(y) => crossing_reasons(self.alloc, &self.bounds, &self.atoms, y),
            CheckOutcome::Conflict(b) => {
                row_reasons(self.alloc, &self.assignment, &self.bounds, &self.atoms, b)
            }
        }
    }

    /// Logs that held literals cannot all hold, where bounds cross or a basic variable is stuck: a step whose clause is false
    /// under them.
    ///
    /// `Strained` comes where a weight, or a sum of the literals' forms by their weights, leaves 128 bits, with the basic
    /// variables and the values; `Memory` comes where there is no memory. After each, table and log are as they were.
    fn clash(
        &self,
        table: &mut TermTable,
        log: &mut ProofLog,
        outcome: CheckOutcome,
    ) -> Result<StepId, Stop>
        ghost of: { Case }
        requires of { of ≡ record { table = table.old; simplex = self.now } }
        requires over { IsTheoryOver table.old self.now.theory }
        requires with { IsOf self.now table.old }
        requires log { IsLogOf table.old log.old }
        requires found { Found self.now outcome }
        ensures derives { OnOk result (DerivesLemmas (terms_watched table.old self.now.theory)
            (derived table.old log.old)
            (derived table.new log.new)) }
        ensures clash { IfOk result (IsClash table.new log.new self.now.theory.held) }
        ensures infeasible { OnOk result (IsInfeasible (literals_held table.old self.now.theory)) }
        ensures same { OnErr result ((table.new ≡ table.old) × (log.new ≡ log.old)) }
        ensures stops { IfErr result (StopsBy (λ s. IsOverflowAt table.old (terms_watched table.old self.now.theory) s
            self.now)) }
    {
        self.literals.are_of_watched_terms();
        let reasons = match self.reasons(outcome) {
            Ok(reasons) => reasons,
            Err(ReasonStop::Wide(wide)) => return Err(self.stop_of(wide)),
            Err(ReasonStop::Memory) => return Err(Stop::Memory),
        };
        match explain(self.alloc, table, log, &reasons) {
            Ok(step) => Ok(step),
            Err(ExplainStop::Wide(wide)) => Err(self.stop_of(wide)),
            Err(ExplainStop::Memory) => Err(Stop::Memory),
        }
    }

    /// Checks the literals that it holds: `Fine` comes where they have forms and a point keeps them all, and `Clash` where none
    /// does, with a step whose clause is false under them. After `Fine` the values keep the bounds that are held.
    ///
    /// Each exchange is kept in the budget. `Strained` comes where a number leaves 128 bits, with the basic variables and the values
    /// at which it did; `Memory` where there is no memory. After each, table and log are as they were. After `Fine` the next check
    /// looks at the variables of bounds alone that came since, and at those whose values change.
    /// Source: Dutertre and de Moura, A Fast Linear-Arithmetic Solver for DPLL(T), CAV 2006.
    pub fn check(
        &mut self,
        table: &mut TermTable,
        log: &mut ProofLog,
        budget: &mut Budget,
    ) -> Result<Verdict, Stop>
        requires over { IsTheoryOver table.old self.old.theory }
        requires with { IsOf self.old table.old }
        requires log { IsLogOf table.old log.old }
        ensures with { IsOf self.new table.new }
        ensures same { self.new ≡ record self.old { assignment = self.new.assignment } }
        ensures budget { Spends budget.old budget.new }
        ensures ends { (found : Result CheckOutcome Stop) × AnswersOutcome found result
            × EndsCheck (ranges_in self.old.bounds.held) self.old.assignment self.new.assignment budget.old budget.new
            found }
        ensures checks { Checks (HaveForms (literals_held table.old self.old.theory)
            × IsFeasible (literals_held table.old self.old.theory) × KeepsBounds self.new)
            (IsInfeasible (literals_held table.old self.old.theory))
            self.old.theory (derived table.old log.old) result (derived table.new log.new) }
        ensures came { (ts : List Term) (n : ℕ) → CameBy table.old ts n budget.old.exchanges self.old → CameTo result
            (λ verdict. CameBy table.new ts (paid_after verdict n) budget.new.exchanges self.new)
            (StoppedBy table.new ts n budget.new.exchanges self.new) }
        ensures stops { IfErr result (StopsBy
            (λ s. IsOverflowAt table.new (terms_watched table.old self.old.theory) s self.new)) }
    {
        self.literals.are_of_watched_terms();
        self.assignment.values_solve_the_rows();
        self.assignment.tableau().rows_are_in_solved_form();
        table.ids_are_unique();
        let kept = self.kept;
        self.kept = 0;
        let outcome = match self.assignment.check_after(&self.bounds, kept, budget) {
            Ok(outcome) => outcome,
            Err(stop) => {
                self.assignment.values_solve_the_rows();
                return Err(stop);
            }
        };
        self.assignment.values_solve_the_rows();
        if let CheckOutcome::Fine = outcome {
            self.assignment.tableau().rows_are_in_solved_form();
            self.kept = self.bounds.held_len();
            return Ok(Verdict::Fine);
        }
        match self.clash(table, log, outcome) {
            Ok(step) => Ok(Verdict::Clash(step)),
            Err(stop) => Err(stop),
        }
    }
}
