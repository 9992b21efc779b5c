//! Congruence closure as a theory.

ghost use Rattle.std.specs.Prelude.{◌≡◌, ◌-◌, ◌≤◌, ◌++◌, ◌∷◌, ℕ, List, [], true, length, get_or, take, Contains, MatchResult, IfOk, IfErr, OnOk, OnErr, Ok};
ghost use Rattle.spec_equality.specs.Congruence.{IsFine, IsRefuted};
ghost use Rattle.term_core.specs.Tables.{TableView};
ghost use Rattle.sat_budget.specs.declared.limits.Stop.TheVariants as stops;
ghost use Rattle.sat_budget.specs.Budgets.{Spends, StopsBy};
ghost use Rattle.proof_log.specs.declared.theory.Verdict.TheVariants.{Fine};
ghost use Rattle.proof_log.specs.Logs.{IsLogOf};
ghost use Rattle.proof_log.specs.Clashes.{IsClash};
ghost use Rattle.proof_log.specs.Theories.{with_watched, with_mark, gone_back, IsTermIn, IsTheoryOver, terms_watched, literals_held, DerivesLemmas, Checks, CameTo};
ghost use Rattle.congruence_relation.specs.Relation.{Facts, AreFactsOf, terms_listed};
ghost use Rattle.congruence_relation.specs.Edges.{IsConflict};
ghost use Rattle.congruence.specs.Views.{theory_of};

use crate::congruence::Congruence;
use crate::implying::implied_steps;
use crate::parts::takes_part;
use congruence_closure::Closure;
use congruence_explain::explain;
use congruence_relation::{Conflict, facts_stay_over_more_terms, refutations_agree};
use no_memory::NoMemory;
use proof_log::{ProofLog, StepId, Theory, Verdict};
use sat_budget::{Budget, Stop};
use sat_trail::SatTrail;
use std::alloc::Global;
use term_core::{Lit, TermId, TermTable};

/// Explains a conflict of a closure's edges by steps of the log. Where memory runs out, table and log are as they were.
pub(crate) fn explain_conflict(
    alloc: Global,
    table: &mut TermTable,
    log: &mut ProofLog,
    closure: &Closure,
    conflict: Conflict,
) -> Result<StepId, NoMemory>
    ghost facts: { Facts }
    requires facts { facts ≡ closure.now.now.facts }
    requires over { IsTheoryOver table.old (theory_of closure.now) }
    requires with { AreFactsOf table.old facts }
    requires log { IsLogOf table.old log.old }
    requires conflict { IsConflict facts closure.now.edges conflict }
    ensures derives { OnOk result (DerivesLemmas (terms_listed table.old facts)
        (record { table = table.old; log = log.old }) (record { table = table.new; log = log.new })) }
    ensures clash { IfOk result (IsClash table.new log.new facts.held) }
    ensures same { OnErr result ((table.new ≡ table.old) × (log.new ≡ log.old)) }
{
    closure.is_right();
    explain(
        alloc,
        table,
        log,
        closure.forest(),
        closure.truths(),
        conflict,
    )
}

impl Theory for Congruence {
    ghost use Rattle.std.specs.Prelude.{◌≡◌, true};
    ghost use Rattle.spec_equality.specs.Congruence.{IsFine, IsRefuted};
    ghost use Rattle.proof_log.specs.Meanings.{no_runs};
    ghost use Rattle.congruence_relation.specs.Relation.{AreFactsOf};
    ghost use Rattle.congruence.specs.Views.{theory_of};
    ghost use Rattle.congruence_relation.proofs.Kept.{of_more};

    ghost meaning = { λ c. record {
      view = theory_of c;
      goes_with = λ t. AreFactsOf t c.now.facts;
      agrees = λ ts ls. IsFine ts ls × (c.now.saturated ≡ true);
      refuses = IsRefuted;
      running = no_runs;
    } };

    /// Watches a term that it does not watch yet, which must be one over the table's symbols. `Memory` comes where memory ran out, the one
    /// stop, as it computes with no numbers; then it watches what it did.
    fn watch_term(&mut self, table: &TermTable, id: TermId) -> Result<(), Stop>
        requires term { IsTermIn table.now id }
        requires new { Contains (theory_of self.old).watched id → ⊥ }
        requires with { AreFactsOf table.now self.old.now.facts }
        ensures with { AreFactsOf table.now self.new.now.facts }
        ensures watches { MatchResult result (λ _. theory_of self.new ≡ with_watched (theory_of self.old) id)
            (λ _. theory_of self.new ≡ theory_of self.old) }
        ensures came { (es : List (ℕ × ℕ)) → es ≡ [] → CameTo result (λ _. es ≡ []) (Unit {0}) }
        ensures stops { IfErr result (StopsBy (λ _. ⊥)) }
        ensures memory { IfErr result (λ stop. stop ≡ stops.Memory) }
    {
        let part = takes_part(table, id);
        self.closure.watch(id, table.node(id), part)?;
        Ok(())
    }

    fn assume_lit(&mut self, lit: Lit) {
        self.closure.hold(lit);
    }

    /// Checks the held literals: `Clash` comes exactly where their congruence joins `true` and `false`, or the sides of a held negated
    /// equality. After `Fine` it is saturated, and table and log are as they were. `Memory` comes where memory ran out, the one stop. It
    /// costs about the users of the classes that are renumbered, and, where there is a conflict, what `explain` costs. It spends nothing of
    /// the budget.
    fn check(
        &mut self,
        table: &mut TermTable,
        log: &mut ProofLog,
        budget: &mut Budget,
    ) -> Result<Verdict, Stop>
        requires over { IsTheoryOver table.old (theory_of self.old) }
        requires with { AreFactsOf table.old self.old.now.facts }
        requires log { IsLogOf table.old log.old }
        ensures with { AreFactsOf table.new self.new.now.facts }
        ensures same { theory_of self.new ≡ theory_of self.old }
        ensures budget { Spends budget.old budget.new }
        ensures kept { budget.new ≡ budget.old }
        ensures saturated { result ≡ Ok Fine → self.new.now.saturated ≡ true }
        ensures nothing_came { result ≡ Ok Fine → (table.new ≡ table.old) × (log.new ≡ log.old) }
        ensures checks { Checks (IsFine (terms_watched table.old (theory_of self.old))
            (literals_held table.old (theory_of self.old))
            × (self.new.now.saturated ≡ true))
            (IsRefuted (terms_watched table.old (theory_of self.old)) (literals_held table.old (theory_of self.old)))
            (theory_of self.old) (record { table = table.old; log = log.old }) result
            (record { table = table.new; log = log.new }) }
        ensures came { budget.old.exchanges ≡ [] → CameTo result (λ _. budget.new.exchanges ≡ []) (Unit {0}) }
        ensures stops { IfErr result (StopsBy (λ _. ⊥)) }
        ensures memory { IfErr result (λ stop. stop ≡ stops.Memory) }
    {
        let _ = budget;
        facts_stay_over_more_terms();
        refutations_agree();
        table.ids_are_unique();
        table.symbols().are_declared();
        let found = self.closure.saturate()?;
        self.closure.is_right();
        let Some(conflict) = found else {
            return Ok(Verdict::Fine);
        };
        let step = explain_conflict(self.alloc, table, log, &self.closure, conflict)?;
        Ok(Verdict::Clash(step))
    }

    /// Adds lemmas by which noted terms are true or false: what came into the class of a truth value, and equalities with linked sides. Each
    /// is explained as a conflict with its complement, which is held for that time alone. `NoMemory` comes where memory ran out. Then some of
    /// the lemmas may be there, and it holds and watches what it did.
    fn implied(
        &mut self,
        table: &mut TermTable,
        log: &mut ProofLog,
        trail: &SatTrail,
    ) -> Result<Vec<StepId>, NoMemory> {
        implied_steps(self.alloc, table, log, trail, &mut self.closure)
    }

    /// Marks what it holds and watches, and whether it is saturated. `NoMemory` comes where the mark finds no memory; then all is as it was.
    fn mark(&mut self) -> Result<(), NoMemory>
        ensures with { (t : TableView) → AreFactsOf t self.old.now.facts → AreFactsOf t self.new.now.facts }
        ensures marks { MatchResult result (λ _. theory_of self.new ≡ with_mark (theory_of self.old))
            (λ _. theory_of self.new ≡ theory_of self.old) }
        ensures now { self.new.now ≡ self.old.now }
        ensures states { OnOk result (self.new.marks ≡ self.old.marks ++ self.old.now ∷ []) }
    {
        self.closure.mark()
    }

    /// Goes back so many marks: it holds and watches what it did there, and is saturated if it was. It takes no memory.
    fn back(&mut self, marks: u32)
        requires there { marks ≤ length (theory_of self.old).marks }
        ensures with { (t : TableView) → AreFactsOf t self.old.now.facts → AreFactsOf t self.new.now.facts }
        ensures back { theory_of self.new ≡ gone_back marks (theory_of self.old) }
        ensures now { self.new.now ≡ get_or self.old.marks (length self.old.marks - marks) self.old.now }
        ensures marks { self.new.marks ≡ take (length self.old.marks - marks) self.old.marks }
    {
        self.closure.marks_are_prefixes();
        self.closure.back(marks);
        self.closure.is_right();
    }

    ghost lawful = { λ c. record {
      grown = λ t u more with. of_more t u more c.now.facts with;
      came_grown = λ t u more with ts n es came. came;
      exact = λ ts ls fine refuted. fine.0 refuted;
    } };
}
