//! Lemmas of bounds that rows imply.

ghost use Rattle.std.specs.Prelude.{◌≡◌, ◌<◌, List, length, IfOk, IfSome, IsSome};
ghost use Rattle.spec_sorts.specs.Terms.{Term};
ghost use Rattle.proof_log.specs.Logs.{IsLogOf, AreStepsOf};
ghost use Rattle.proof_log.specs.Theories.{IsTheoryOver, derived, terms_watched, DerivesLemmas};
ghost use Rattle.simplex_atoms.specs.Slacks.{slack_in};
ghost use Rattle.simplex.specs.Views.{IsOf};
ghost use Rattle.simplex.specs.Hints.{IsOfAtom, AreOfAtoms};

use crate::hints::Hint;
use crate::simplex::Simplex;
use no_memory::NoMemory;
use proof_log::{ProofLog, StepId};
use ratio128::Ratio;
use sat_trail::SatTrail;
use simplex_atoms::Comparison;
use simplex_explain::{ArithFault, Weighted, refute};
use tableau::Entry;
use tableau::numbers::{is_negative, is_zero, negative, quotient};
use term_core::{Lit, TermTable};

impl Simplex {
    /// Weighs a literal by which the variable of its atom's place has a coefficient, or minus it where `up` is false. Nothing is given
    /// where it has no place, or the weight leaves 128 bits.
    fn weighted(&self, literal: Lit, up: bool, coefficient: Ratio) -> Option<Weighted>
        ensures { IfSome result (λ w. (w.literal ≡ literal)
            × IsSome (slack_in self.now.atoms.slack_list literal.term)) }
    {
        let slack = self.atoms.slack(literal.term)?;
        if is_zero(slack.factor) {
            return None;
        }
        let directed = if up {
            coefficient
        } else {
            negative(coefficient)
        };
        let weight = quotient(directed, slack.factor).ok()?;
        if slack.kind != Comparison::Equal && is_negative(weight) {
            return Some(Weighted {
                literal,
                weight: negative(weight),
            });
        }
        Some(Weighted { literal, weight })
    }

    /// Weighs the literal of a bound of a row, or the one that is false by them.
    fn reason(&self, hint: Hint, member: Entry) -> Option<Weighted>
        ensures { IfSome result (IsOfAtom self.now) }
    {
        self.literals.are_of_watched_terms();
        if member.variable == hint.variable {
            let literal = Lit {
                term: self.literals.term(hint.atom)?,
                positive: hint.denied,
            };
            return self.weighted(literal, hint.up, member.coefficient);
        }
        let bound = self.stop(hint.up, member)?;
        self.weighted(bound.literal, hint.up, member.coefficient)
    }

    /// Lists literals that cannot all hold by a row, as it seems, with their weights: those of its bounds, and one that is false by them.
    ///
    /// Nothing is given where one has no weight; `NoMemory` comes where there is no memory.
    fn reasons_for(&self, hint: Hint) -> Result<Option<Vec<Weighted>>, NoMemory>
        ensures { IfOk result (λ found. IfSome found (λ reasons. AreOfAtoms self.now reasons.items)) }
    {
        let mut reasons = Vec::new(self.alloc);
        let members = self.members(hint.row)?;
        'members: for member in &members {
            let Some(reason) = self.reason(hint, *member) else {
                return Ok(None);
            };
            reasons.push(reason)?;
        }
        Ok(Some(reasons))
    }

    /// Logs the lemma of a literal that a row seems to imply, where the rule takes it, and gives its step.
    ///
    /// `NoMemory` comes where there is no memory.
    fn lemma(
        &self,
        table: &mut TermTable,
        log: &mut ProofLog,
        hint: Hint,
    ) -> Result<Option<StepId>, NoMemory>
        ghost watched: { List Term }
        requires watched { watched ≡ terms_watched table.old self.now.theory }
        requires over { IsTheoryOver table.old self.now.theory }
        requires with { IsOf self.now table.old }
        requires log { IsLogOf table.old log.old }
        ensures derives { DerivesLemmas watched (derived table.old log.old) (derived table.new log.new) }
        ensures step { IfOk result (λ found. IfSome found (λ step. step.0 < length log.new)) }
    {
        let Some(reasons) = self.reasons_for(hint)? else {
            return Ok(None);
        };
        match refute(self.alloc, table, log, &reasons) {
            Ok(step) => Ok(Some(step)),
            Err(ArithFault::Memory) => Err(NoMemory),
            Err(_) => Ok(None),
        }
    }

    /// Logs lemmas of literals that rows seem to imply, and lists their steps.
    ///
    /// `NoMemory` comes where there is no memory.
    fn lemmas(
        &self,
        table: &mut TermTable,
        log: &mut ProofLog,
        hints: &[Hint],
    ) -> Result<Vec<StepId>, NoMemory>
        requires over { IsTheoryOver table.old self.now.theory }
        requires with { IsOf self.now table.old }
        requires log { IsLogOf table.old log.old }
        ensures derives { DerivesLemmas (terms_watched table.old self.now.theory)
            (derived table.old log.old) (derived table.new log.new) }
        ensures steps { IfOk result (λ steps. AreStepsOf log.new steps.items) }
    {
        let mut steps = Vec::new(self.alloc);
        'hints: for hint in hints {
            let Some(step) = self.lemma(table, log, *hint)? else {
                continue;
            };
            steps.push(step)?;
        }
        Ok(steps)
    }

    /// Logs lemmas of literals without a value that follow, by a row, from the bounds that it holds, and lists their steps.
    ///
    /// Only rows of few entries are looked at which have the variable of a bound that came since the last call. In each the bounds of
    /// all variables but one bound that one, and so decide the atom on it whose bound is the nearest. The rule `la_generic` judges each
    /// such lemma: what it refuses is left out.
    ///
    /// `NoMemory` comes where there is no memory; then lemmas may have come. It holds and watches what it did.
    /// Source: Dutertre and de Moura, A Fast Linear-Arithmetic Solver for DPLL(T), CAV 2006, section 5 (theory propagation).
    pub fn implied(
        &mut self,
        table: &mut TermTable,
        log: &mut ProofLog,
        trail: &SatTrail,
    ) -> Result<Vec<StepId>, NoMemory>
        requires over { IsTheoryOver table.old self.old.theory }
        requires with { IsOf self.old table.old }
        requires log { IsLogOf table.old log.old }
        ensures same { self.new ≡ self.old }
        ensures derives { DerivesLemmas (terms_watched table.old self.old.theory)
            (derived table.old log.old) (derived table.new log.new) }
        ensures steps { IfOk result (λ steps. AreStepsOf log.new steps.items) }
    {
        let tableau = self.assignment.tableau();
        let rows = self
            .due_rows
            .after(self.alloc, &self.bounds, tableau, self.told)?;
        self.told = self.bounds.held_len();
        let hints = self.hints(trail, &rows)?;
        self.due_rows.note_uses(&hints);
        self.lemmas(table, log, &hints)
    }
}
