//! Literals that follow from those that are held, each shown by a lemma.

ghost use Rattle.std.specs.Prelude.{◌≡◌, ◌<◌, length, Contains, IfOk, IfSome};
ghost use Rattle.proof_log.specs.Logs.{AreStepsOf, IsLogOf};
ghost use Rattle.proof_log.specs.Theories.{IsAtomIn, IsTheoryOver, derived, terms_watched, DerivesLemmas};
ghost use Rattle.congruence_relation.specs.Relation.{AreFactsOf};
ghost use Rattle.congruence.specs.Views.{theory_of};

use crate::theory::explain_conflict;
use congruence_closure::Closure;
use no_memory::NoMemory;
use proof_log::{ProofLog, StepId, is_atom};
use sat_trail::SatTrail;
use std::alloc::Global;
use term_core::{Lit, TermId, TermTable};

/// Explains the conflict that a closure comes to, if it comes to one. Where memory runs out, table and log are as they were.
fn explain_found(
    alloc: Global,
    table: &mut TermTable,
    log: &mut ProofLog,
    closure: &mut Closure,
) -> Result<Option<StepId>, NoMemory>
    requires over { IsTheoryOver table.old (theory_of closure.old) }
    requires with { AreFactsOf table.old closure.old.now.facts }
    requires log { IsLogOf table.old log.old }
    ensures facts { closure.new.now.facts ≡ closure.old.now.facts }
    ensures marks { closure.new.marks ≡ closure.old.marks }
    ensures derives { DerivesLemmas (terms_watched table.old (theory_of closure.old)) (derived table.old log.old)
        (derived table.new log.new) }
    ensures there { IfOk result (λ found. IfSome found (λ step. step.0 < length log.new)) }
{
    let Some(conflict) = closure.saturate()? else {
        return Ok(None);
    };
    let step = explain_conflict(alloc, table, log, closure, conflict)?;
    Ok(Some(step))
}

/// Logs a lemma of which held literals and this one are the complements, if they cannot all be true. It holds the literal as well, and
/// goes back. `NoMemory` comes where memory ran out; then table and log are as they were.
fn show(
    alloc: Global,
    table: &mut TermTable,
    log: &mut ProofLog,
    closure: &mut Closure,
    denied: Lit,
) -> Result<Option<StepId>, NoMemory>
    requires over { IsTheoryOver table.old (theory_of closure.old) }
    requires with { AreFactsOf table.old closure.old.now.facts }
    requires log { IsLogOf table.old log.old }
    requires watched { Contains (theory_of closure.old).watched denied.term }
    requires new { Contains (theory_of closure.old).held denied → ⊥ }
    requires atom { IsAtomIn table.old denied.term }
    ensures now { closure.new.now ≡ closure.old.now }
    ensures marks { closure.new.marks ≡ closure.old.marks }
    ensures derives { DerivesLemmas (terms_watched table.old (theory_of closure.old)) (derived table.old log.old)
        (derived table.new log.new) }
    ensures there { IfOk result (λ found. IfSome found (λ step. step.0 < length log.new)) }
{
    closure.mark()?;
    closure.hold(denied);
    let shown = explain_found(alloc, table, log, closure);
    closure.back(1);
    shown
}

/// Gives the literal that cannot be true of a term, by the classes, where the term is a watched atom without a value on the trail.
fn denied_by(table: &TermTable, trail: &SatTrail, closure: &Closure, t: TermId) -> Option<Lit>
    requires over { IsTheoryOver table.now (theory_of closure.now) }
    ensures watched { IfSome result (λ l. Contains (theory_of closure.now).watched l.term) }
    ensures new { IfSome result (λ l. Contains trail.now.literals l → ⊥) }
    ensures atom { IfSome result (λ l. IsAtomIn table.now l.term) }
{
    let _place = closure.place_of(t)?;
    if t.0 >= trail.vars() || !is_atom(table, t) {
        return None;
    }
    let positive = closure.truth(t)?;
    let denied = Lit {
        term: t,
        positive: !positive,
    };
    match trail.value(denied) {
        None => Some(denied),
        Some(_) => None,
    }
}

/// Lists the lemma by which a term is true or false, where the classes say so and the trail does not.
fn imply(
    alloc: Global,
    table: &mut TermTable,
    log: &mut ProofLog,
    trail: &SatTrail,
    closure: &mut Closure,
    t: TermId,
    steps: &mut Vec<StepId>,
) -> Result<(), NoMemory>
    requires over { IsTheoryOver table.old (theory_of closure.old) }
    requires with { AreFactsOf table.old closure.old.now.facts }
    requires log { IsLogOf table.old log.old }
    requires held { (theory_of closure.old).held ≡ trail.now.literals }
    requires steps { AreStepsOf log.old steps.old.items }
    ensures now { closure.new.now ≡ closure.old.now }
    ensures marks { closure.new.marks ≡ closure.old.marks }
    ensures derives { DerivesLemmas (terms_watched table.old (theory_of closure.old)) (derived table.old log.old)
        (derived table.new log.new) }
    ensures steps { AreStepsOf log.new steps.new.items }
{
    let Some(denied) = denied_by(table, trail, closure, t) else {
        return Ok(());
    };
    let Some(step) = show(alloc, table, log, closure, denied)? else {
        return Ok(());
    };
    steps.push(step)?;
    Ok(())
}

/// Lists lemmas by which noted terms are true or false, and puts them into the log. What it is about is as it was.
///
/// `NoMemory` comes where a list, a term or a step finds no memory. Then some of the lemmas are there.
pub(crate) fn implied_steps(
    alloc: Global,
    table: &mut TermTable,
    log: &mut ProofLog,
    trail: &SatTrail,
    closure: &mut Closure,
) -> Result<Vec<StepId>, NoMemory>
    requires over { IsTheoryOver table.old (theory_of closure.old) }
    requires with { AreFactsOf table.old closure.old.now.facts }
    requires log { IsLogOf table.old log.old }
    requires held { (theory_of closure.old).held ≡ trail.now.literals }
    ensures now { closure.new.now ≡ closure.old.now }
    ensures marks { closure.new.marks ≡ closure.old.marks }
    ensures derives { DerivesLemmas (terms_watched table.old (theory_of closure.old)) (derived table.old log.old)
        (derived table.new log.new) }
    ensures steps { IfOk result (λ steps. AreStepsOf log.new steps.items) }
{
    let terms = Vec::from_slice(alloc, closure.noted())?;
    let mut steps = Vec::new(alloc);
    'terms: for t in &terms {
        imply(alloc, table, log, trail, closure, *t, &mut steps)?;
    }
    closure.forget_noted();
    Ok(steps)
}
