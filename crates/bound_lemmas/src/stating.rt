//! The step of the clause that some literals do not all hold, where the rule `la_generic` takes it.

ghost use Rattle.std.specs.Prelude.{◌≡◌, [], ◌∷◌, List, IfOk, IfSome, IfNone, MatchResult};
ghost use Rattle.spec_sorts.specs.Terms.{Term};
ghost use Rattle.proof_log.specs.Logs.{IsLogOf};
ghost use Rattle.proof_log.specs.Theories.{DerivesLemmas};
ghost use Rattle.proof_log.specs.Clashes.{IsClash};
ghost use Rattle.bound_lemmas.specs.Literals.{IsAtomOf};
ghost use Rattle.simplex_explain.specs.Reasons.{AreAtomReasons, AreHeld};
ghost use Rattle.bound_lemmas.specs.Pairs.{IsNotTaken, IsRefused};
ghost use Rattle.term_core.specs.declared.ids.Lit.{Lit};

use crate::pair::BoundPair;
use no_memory::NoMemory;
use proof_log::{ProofLog, StepId};
use ratio128::Ratio;
use simplex_explain::{ArithFault, Weighted, refute};
use std::alloc::Global;
use term_core::TermTable;

/// Logs that some literals do not all hold, where the rule `la_generic` takes that clause with their weights, and gives the number of
/// the step: each literal of its clause is false under them.
///
/// Terms and steps that come are lemmas. Nothing is given where the rule does not take the clause, and where a number leaves 128 bits;
/// then nothing came. `NoMemory` comes where memory ran out; then table and log are as they were.
pub fn excluding_all(
    alloc: Global,
    table: &mut TermTable,
    log: &mut ProofLog,
    reasons: &[Weighted],
) -> Result<Option<StepId>, NoMemory>
    ghost terms: { List Term }
    requires log { IsLogOf table.old log.old }
    requires reasons { AreAtomReasons terms table.old reasons.now }
    ensures derives { MatchResult result
        (λ _. DerivesLemmas terms (record { table = table.old; log = log.old })
        (record { table = table.new; log = log.new }))
        (λ _. (table.new ≡ table.old) × (log.new ≡ log.old)) }
    ensures clash { IfOk result (λ found. IfSome found (λ step.
        (held : List Lit) → AreHeld held reasons.now → IsClash table.new log.new held step)) }
    ensures none { IfOk result (λ found. IfNone found
        ((table.new ≡ table.old) × (log.new ≡ log.old) × IsRefused table.old reasons.now)) }
{
    match refute(alloc, table, log, reasons) {
        Ok(step) => Ok(Some(step)),
        Err(ArithFault::Memory) => Err(NoMemory),
        Err(ArithFault::Wide(_)) => Ok(None),
        Err(ArithFault::Shape) => Ok(None),
        Err(ArithFault::NoContradiction) => Ok(None),
    }
}

/// Logs that the literals of a pair do not both hold, where the rule `la_generic` takes that clause with the weights 1 and the pair's,
/// and gives the number of the step: each literal of its clause is false under the two.
///
/// Terms and steps that come are lemmas. Nothing is given where the rule does not take the clause, and where a number leaves 128 bits;
/// then nothing came. `NoMemory` comes where memory ran out; then table and log are as they were.
pub fn excluding(
    alloc: Global,
    table: &mut TermTable,
    log: &mut ProofLog,
    pair: BoundPair,
) -> Result<Option<StepId>, NoMemory>
    ghost terms: { List Term }
    requires log { IsLogOf table.old log.old }
    requires first { IsAtomOf terms table.old pair.first }
    requires second { IsAtomOf terms table.old pair.second }
    ensures derives { MatchResult result
        (λ _. DerivesLemmas terms (record { table = table.old; log = log.old })
        (record { table = table.new; log = log.new }))
        (λ _. (table.new ≡ table.old) × (log.new ≡ log.old)) }
    ensures clash { IfOk result (λ found. IfSome found
        (IsClash table.new log.new (pair.first ∷ pair.second ∷ []))) }
    ensures none { IfOk result (λ found. IfNone found
        ((table.new ≡ table.old) × (log.new ≡ log.old) × IsNotTaken table.old pair)) }
{
    let reasons = [
        Weighted {
            literal: pair.first,
            weight: Ratio::of(1, 1),
        },
        Weighted {
            literal: pair.second,
            weight: pair.weight,
        },
    ];
    excluding_all(alloc, table, log, &reasons)
}
