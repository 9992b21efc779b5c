//! Resolution of clauses of the table of terms.

ghost use Rattle.std.specs.Prelude.{map, IfOk, All, MatchResult};
ghost use Rattle.spec_rules.specs.Clauses.{IsResolvent};
ghost use Rattle.term_core.specs.Tables.{AreIn, clause_at};
ghost use Rattle.clause_literals.specs.Literals.{lists};
ghost use Rattle.rule_bool.specs.Resolvents.{MeansEach, StopsRule};

use crate::rule_stop::RuleStop;
use clause_literals::{literals_of, resolves};
use std::alloc::{AllocError, Global};
use term_core::{Clause, Lit, TermId, TermTable};

/// Gives the literals of each premise.
fn premises_of(
    alloc: Global,
    table: &TermTable,
    premises: &[Clause],
) -> Result<Vec<Vec<Lit>>, AllocError>
    requires { All (AreIn table.now) premises.now }
    ensures { IfOk result (λ v. MeansEach table.now (lists v.items) (map (clause_at table.now) premises.now)) }
{
    let mut found = Vec::new(alloc);
    for premise in premises {
        found.push(literals_of(alloc, table, premise.as_slice())?)?;
    }
    Ok(found)
}

/// Judges a step of the rule `resolution`, or of `th_resolution`, which is the same.
///
/// Any number of premises, in any order, more than once, or for nothing; the conclusion is any clause that unit propagation over them
/// refutes, beginning with the complement of each of its literals. A literal is a term without its leading negations, with the parity
/// of their number. A clause counts as the set of its literals, and one with a literal and its complement needs no premise; `false` is
/// a literal as any other. It is sound, since what is propagated is true where the premises are true and the conclusion is not, and no
/// literal is true with its complement. Premises and clause give their terms by their numbers in the table.
///
/// Time and memory go in proportion to the literals of premises and clause with their negations, in any order, as far as look-ups by
/// hash take a time of their own.
///
/// `Fails` comes exactly where propagation reaches no conflict; `Memory` where memory runs out, which tells nothing of the step.
/// Nothing is changed. Source: Alethe specification, rules `resolution` and `th_resolution`; unit propagation in the place of a chain
/// is own.
pub fn resolution(
    alloc: Global,
    table: &TermTable,
    premises: &[Clause],
    clause: &[TermId],
) -> Result<(), RuleStop>
    requires premises { All (AreIn table.now) premises.now }
    requires clause { AreIn table.now clause.now }
    ensures { MatchResult result
        (λ _. IsResolvent (map (clause_at table.now) premises.now) (clause_at table.now clause.now))
        (λ stop. StopsRule stop (IsResolvent (map (clause_at table.now) premises.now) (clause_at table.now clause.now))
        ⊥) }
{
    let found = premises_of(alloc, table, premises)?;
    let wanted = literals_of(alloc, table, clause)?;
    table.ids_are_unique();
    if resolves(alloc, &found, &wanted)? {
        return Ok(());
    }
    Err(RuleStop::Fails)
}
