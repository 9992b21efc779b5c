//! The clause of a conflict.

ghost use Rattle.std.specs.Prelude.{◌≡◌, true, false, [], ◌∷◌, ◌++◌, Contains, IfOk, OnOk, OnErr, MatchBool};
ghost use Rattle.congruence_relation.specs.Relation.{Facts, terms_listed};
ghost use Rattle.congruence_relation.specs.Edges.{IsConflict};
ghost use Rattle.proof_log.specs.Logs.{IsLogOf};
ghost use Rattle.proof_log.specs.Clashes.{IsClash};
ghost use Rattle.proof_log.specs.Theories.{DerivesLemmas, derived};
ghost use Rattle.congruence_explain.specs.Claims.{value_claim};
ghost use Rattle.congruence_explain.specs.Basis.{IsBasis, AreLinkedIn, IsEqualityIn, HasLinkedSides, AreTruths};
ghost use Rattle.congruence_explain.specs.Steps.{Start, begun, spoken, Explains, setting, steps_since, IsExplained, others_of, apart};
ghost use Rattle.term_core.specs.declared.ids.TermId.{TermId as Number};

use crate::choosing::put_needed;
use crate::claims::{SignedClaim, equality, is_denial, unequality, value_claimed};
use crate::collecting::collect;
use crate::putting::put_alone;
use congruence_relation::{Conflict, Truths};
use explain_forest::Forest;
use no_memory::NoMemory;
use proof_log::{ProofLog, Rule, StepId};
use std::alloc::Global;
use term_core::{TermId, TermTable};

/// Gives the sides of an equality.
fn sides(table: &TermTable, e: TermId) -> (TermId, TermId)
    requires { (a : Number) × (b : Number) × IsEqualityIn table.now e a b }
    ensures { IsEqualityIn table.now e result.0 result.1 }
{
    let arguments = table.node(e).arguments.as_slice();
    (arguments[0], arguments[1])
}

/// Tells whether claims have the negation of an atom.
fn denies(stated: &[SignedClaim], e: TermId) -> bool
    ensures { MatchBool result (Contains stated.now (value_claim e false))
        (Contains stated.now (value_claim e false) → ⊥) }
{
    'claims: for s in stated {
        if is_denial(*s, e) {
            return true;
        }
    }
    false
}

/// Logs why the sides of an equality are equal. The last clause has this equality, whose negation is held.
///
/// Where the equality is held too, the step is one by `eq_transitive`.
fn explain_sides(
    alloc: Global,
    table: &mut TermTable,
    log: &mut ProofLog,
    forest: &Forest,
    truths: Truths,
    e: TermId,
) -> Result<StepId, NoMemory>
    ghost start: { Start }
    requires start { begun start ≡ derived table.old log.old }
    requires log { IsLogOf table.old log.old }
    requires basis { IsBasis start.table truths forest.now.now start.facts }
    requires sides { HasLinkedSides (spoken start) start.table forest.now.now e }
    ensures derives { Explains start (derived table.new log.new) }
    ensures step { IfOk result (IsExplained (setting start.table truths forest.now.now) (derived table.new log.new)
        (value_claim e true ∷ [])) }
{
    table.ids_are_unique();
    let from = log.len();
    let (a, b) = sides(table, e);
    let mut stated = collect(alloc, table, log, forest, truths, a, b)?;
    if denies(&stated, e) {
        let clause = [unequality(a, b), equality(a, b)];
        return put_alone(alloc, table, log, Rule::EqTransitive, &clause);
    }
    stated.push(value_claimed(e, true))?;
    put_needed(alloc, table, log, from, &stated)
}

/// Logs that `true` and `false` are not equal: by `equiv_pos2`, `true` and `false`.
fn tell_apart(
    alloc: Global,
    table: &mut TermTable,
    log: &mut ProofLog,
    truths: Truths,
) -> Result<(), NoMemory>
    ghost start: { Start }
    requires derives { Explains start (derived table.old log.old) }
    requires truths { AreTruths start.table truths }
    ensures derives { Explains start (derived table.new log.new) }
    ensures steps { OnOk result (steps_since start (derived table.new log.new)
        ≡ steps_since start (derived table.old log.old) ++ apart start.table truths) }
{
    let yes = truths.true_term;
    let no = truths.false_term;
    let clause = [
        unequality(yes, no),
        value_claimed(yes, false),
        value_claimed(no, true),
    ];
    put_alone(alloc, table, log, Rule::EquivPos2, &clause)?;
    put_alone(alloc, table, log, Rule::True, &[value_claimed(yes, true)])?;
    put_alone(alloc, table, log, Rule::False, &[value_claimed(no, false)])?;
    Ok(())
}

/// Logs why `true` and `false` are equal, and that they are not.
fn explain_truths(
    alloc: Global,
    table: &mut TermTable,
    log: &mut ProofLog,
    forest: &Forest,
    truths: Truths,
) -> Result<StepId, NoMemory>
    ghost start: { Start }
    requires start { begun start ≡ derived table.old log.old }
    requires log { IsLogOf table.old log.old }
    requires basis { IsBasis start.table truths forest.now.now start.facts }
    requires truths { AreTruths start.table truths }
    requires linked { AreLinkedIn (spoken start) start.table forest.now.now truths.true_term truths.false_term }
    ensures derives { Explains start (derived table.new log.new) }
    ensures step { IfOk result (IsExplained (setting start.table truths forest.now.now) (derived table.new log.new)
        []) }
{
    let from = log.len();
    let stated = collect(
        alloc,
        table,
        log,
        forest,
        truths,
        truths.true_term,
        truths.false_term,
    )?;
    tell_apart(alloc, table, log, truths)?;
    put_needed(alloc, table, log, from, &stated)
}

/// Logs why a conflict is one. Where memory runs out, the terms and steps that it has put stay.
fn explained(
    alloc: Global,
    table: &mut TermTable,
    log: &mut ProofLog,
    forest: &Forest,
    truths: Truths,
    conflict: Conflict,
) -> Result<StepId, NoMemory>
    ghost facts: { Facts }
    requires log { IsLogOf table.old log.old }
    requires basis { IsBasis table.old truths forest.now.now facts }
    requires conflict { IsConflict facts forest.now.now.edges conflict }
    ensures derives { DerivesLemmas (terms_listed table.old facts) (derived table.old log.old)
        (derived table.new log.new) }
    ensures step { IfOk result (IsExplained (setting table.old truths forest.now.now) (derived table.new log.new)
        (others_of conflict)) }
{
    match conflict {
        Conflict::Truths => explain_truths(alloc, table, log, forest, truths),
        Conflict::Sides(e) => explain_sides(alloc, table, log, forest, truths, e),
    }
}

/// Logs why a conflict is one, and gives the number of the last step, whose clause is false under what is held.
///
/// Each literal of that clause is the complement of a held one. The conflict is that `true` and `false` are linked, or the sides of an
/// equality whose negation is held.
///
/// It tells the path between the two terms, and why each edge is there that is needed. A held literal is denied in the last clause. Terms
/// with one head are equal by `eq_congruent`, and their arguments by `eq_transitive`, where a path is more than an edge that says so.
/// The last clause is what a chain of resolutions over these steps gives, and no more. No step is judged as it is logged. Equalities and negations that
/// the clauses need come into the table. All steps that come are lemmas: they depend on each other alone, and speak of terms made of
/// the listed ones.
///
/// Conditions: the log is right over the table, the edges of the forest represent the facts, and these have the conflict. With each
/// listed term its arguments are listed.
///
/// An equality may be held and follow from others that are held too, so the denials of all that were told may be more than a chain gives.
/// Which of them the last clause needs, unit propagation over the steps tells, and the way back from where it ends.
///
/// It takes time and memory in proportion to the paths that it tells, and the arguments of the applications on them. Its time is also that
/// of the climbs which find the paths, and each edge on a path takes the logarithm of how many edges wait to be explained. Propagation goes
/// from the last step to the first, and looks again at those that wait for others, which are few in this order. `NoMemory` comes where a
/// set, a list, a term or a step finds no memory; then table and log are as they were.
/// Source: Nieuwenhuis and Oliveras, Information and Computation 205, 2007; Alethe specification, rules of equality.
pub fn explain(
    alloc: Global,
    table: &mut TermTable,
    log: &mut ProofLog,
    forest: &Forest,
    truths: Truths,
    conflict: Conflict,
) -> Result<StepId, NoMemory>
    ghost facts: { Facts }
    requires log { IsLogOf table.old log.old }
    requires basis { IsBasis table.old truths forest.now.now facts }
    requires conflict { IsConflict facts forest.now.now.edges conflict }
    ensures derives { OnOk result
        (DerivesLemmas (terms_listed table.old facts) (derived table.old log.old) (derived table.new log.new)) }
    ensures clash { IfOk result (IsClash table.new log.new facts.held) }
    ensures same { OnErr result ((table.new ≡ table.old) × (log.new ≡ log.old)) }
{
    let terms = table.len();
    let steps = log.len();
    match explained(alloc, table, log, forest, truths, conflict) {
        Ok(step) => {
            table.ids_are_unique();
            Ok(step)
        }
        Err(NoMemory) => {
            log.cut(steps);
            table.cut(terms);
            Err(NoMemory)
        }
    }
}
