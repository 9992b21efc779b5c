//! Steps by which a clause is stated, and those that turn the first term into a premise.

ghost use Rattle.std.specs.Prelude.{◌≡◌, ◌≢◌, [], ◌∷◌, map, All, MatchBool, MatchOption};
ghost use Rattle.spec_sorts.specs.Terms.{Truth, sort_of, all_same};
ghost use Rattle.spec_rules.specs.Rules.{IsStated, IsTurned};
ghost use Rattle.term_core.specs.declared.ids.TermId.{TermId as Number};
ghost use Rattle.term_core.specs.Tables.{IsIn, AreIn, term_at, clause_at, head_meant};
ghost use Rattle.clause_literals.specs.Literals.{Tests};
ghost use Rattle.rule_bool.specs.Schemes.{scheme_seen, IsStating, IsTurning, GivesRest, HasScheme, IsExact, JudgesRule};

use crate::rests::has_rest;
use crate::scheme_table::{Scheme, scheme_of, turned_scheme_of};
use crate::within::alone;
use clause_literals::{turned_without_sign, without_sign};
use spec_proofs::{Rest, Rule};
use term_core::{Clause, Head, Node, RuleFails, Sort, TermId, TermTable};

/// Tells whether a node has a head.
fn has_head(node: &Node, head: Head) -> bool
    ensures { MatchBool result (node.now.head ≡ head) (node.now.head ≢ head) }
{
    node.head == head
}

/// Tells whether each term has the sort Bool. It takes no memory, and time in proportion to their number.
///
/// Source: SMT-LIB 2.6, section 5.2.
pub fn are_formulas(table: &TermTable, ids: &[TermId]) -> bool
    requires { AreIn table.now ids.now }
    ensures { result ≡ all_same Truth (map sort_of (clause_at table.now ids.now)) }
{
    'terms: for id in ids.iter() {
        if table.sort(*id) != Sort::Bool {
            return false;
        }
    }
    true
}

/// Tells whether a term has a head before arguments of sort Bool, and terms may come after it.
fn gives_rest(table: &TermTable, head: Head, rest: Rest, id: TermId, behind: &[TermId]) -> bool
    requires form { IsStating head rest }
    requires id { IsIn table.now id }
    requires behind { AreIn table.now behind.now }
    ensures { Tests (GivesRest (head_meant table.now head) rest (term_at table.now id)
        (clause_at table.now behind.now)) result }
{
    let node = table.node(id);
    if !has_head(node, head) {
        return false;
    }
    let arguments = node.arguments.as_slice();
    if !are_formulas(table, arguments) {
        return false;
    }
    has_rest(table, rest, arguments, behind)
}

/// Judges a step without premises, whose clause a term of the head gives.
pub(crate) fn stated(
    table: &TermTable,
    scheme: Scheme,
    premises: &[Clause],
    clause: &[TermId],
) -> Result<(), RuleFails>
    requires form { IsStating scheme.head scheme.rest }
    requires clause { AreIn table.now clause.now }
    ensures { IsExact (IsStated (scheme_seen table.now scheme) (map (clause_at table.now) premises.now)
        (clause_at table.now clause.now)) result }
{
    if !premises.is_empty() {
        return Err(RuleFails);
    }
    let Some((front, behind)) = clause.split_first() else {
        return Err(RuleFails);
    };
    let Some(id) = without_sign(table, scheme.positive, *front) else {
        return Err(RuleFails);
    };
    if gives_rest(table, scheme.head, scheme.rest, id, behind) {
        return Ok(());
    }
    Err(RuleFails)
}

/// Gives the one term of the one premise, or nothing where there is no such.
fn term_alone(premises: &[Clause]) -> Option<TermId>
    ensures { MatchOption result ((u : Number) → premises.now ≢ (u ∷ []) ∷ []) (λ u. premises.now ≡ (u ∷ []) ∷ []) }
{
    let [premise] = premises else {
        return None;
    };
    alone(premise.as_slice())
}

/// Judges a step by one premise of one term, whose complement before the clause gives what a term of the head gives.
pub(crate) fn turned(
    table: &TermTable,
    scheme: Scheme,
    premises: &[Clause],
    clause: &[TermId],
) -> Result<(), RuleFails>
    requires form { IsTurning scheme.head scheme.rest }
    requires premises { All (AreIn table.now) premises.now }
    requires clause { AreIn table.now clause.now }
    ensures { IsExact (IsTurned (scheme_seen table.now scheme) (map (clause_at table.now) premises.now)
        (clause_at table.now clause.now)) result }
{
    let Some(front) = term_alone(premises) else {
        return Err(RuleFails);
    };
    let Some(id) = turned_without_sign(table, scheme.positive, front) else {
        return Err(RuleFails);
    };
    if gives_rest(table, scheme.head, scheme.rest, id, clause) {
        return Ok(());
    }
    Err(RuleFails)
}

/// Judges a step of a rule that has a scheme.
pub(crate) fn by_scheme(
    table: &TermTable,
    rule: Rule,
    premises: &[Clause],
    clause: &[TermId],
) -> Result<(), RuleFails>
    requires rule { HasScheme rule }
    requires premises { All (AreIn table.now) premises.now }
    requires clause { AreIn table.now clause.now }
    ensures { JudgesRule table.now rule premises.now clause.now result }
{
    if let Some(scheme) = scheme_of(rule) {
        return stated(table, scheme, premises, clause);
    }
    let Some(scheme) = turned_scheme_of(rule) else {
        return Err(RuleFails);
    };
    turned(table, scheme, premises, clause)
}
