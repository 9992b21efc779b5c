//! Choices between terms of another sort than Bool: their parts, the equalities with these, and their clauses.

ghost use Rattle.std.specs.Prelude.{◌≡◌, ◌≢◌, [], ◌∷◌, IfOk, OnOk, MatchBool, MatchOption};
ghost use Rattle.spec_text.specs.Trees.{none};
ghost use Rattle.spec_sorts.specs.Terms.{Truth, sort_of};
ghost use Rattle.spec_rules.specs.Rules.{IsRight};
ghost use Rattle.spec_derivations.specs.Base.{choice_clauses};
ghost use Rattle.term_core.specs.Tables.{term_at, IsIn};
ghost use Rattle.proof_log.specs.Logs.{IsFormulaIn, IsLogOf};
ghost use Rattle.proof_log.specs.Theories.{IsTermIn};
ghost use Rattle.term_clauses.specs.Growth.{Grows};
ghost use Rattle.term_clauses.specs.Stating.{Widens, NamesTerm, listed_steps, Tells};
ghost use Rattle.term_clauses.specs.Choices.{AreComparable, equality_at, IsNoChoice, IsIteTerm};

use crate::signs::signed;
use crate::steps::state;
use no_memory::NoMemory;
use proof_log::{ProofLog, Rule, StepId};
use std::alloc::Global;
use term_core::{Head, Node, Sort, TermId, TermTable};

/// Names the parts of a choice between terms of another sort than Bool.
///
/// Source: SMT-LIB 2.6, theory Core, `ite`.
#[derive(Clone, Copy)]
pub(crate) struct IteParts {
    /// The formula that chooses.
    pub(crate) condition: TermId,
    /// The term where that is true.
    pub(crate) first: TermId,
    /// The term where it is false.
    pub(crate) second: TermId,
}

/// Gives the parts of a choice between terms of another sort than Bool; `None` where the term is none.
pub(crate) fn choice_of(table: &TermTable, id: TermId) -> Option<IteParts>
    requires { IsTermIn table.now id }
    ensures { MatchOption result (IsNoChoice (term_at table.now id)) (λ x. IsIteTerm table.now id x) }
{
    if is_formula(table, id) {
        return None;
    }
    let node = table.node(id);
    let arguments = node.arguments.as_slice();
    match node.head {
        Head::Ite => Some(IteParts {
            condition: arguments[0],
            first: arguments[1],
            second: arguments[2],
        }),
        _ => None,
    }
}

/// Tells whether a term has the sort Bool.
fn is_formula(table: &TermTable, id: TermId) -> bool
    requires { IsIn table.now id }
    ensures { MatchBool result (sort_of (term_at table.now id) ≡ Truth) (sort_of (term_at table.now id) ≢ Truth) }
{
    table.sort(id) == Sort::Bool
}

/// Puts the equality of two terms of one sort, or finds it.
pub fn equality(
    alloc: Global,
    table: &mut TermTable,
    a: TermId,
    b: TermId,
) -> Result<TermId, NoMemory>
    requires { AreComparable table.old a b }
    ensures wider { Widens table.old table.new }
    ensures means { IfOk result (NamesTerm table.new (equality_at table.old a b)) }
{
    let node = Node::new(alloc, Head::Equal, &[a, b])?;
    table.put(node)
}

/// States the two clauses of a choice between terms of another sort than Bool; other terms have none.
pub fn state_choice(
    alloc: Global,
    table: &mut TermTable,
    log: &mut ProofLog,
    steps: &mut Vec<StepId>,
    id: TermId,
) -> Result<(), NoMemory>
    requires there { IsTermIn table.old id }
    requires log { IsLogOf table.old log.old }
    ensures grows { Grows [] table.old table.new log.old log.new }
    ensures tells { OnOk result (Tells (listed_steps table.old log.old steps.old.items)
        (listed_steps table.new log.new steps.new.items) (choice_clauses (term_at table.old id))) }
{
    proof_log::laws::logs_hold_in_grown_tables();
    let Some(choice) = choice_of(table, id) else {
        return Ok(());
    };
    let denied = signed(alloc, table, choice.condition, false)?;
    state_branch(
        alloc,
        table,
        log,
        steps,
        Rule::IteThen,
        denied,
        id,
        choice.first,
    )?;
    state_branch(
        alloc,
        table,
        log,
        steps,
        Rule::IteElse,
        choice.condition,
        id,
        choice.second,
    )
}

/// States the clause of a formula and the equality of a choice with one of its terms.
fn state_branch(
    alloc: Global,
    table: &mut TermTable,
    log: &mut ProofLog,
    steps: &mut Vec<StepId>,
    rule: Rule,
    front: TermId,
    id: TermId,
    branch: TermId,
) -> Result<(), NoMemory>
    requires front { IsFormulaIn table.old front }
    requires sides { AreComparable table.old id branch }
    requires log { IsLogOf table.old log.old }
    requires right { IsRight rule [] none (term_at table.old front ∷ equality_at table.old id branch ∷ []) }
    ensures grows { Grows [] table.old table.new log.old log.new }
    ensures tells { OnOk result (Tells (listed_steps table.old log.old steps.old.items)
        (listed_steps table.new log.new steps.new.items)
        ((term_at table.old front ∷ equality_at table.old id branch ∷ []) ∷ [])) }
{
    proof_log::laws::logs_hold_in_grown_tables();
    let equal = equality(alloc, table, id, branch)?;
    let clause = vec![in alloc; front, equal]?;
    state(alloc, table, log, steps, rule, clause)
}
