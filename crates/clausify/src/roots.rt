//! The clauses that a search for terms begins with, or goes on with, and the terms that it speaks of.

ghost use Rattle.std.specs.Prelude.{◌≡◌, ◌≤◌, [], ◌∷◌, length, map, flat_map, All, IfOk, IfErr, OnOk, OnErr};
ghost use Rattle.spec_sorts.specs.WellSorted.{IsWellSorted};
ghost use Rattle.spec_derivations.specs.Base.{defining_clauses};
ghost use Rattle.spec_derivations.specs.Orders.{whole_clauses_of};
ghost use Rattle.term_core.specs.Tables.{term_at, clause_at, AreIn};
ghost use Rattle.proof_log.specs.Logs.{IsFormulaIn, AreFormulasIn, IsLogOf};
ghost use Rattle.proof_log.specs.Theories.{IsTermIn};
ghost use Rattle.term_clauses.specs.Growth.{Grows, AreAllMade};
ghost use Rattle.term_clauses.specs.Stating.{listed_steps, Tells};
ghost use Rattle.term_clauses.specs.Marks.{marked};
ghost use Rattle.term_clauses.specs.SpokenTerms.{problem_in};
ghost use Rattle.clausify.specs.HavingClauses.{HasClauses, HasClausesOf};
ghost use Rattle.clausify.specs.SearchTerms.{AreSearchTerms, AreNewTerms};
ghost use Rattle.clausify.specs.Overflows.{IsOrderOverflow, OnClauseOverflow};
ghost use Rattle.spec_causes.specs.Checks.{IsOverflowAmong};

use crate::known::unmark;
use crate::ordered::ordered_of;
use crate::orders::state_orders;
use crate::stated::Stated;
use crate::stop::ClauseStop;
use no_memory::NoMemory;
use proof_log::{ProofLog, StepId, StepIds};
use spec_sorts::subterms::subterms_are_least;
use std::alloc::Global;
use std::slice;
use term_clauses::choices::state_choice;
use term_clauses::marks::{marked_ids, marks_of};
use term_clauses::statements::state_term;
use term_core::{TermId, TermTable};

/// Makes the clauses that a search for a term begins with, and lists the terms that they speak of: `clauses_of_all` for
/// one term alone.
///
/// The term must be a formula, and the log one over the table. The equalities of the search, its orders, and negations
/// that clauses need, come into the table.
///
/// Where it is called for one term after the other, a term that their searches share gets its clauses again for each,
/// and each call takes time and memory in proportion to the table, however few subterms its term has. So several terms
/// want `clauses_of_all`.
///
/// `Wide` comes where the forms of an equality's sides, or their sum, leave the bound on numbers, and `Memory` where a
/// clause or a term of it finds no memory; then table and log are as they were.
/// Source: Tseitin 1968; Alethe specification, the rules without premises; the rules of choices, and which orders a
/// search speaks of, are own.
pub fn clauses_of(
    alloc: Global,
    table: &mut TermTable,
    log: &mut ProofLog,
    root: TermId,
) -> Result<Stated, ClauseStop>
    requires root { IsFormulaIn table.old root }
    requires log { IsLogOf table.old log.old }
    ensures clauses { IfOk result (λ x. HasClauses table.new log.new (problem_in table.old (root ∷ []) []) x.steps) }
    ensures terms { IfOk result (λ x. AreSearchTerms table.new (problem_in table.old (root ∷ []) []) x.terms.items) }
    ensures made { IfOk result (λ x. AreAllMade log.old log.new x.steps) }
    ensures grown { OnOk result (Grows (root ∷ []) table.old table.new log.old log.new) }
    ensures same { OnErr result ((table.new ≡ table.old) × (log.new ≡ log.old)) }
    ensures wide { IfErr result (OnClauseOverflow (IsOrderOverflow (problem_in table.old (root ∷ []) []))) }
{
    clauses_of_all(alloc, table, log, slice::from_ref(&root), &[])
}

/// Makes the clauses that a search for terms begins with, which say together that each of these is true, and lists the
/// terms that they speak of.
///
/// Each of the terms is assumed. The search speaks of them, and of the interface equalities, which need not be true. It
/// speaks of `(= (not true) false)` and `(= (not false) true)`, and of `(= (ite c s t) s)` and `(= (ite c s t) t)` for
/// each choice `(ite c s t)` between terms of another sort than Bool among the subterms of both. For each equality
/// `(= s t)` of numbers among the subterms of all these, it speaks of `(or (= s t) (not (<= s t)) (not (<= t s)))`. It
/// speaks of all subterms of these terms too.
///
/// Each term that it speaks of gets the clauses that rules without premises state of it, a shared one once. A term
/// whose arguments are of sort Bool has those of its head. Such a choice has `(cl (not c) (= (ite c s t) s))` and
/// `(cl c (= (ite c s t) t))`. Such an equality has the clause of that disjunction alone, by the rule `la_disequality`,
/// and `(cl (not (= s t)) (<= s t))` and `(cl (not (= s t)) (<= t s))`, by `la_generic`. Other terms have none: what
/// they mean is for a theory.
///
/// It gives the numbers of the clauses, and so of all that came into the log, in order, and the numbers of the terms.
///
/// The terms and the interface equalities must be formulas, and the log one over the table. The equalities, the orders,
/// and negations that clauses need, come into the table.
///
/// Time and memory go in proportion to the number of the table's terms, to the lengths of the clauses, and to the forms
/// of equalities' sides. The clauses by a term's head are not judged: they are right as they are made.
///
/// `Wide` comes where the forms of an equality's sides, or their sum, leave the bound on numbers, and `Memory` where a
/// clause or a term of it finds no memory; then table and log are as they were.
/// Source: Tseitin 1968; Alethe specification, the rules without premises; the rules of choices, and which orders a
/// search speaks of, are own.
pub fn clauses_of_all(
    alloc: Global,
    table: &mut TermTable,
    log: &mut ProofLog,
    roots: &[TermId],
    interface: &[TermId],
) -> Result<Stated, ClauseStop>
    requires roots { AreFormulasIn table.old roots.now }
    requires interface { AreFormulasIn table.old interface.now }
    requires log { IsLogOf table.old log.old }
    ensures clauses { IfOk result
        (λ x. HasClauses table.new log.new (problem_in table.old roots.now interface.now) x.steps) }
    ensures terms { IfOk result
        (λ x. AreSearchTerms table.new (problem_in table.old roots.now interface.now) x.terms.items) }
    ensures made { IfOk result (λ x. AreAllMade log.old log.new x.steps) }
    ensures grown { OnOk result (Grows roots.now table.old table.new log.old log.new) }
    ensures same { OnErr result ((table.new ≡ table.old) × (log.new ≡ log.old)) }
    ensures wide { IfErr result (OnClauseOverflow (IsOrderOverflow (problem_in table.old roots.now interface.now))) }
{
    let stated = clauses_of_new(alloc, table, log, &[], roots, interface);
    subterms_are_least();
    table.ids_are_unique();
    stated
}

/// Makes the clauses with which a search goes on that knows some terms already: those of `clauses_of_all`, but for the
/// clauses of the known terms.
///
/// The known terms must be the table's. What else is given must be as `clauses_of_all` needs it.
///
/// It gives the numbers of the clauses, and so of all that came into the log, in order: first each root's, then those
/// of the terms that are new, in ascending order of their numbers. It gives these numbers, too.
///
/// Time and memory go in proportion to the number of the table's terms, to the lengths of the new clauses, and to the
/// forms of the new equalities' sides. Known terms take time, too, each as often as it is given.
///
/// `Wide` and `Memory` come as of `clauses_of_all`; then table and log are as they were.
pub fn clauses_of_new(
    alloc: Global,
    table: &mut TermTable,
    log: &mut ProofLog,
    known: &[TermId],
    roots: &[TermId],
    interface: &[TermId],
) -> Result<Stated, ClauseStop>
    requires known { AreIn table.old known.now }
    requires roots { AreFormulasIn table.old roots.now }
    requires interface { AreFormulasIn table.old interface.now }
    requires log { IsLogOf table.old log.old }
    ensures clauses { IfOk result (λ x. HasClausesOf table.new log.new roots.now x.terms.items x.steps) }
    ensures terms { IfOk result
        (λ x. AreNewTerms table.new (problem_in table.old roots.now interface.now) known.now x.terms.items) }
    ensures made { IfOk result (λ x. AreAllMade log.old log.new x.steps) }
    ensures grown { OnOk result (Grows roots.now table.old table.new log.old log.new) }
    ensures same { OnErr result ((table.new ≡ table.old) × (log.new ≡ log.old)) }
    ensures wide { IfErr result (OnClauseOverflow (IsOrderOverflow (problem_in table.old roots.now interface.now))) }
{
    let terms = table.len();
    let clauses = log.len();
    match stated_of(alloc, table, log, known, roots, interface) {
        Ok(stated) => Ok(stated),
        Err(stop) => {
            log.cut(clauses);
            table.cut(terms);
            Err(stop)
        }
    }
}

/// Makes the clauses of a search for terms but for those of known ones, and lists its other terms. On a fault what was
/// made stays.
fn stated_of(
    alloc: Global,
    table: &mut TermTable,
    log: &mut ProofLog,
    known: &[TermId],
    roots: &[TermId],
    interface: &[TermId],
) -> Result<Stated, ClauseStop>
    requires roots { AreFormulasIn table.old roots.now }
    requires interface { AreFormulasIn table.old interface.now }
    requires log { IsLogOf table.old log.old }
    requires known { AreIn table.old known.now }
    ensures clauses { IfOk result (λ x. HasClausesOf table.new log.new roots.now x.terms.items x.steps) }
    ensures terms { IfOk result
        (λ x. AreNewTerms table.new (problem_in table.old roots.now interface.now) known.now x.terms.items) }
    ensures made { IfOk result (λ x. AreAllMade log.old log.new x.steps) }
    ensures grows { Grows roots.now table.old table.new log.old log.new }
    ensures wide { IfErr result (OnClauseOverflow (IsOrderOverflow (problem_in table.old roots.now interface.now))) }
{
    proof_log::laws::logs_hold_in_grown_tables();
    let ordered = ordered_of(alloc, table, roots, interface)?;
    table.ids_are_unique();
    let mut marks = marks_of(alloc, table, &ordered)?;
    unmark(&mut marks, known);
    let mut steps = Vec::new(alloc);
    assume_each(table, log, roots, &mut steps)?;
    state_marked(alloc, table, log, &marks, &mut steps)?;
    let terms = marked_ids(alloc, &marks)?;
    Ok(Stated {
        steps: StepIds::from(steps),
        terms,
    })
}

/// Assumes terms, and puts the numbers of their clauses after the others.
fn assume_each(
    table: &TermTable,
    log: &mut ProofLog,
    roots: &[TermId],
    steps: &mut Vec<StepId>,
) -> Result<(), NoMemory>
    requires roots { AreFormulasIn table.now roots.now }
    requires log { IsLogOf table.now log.old }
    ensures grows { Grows roots.now table.now table.now log.old log.new }
    ensures tells { OnOk result (Tells (listed_steps table.now log.old steps.old.items)
        (listed_steps table.now log.new steps.new.items) (map (λ t. t ∷ []) (clause_at table.now roots.now))) }
{
    'roots: for root in roots.iter() {
        steps.push(log.assume(*root)?)?;
    }
    Ok(())
}

/// States the clauses of the marked terms, and puts their numbers after the others.
fn state_marked(
    alloc: Global,
    table: &mut TermTable,
    log: &mut ProofLog,
    marks: &[bool],
    steps: &mut Vec<StepId>,
) -> Result<(), ClauseStop>
    requires short { length marks.now ≤ length table.old.terms }
    requires sorted { All (IsWellSorted table.old.symbols []) (marked marks.now table.old.terms) }
    requires log { IsLogOf table.old log.old }
    ensures grows { Grows [] table.old table.new log.old log.new }
    ensures tells { OnOk result (Tells (listed_steps table.old log.old steps.old.items)
        (listed_steps table.new log.new steps.new.items) (flat_map whole_clauses_of (marked marks.now table.old.terms))) }
    ensures wide { IfErr result (OnClauseOverflow (IsOverflowAmong (marked marks.now table.old.terms))) }
{
    'marks: for number in 0..marks.len() {
        if !marks[number] {
            continue;
        }
        state_whole(alloc, table, log, steps, TermId(number as u64))?;
    }
    Ok(())
}

/// States all clauses that say what a term means, its orders among them, and puts their numbers after the others.
fn state_whole(
    alloc: Global,
    table: &mut TermTable,
    log: &mut ProofLog,
    steps: &mut Vec<StepId>,
    id: TermId,
) -> Result<(), ClauseStop>
    requires there { IsTermIn table.old id }
    requires log { IsLogOf table.old log.old }
    ensures grows { Grows [] table.old table.new log.old log.new }
    ensures tells { OnOk result (Tells (listed_steps table.old log.old steps.old.items)
        (listed_steps table.new log.new steps.new.items) (whole_clauses_of (term_at table.old id))) }
    ensures wide { IfErr result (OnClauseOverflow (IsOverflowAmong (term_at table.old id ∷ []))) }
{
    define(alloc, table, log, steps, id)?;
    state_orders(alloc, table, log, steps, id)
}

/// States the clauses that say what a term means in any search, and puts their numbers after the others.
fn define(
    alloc: Global,
    table: &mut TermTable,
    log: &mut ProofLog,
    steps: &mut Vec<StepId>,
    id: TermId,
) -> Result<(), NoMemory>
    requires there { IsTermIn table.old id }
    requires log { IsLogOf table.old log.old }
    ensures grows { Grows [] table.old table.new log.old log.new }
    ensures tells { OnOk result (Tells (listed_steps table.old log.old steps.old.items)
        (listed_steps table.new log.new steps.new.items) (defining_clauses (term_at table.old id))) }
{
    state_term(alloc, table, log, steps, id)?;
    state_choice(alloc, table, log, steps, id)
}
