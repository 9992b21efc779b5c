//! What is printed for a clause, by numbers.

ghost use Rattle.std.specs.Prelude.{◌≡◌, ◌-◌, ◌<◌, ◌≤◌, ◌^◌, false, length, IfOk, None, get_or};
ghost use Rattle.spec_proof_texts.specs.Plans.{IsPlan, counted, definition_marks, is_compound, counted_inferences, number_or_zero};
ghost use Rattle.term_core.specs.Tables.{TableView, IsIn, term_at};
ghost use Rattle.proof_log.specs.Logs.{IsLogOf, logged_at, derivation_in};
ghost use Rattle.alethe_writer.specs.Counting.{IsNextOf};
ghost use Rattle.alethe_writer.specs.Printing.{PlanFits};

use crate::counter::Counter;
use crate::marks::{printed_of, support_of};
use crate::uses::{heights_of, single_of};
use no_memory::NoMemory;
use proof_log::{ProofLog, StepId};
use std::alloc::Global;
use std::marker::Model;
use term_core::{TermId, TermTable};

/// Says what is printed for a clause of a log: which terms are defined, which clauses are assumes and steps, and their numbers.
///
/// It means something with the log and the table alone for which it was prepared.
#[derive(Drop)]
pub struct Plan {
    terms: Vec<Option<u64>>,
    steps: Vec<Option<u64>>,
}

impl Model for Plan {
    ghost use Rattle.spec_proof_texts.specs.Plans.{Plan as PlanView};

    ghost Value = { PlanView };

    ghost view = { λ p. record { terms = p.terms.items; inferences = p.steps.items } };
}

impl Plan {
    /// Counts the terms that have a number or none.
    pub(crate) fn terms_len(&self) -> u64
        ensures { result ≡ length self.now.terms }
    {
        self.terms.len() as u64
    }

    /// Counts the clauses that have a number or none.
    pub(crate) fn steps_len(&self) -> u64
        ensures { result ≡ length self.now.inferences }
    {
        self.steps.len() as u64
    }

    /// The number of a term's definition; `None` where it is in place.
    pub(crate) fn definition(&self, id: TermId) -> Option<u64>
        ensures { result ≡ get_or self.now.terms id.0 None }
    {
        number_at(&self.terms, id.0)
    }

    /// The number of a clause's assume or step; `None` where it is not printed.
    pub(crate) fn clause(&self, id: StepId) -> Option<u64>
        ensures { result ≡ get_or self.now.inferences id.0 None }
    {
        number_at(&self.steps, id.0)
    }

    /// The number of a premise; 0 where it is not printed, which is no premise of what is.
    pub(crate) fn number(&self, id: StepId) -> u64
        ensures { result ≡ number_or_zero (get_or self.now.inferences id.0 None) }
    {
        self.clause(id).unwrap_or(0)
    }
}

/// The number at a place; `None` beyond the end.
fn number_at(numbers: &[Option<u64>], place: u64) -> Option<u64>
    ensures { result ≡ get_or numbers.now place None }
{
    *numbers.get(place as usize)?
}

/// Prepares the printing of a clause of a log: of all that it depends on, and of the terms that this needs. A term with arguments has
/// no number, and is in place, where it is used once and at most 8 deep; at most 900,000 terms are.
///
/// It takes time and memory in proportion to the clauses up to that one and to the table's terms.
///
/// `NoMemory` comes where memory runs out.
pub fn prepare(
    alloc: Global,
    log: &ProofLog,
    table: &TermTable,
    step: StepId,
) -> Result<Plan, NoMemory>
    requires there { step.0 < length log.now }
    requires log { IsLogOf table.now log.now }
    ensures plan { IfOk result (λ plan. IsPlan table.now.terms (derivation_in table.now log.now) step.0 plan) }
    ensures fits { IfOk result (λ plan. PlanFits table.now log.now plan) }
{
    let support = support_of(alloc, log, step)?;
    let printed = printed_of(alloc, log, table, &support)?;
    let single = single_of(alloc, log, table, &support, &printed)?;
    let heights = heights_of(alloc, table, &single)?;
    Ok(Plan {
        terms: number_terms(alloc, table, &printed, &heights)?,
        steps: number_steps(alloc, log, &support)?,
    })
}

/// Numbers the terms that are defined: of the marked ones, those with arguments that are not in place.
fn number_terms(
    alloc: Global,
    table: &TermTable,
    printed: &[bool],
    heights: &[u8],
) -> Result<Vec<Option<u64>>, NoMemory>
    requires as_many { length printed.now ≡ length table.now.terms }
    requires as_many_heights { length heights.now ≡ length table.now.terms }
    ensures { IfOk result (λ numbers. numbers.items
        ≡ counted 1 (definition_marks table.now.terms printed.now heights.now)) }
{
    let mut numbers = Vec::new(alloc);
    let mut counter = Counter::new();
    'terms: for number in 0..printed.len() {
        let wanted = is_defined(table, printed, heights, number);
        numbers.push(counter.number(wanted))?;
    }
    Ok(numbers)
}

/// Tells whether a term is marked, has arguments, and is not in place.
fn is_defined(table: &TermTable, printed: &[bool], heights: &[u8], number: usize) -> bool
    requires as_many { length printed.now ≡ length table.now.terms }
    requires as_many_heights { length heights.now ≡ length table.now.terms }
    requires there { number < length printed.now }
    ensures { result ≡ get_or (definition_marks table.now.terms printed.now heights.now) number false }
{
    if !printed[number] {
        return false;
    }
    if heights[number] != 0 {
        return false;
    }
    has_arguments(table, TermId(number as u64))
}

/// Tells whether a term has arguments.
pub(crate) fn has_arguments(table: &TermTable, id: TermId) -> bool
    requires { IsIn table.now id }
    ensures { result ≡ is_compound (term_at table.now id) }
{
    !table.node(id).arguments.is_empty()
}

/// Numbers the marked clauses: assumes and steps each have their own numbers.
fn number_steps(
    alloc: Global,
    log: &ProofLog,
    support: &[bool],
) -> Result<Vec<Option<u64>>, NoMemory>
    requires { length support.now ≤ length log.now }
    ensures { IfOk result (λ numbers. (t : TableView)
        → numbers.items ≡ counted_inferences 1 1 support.now (derivation_in t log.now)) }
{
    let mut numbers = Vec::new(alloc);
    let mut assumes = Counter::new();
    let mut steps = Counter::new();
    'steps: for number in 0..support.len() {
        let id = StepId(number as u64);
        let given = number_step(log, id, &mut assumes, &mut steps, support[number]);
        numbers.push(given)?;
    }
    Ok(numbers)
}

/// Gives a clause its number, where one is wanted: the next assume's, or the next step's.
fn number_step(
    log: &ProofLog,
    id: StepId,
    assumes: &mut Counter,
    steps: &mut Counter,
    wanted: bool,
) -> Option<u64>
    requires there { id.0 < length log.now }
    requires assumes { assumes.old.next < 2 ^ 64 - 1 }
    requires steps { steps.old.next < 2 ^ 64 - 1 }
    ensures { IsNextOf (logged_at log.now id) wanted assumes.old.next steps.old.next result
        assumes.new.next steps.new.next }
{
    match log.step(id) {
        None => assumes.number(wanted),
        Some(_) => steps.number(wanted),
    }
}
