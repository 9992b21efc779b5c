//! The log: clauses in the order in which they came.

ghost use Rattle.std.specs.Prelude.{◌≡◌, ◌<◌, [], ◌∷◌, ◌++◌, length, take, MatchOption, MatchResult};
ghost use Rattle.spec_derivations.specs.Derivations.{FollowsFrom};
ghost use Rattle.term_core.specs.Tables.{TableView};
ghost use Rattle.proof_log.specs.Logs.{AreFormulasIn, AreStepsOf, IsLogOf, named, premises_in, stepped, logged_at, inference_of, derivation_in, IsAssumed, AreEarlier};
ghost use Rattle.proof_log.specs.Entries.{logged_of};
ghost use Rattle.proof_log.specs.Adding.{Assumes, AddsClause, IsAdded, JudgesClause, Collects};
ghost use Rattle.proof_log.specs.Reaches.{reach_view, reach_at};
ghost use Rattle.proof_log.specs.Keeping.{IsKeeping};

use crate::entry::LogEntry;
use crate::keeping::{keep_derivations, reach_again};
use crate::log_fault::LogFault;
use crate::premises::StepId;
use crate::reach::Reach;
use crate::reaching::reach_of_entry;
use crate::step::Step;
use no_memory::NoMemory;
use rule_bool::{judge, written_numbers};
use std::alloc::Global;
use std::marker::Model;
use std::slice;
use term_core::{Clause, TermId, TermTable};

/// Holds clauses by their numbers, each assumed or stepped from earlier ones.
///
/// It knows no table; that each step is right over a table is what `add` asks and ensures. Beside each clause it keeps how far its
/// derivation reaches, and room for a mark, so that a cut takes no memory.
/// Source: Alethe specification, proofs as lists of commands; to number them is own.
#[derive(Drop)]
pub struct ProofLog {
    alloc: Global,
    entries: Vec<LogEntry>,
    /// How far the derivation of each clause reaches.
    reaches: Vec<Reach>,
    /// A number for each clause, so that a cut takes no memory; of no meaning between calls.
    marks: Vec<u64>,
}

impl Model for ProofLog {
    ghost use Rattle.std.specs.Prelude.{List};
    ghost use Rattle.proof_log.specs.Logs.{Logged};
    ghost use Rattle.proof_log.specs.Entries.{log_of};
    ghost use Rattle.proof_log.specs.Reaches.{IsKept};

    ghost Value = { List Logged };

    ghost view = { λ l. log_of l.entries.items };

    ghost invariant = { λ l. IsKept (log_of l.entries.items) l.reaches.items l.marks.items };
}

impl ProofLog {
    /// Makes an empty log, which takes no memory before the first clause.
    pub fn new(alloc: Global) -> ProofLog
        ensures { result ≡ [] }
    {
        ProofLog {
            alloc,
            entries: Vec::new(alloc),
            reaches: Vec::new(alloc),
            marks: Vec::new(alloc),
        }
    }

    /// Counts the clauses. It takes no memory.
    pub fn len(&self) -> u64
        ensures { result ≡ length self.now }
    {
        self.entries.len() as u64
    }

    /// Lends a clause by its number. It takes no memory.
    pub fn clause(&self, step: StepId) -> &[TermId]
        requires { step.0 < length self.now }
        ensures { result.now ≡ named (logged_at self.now step) }
    {
        match &self.entries[step.0 as usize] {
            LogEntry::Assumed(term) => slice::from_ref(term),
            LogEntry::Stepped(step) => step.clause.as_slice(),
        }
    }

    /// Lends the step of a clause by its number; `None` exactly where the clause is assumed, or none has that number. It takes no
    /// memory.
    pub fn step(&self, step: StepId) -> Option<&Step>
        ensures { MatchOption result (IsAssumed (logged_at self.now step))
            (λ s. logged_at self.now step ≡ stepped s.now.rule s.now.premises s.now.arguments s.now.clause) }
    {
        if step.0 >= self.len() {
            return None;
        }
        match &self.entries[step.0 as usize] {
            LogEntry::Assumed(_) => None,
            LogEntry::Stepped(step) => Some(step),
        }
    }

    /// Tells how far the derivation of a clause reaches. It takes no memory.
    pub fn reach(&self, step: StepId) -> Reach
        requires { step.0 < length self.now }
        ensures { reach_view result ≡ reach_at self.now step }
    {
        self.reaches[step.0 as usize]
    }

    /// Assumes a term: puts it last, as a clause of its own, and says its number, which is the next. The log stays one over a table where
    /// the term is a formula.
    ///
    /// `NoMemory` comes where its place finds no memory; then the log is as it was.
    /// Source: Alethe specification, the command `assume`.
    pub fn assume(&mut self, t: TermId) -> Result<StepId, NoMemory>
        ensures { Assumes self.old t result self.new }
    {
        self.put(LogEntry::Assumed(t))
    }

    /// Puts a step last, if it is right by its rule over a table, and says its number, which is the next. Its clause must be one of
    /// formulas.
    ///
    /// The clauses of the premises are copied for the rule, which takes time and memory in proportion to them; where there are none,
    /// nothing is copied.
    ///
    /// `RuleFails` comes exactly where the clause does not follow from the premises, or one of these is not there, and no operation
    /// leaves the bound on numbers; `Wide` exactly where the premises are there and one does; `Memory` where memory runs out before
    /// the step is there, which tells nothing of it. After each the log is as it was.
    /// Source: Alethe specification, the command `step`; the bound on numbers is own.
    pub fn add(&mut self, table: &TermTable, step: Step) -> Result<StepId, LogFault>
        requires log { IsLogOf table.now self.old }
        requires clause { AreFormulasIn table.now step.clause }
        ensures { AddsClause table.now self.old (stepped step.rule step.premises step.arguments step.clause) result
            self.new }
    {
        self.follows(table, &step)?;
        let id = self.put(LogEntry::Stepped(step))?;
        Ok(id)
    }

    /// Puts a step last that follows from the clauses up to here, and says its number, which is the next. Its clause must be one of
    /// formulas.
    ///
    /// The step is not judged: that it follows by its rule is for the caller to show. So no clause of a premise is looked at, and it
    /// takes time in proportion to the step alone.
    ///
    /// `NoMemory` comes where its place finds no memory; then the log is as it was.
    /// Source: Alethe specification, the command `step`.
    pub fn add_right(&mut self, table: &TermTable, step: Step) -> Result<StepId, NoMemory>
        requires log { IsLogOf table.now self.old }
        requires clause { AreFormulasIn table.now step.clause }
        requires follows { FollowsFrom (derivation_in table.now self.old)
            (inference_of table.now (stepped step.rule step.premises step.arguments step.clause)) }
        ensures { MatchResult result (λ id. IsAdded table.now self.old
            (stepped step.rule step.premises step.arguments step.clause) id self.new) (λ _. self.new ≡ self.old) }
    {
        let _ = table;
        self.put(LogEntry::Stepped(step))
    }

    /// Puts a clause last, with its reach and a place for its mark. Its premises must be there.
    fn put(&mut self, entry: LogEntry) -> Result<StepId, NoMemory>
        requires there { AreStepsOf self.old (premises_in (logged_of entry)) }
        ensures { MatchResult result (λ id. (id.0 ≡ length self.old) × (self.new ≡ self.old ++ logged_of entry ∷ []))
            (λ _. self.new ≡ self.old) }
    {
        let number = self.len();
        let reach = reach_of_entry(self.reaches.as_slice(), number, &entry);
        self.marks.reserve(1)?;
        self.reaches.reserve(1)?;
        self.entries.reserve(1)?;
        self.marks.push_reserved(0);
        self.reaches.push_reserved(reach);
        self.entries.push_reserved(entry);
        Ok(StepId(number))
    }

    /// Judges whether a step follows from the clauses up to here.
    fn follows(&self, table: &TermTable, step: &Step) -> Result<(), LogFault>
        requires log { IsLogOf table.now self.now }
        requires clause { AreFormulasIn table.now step.now.clause }
        ensures { JudgesClause table.now self.now
            (stepped step.now.rule step.now.premises step.now.arguments step.now.clause) result }
    {
        let premises = self.clauses_of(step.premises.as_slice())?;
        let arguments = written_numbers(self.alloc, step.arguments.as_slice())?;
        judge(
            self.alloc,
            table,
            step.rule,
            &premises,
            &arguments,
            step.clause.as_slice(),
        )?;
        Ok(())
    }

    /// Copies the clauses of these numbers; `RuleFails` where one of them is not there.
    fn clauses_of(&self, steps: &[StepId]) -> Result<Vec<Clause>, LogFault>
        ensures { Collects self.now steps.now result }
    {
        let mut clauses = Vec::new(self.alloc);
        for step in steps {
            if step.0 >= self.len() {
                return Err(LogFault::RuleFails);
            }
            let copy = Vec::from_slice(self.alloc, self.clause(*step))?;
            clauses.push(Clause::from(copy))?;
        }
        Ok(clauses)
    }

    /// Takes away all clauses but the first `len`; where there are no more than so many, it changes nothing. It takes no memory.
    ///
    /// What is left is right over each table over which the whole was.
    pub fn cut(&mut self, len: u64)
        ensures clauses { self.new ≡ take len self.old }
        ensures right { (t : TableView) → IsLogOf t self.old → IsLogOf t self.new }
    {
        self.entries.truncate(len as usize);
        self.reaches.truncate(len as usize);
        self.marks.truncate(len as usize);
    }

    /// Cuts the log, and keeps derivations: the first `len` clauses stay, and of those after them the ones on which the named ones rest,
    /// in order. Each name becomes its clause's new number. Where there are no more than `len` clauses, it changes nothing.
    ///
    /// It takes no memory, and time in proportion to the clauses after the first `len` and their premises. What is left is right over each
    /// table over which the whole was.
    pub fn cut_keeping(&mut self, len: u64, steps: &mut [StepId])
        requires names { AreStepsOf self.old steps.old }
        ensures keeps { IsKeeping self.old len steps.old self.new steps.new }
        ensures right { (t : TableView) → IsLogOf t self.old → IsLogOf t self.new }
    {
        let from = (len as usize).min(self.entries.len());
        keep_derivations(&mut self.entries, &mut self.marks, from, steps);
        self.reaches.truncate(self.entries.len());
        reach_again(&mut self.reaches, &self.entries, from);
    }

    /// States that the premises of each step are before it.
    pub fn premises_are_earlier(&self)
        ensures { AreEarlier self.now }
    {
        let _ = &self.alloc;
    }
}
