//! Closing a plan: its terms are listed, its equalities held, and what is held is closed, with marks that are gone back over.

ghost use Rattle.std.specs.Prelude.{◌≡◌, true, IfOk};
ghost use Rattle.term_core.specs.Tables.{IsIn};
ghost use Rattle.congruence_closure.specs.Listed.{IsListed};

use crate::fault::Fault;
use crate::plan::{Family, Plan, fill};
use crate::terms::Terms;
use congruence_closure::{Closure, Lit, TermId, Truths};
use std::alloc::Global;
use std::marker::Model;
use term_core::{Head, TermTable};

/// Tells whether a term of a table is not listed yet.
///
/// `Refused` comes where it is none of the table.
fn is_new(closure: &Closure, table: &TermTable, t: TermId) -> Result<bool, Fault>
    ensures { IfOk result (λ new. new ≡ true
        → IsIn table.now t × (IsListed closure.now.now.facts.listed t → ⊥)) }
{
    if t.0 >= table.len() {
        return Err(Fault::Refused);
    }
    match closure.place_of(t) {
        Some(_) => Ok(false),
        None => Ok(true),
    }
}

/// Holds a closure, and counts the marks that can be gone back to.
#[derive(Drop)]
struct Marked {
    closure: Closure,
    marks: u32,
}

impl Model for Marked {
    ghost use Rattle.std.specs.Prelude.{ℕ, length, ◌≤◌};

    ghost Value = { ℕ };

    ghost view = { λ m. m.marks };

    ghost invariant = { λ m. m.marks ≤ length m.closure.marks };
}

impl Marked {
    /// Makes a closure of nothing over a table, which gets `true` and `false`.
    fn new(alloc: Global, terms: &mut Terms) -> Result<Marked, Fault> {
        let true_term = terms.put(Head::True, &[])?;
        let false_term = terms.put(Head::False, &[])?;
        if true_term == false_term {
            return Err(Fault::Refused);
        }
        let truths = Truths {
            true_term,
            false_term,
        };
        Ok(Marked {
            closure: Closure::new(alloc, truths)?,
            marks: 0,
        })
    }

    /// Lists terms of a table, but those that are listed.
    fn watch(&mut self, table: &TermTable, terms: &[TermId]) -> Result<(), Fault> {
        for t in terms {
            if is_new(&self.closure, table, *t)? {
                self.closure.watch(*t, table.node(*t), true)?;
            }
        }
        Ok(())
    }

    /// Lists a formula of a table and holds it, if it is not listed.
    fn hold(&mut self, table: &TermTable, t: TermId) -> Result<(), Fault> {
        if !is_new(&self.closure, table, t)? {
            return Ok(());
        }
        self.closure.is_right();
        self.closure.watch(t, table.node(t), true)?;
        self.closure.hold(Lit {
            term: t,
            positive: true,
        });
        Ok(())
    }

    /// Sets a mark.
    fn mark(&mut self) -> Result<(), Fault> {
        self.closure.mark()?;
        self.marks = self.marks.saturating_add(1);
        Ok(())
    }

    /// Sets a mark, holds formulas of a table, and closes what is held.
    fn hold_marked(&mut self, table: &TermTable, formulas: &[TermId]) -> Result<(), Fault> {
        self.mark()?;
        for t in formulas {
            self.hold(table, *t)?;
        }
        self.closure.saturate()?;
        Ok(())
    }

    /// Goes back over the newest mark, if there is one, and closes what is held.
    fn back(&mut self) -> Result<(), Fault> {
        if self.marks > 0 {
            self.closure.back(1);
            self.marks -= 1;
        }
        self.closure.saturate()?;
        Ok(())
    }

    /// Goes back over all marks one by one, and closes what is held after each.
    fn back_all(&mut self) -> Result<(), Fault> {
        for _ in 0..self.marks {
            self.back()?;
        }
        Ok(())
    }

    /// Counts the terms among some that are congruent to the first of them.
    fn count_same(&self, terms: &[TermId]) -> u64 {
        let Some(first) = terms.first() else {
            return 0;
        };
        let mut count = 0u64;
        for other in terms {
            if self.closure.same(*other, *first) {
                count = count.saturating_add(1);
            }
        }
        count
    }
}

/// Counts the terms of a plan that are congruent to the first one.
#[derive(Clone, Copy)]
struct Counts {
    /// By all equalities.
    closed: u64,
    /// After going back over all marks.
    back: u64,
}

/// Lists the terms of a plan and holds its equalities, with a mark before some of them and a check after these; then goes back.
fn close_over(marked: &mut Marked, table: &TermTable, plan: &Plan) -> Result<Counts, Fault> {
    marked.watch(table, &plan.terms)?;
    for formulas in plan.equalities.chunks(plan.stride.max(1)) {
        marked.hold_marked(table, formulas)?;
    }
    let closed = marked.count_same(&plan.terms);
    marked.back_all()?;
    Ok(Counts {
        closed,
        back: marked.count_same(&plan.terms),
    })
}

/// Closes a plan over its table.
fn counts_of(alloc: Global, terms: &mut Terms, plan: &Plan) -> Result<Counts, Fault> {
    let mut marked = Marked::new(alloc, terms)?;
    close_over(&mut marked, &terms.table, plan)
}

/// Closes a plan over its table, goes back, and closes again. Says how many terms there are, and how many are congruent to the first.
fn close(alloc: Global, terms: &mut Terms, plan: &Plan) -> Result<String, Fault> {
    let Counts { closed, back } = counts_of(alloc, terms, plan)?;
    let all = plan.terms.len();
    Ok(format!(in alloc;
        "{all} terms, {closed} congruent to the first, {back} after going back\n"
    )?)
}

/// Fills a plan for a family, closes it, and gives the line.
fn run_plan(
    alloc: Global,
    terms: &mut Terms,
    plan: &mut Plan,
    family: Family,
    n: u64,
) -> Result<String, Fault> {
    fill(terms, plan, family, n)?;
    close(alloc, terms, plan)
}

/// Runs a family over a table.
fn run_over(alloc: Global, terms: &mut Terms, family: Family, n: u64) -> Result<String, Fault> {
    let mut plan = Plan::new(alloc, family);
    run_plan(alloc, terms, &mut plan, family, n)
}

/// Closes the terms of a family, and gives the line.
pub(crate) fn line_of(alloc: Global, family: Family, n: u32) -> Result<String, Fault> {
    let mut terms = Terms::new(alloc)?;
    run_over(alloc, &mut terms, family, u64::from(n))
}
