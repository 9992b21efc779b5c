//! Saturating: what is left is done, term by term and literal by literal.

ghost use Rattle.std.specs.Prelude.{◌≡◌, ◌<◌, [], length, OnOk, IfOk, MatchOption};
ghost use Rattle.class_table.specs.Classes.{AreSame};
ghost use Rattle.congruence_relation.specs.Edges.{IsConflict};
ghost use Rattle.congruence_closure.specs.State.{IsSaturated};
ghost use Rattle.congruence_closure.specs.Changes.{label, KeepsFacts, IsWhy, AreClassUsers, ArePut, ClassAtMost, IsLonger, HasTurned, HasGone};

use crate::Conflict;
use crate::listing::Listing;
use crate::parts::ClosureParts;
use class_table::ClassTable;
use explain_forest::Label;
use no_memory::NoMemory;
use term_core::{Lit, TermId};

/// Says what one turn came to.
#[derive(Clone, Copy, Debug, PartialEq, Eq)]
pub(crate) enum Turn {
    /// Something was done, and no classes were joined.
    Quiet,
    /// Two classes were joined.
    Joined,
    /// There is a conflict.
    Against(Conflict),
    /// Nothing is left to do.
    Done,
}

/// Puts the places of all terms that take part and have a member of a term's class as an argument last among those to look at.
///
/// `NoMemory` comes where they find no memory. Then some of them may be there.
fn queue_users(
    listing: &Listing,
    classes: &ClassTable,
    t: TermId,
    pending: &mut Vec<u64>,
) -> Result<(), NoMemory>
    requires { t.0 < length classes.now.numbers }
    ensures put { ArePut pending.old.items pending.new.items
        (λ more. OnOk result (AreClassUsers listing.now classes.now.numbers t more)) }
{
    if classes.size_of(t) == 1 {
        pending.extend_from_slice(listing.users_of(t))?;
        return Ok(());
    }
    let members = classes.members(t)?;
    'members: for m in &members {
        pending.extend_from_slice(listing.users_of(*m))?;
    }
    Ok(())
}

/// Gives the label of an edge: the literal that states it, or else that the two have linked arguments.
fn label_of(why: Option<Lit>, a: TermId, b: TermId) -> Label
    ensures { result ≡ label why a b }
{
    match why {
        Some(lit) => Label::Held(lit),
        None => Label::Arguments(a, b),
    }
}

impl ClosureParts {
    /// Joins the class of one term to that of another, which is no smaller, and keeps its number.
    ///
    /// `NoMemory` comes where what is to be looked at again finds no memory; then no classes are joined.
    fn put_under(&mut self, a: TermId, b: TermId, why: Option<Lit>) -> Result<(), NoMemory>
        requires a { a.0 < length self.old.now.numbers }
        requires b { b.0 < length self.old.now.numbers }
        requires apart { AreSame self.old.now.numbers a b → ⊥ }
        requires smaller { ClassAtMost self.old.now.numbers a b }
        requires why { IsWhy self.old.now.facts self.old.now.edges why a b }
        ensures goes { KeepsFacts self.old self.new }
        ensures ok { OnOk result (IsLonger self.old self.new) }
    {
        queue_users(&self.listing, &self.classes, a, &mut self.pending)?;
        self.classes.relabel(a, b);
        self.forest.link(a, b, label_of(why, a, b));
        Ok(())
    }

    /// Joins the classes of two terms; where they are as large, the second keeps its number.
    ///
    /// `NoMemory` comes where what is to be looked at again finds no memory; then no classes are joined.
    pub(crate) fn join(&mut self, a: TermId, b: TermId, why: Option<Lit>) -> Result<(), NoMemory>
        requires a { a.0 < length self.old.now.numbers }
        requires b { b.0 < length self.old.now.numbers }
        requires apart { AreSame self.old.now.numbers a b → ⊥ }
        requires why { IsWhy self.old.now.facts self.old.now.edges why a b }
        ensures goes { KeepsFacts self.old self.new }
        ensures ok { OnOk result (IsLonger self.old self.new) }
    {
        self.note_decided(a, b, why)?;
        if self.classes.size_of(a) <= self.classes.size_of(b) {
            self.put_under(a, b, why)
        } else {
            self.put_under(b, a, why)
        }
    }

    /// Does what is next, and goes on to what comes then, if no classes were joined.
    ///
    /// `NoMemory` comes where it finds no memory; then the same is next.
    fn turn(&mut self) -> Result<Turn, NoMemory>
        ensures goes { KeepsFacts self.old self.new }
        ensures ok { IfOk result (HasTurned self.old self.new) }
    {
        if self.same(self.truths.true_term, self.truths.false_term) {
            return Ok(Turn::Against(Conflict::Truths));
        }
        if self.next < self.pending.len() {
            return self.turn_pending();
        }
        if self.looked < self.listing.len() {
            return self.turn_looked();
        }
        if (self.given as usize) < self.holding.all().len() {
            return self.turn_given();
        }
        self.forget_done();
        Ok(Turn::Done)
    }

    /// Forgets what was looked at again, where that is all.
    fn forget_done(&mut self)
        requires { self.old.now.left.pending ≡ [] }
        ensures { self.new ≡ self.old }
    {
        self.pending.truncate(0);
        self.next = 0;
    }

    /// Looks again at the next listed term that is to be looked at again.
    fn turn_pending(&mut self) -> Result<Turn, NoMemory>
        requires { 0 < length self.old.now.left.pending }
        ensures goes { KeepsFacts self.old self.new }
        ensures ok { IfOk result (HasTurned self.old self.new) }
    {
        let place = self.pending[self.next];
        if place >= self.listing.len() {
            self.next += 1;
            return Ok(Turn::Quiet);
        }
        match self.look(place)? {
            Turn::Quiet => {
                self.next += 1;
                Ok(Turn::Quiet)
            }
            turn => Ok(turn),
        }
    }

    /// Looks at the next listed term.
    fn turn_looked(&mut self) -> Result<Turn, NoMemory>
        requires { self.old.now.left.looked < length self.old.now.facts.listed }
        ensures goes { KeepsFacts self.old self.new }
        ensures ok { IfOk result (HasTurned self.old self.new) }
    {
        let place = self.looked;
        let count = self.listing.len();
        prove!(place < count);
        match self.look(place)? {
            Turn::Quiet => {
                self.looked += 1;
                Ok(Turn::Quiet)
            }
            turn => Ok(turn),
        }
    }

    /// Gives the next literal.
    fn turn_given(&mut self) -> Result<Turn, NoMemory>
        requires { self.old.now.left.given < length self.old.now.facts.held }
        ensures goes { KeepsFacts self.old self.new }
        ensures ok { IfOk result (HasTurned self.old self.new) }
    {
        let held = self.holding.all();
        let lit = held[self.given as usize];
        match self.give(lit)? {
            Turn::Quiet => {
                self.given += 1;
                Ok(Turn::Quiet)
            }
            turn => Ok(turn),
        }
    }

    /// Does what is left until classes are joined, or all is done.
    fn until_joined(&mut self) -> Result<Turn, NoMemory>
        ensures goes { KeepsFacts self.old self.new }
        ensures ok { IfOk result (HasGone self.old self.new) }
    {
        'quiet: loop {
            let turn = self.turn()?;
            if turn != Turn::Quiet {
                return Ok(turn);
            }
        }
    }

    /// Does all that is left, or finds a conflict.
    ///
    /// `NoMemory` comes where it finds no memory; then what is left is still to be done.
    pub(crate) fn saturate(&mut self) -> Result<Option<Conflict>, NoMemory>
        ensures goes { KeepsFacts self.old self.new }
        ensures ok { IfOk result (λ found. MatchOption found (IsSaturated self.new.now)
            (λ c. IsConflict self.new.now.facts self.new.now.edges c)) }
    {
        'joins: loop {
            let turn = self.until_joined()?;
            self.edges_are_few();
            match turn {
                Turn::Done => return Ok(None),
                Turn::Against(conflict) => return Ok(Some(conflict)),
                _ => {}
            }
        }
    }
}
