//! Atoms on the variables of an assignment.

ghost use Rattle.std.specs.Prelude.{◌≡◌, ℕ, ◌≤◌, List, [], Contains, OnOk, OnErr, IfErr};
ghost use Rattle.spec_sorts.specs.Terms.{Term};
ghost use Rattle.spec_simplex.specs.Constraints.{constraint_of};
ghost use Rattle.spec_causes.specs.Reached.{IsReached};
ghost use Rattle.term_core.specs.Tables.{IsIn, term_at, positive_literal};
ghost use Rattle.term_core.specs.declared.ids.TermId.{TermId as Number};
ghost use Rattle.simplex_atoms.specs.Owners.{owner_at, IsNumberOf};
ghost use Rattle.simplex_atoms.specs.Slacks.{slack_in};
ghost use Rattle.simplex_atoms.specs.Atoms.{ground_of, GroundGrows, KeepBounds, AtomsFit};
ghost use Rattle.simplex_atoms.specs.Watching.{OnAtomOverflow, OverflowsAtom, IsWatched};
ghost use Rattle.simplex_atoms.specs.TermTableauViews.{term_tableau_in, ButForMemory};

use crate::meanings::Meanings;
use crate::placing::slack_of;
use crate::reading::{difference_of, sides_of};
use crate::slack::Slack;
use crate::stop::AtomStop;
use no_memory::NoMemory;
use simplex_bounds::Bounds;
use simplex_check::RealAssignment;
use std::alloc::Global;
use std::collections::HashMap;
use std::marker::Model;
use term_core::{TermId, TermTable};

/// Holds which terms and sums the variables of an assignment stand for, and the slack variables of the atoms that are
/// watched.
///
/// A term's variable and an atom's place are looked up by a hash of its number, and a sum's variable by a hash of its
/// entries. Contracts see for each variable the term that it stands for, the sums, and the places by the numbers of
/// the atoms.
/// Source: Dutertre and de Moura, A Fast Linear-Arithmetic Solver for DPLL(T), CAV 2006.
#[derive(Drop)]
pub struct Atoms {
    alloc: Global,
    meanings: Meanings,
    slacks: HashMap<u64, Slack>,
}

impl Model for Atoms {
    ghost use Rattle.simplex_atoms.specs.Atoms.{AtomsView};

    ghost Value = { AtomsView };

    ghost view = { λ a. record {
      owners = a.meanings.owners.list;
      sums = a.meanings.sums.list;
      slack_list = a.slacks.entries;
    } };
}

/// Lets bounds be held of n variables.
///
/// `NoMemory` comes where there is no memory; they can then be held of more variables than before.
fn reach(bounds: &mut Bounds, n: u64) -> Result<(), NoMemory>
    requires { bounds.old.variables ≤ n }
    ensures within { bounds.new.variables ≤ n }
    ensures kept { KeepBounds bounds.old bounds.new }
    ensures ok { OnOk result (bounds.new.variables ≡ n) }
{
    'variables: while bounds.variables() < n {
        bounds.add_var()?;
    }
    Ok(())
}

impl Atoms {
    /// Makes atoms of which none is watched, and no variable. It takes no memory.
    pub fn new(alloc: Global) -> Atoms
        ensures { result ≡ record { owners = []; sums = []; slack_list = [] } }
    {
        Atoms {
            alloc,
            meanings: Meanings::new(alloc),
            slacks: HashMap::new(alloc),
        }
    }

    /// Gives the variable that means a term; `None` where none does. It takes no memory.
    pub fn var(&self, id: TermId) -> Option<u64>
        ensures { IsNumberOf self.now.owners id result }
    {
        self.meanings.owners.var(id)
    }

    /// Gives the term that a variable stands for; `None` where it stands for a row, or is not there. It takes no
    /// memory.
    pub fn owner(&self, y: u64) -> Option<TermId>
        ensures { result ≡ owner_at self.now.owners y }
    {
        self.meanings.owners.owner(y)
    }

    /// Gives the slack variable of an atom; `None` where it has none. It takes no memory.
    pub fn slack(&self, id: TermId) -> Option<Slack>
        ensures { result ≡ slack_in self.now.slack_list id }
    {
        match self.slacks.get(&id.0) {
            None => None,
            Some(slack) => Some(*slack),
        }
    }

    /// Watches a term: gives it a place, if it is an atom of linear arithmetic without one. The variables of its
    /// form get variables of the assignment where they have none, of which bounds can be held then. So does their sum,
    /// unless it has one variable, where neither it nor its opposite has one. Room for the atom's bounds is left to
    /// the caller.
    ///
    /// `Wide` comes where an operation leaves the bound on fractions: the first one of the form, the quotient of its
    /// constant by the coefficient of its one variable, or one of the new row. `Memory` comes where there is no
    /// memory. Then places are as they were; there may be more variables and rows.
    pub fn watch(
        &mut self,
        table: &TermTable,
        id: TermId,
        assignment: &mut RealAssignment,
        bounds: &mut Bounds,
    ) -> Result<(), AtomStop>
        requires there { IsIn table.now id }
        requires right { AtomsFit table.now self.old assignment.old bounds.old }
        ensures right { AtomsFit table.now self.new assignment.new bounds.new }
        ensures grows { GroundGrows (ground_of self.old.owners assignment.old)
            (ground_of self.new.owners assignment.new) }
        ensures bounds { KeepBounds bounds.old bounds.new }
        ensures watched { OnOk result (IsWatched (slack_in self.new.slack_list id)
            (constraint_of (positive_literal (term_at table.now id)))) }
        ensures others { (other : Number) → (id.0 ≡ other.0 → ⊥)
            → slack_in self.new.slack_list other ≡ slack_in self.old.slack_list other }
        ensures same { OnErr result ((other : Number)
            → slack_in self.new.slack_list other ≡ slack_in self.old.slack_list other) }
        ensures wide { IfErr result (OnAtomOverflow (OverflowsAtom table.now self.new.owners assignment.new id)) }
        ensures plain { constraint_of (positive_literal (term_at table.now id)) ≡ None → assignment.new
            ≡ assignment.old }
        ensures came { (ts : List Term) (n : ℕ) (es : List (ℕ × ℕ)) → Contains ts (term_at table.now id)
            → IsReached ts n es (term_tableau_in table.now self.old.owners assignment.old)
            → ButForMemory (IsReached ts n es (term_tableau_in table.now self.new.owners assignment.new)) result }
    {
        if self.slack(id).is_some() {
            return Ok(());
        }
        let Some(sides) = sides_of(table, id) else {
            return Ok(());
        };
        let form = difference_of(self.alloc, table, sides)?;
        let made = slack_of(
            self.alloc,
            &mut self.meanings,
            assignment,
            sides.kind,
            &form,
        );
        self.meanings.owners.are_once();
        table.ids_are_unique();
        let slack = made?;
        reach(bounds, self.meanings.owners.len())?;
        self.slacks.insert(id.0, slack)?;
        Ok(())
    }
}
