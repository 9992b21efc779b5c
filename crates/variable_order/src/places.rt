//! Variables in a row, each of which knows its place.

ghost use Rattle.std.specs.Prelude.{◌≡◌, ℕ, ◌<◌, ◌≤◌, ◌++◌, ◌∷◌, [], true, false, length, get_or, set, take, OnOk, OnErr, IfSome, MatchOption};
ghost use Rattle.variable_order.specs.Orders.{IsEmpty, IsRemoved};
ghost use Rattle.variable_order.specs.Rows.{nowhere, no_variable, IsAt};

use no_memory::NoMemory;
use std::alloc::Global;
use std::marker::Model;
use term_core::TermId;

/// Holds variables in a row, each at most once, and knows the place of each.
///
/// Contracts see the row, and of each variable whether it is there.
#[derive(Drop)]
pub(crate) struct Places {
    /// The variables that are there.
    row: Vec<TermId>,
    /// For each variable its place in the row, or none.
    places: Vec<Option<usize>>,
}

impl Model for Places {
    ghost use Rattle.variable_order.specs.Rows.{RowView};

    ghost Value = { RowView };

    ghost use Rattle.variable_order.specs.Kept.{order_view, OrderFits};

    ghost view = { order_view };

    ghost invariant = { OrderFits };
}

impl Places {
    /// Makes the row of no variables, which takes no memory before the first of them.
    pub(crate) fn new(alloc: Global) -> Places
        ensures { result ≡ nowhere }
    {
        Places {
            row: Vec::new(alloc),
            places: Vec::new(alloc),
        }
    }

    /// Adds a variable that is not in the row, and takes the room for it. `NoMemory` comes where it finds none; then all is as it was.
    pub(crate) fn add_var(&mut self) -> Result<(), NoMemory>
        ensures row { self.new.row ≡ self.old.row }
        ensures ok { OnOk result (self.new.members ≡ self.old.members ++ false ∷ []) }
        ensures err { OnErr result (self.new.members ≡ self.old.members) }
    {
        let wanted = self.places.len() + 1;
        self.row.reserve(wanted.saturating_sub(self.row.len()))?;
        self.places.push(None)?;
        Ok(())
    }

    /// Counts the variables, in the row or not.
    pub(crate) fn vars(&self) -> usize
        ensures { result ≡ length self.now.members }
    {
        self.places.len()
    }

    /// Counts the variables in the row.
    pub(crate) fn len(&self) -> usize
        ensures { result ≡ length self.now.row }
    {
        self.row.len()
    }

    /// Gives the variable at a place.
    pub(crate) fn at(&self, place: usize) -> TermId
        requires { place < length self.now.row }
        ensures known { result.0 < length self.now.members }
    {
        self.row[place]
    }

    /// Gives the place of a variable; nothing where it is not in the row.
    pub(crate) fn place(&self, v: TermId) -> Option<usize>
        requires { v.0 < length self.now.members }
        ensures { MatchOption result (get_or self.now.members v.0 false ≡ false) (IsAt self.now v) }
    {
        self.places[v.0 as usize]
    }

    /// Puts the variables of two places each at the place of the other.
    pub(crate) fn swap(&mut self, i: usize, j: usize)
        requires first { i < length self.old.row }
        requires second { j < length self.old.row }
        ensures members { self.new.members ≡ self.old.members }
        ensures len { length self.new.row ≡ length self.old.row }
        ensures moved { get_or self.new.row j no_variable ≡ get_or self.old.row i no_variable }
    {
        let a = self.row[i];
        let b = self.row[j];
        self.row[i] = b;
        self.row[j] = a;
        self.places[a.0 as usize] = Some(j);
        self.places[b.0 as usize] = Some(i);
    }

    /// Puts a variable last that is not in the row.
    pub(crate) fn push(&mut self, v: TermId)
        requires known { v.0 < length self.old.members }
        requires new { get_or self.old.members v.0 false ≡ false }
        ensures members { self.new.members ≡ set self.old.members v.0 true }
        ensures row { self.new.row ≡ self.old.row ++ v ∷ [] }
    {
        self.places[v.0 as usize] = Some(self.row.len());
        self.row.push_reserved(v);
    }

    /// Takes the last variable; nothing exactly where there is none.
    pub(crate) fn pop(&mut self) -> Option<TermId>
        ensures members { MatchOption result (IsEmpty self.old.members × (self.new ≡ self.old))
            (λ v. IsRemoved self.old.members v self.new.members) }
        ensures row { IfSome result (λ v. self.old.row ≡ self.new.row ++ v ∷ []) }
    {
        let Some(v) = self.row.pop() else {
            return None;
        };
        self.places[v.0 as usize] = None;
        Some(v)
    }

    /// Takes the variables from `vars` on away, none of which is in the row.
    pub(crate) fn cut(&mut self, vars: usize)
        requires out { (k : ℕ) → vars ≤ k → get_or self.old.members k false ≡ false }
        ensures row { self.new.row ≡ self.old.row }
        ensures members { self.new.members ≡ take vars self.old.members }
    {
        self.places.truncate(vars);
    }
}
