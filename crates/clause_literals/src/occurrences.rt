//! The clauses in which a literal occurs.

ghost use Rattle.std.specs.Prelude.{◌≡◌, ◌<◌, ◌∷◌, [], ℕ, All, Contains, IfOk, OnOk};
ghost use Rattle.clause_literals.specs.Literals.{lists};
ghost use Rattle.clause_literals.specs.Occurring.{OccurrencesFit, OccursIn, AreBelow, Places, Notes, IsIndexOf};

use indexmap::IndexSet;
use std::alloc::{AllocError, Global};
use term_core::Lit;

/// For each literal the numbers of the clauses in which it occurs.
#[derive(Drop)]
pub(crate) struct Occurrences {
    literals: IndexSet<Lit>,
    lists: Vec<Vec<usize>>,
}

impl Occurrences {
    /// Makes the lists of no clauses.
    fn new(alloc: Global) -> Occurrences
        ensures literals { result.literals.keys ≡ [] }
        ensures lists { result.lists.items ≡ [] }
    {
        Occurrences {
            literals: IndexSet::new(alloc),
            lists: Vec::new(alloc),
        }
    }

    /// Gives the numbers of the clauses in which a literal occurs.
    pub(crate) fn of(&self, l: Lit) -> &[usize]
        requires { OccurrencesFit self.now }
        ensures complete { (k : ℕ) → OccursIn self.now l k → Contains result.now k }
        ensures below { (n : ℕ) → AreBelow n self.now → All (λ k. k < n) result.now }
    {
        match self.literals.get_index_of(&l) {
            Some(index) => &self.lists[index],
            None => &[],
        }
    }

    /// Finds the index of a literal's list, where it is new after a list for it is made.
    fn place(&mut self, alloc: Global, l: Lit) -> Result<usize, AllocError>
        requires { OccurrencesFit self.old }
        ensures { IfOk result (λ index. Places self.old l index self.new) }
    {
        let Ok((index, is_new)) = self.literals.insert_full(l) else {
            return Err(AllocError);
        };
        if is_new {
            self.lists.push(Vec::new(alloc))?;
            return Ok(index);
        }
        Ok(index)
    }

    /// Notes that a literal occurs in a clause.
    fn note(&mut self, alloc: Global, l: Lit, number: usize) -> Result<(), AllocError>
        requires { OccurrencesFit self.old }
        ensures { OnOk result (Notes self.old (l ∷ []) number self.new) }
    {
        let index = self.place(alloc, l)?;
        self.lists[index].push(number)?;
        Ok(())
    }

    /// Notes each literal of a clause.
    fn note_each(&mut self, alloc: Global, clause: &[Lit], number: usize) -> Result<(), AllocError>
        requires { OccurrencesFit self.old }
        ensures { OnOk result (Notes self.old clause.now number self.new) }
    {
        for l in clause {
            self.note(alloc, *l, number)?;
        }
        Ok(())
    }
}

/// Gives for each literal the numbers of the clauses in which it occurs, from 0.
pub(crate) fn occurrences_of(alloc: Global, clauses: &[Vec<Lit>]) -> Result<Occurrences, AllocError>
    ensures { IfOk result (λ w. IsIndexOf w (lists clauses.now)) }
{
    let mut occurrences = Occurrences::new(alloc);
    for (number, clause) in clauses.iter().enumerate() {
        occurrences.note_each(alloc, clause, number)?;
    }
    Ok(occurrences)
}
