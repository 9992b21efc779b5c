//! Numbers of terms by which the literals that simplex holds hold, where shared terms keep their values apart.

ghost use Rattle.std.specs.Prelude.{◌≡◌, length, map, nat_eq, All, IfOk, IfErr};
ghost use Rattle.std.specs.HashMap.{get};
ghost use Rattle.spec_arithmetic.specs.Numbers.{IsLinearOver};
ghost use Rattle.spec_causes.specs.Shared.{IsSharedAmong};
ghost use Rattle.spec_causes.specs.Causes.{OverflowsValueAt};
ghost use Rattle.ratio128.specs.Meant.{fraction, overflow};
ghost use Rattle.term_core.specs.Tables.{TableView, AreIn, clause_at};
ghost use Rattle.sat_budget.specs.Budgets.{StopsBy};
ghost use Rattle.proof_log.specs.Theories.{IsTheoryOver, terms_watched};
ghost use Rattle.tableau.specs.Numbers.{number_of};
ghost use Rattle.simplex.specs.Views.{IsOf};
ghost use Rattle.simplex.specs.Checks.{KeepsBounds};
ghost use Rattle.simplex.specs.Values.{TellsValues};
ghost use Rattle.simplex.specs.Numbers.{IsNumberAt, IsNumberWith, OverflowsNumberWith, HoldApart};
ghost use Rattle.simplex.specs.Coming.{term_tableau_of, IsOverflowAt};

use crate::simplex::Simplex;
use delta_num::Delta;
use no_memory::NoMemory;
use ratio128::{Ratio, Wide};
use sat_budget::Stop;
use simplex_numbers::{small_number, value_at};
use std::alloc::Global;
use std::collections::HashMap;
use tableau::numbers::zero;
use term_core::{TermId, TermTable};

/// Makes a table of values by the numbers of their terms: for each of the terms the value at its place. Of one that is there twice it
/// has the later value.
///
/// `NoMemory` comes where the table finds no memory.
fn values_by_term(
    alloc: Global,
    terms: &[TermId],
    values: &[Delta],
) -> Result<HashMap<u64, Delta>, NoMemory>
    requires { length terms.now ≡ length values.now }
    ensures { IfOk result (λ known. TellsValues (get nat_eq known) terms.now values.now (length terms.now)) }
{
    let mut known = HashMap::new(alloc);
    'slacks: for at in 0..terms.len() {
        known.insert(terms[at].0, values[at])?;
    }
    Ok(known)
}

impl Simplex {
    /// Gives the number of a term where the infinitesimal is e: that of the variable that means the term, and 0 where none
    /// does. It takes no memory.
    ///
    /// `Wide` comes where the tilt of the variable's value times e, or the base plus this product, leaves 128 bits.
    fn number_at(&self, e: Ratio, id: TermId) -> Result<Ratio, Wide>
        ensures number { IfOk result (λ q. IsNumberAt (number_of e) self.now id (number_of q)) }
        ensures wide { IfErr result (λ w. (t : TableView)
            → OverflowsValueAt (number_of e) (term_tableau_of t self.now) (overflow w)) }
    {
        match self.atoms.var(id) {
            None => Ok(zero()),
            Some(y) => value_at(self.assignment.value(y), e),
        }
    }

    /// Gives the number of a term where the infinitesimal is e: that of its value, if the table of values has one, and else that of its
    /// variable. It takes no memory.
    ///
    /// `Wide` comes where the tilt of this value times e, or the base plus this product, leaves 128 bits.
    fn number_with(&self, e: Ratio, id: TermId, values: &HashMap<u64, Delta>) -> Result<Ratio, Wide>
        ensures number { IfOk result (λ q. IsNumberWith (number_of e) self.now id (get nat_eq values.now id.0)
            (number_of q)) }
        ensures wide { IfErr result (λ w. OverflowsNumberWith (number_of e) self.now (get nat_eq values.now id.0)
            (overflow w)) }
    {
        match values.get(&id.0) {
            None => self.number_at(e, id),
            Some(value) => value_at(*value, e),
        }
    }

    /// Gives for each of these terms, in order, a number: of a shared one that of its value, and of another one that of the variable
    /// that stands for it, 0 where none does. By these numbers the held literals hold, strict ones too: a small enough number is put
    /// for the infinitesimal. So small is it that shared terms have different numbers where they have different values. Each of them
    /// has the number of its head at its arguments' numbers. It is asked for after a check that found nothing wrong.
    ///
    /// `Strained` comes where an operation on a shared term's form or value leaves 128 bits, or one that finds the small number, or
    /// computes a value with it, with the basic variables and the values; `Memory` comes where there is no memory.
    /// Source: Dutertre and de Moura, A Fast Linear-Arithmetic Solver for DPLL(T), CAV 2006; Nelson and Oppen, Simplification by
    /// Cooperating Decision Procedures, TOPLAS 1979.
    pub fn numbers(
        &self,
        table: &TermTable,
        terms: &[TermId],
        shared: &[TermId],
    ) -> Result<Vec<Ratio>, Stop>
        requires over { IsTheoryOver table.now self.now.theory }
        requires with { IsOf self.now table.now }
        requires fine { KeepsBounds self.now }
        requires terms { AreIn table.now terms.now }
        requires there { AreIn table.now shared.now }
        requires shared { All (IsSharedAmong (terms_watched table.now self.now.theory))
            (clause_at table.now shared.now) }
        requires linear { All (IsLinearOver table.now.symbols) (clause_at table.now shared.now) }
        ensures ok { IfOk result (λ xs. HoldApart table.now self.now (clause_at table.now terms.now)
            (clause_at table.now shared.now) (map fraction xs.items)) }
        ensures stops { IfErr result (StopsBy
            (λ s. IsOverflowAt table.now (terms_watched table.now self.now.theory) s self.now)) }
    {
        self.literals.are_of_watched_terms();
        self.assignment.tableau().rows_are_in_solved_form();
        table.ids_are_unique();
        let mut values = self.shared_values(table, shared)?;
        let known = values_by_term(self.alloc, shared, &values)?;
        // The values are left in another order, which the table does not ask for.
        let small = match small_number(&self.bounds, &self.assignment, values.as_mut_slice()) {
            Ok(small) => small,
            Err(wide) => return Err(self.stop_of(wide)),
        };
        let mut numbers = Vec::new(self.alloc);
        'terms: for id in terms.iter() {
            let number = match self.number_with(small, *id, &known) {
                Ok(number) => number,
                Err(wide) => return Err(self.stop_of(wide)),
            };
            match numbers.push(number) {
                Ok(()) => {}
                Err(_) => return Err(Stop::Memory),
            }
        }
        Ok(numbers)
    }
}
