//! Values of terms that functions and linear arithmetic share.

ghost use Rattle.std.specs.Prelude.{map, All, IfOk, IfErr};
ghost use Rattle.spec_causes.specs.Shared.{IsSharedAmong, IsSumAt, IsValueOf, AreValuesOf, OverflowsSumAt, OverflowsTerm};
ghost use Rattle.ratio128.specs.Meant.{overflow};
ghost use Rattle.term_core.specs.Tables.{IsIn, AreIn, term_at, clause_at};
ghost use Rattle.sat_budget.specs.Budgets.{StopsBy};
ghost use Rattle.proof_log.specs.Theories.{terms_watched};
ghost use Rattle.tableau.specs.Numbers.{number_of};
ghost use Rattle.simplex_bounds.specs.Deltas.{pair_of};
ghost use Rattle.simplex_atoms.specs.Watching.{OnAtomOverflow};
ghost use Rattle.simplex.specs.Views.{IsOf};
ghost use Rattle.simplex.specs.Values.{variables_meant, AreTermsIn, IsNextSum, OverflowsNextSum};
ghost use Rattle.simplex.specs.Coming.{term_tableau_of, IsOverflowAt};

use crate::simplex::Simplex;
use delta_num::Delta;
use linear_form::form_of;
use ratio128::{Ratio, Wide};
use sat_budget::Stop;
use simplex_atoms::AtomStop;
use simplex_bounds::deltas::{plus, scaled, zero};
use term_core::{TermId, TermTable};

impl Simplex {
    /// Gives a sum with a coefficient times the value of the variable that means a term; the sum itself where none does. It takes
    /// no memory.
    ///
    /// The error is the `Wide` of the product, or else that of the sum with it.
    fn sum_with(&self, sum: Delta, id: TermId, k: Ratio) -> Result<Delta, Wide>
        ensures next { IfOk result (λ d. IsNextSum self.now id (number_of k) (pair_of sum) (pair_of d)) }
        ensures wide { IfErr result (λ w. OverflowsNextSum self.now id (number_of k) (pair_of sum) (overflow w)) }
    {
        match self.atoms.var(id) {
            None => Ok(sum),
            Some(y) => {
                let product = scaled(k, self.assignment.value(y))?;
                let next = plus(sum, product)?;
                Ok(next)
            }
        }
    }

    /// Gives the sum of terms with coefficients: each coefficient times the value of the variable that means the term. A term for
    /// which there is none counts as 0. It takes no memory.
    ///
    /// The error is the `Wide` of such a product, or of the sum of those before with it.
    fn sum_of(&self, table: &TermTable, variables: &[(TermId, Ratio)]) -> Result<Delta, Wide>
        requires with { IsOf self.now table.now }
        requires there { AreTermsIn table.now variables.now }
        ensures sum { IfOk result (λ d. IsSumAt (term_tableau_of table.now self.now)
            (variables_meant table.now variables.now) (pair_of d)) }
        ensures wide { IfErr result (λ w. OverflowsSumAt (term_tableau_of table.now self.now)
            (variables_meant table.now variables.now) (overflow w)) }
    {
        table.ids_are_unique();
        let mut sum = zero();
        let mut rest = variables;
        while let Some((x, more)) = rest.split_first() {
            sum = self.sum_with(sum, x.0, x.1)?;
            rest = more;
        }
        Ok(sum)
    }

    /// Gives the value of a term: the constant of its form, and the sum of the form's variables.
    ///
    /// `Wide` comes where an operation of the form leaves the bound on fractions, or one of the sum, or the sum with the constant;
    /// `Memory` where there is no memory.
    fn value_of(&self, table: &TermTable, id: TermId) -> Result<Delta, AtomStop>
        requires with { IsOf self.now table.now }
        requires there { IsIn table.now id }
        ensures value { IfOk result (λ d. IsValueOf (term_tableau_of table.now self.now) (term_at table.now id)
            (pair_of d)) }
        ensures wide { IfErr result (OnAtomOverflow (OverflowsTerm (term_tableau_of table.now self.now)
            (term_at table.now id))) }
    {
        let form = form_of(self.alloc, table, id)?;
        let variables = form.variables(self.alloc)?;
        let sum = self.sum_of(table, &variables)?;
        let value = plus(sum, Delta::number(form.constant()))?;
        Ok(value)
    }

    /// Gives the values of shared terms in the state of simplex, in order, infinitesimal parts included. Each is that of the term's form,
    /// where a variable that no variable of simplex stands for counts as 0.
    ///
    /// `Strained` comes where an operation of a term's form leaves 128 bits, or one of its value, with the basic variables and the
    /// values; `Memory` comes where there is no memory.
    /// Source: Nelson and Oppen, Simplification by Cooperating Decision Procedures, TOPLAS 1979.
    pub fn shared_values(&self, table: &TermTable, shared: &[TermId]) -> Result<Vec<Delta>, Stop>
        requires with { IsOf self.now table.now }
        requires there { AreIn table.now shared.now }
        requires shared { All (IsSharedAmong (terms_watched table.now self.now.theory))
            (clause_at table.now shared.now) }
        ensures ok { IfOk result (λ values. AreValuesOf (term_tableau_of table.now self.now)
            (clause_at table.now shared.now) (map pair_of values.items)) }
        ensures stops { IfErr result (StopsBy
            (λ s. IsOverflowAt table.now (terms_watched table.now self.now.theory) s self.now)) }
    {
        let mut values = Vec::new(self.alloc);
        'terms: for id in shared.iter() {
            let value = match self.value_of(table, *id) {
                Ok(value) => value,
                Err(AtomStop::Wide(wide)) => return Err(self.stop_of(wide)),
                Err(AtomStop::Memory) => return Err(Stop::Memory),
            };
            match values.push(value) {
                Ok(()) => {}
                Err(_) => return Err(Stop::Memory),
            }
        }
        Ok(values)
    }
}
