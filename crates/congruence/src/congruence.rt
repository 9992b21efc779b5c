//! The theory of equality and uninterpreted functions.

ghost use Rattle.std.specs.Prelude.{◌≡◌, ◌↔◌, [], true, length, IfOk};
ghost use Rattle.spec_sorts.specs.Terms.{True, False, of};
ghost use Rattle.term_core.specs.Symbols.{AreDeclared};
ghost use Rattle.term_core.specs.Tables.{TableView, IsIn, AreIn, AreDifferent, term_at};
ghost use Rattle.congruence_relation.specs.Relation.{AreFactsOf};
ghost use Rattle.congruence_closure.specs.Closure.{TellClasses};
ghost use Rattle.congruence.specs.Views.{theory_of, AreEqualBy};

use congruence_closure::Closure;
use congruence_relation::{Truths, numbers_and_terms_agree};
use no_memory::NoMemory;
use std::alloc::Global;
use std::marker::Model;
use term_core::{TermId, TermTable};

/// Holds literals of equality and uninterpreted functions, closed under congruence as far as they were checked.
///
/// Held literals make terms equal: the sides of an equality that is held as it is, a literal's term and its truth value, and
/// watched terms with one head and equal arguments that are no connectives. Contracts see what it holds and watches, now and at each mark.
/// Source: Nieuwenhuis and Oliveras, Information and Computation 205, 2007.
#[derive(Drop)]
pub struct Congruence {
    pub(crate) alloc: Global,
    pub(crate) closure: Closure,
}

impl Model for Congruence {
    ghost use Rattle.congruence_closure.specs.Closure.{ClosureView};

    ghost Value = { ClosureView };

    ghost view = { λ c. c.closure };
}

impl Congruence {
    /// Makes a theory that holds and watches nothing, over the terms `true` and `false` of a table.
    ///
    /// `NoMemory` comes where the terms up to these find no memory.
    pub fn new(alloc: Global, table: &TermTable, truths: Truths) -> Result<Congruence, NoMemory>
        requires true_there { IsIn table.now truths.true_term }
        requires true_is { term_at table.now truths.true_term ≡ of True [] }
        requires false_there { IsIn table.now truths.false_term }
        requires false_is { term_at table.now truths.false_term ≡ of False [] }
        ensures empty { IfOk result (λ c. theory_of c ≡ record { held = []; watched = []; marks = [] }) }
        ensures with { IfOk result (λ c. AreFactsOf table.now c.now.facts) }
    {
        let _ = table;
        let closure = Closure::new(alloc, truths)?;
        Ok(Congruence { alloc, closure })
    }

    /// Tells whether two terms are equal by the held literals.
    ///
    /// The answer is exact where the last check answered `Fine`, and no literal and no term came since, also after going back to a
    /// mark that was set there; `is_saturated` tells so. Else terms that it calls equal are equal, and others may be. It takes no memory.
    pub fn same(&self, a: TermId, b: TermId) -> bool
        ensures sound { (t : TableView) → AreDifferent t.terms → AreDeclared t.sorts t.symbols
            → AreFactsOf t self.now.now.facts
            → IsIn t a → IsIn t b → result ≡ true → AreEqualBy t (theory_of self.now) a b }
        ensures exact { (t : TableView) → AreDifferent t.terms → AreDeclared t.sorts t.symbols
            → AreFactsOf t self.now.now.facts
            → IsIn t a → IsIn t b → self.now.now.saturated ≡ true
            → (result ≡ true) ↔ AreEqualBy t (theory_of self.now) a b }
    {
        numbers_and_terms_agree();
        self.closure.same(a, b)
    }

    /// Gives the number of the class of each of these terms: two of them have one number exactly where they are equal by the held
    /// literals.
    ///
    /// That is so where `same` is exact. Each number is that of a term, and it takes constant time for each. `NoMemory` comes where
    /// the list finds no memory.
    pub fn classes(&self, alloc: Global, terms: &[TermId]) -> Result<Vec<u64>, NoMemory>
        ensures count { IfOk result (λ v. length v.items ≡ length terms.now) }
        ensures exact { (t : TableView) → AreDifferent t.terms → AreDeclared t.sorts t.symbols
            → AreFactsOf t self.now.now.facts
            → AreIn t terms.now → self.now.now.saturated ≡ true
            → IfOk result (λ v. TellClasses (AreEqualBy t (theory_of self.now)) terms.now v.items) }
    {
        numbers_and_terms_agree();
        self.closure.classes(alloc, terms)
    }

    /// Tells whether the last check answered `Fine`, and no literal and no term came since, also after going back to a mark that was
    /// set there. It takes no memory.
    pub fn is_saturated(&self) -> bool
        ensures { result ≡ self.now.now.saturated }
    {
        self.closure.is_saturated()
    }
}
