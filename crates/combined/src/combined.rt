//! Both theories, and how to look at each.

ghost use Rattle.std.specs.Prelude.{◌≡◌, List, [], IfOk};
ghost use Rattle.spec_sorts.specs.Terms.{Term, True, False, of};
ghost use Rattle.term_core.specs.Tables.{IsIn, term_at};
ghost use Rattle.congruence_relation.specs.Relation.{AreFactsOf};
ghost use Rattle.congruence.specs.Views.{theory_of};
ghost use Rattle.simplex.specs.Checks.{Suits};
ghost use Rattle.simplex.specs.Coming.{CameBy};
ghost use Rattle.combined.specs.Views.{HoldTheSame};

use congruence::{Congruence, Truths};
use no_memory::NoMemory;
use simplex::Simplex;
use simplex_atoms::laws::no_atoms_fit;
use std::alloc::Global;
use std::marker::Model;
use term_core::TermTable;

/// Holds literals of equality, functions and linear real arithmetic, in a theory of each kind.
///
/// Both hold all literals, watch all terms and have all marks. Contracts see what each keeps of them. What one finds equal the other
/// does not learn. So it finds all that is wrong only where no number is an argument of a function or its value.
/// Source: Nelson and Oppen, Simplification by Cooperating Decision Procedures, TOPLAS 1979.
#[derive(Drop)]
pub struct Combined {
    pub(crate) congruence: Congruence,
    pub(crate) simplex: Simplex,
}

impl Model for Combined {
    ghost use Rattle.combined.specs.Views.{CombinedView, HoldTheSame};

    ghost Value = { CombinedView };

    ghost view = { λ c. record { congruence = c.congruence; simplex = c.simplex } };

    ghost invariant = { λ c. HoldTheSame (record { congruence = c.congruence; simplex = c.simplex }) };
}

impl Combined {
    /// Makes a theory that holds and watches nothing, over the terms `true` and `false` of a table.
    ///
    /// `NoMemory` comes where the terms up to these find no memory.
    pub fn new(alloc: Global, table: &TermTable, truths: Truths) -> Result<Combined, NoMemory>
        requires true_there { IsIn table.now truths.true_term }
        requires true_is { term_at table.now truths.true_term ≡ of True [] }
        requires false_there { IsIn table.now truths.false_term }
        requires false_is { term_at table.now truths.false_term ≡ of False [] }
        ensures empty { IfOk result (λ c. theory_of c.congruence ≡ record { held = []; watched = []; marks = [] }) }
        ensures congruence { IfOk result (λ c. AreFactsOf table.now c.congruence.now.facts) }
        ensures simplex { IfOk result (λ c. Suits c.simplex table.now) }
        ensures came { IfOk result (λ c. (ts : List Term) → CameBy table.now ts 0 [] c.simplex) }
    {
        no_atoms_fit();
        let congruence = Congruence::new(alloc, table, truths)?;
        Ok(Combined {
            congruence,
            simplex: Simplex::new(alloc),
        })
    }

    /// Lends the theory of equality and functions, to look at its classes. It takes no memory.
    pub fn congruence(&self) -> &Congruence
        ensures { result.now ≡ self.now.congruence }
    {
        &self.congruence
    }

    /// Lends the theory of linear arithmetic, to look at its values, rows and bounds. It takes no memory.
    pub fn simplex(&self) -> &Simplex
        ensures { result.now ≡ self.now.simplex }
    {
        &self.simplex
    }

    /// States that both theories hold and watch the same, with the same marks.
    pub fn parts_hold_the_same(&self)
        ensures { HoldTheSame self.now }
    {
        let _ = &self.simplex;
    }
}
