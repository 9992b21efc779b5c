//! Simplex: the literals that it holds, with rows, values and bounds.

ghost use Rattle.std.specs.Prelude.{◌≡◌, [], IfOk};
ghost use Rattle.spec_tableaux.specs.LeastVariable as rule;
ghost use Rattle.simplex_bounds.specs.Deltas.{pair_of};
ghost use Rattle.spec_tableaux.specs.Points.{deltas, point_in};
ghost use Rattle.simplex_bounds.specs.Held.{ranges_in};
ghost use Rattle.simplex_check.specs.Assignments.{state_of, empty_assignment, IsBasisOf};
ghost use Rattle.simplex_check.specs.Moves.{rule_move};
ghost use Rattle.simplex_atoms.specs.Owners.{IsNumberOf};
ghost use Rattle.simplex.specs.Views.{SimplexFits};

use crate::atom_lists::AtomLists;
use crate::due_rows::DueRows;
use crate::starts::Start;
use delta_num::Delta;
use held_literals::HeldLiterals;
use no_memory::NoMemory;
use sat_budget::Basis;
use simplex_atoms::Atoms;
use simplex_bounds::Bounds;
use simplex_check::{Move, RealAssignment};
use std::alloc::Global;
use std::marker::Model;
use term_core::TermId;

/// Holds literals of linear real arithmetic, and values of the variables that keep what was checked of them.
///
/// The form of an atom bounds a variable: one that means a term, or one that stands for a row of several. Literals are
/// held as bounds, strict ones by an infinitesimal. Contracts see what it holds and watches, the rows and the bounds.
/// Source: Dutertre and de Moura, A Fast Linear-Arithmetic Solver for DPLL(T), CAV 2006.
#[derive(Drop)]
pub struct Simplex {
    pub(crate) alloc: Global,
    pub(crate) literals: HeldLiterals,
    pub(crate) atoms: Atoms,
    pub(crate) assignment: RealAssignment,
    pub(crate) bounds: Bounds,
    /// What there was at each mark.
    pub(crate) starts: Vec<Start>,
    /// How many watched terms have a place.
    pub(crate) slack_list: u64,
    /// How many of the bounds, from the oldest on, the values are known to keep.
    pub(crate) kept: u64,
    /// The atoms on each variable.
    pub(crate) atom_lists: AtomLists,
    /// Which rows are looked at for what they imply.
    pub(crate) due_rows: DueRows,
    /// How many of the bounds, from the oldest on, were looked at for what they imply.
    pub(crate) told: u64,
}

impl Model for Simplex {
    ghost use Rattle.std.specs.Prelude.{◌≡◌};
    ghost use Rattle.simplex_check.specs.Suspects.{KeepsFirst};
    ghost use Rattle.simplex.specs.Views.{SimplexView, SimplexFits, slack_count};

    ghost Value = { SimplexView };

    ghost view = { λ s. record {
      theory = s.literals;
      atoms = s.atoms;
      assignment = s.assignment;
      bounds = s.bounds;
      starts = s.starts.items;
    } };

    ghost invariant = { λ s. SimplexFits (record {
      theory = s.literals;
      atoms = s.atoms;
      assignment = s.assignment;
      bounds = s.bounds;
      starts = s.starts.items;
    }) × (s.slack_list ≡ slack_count s.atoms.slack_list s.literals.watched) × KeepsFirst s.kept s.bounds.held s.assignment.values };
}

impl Simplex {
    /// Makes a theory that holds and watches nothing. It takes no memory.
    pub fn new(alloc: Global) -> Simplex
        ensures { result ≡ record {
          theory = record { held = []; watched = []; marks = [] };
          atoms = record { owners = []; sums = []; slack_list = [] };
          assignment = empty_assignment;
          bounds = record { variables = 0; held = []; room = 0 };
          starts = [];
        } }
    {
        Simplex {
            alloc,
            literals: HeldLiterals::new(alloc),
            atoms: Atoms::new(alloc),
            assignment: RealAssignment::new(alloc),
            bounds: Bounds::new(alloc),
            starts: Vec::new(alloc),
            slack_list: 0,
            kept: 0,
            atom_lists: AtomLists::new(alloc),
            due_rows: DueRows::new(alloc),
            told: 0,
        }
    }

    /// States that the bounds that are held are those that the held literals state, and that there is room for those of both
    /// literals of each watched atom.
    pub fn parts_fit(&self)
        ensures { SimplexFits self.now }
    {
        let _ = &self.literals;
    }

    /// Gives the number of the variable that means a term; `None` exactly where none does, as it is no variable of a
    /// watched term's form. It takes no memory.
    pub fn var(&self, id: TermId) -> Option<u64>
        ensures { IsNumberOf self.now.atoms.owners id result }
    {
        self.atoms.var(id)
    }

    /// Gives the value of a variable by its number, and 0 where there is none. It takes no memory.
    pub fn point(&self, variable: u64) -> Delta
        ensures { pair_of result ≡ point_in self.now.assignment.values variable }
    {
        self.assignment.value(variable)
    }

    /// Gives what the least-variable rule says of the rows, the values and the bounds. It takes no memory.
    pub fn bland_step(&self) -> Move
        ensures { rule.RuleSays deltas (ranges_in self.now.bounds.held) (state_of self.now.assignment)
            (rule_move result) }
    {
        self.assignment.next_move(&self.bounds)
    }

    /// Lists the basic variables, in the order of their rows, and the values of all variables.
    ///
    /// `NoMemory` comes where a list finds no memory.
    pub fn basis(&self) -> Result<Basis, NoMemory>
        ensures { IfOk result (λ basis. IsBasisOf self.now.assignment basis) }
    {
        self.assignment.basis()
    }
}
