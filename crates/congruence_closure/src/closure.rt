//! The closure, with its marks.

ghost use Rattle.std.specs.Prelude.{◌≡◌, ◌≢◌, ◌-◌, ◌<◌, ◌≤◌, ◌↔◌, ◌++◌, ◌∷◌, [], true, false, Some, None, length, take, get_or, IfOk, OnOk, OnErr, MatchOption, Contains, ℕ};
ghost use Rattle.term_core.specs.Tables.{shape_of, NamesBelow};
ghost use Rattle.congruence_relation.specs.Relation.{applications, IsCongruentIn};
ghost use Rattle.congruence_relation.specs.Edges.{IsConflict};
ghost use Rattle.congruence_relation.specs.declared.Conflict.{Conflict as Against};
ghost use Rattle.congruence_closure.specs.Closure.{ArePrefix, AreTerms, TellClasses, IsRight};
ghost use Rattle.congruence_closure.specs.Listed.{no_term_id, IsListed, HasPlace};
ghost use Rattle.congruence_closure.specs.State.{with_listed, with_held};

use crate::Conflict;
use crate::parts::{ClosureParts, Extent};
use congruence_relation::{Listed, Truths};
use explain_forest::Forest;
use no_memory::NoMemory;
use std::alloc::Global;
use std::marker::Model;
use term_core::{Lit, Node, TermId};

/// Holds what a closure had at a mark.
#[derive(Drop)]
pub(crate) struct ClosureMark {
    /// How much there was.
    pub(crate) extent: Extent,
    /// What was left to look at again.
    pub(crate) pending: Vec<u64>,
    /// Whether it was saturated.
    pub(crate) saturated: bool,
}

/// Holds listed terms and held literals, and tells which terms are congruent by them.
///
/// Terms are the numbers of a table. `saturate` makes the edges link all that is congruent, in time in proportion to what came since,
/// and to the users of the classes that are renumbered. Contracts see what it is about, its edges, and what it was about at each mark.
#[derive(Drop)]
pub struct Closure {
    parts: ClosureParts,
    /// Nothing came since `saturate` found no conflict.
    saturated: bool,
    /// The marks, oldest first.
    marks: Vec<ClosureMark>,
}

impl Model for Closure {
    ghost use Rattle.congruence_closure.specs.Closure.{ClosureView};
    ghost use Rattle.congruence_closure.specs.Whole.{closure_of, ClosureFits};

    ghost Value = { ClosureView };

    ghost view = { closure_of };

    ghost invariant = { λ c. ClosureFits c.parts c.saturated c.marks.items };
}

impl Closure {
    /// Makes the closure of no listed terms and no literals, for a table with these truth values.
    ///
    /// `NoMemory` comes where the terms up to these find no memory.
    pub fn new(alloc: Global, truths: Truths) -> Result<Closure, NoMemory>
        requires { truths.true_term ≢ truths.false_term }
        ensures { IfOk result (λ c. (c.now ≡ record {
          facts = record { listed = []; truths = truths; held = [] };
          saturated = false;
        })
            × (c.edges ≡ []) × (c.marks ≡ [])) }
    {
        let parts = ClosureParts::new(alloc, truths)?;
        Ok(Closure {
            parts,
            saturated: false,
            marks: Vec::new(alloc),
        })
    }

    /// Lists a term, by its number and a copy of its node. The room for literals of it comes with it. One that takes no part is never
    /// looked at: it is equal to no other by its arguments, and its sides may be equal where it is denied.
    ///
    /// `NoMemory` comes where it finds no memory; then what it is about is as it was.
    pub fn watch(&mut self, id: TermId, node: &Node, takes_part: bool) -> Result<(), NoMemory>
        requires new { IsListed self.old.now.facts.listed id → ⊥ }
        requires below { NamesBelow id.0 node.now }
        ensures ok { OnOk result (self.new.now ≡ record {
          facts = with_listed self.old.now.facts (record {
            term = id;
            shape = shape_of node.now;
            takes_part = takes_part;
          });
          saturated = false;
        }) }
        ensures edges { self.new.edges ≡ self.old.edges }
        ensures marks { self.new.marks ≡ self.old.marks }
        ensures err { OnErr result (self.new ≡ self.old) }
    {
        self.parts.watch(id, node, takes_part)?;
        self.saturated = false;
        Ok(())
    }

    /// Holds a literal of a listed term. It takes no memory.
    pub fn hold(&mut self, lit: Lit)
        requires listed { IsListed self.old.now.facts.listed lit.term }
        requires new { Contains self.old.now.facts.held lit → ⊥ }
        ensures now { self.new.now ≡ record { facts = with_held self.old.now.facts lit; saturated = false } }
        ensures edges { self.new.edges ≡ self.old.edges }
        ensures marks { self.new.marks ≡ self.old.marks }
    {
        self.parts.hold(lit);
        self.saturated = false;
    }

    /// Makes the edges link all that is congruent, or gives a conflict of what is held. At once where it is saturated.
    ///
    /// What it meets on the way is in `noted`. `NoMemory` comes where it finds no memory; then it can be called again, and goes on.
    pub fn saturate(&mut self) -> Result<Option<Conflict>, NoMemory>
        ensures facts { self.new.now.facts ≡ self.old.now.facts }
        ensures marks { self.new.marks ≡ self.old.marks }
        ensures saturated { IfOk result (λ found. found ≡ None → self.new.now.saturated ≡ true) }
        ensures conflict { IfOk result (λ found. (c : Against) → found ≡ Some c
            → IsConflict self.new.now.facts self.new.edges c) }
    {
        if self.saturated {
            return Ok(None);
        }
        let found = self.parts.saturate()?;
        self.saturated = found.is_none();
        Ok(found)
    }

    /// Lends terms that came to be true or false by what is held, since they were forgotten, or since it went back. They are equalities with
    /// linked sides, and what came into the class of a truth value. `saturate` notes them as it meets them, and some may be there twice. It
    /// takes no memory.
    pub fn noted(&self) -> &[TermId] {
        self.parts.noted.as_slice()
    }

    /// Forgets the noted terms. It takes no memory.
    pub fn forget_noted(&mut self)
        ensures { self.new ≡ self.old }
    {
        self.parts.forget_noted();
    }

    /// Tells whether a term is true or false by the classes, where they say so. It takes no memory.
    pub fn truth(&self, t: TermId) -> Option<bool> {
        self.parts.truth(t)
    }

    /// Tells whether two terms are congruent by what is held, in constant time, where it is saturated. It takes no memory.
    ///
    /// A term that is not there is congruent to itself alone.
    pub fn same(&self, a: TermId, b: TermId) -> bool
        ensures sound { result ≡ true → IsCongruentIn self.now.now.facts a b }
        ensures exact { self.now.now.saturated ≡ true → (result ≡ true) ↔ IsCongruentIn self.now.now.facts a b }
    {
        self.parts.are_kept();
        self.parts.same(a, b)
    }

    /// Gives the number of the class of each of these terms, in constant time for each: two of them have one number exactly where
    /// they are congruent by what is held, where it is saturated. Else those of one number are congruent, and others may be.
    ///
    /// The number is that of a term. A term that is not there is in a class of its own. `NoMemory` comes where the list finds no
    /// memory.
    pub fn classes(&self, alloc: Global, terms: &[TermId]) -> Result<Vec<u64>, NoMemory>
        ensures count { IfOk result (λ v. length v.items ≡ length terms.now) }
        ensures sound { IfOk result (λ v. (i j : ℕ) → i < length terms.now → j < length terms.now
            → get_or v.items i 0 ≡ get_or v.items j 0
            → IsCongruentIn self.now.now.facts (get_or terms.now i no_term_id) (get_or terms.now j no_term_id)) }
        ensures exact { self.now.now.saturated ≡ true
            → IfOk result (λ v. TellClasses (IsCongruentIn self.now.now.facts) terms.now v.items) }
    {
        self.parts.are_kept();
        self.parts.classes(alloc, terms)
    }

    /// Marks what it is about, and whether it is saturated.
    ///
    /// It takes time in proportion to what an early end of `saturate` left, which is nothing where it is saturated. `NoMemory` comes where
    /// the mark finds no memory; then nothing is changed.
    pub fn mark(&mut self) -> Result<(), NoMemory>
        ensures now { self.new.now ≡ self.old.now }
        ensures edges { self.new.edges ≡ self.old.edges }
        ensures marks { OnOk result (self.new.marks ≡ self.old.marks ++ self.old.now ∷ []) }
        ensures err { OnErr result (self.new ≡ self.old) }
    {
        self.parts.are_kept();
        let pending = self.parts.left()?;
        self.marks.reserve(1)?;
        self.parts.mark()?;
        self.marks.push_reserved(ClosureMark {
            extent: self.parts.extent(),
            pending,
            saturated: self.saturated,
        });
        Ok(())
    }

    /// Goes back over so many marks: it is about what it was at the oldest of them, and saturated if it was then. It takes no memory.
    ///
    /// For `marks` 0 nothing changes. It takes time in proportion to what came since.
    pub fn back(&mut self, marks: u32)
        requires { marks ≤ length self.old.marks }
        ensures now { self.new.now ≡ get_or self.old.marks (length self.old.marks - marks) self.old.now }
        ensures marks { self.new.marks ≡ take (length self.old.marks - marks) self.old.marks }
    {
        let kept = self.marks.len() - marks as usize;
        if kept < self.marks.len() {
            self.marks.truncate(kept + 1);
            if let Some(mark) = self.marks.pop() {
                self.parts.back(marks, mark.extent, mark.pending);
                self.saturated = mark.saturated;
            }
        }
    }

    /// Lends the edges, which explain why terms are linked, between its terms. What is listed is among these. It takes no memory.
    pub fn forest(&self) -> &Forest
        ensures edges { result.now.now.edges ≡ self.now.edges }
        ensures terms { AreTerms self.now result.now.now.terms }
    {
        self.parts.are_kept();
        self.parts.forest()
    }

    /// Lends the listed terms, oldest first. It takes no memory.
    pub fn listed(&self) -> &[Listed]
        ensures { applications result.now ≡ self.now.now.facts.listed }
    {
        self.parts.listing.all()
    }

    /// Gives the place of a term among the listed ones, if it is there, in constant time. It takes no memory.
    pub fn place_of(&self, t: TermId) -> Option<u64>
        ensures { MatchOption result (IsListed self.now.now.facts.listed t → ⊥)
            (λ place. HasPlace self.now.now.facts.listed t place) }
    {
        self.parts.listing.place_of(t)
    }

    /// Lends the held literals, oldest first. It takes no memory.
    pub fn held(&self) -> &[Lit]
        ensures { result.now ≡ self.now.now.facts.held }
    {
        self.parts.holding.all()
    }

    /// Gives the terms of the truth values. It takes no memory.
    pub fn truths(&self) -> Truths
        ensures { result ≡ self.now.now.facts.truths }
    {
        self.parts.truths
    }

    /// Tells whether nothing came since `saturate` found no conflict. It takes no memory.
    pub fn is_saturated(&self) -> bool
        ensures { result ≡ self.now.now.saturated }
    {
        self.saturated
    }

    /// States that edges have reasons, and that they are closed and no conflict is there where it is saturated.
    pub fn is_right(&self)
        ensures { IsRight self.now }
    {
        self.parts.are_kept();
    }

    /// States that at each mark it was about a prefix of what it is about now.
    pub fn marks_are_prefixes(&self)
        ensures { (k : ℕ) → k < length self.now.marks
            → ArePrefix (get_or self.now.marks k self.now.now).facts self.now.now.facts }
    {
        let _ = &self.parts;
    }
}
