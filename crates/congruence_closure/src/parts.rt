//! The parts of a closure, but its marks.

ghost use Rattle.std.specs.Prelude.{◌≡◌, ◌≢◌, ◌<◌, ◌≤◌, ◌↔◌, true, length, map, OnOk, OnErr, IfOk, Contains};
ghost use Rattle.term_core.specs.Tables.{shape_of, NamesBelow};
ghost use Rattle.congruence_closure.specs.Listed.{IsListed};
ghost use Rattle.congruence_closure.specs.State.{PartsFit, class_number, with_listed, with_held, extent_of};
ghost use Rattle.congruence_closure.specs.Changes.{AddsRoom, AddsTerms, AreNew, Changes, HasTerms, MarksState, TermsFit, parts_back};
ghost use Rattle.explain_forest.specs.Forest.{Linked};

use crate::holding::Holding;
use crate::key_table::KeyTable;
use crate::listing::Listing;
use class_table::ClassTable;
use congruence_relation::Truths;
use explain_forest::Forest;
use no_memory::NoMemory;
use std::alloc::Global;
use std::marker::Model;
use term_core::{Lit, Node, TermId};

/// Holds listed terms and held literals, the classes and edges that they make, and what is left to do.
///
/// Listed terms are looked at once, and again where the class of an argument was renumbered. Held literals are given once.
#[derive(Drop)]
pub(crate) struct ClosureParts {
    pub(crate) alloc: Global,
    /// The terms `true` and `false`.
    pub(crate) truths: Truths,
    /// The listed terms.
    pub(crate) listing: Listing,
    /// The held literals.
    pub(crate) holding: Holding,
    /// The class of each term.
    pub(crate) classes: ClassTable,
    /// Why terms are in one class.
    pub(crate) forest: Forest,
    /// The keys of listed terms.
    pub(crate) keys: KeyTable,
    /// How many listed terms were looked at.
    pub(crate) looked: u64,
    /// How many held literals were given.
    pub(crate) given: u64,
    /// Places of listed terms to look at again, from `next` on.
    pub(crate) pending: Vec<u64>,
    /// How many of these were looked at.
    pub(crate) next: usize,
    /// Equalities that had linked sides when they were looked at, and were not denied. No contract sees them.
    pub(crate) noted: Vec<TermId>,
}

impl Model for ClosureParts {
    ghost use Rattle.congruence_closure.specs.State.{PartsView};
    ghost use Rattle.congruence_closure.specs.Kept.{closure_view, AreParts};

    ghost Value = { PartsView };

    ghost view = { closure_view };

    ghost invariant = { AreParts };
}

impl ClosureParts {
    /// Makes the parts of no listed terms and no literals, with the terms of the truth values.
    ///
    /// `NoMemory` comes where these find no memory.
    pub fn new(alloc: Global, truths: Truths) -> Result<ClosureParts, NoMemory>
        requires { truths.true_term ≢ truths.false_term }
        ensures { IfOk result (AreNew truths) }
    {
        let mut classes = ClassTable::new(alloc);
        let mut forest = Forest::new(alloc);
        let mut holding = Holding::new(alloc);
        add_term(&mut classes, &mut forest, &mut holding, truths.true_term)?;
        add_term(&mut classes, &mut forest, &mut holding, truths.false_term)?;
        Ok(ClosureParts {
            alloc,
            truths,
            listing: Listing::new(alloc),
            holding,
            classes,
            forest,
            keys: KeyTable::new(alloc),
            looked: 0,
            given: 0,
            pending: Vec::new(alloc),
            next: 0,
            noted: Vec::new(alloc),
        })
    }

    /// Lists a term, which takes part or not.
    ///
    /// `NoMemory` comes where it finds no memory; then terms may have come that are not listed.
    pub fn watch(&mut self, id: TermId, node: &Node, takes_part: bool) -> Result<(), NoMemory>
        requires new { IsListed self.old.now.facts.listed id → ⊥ }
        requires below { NamesBelow id.0 node.now }
        ensures ok { OnOk result (Changes self.old
            (with_listed self.old.now.facts (record {
              term = id;
              shape = shape_of node.now;
              takes_part = takes_part;
            })) self.new) }
        ensures err { OnErr result (Changes self.old self.old.now.facts self.new) }
    {
        add_term(&mut self.classes, &mut self.forest, &mut self.holding, id)?;
        self.listing.add(id, node, takes_part)?;
        Ok(())
    }

    /// Holds a literal. It takes no memory.
    pub fn hold(&mut self, lit: Lit)
        requires listed { IsListed self.old.now.facts.listed lit.term }
        requires new { Contains self.old.now.facts.held lit → ⊥ }
        ensures { Changes self.old (with_held self.old.now.facts lit) self.new }
    {
        self.holding.hold(lit);
    }

    /// Tells whether terms are linked, in constant time: a term that is not there is linked to itself alone. It takes no memory.
    pub fn same(&self, a: TermId, b: TermId) -> bool
        ensures { (result ≡ true) ↔ Linked self.now.now.edges a.0 b.0 }
    {
        if a == b {
            return true;
        }
        let count = self.classes.len();
        if a.0 >= count || b.0 >= count {
            return false;
        }
        self.classes.same(a, b)
    }

    /// Gives the number of a term's class, in constant time. That of a term that is not there is its own. It takes no memory.
    fn class_of(&self, t: TermId) -> u64
        ensures { result ≡ class_number self.now.now.numbers t }
    {
        if t.0 >= self.classes.len() {
            return t.0;
        }
        self.classes.class_of(t)
    }

    /// Gives the number of the class of each of these terms.
    ///
    /// `NoMemory` comes where the list finds no memory.
    pub fn classes(&self, alloc: Global, terms: &[TermId]) -> Result<Vec<u64>, NoMemory>
        ensures { IfOk result (λ v. v.items ≡ map (class_number self.now.now.numbers) terms.now) }
    {
        let mut numbers = Vec::new(alloc);
        'terms: for t in terms {
            numbers.push(self.class_of(*t))?;
        }
        Ok(numbers)
    }

    /// Lends the edges. It takes no memory.
    pub fn forest(&self) -> &Forest
        ensures { result.now.now ≡ record { terms = self.now.terms; edges = self.now.now.edges } }
    {
        &self.forest
    }

    /// States that there are no more edges than terms.
    pub fn edges_are_few(&self)
        ensures { length self.now.now.edges ≤ self.now.terms }
    {
        self.forest.edges_are_few();
    }

    /// States what the parts keep.
    pub fn are_kept(&self)
        ensures kept { PartsFit self.now.now }
        ensures terms { length self.now.now.numbers ≤ self.now.terms }
    {
        let _ = &self.alloc;
    }

    /// Marks classes and edges.
    ///
    /// `NoMemory` comes where there is no memory for the mark; then nothing is changed.
    pub fn mark(&mut self) -> Result<(), NoMemory>
        ensures ok { OnOk result (MarksState self.old self.new) }
        ensures err { OnErr result (self.new ≡ self.old) }
    {
        self.classes.mark()?;
        match self.forest.mark() {
            Ok(()) => Ok(()),
            Err(NoMemory) => {
                self.classes.back(1);
                Err(NoMemory)
            }
        }
    }

    /// Says how much there is. It takes no memory.
    pub fn extent(&self) -> Extent
        ensures { result ≡ extent_of self.now.now }
    {
        Extent {
            listed: self.listing.len() as usize,
            held: self.holding.all().len(),
            keys: self.keys.len(),
            looked: self.looked,
            given: self.given,
        }
    }

    /// Copies what is left to look at again, which is nothing where it is saturated.
    ///
    /// `NoMemory` comes where the copy finds no memory.
    pub fn left(&self) -> Result<Vec<u64>, NoMemory>
        ensures { IfOk result (λ pending. pending.items ≡ self.now.now.left.pending) }
    {
        let mut copy = Vec::new(self.alloc);
        copy.extend_from_slice(&self.pending[self.next..])?;
        Ok(copy)
    }

    /// Forgets the equalities that were noted. It takes no memory.
    pub fn forget_noted(&mut self)
        ensures { self.new ≡ self.old }
    {
        self.noted.truncate(0);
    }

    /// Goes back over so many marks, to where there was so much and this was left. Nothing is noted then. It takes no memory.
    pub fn back(&mut self, marks: u32, extent: Extent, pending: Vec<u64>)
        requires some { 0 < marks }
        requires numbers { marks ≤ length self.old.numbers_marks }
        requires edges { marks ≤ length self.old.edges_marks }
        requires terms { TermsFit self.old marks }
        requires kept { PartsFit (parts_back self.old marks extent pending.items).now }
        ensures { self.new ≡ parts_back self.old marks extent pending.items }
    {
        self.classes.back(marks);
        self.forest.back(marks);
        self.keys.cut(extent.keys);
        self.listing.cut(extent.listed);
        self.holding.cut(extent.held);
        self.looked = extent.looked;
        self.given = extent.given;
        self.pending = pending;
        self.next = 0;
        self.noted.truncate(0);
    }
}

/// How much there was at a mark.
#[derive(Clone, Copy, Debug, PartialEq, Eq)]
pub(crate) struct Extent {
    /// How many listed terms.
    pub listed: usize,
    /// How many held literals.
    pub held: usize,
    /// How many keys.
    pub keys: usize,
    /// How many listed terms were looked at.
    pub looked: u64,
    /// How many held literals were given.
    pub given: u64,
}

/// Adds the terms up to one to classes and edges, and room for literals of these.
///
/// `NoMemory` comes where they find no memory. Then some of the three may have more than the others.
fn add_term(
    classes: &mut ClassTable,
    forest: &mut Forest,
    holding: &mut Holding,
    t: TermId,
) -> Result<(), NoMemory>
    ensures classes { HasTerms classes.old classes.new }
    ensures forest { AddsTerms forest.old forest.new }
    ensures holding { AddsRoom holding.old holding.new }
    ensures fits { length classes.old.numbers ≤ forest.old.now.terms
        → length classes.new.numbers ≤ forest.new.now.terms }
    ensures room { length classes.old.numbers ≤ holding.old.terms → length classes.new.numbers ≤ holding.new.terms }
    ensures ok { OnOk result (t.0 < length classes.new.numbers) }
{
    forest.add(t)?;
    holding.add(t)?;
    classes.add(t)?;
    Ok(())
}
