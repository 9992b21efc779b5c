//! The forest, with its marks.

ghost use Rattle.std.specs.Prelude.{◌≡◌, ℕ, suc, ◌-◌, ◌<◌, ◌≤◌, ◌==◌, max, [], ◌∷◌, ◌++◌, length, take, get_or, IfOk, OnOk, OnErr};
ghost use Rattle.explain_forest.specs.Forest.{Linked, path, root, numbered, PathLeads, AlongEdges};

use crate::arrays::{cut, grow, shrink};
use crate::climb::find;
use crate::explain::explain;
use crate::types::{Edge, EdgeMark, Label, PathStep};
use no_memory::NoMemory;
use std::alloc::Global;
use std::marker::Model;
use term_core::TermId;

/// Holds edges between terms, of which none joins terms that were linked, and goes back to a mark.
///
/// Terms are numbers below a count. Two are linked where edges lead from one to the other. Contracts see how many terms there are and
/// the edges, newest first, now and at each mark. `link` puts the tree of its first term under that of its second. With the smaller
/// tree first, a climb to a root takes no more steps than the binary logarithm of the terms.
/// Source: Nieuwenhuis and Oliveras, Information and Computation 205, 2007, for the edges and their labels.
#[derive(Drop)]
pub struct Forest {
    alloc: Global,
    /// The term above each term; a root is its own.
    parents: Vec<u64>,
    /// The number of the edge that put each term under its parent, from 1; 0 for a root.
    stamps: Vec<u64>,
    /// The edges, oldest first, with room for as many as there are terms.
    edges: Vec<Edge>,
    /// The marks, oldest first.
    marks: Vec<EdgeMark>,
}

impl Model for Forest {
    ghost use Rattle.std.specs.Prelude.{length, reverse, map, vec_capacity};
    ghost use Rattle.explain_forest.specs.Forest.{ForestView};
    ghost use Rattle.explain_forest.specs.Kept.{state_at, ForestFits};

    ghost Value = { ForestView };

    ghost view = { λ f. record {
      now = record { terms = length f.parents.items; edges = reverse f.edges.items };
      marks = map (state_at f.edges.items) f.marks.items;
    } };

    ghost invariant = { λ f. ForestFits f.parents.items f.stamps.items f.edges.items f.marks.items (vec_capacity f.edges) };
}

impl Forest {
    /// Makes the forest of no terms. It takes no memory.
    pub fn new(alloc: Global) -> Forest
        ensures now { result.now ≡ record { terms = 0; edges = [] } }
        ensures marks { result.marks ≡ [] }
    {
        Forest {
            alloc,
            parents: Vec::new(alloc),
            stamps: Vec::new(alloc),
            edges: Vec::new(alloc),
            marks: Vec::new(alloc),
        }
    }

    /// Counts the terms. It takes no memory.
    pub fn terms(&self) -> u64
        ensures { result ≡ self.now.now.terms }
    {
        self.parents.len() as u64
    }

    /// Counts the edges. It takes no memory.
    pub fn len(&self) -> u64
        ensures { result ≡ length self.now.now.edges }
    {
        self.edges.len() as u64
    }

    /// Gives the edge of a number, from 0 for the oldest. It takes no memory.
    pub fn edge(&self, n: u64) -> Edge
        requires { n < length self.now.now.edges }
        ensures { result ≡ numbered self.now.now.edges n }
    {
        self.edges[n as usize]
    }

    /// Gives the root of a term. Linked terms alone have the same one. It takes no memory.
    pub fn root_of(&self, t: TermId) -> TermId
        requires { t.0 < self.now.now.terms }
        ensures value { result.0 ≡ root self.now.now.edges t.0 }
        ensures low { result.0 < self.now.now.terms }
    {
        TermId(find(&self.parents, &self.stamps, &self.edges, t.0))
    }

    /// Tells whether two terms are linked. It takes no memory.
    pub fn same(&self, a: TermId, b: TermId) -> bool
        requires a { a.0 < self.now.now.terms }
        requires b { b.0 < self.now.now.terms }
        ensures { result ≡ (root self.now.now.edges a.0 == root self.now.now.edges b.0) }
    {
        self.root_of(a) == self.root_of(b)
    }

    /// Gives the path between two linked terms, each step with its edge's number. From a term to itself there is no step.
    ///
    /// It takes time in proportion to the steps and the climbs from their ends, and memory in proportion to the steps.
    /// `NoMemory` comes where it finds none.
    pub fn explain(&self, a: TermId, b: TermId) -> Result<Vec<PathStep>, NoMemory>
        requires a { a.0 < self.now.now.terms }
        requires b { b.0 < self.now.now.terms }
        requires linked { Linked self.now.now.edges a.0 b.0 }
        ensures { IfOk result (λ steps. steps.items ≡ path self.now.now.edges a.0 b.0) }
    {
        explain(self.alloc, &self.parents, &self.stamps, &self.edges, a, b)
    }

    /// States that there are no more edges than terms.
    pub fn edges_are_few(&self)
        ensures { length self.now.now.edges ≤ self.now.now.terms }
    {
        let _ = &self.parents;
    }

    /// States that each path leads from its first term to its last, along edges by their numbers.
    pub fn paths_lead(&self)
        ensures leads { (x y : ℕ) → Linked self.now.now.edges x y → PathLeads x (path self.now.now.edges x y) y }
        ensures along { (x y : ℕ) → AlongEdges self.now.now.edges (path self.now.now.edges x y) }
    {
        let _ = &self.parents;
    }

    /// Puts an edge between two terms that are not linked, as the newest. It takes no memory.
    pub fn link(&mut self, a: TermId, b: TermId, label: Label)
        requires a { a.0 < self.old.now.terms }
        requires b { b.0 < self.old.now.terms }
        requires apart { Linked self.old.now.edges a.0 b.0 → ⊥ }
        ensures now { self.new.now ≡ record {
          terms = self.old.now.terms;
          edges = record { a = a; b = b; label = label } ∷ self.old.now.edges;
        } }
        ensures marks { self.new.marks ≡ self.old.marks }
    {
        let below = self.root_of(a).0;
        let above = self.root_of(b).0;
        self.parents[below as usize] = above;
        self.stamps[below as usize] = self.edges.len() as u64 + 1;
        self.edges.push_reserved(Edge { a, b, label });
    }

    /// Sets a mark at the terms and edges as they are now.
    ///
    /// `NoMemory` comes where there is no memory for the mark; then nothing is changed.
    pub fn mark(&mut self) -> Result<(), NoMemory>
        ensures now { self.new.now ≡ self.old.now }
        ensures marks { OnOk result (self.new.marks ≡ self.old.marks ++ self.old.now ∷ []) }
        ensures err { OnErr result (self.new ≡ self.old) }
    {
        self.marks.push(EdgeMark {
            edges: self.edges.len(),
            terms: self.parents.len(),
        })?;
        Ok(())
    }

    /// Adds the terms up to this one that are not there, with no edges. It takes the memory of later `link`s, too.
    ///
    /// `NoMemory` comes where they find no memory; then the forest is as it was.
    pub fn add(&mut self, t: TermId) -> Result<(), NoMemory>
        ensures ok { OnOk result (self.new.now ≡ record {
          terms = max (suc t.0) self.old.now.terms;
          edges = self.old.now.edges;
        }) }
        ensures marks { self.new.marks ≡ self.old.marks }
        ensures err { OnErr result (self.new ≡ self.old) }
    {
        let count = self.parents.len() as u64;
        if t.0 < count {
            return Ok(());
        }
        if t.0 == u64::MAX {
            return Err(NoMemory);
        }
        let more = (t.0 + 1 - count) as usize;
        self.parents.reserve(more)?;
        self.stamps.reserve(more)?;
        self.edges.reserve((t.0 + 1) as usize - self.edges.len())?;
        grow(&mut self.parents, &mut self.stamps, more);
        Ok(())
    }

    /// Goes back over so many marks, newest first: terms and edges are those at the last of them, and these marks are gone.
    ///
    /// It takes no memory, and time in proportion to the edges that go, with a climb for each.
    pub fn back(&mut self, marks: u32)
        requires { marks ≤ length self.old.marks }
        ensures now { self.new.now ≡ get_or self.old.marks (length self.old.marks - marks) self.old.now }
        ensures marks { self.new.marks ≡ take (length self.old.marks - marks) self.old.marks }
    {
        let kept = self.marks.len() - marks as usize;
        if let Some(&mark) = self.marks.get(kept) {
            self.marks.truncate(kept);
            cut(
                &mut self.parents,
                &mut self.stamps,
                &mut self.edges,
                mark.edges,
            );
            shrink(&mut self.parents, &mut self.stamps, mark.terms);
        }
    }
}
