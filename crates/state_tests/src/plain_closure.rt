//! A closure that goes over all pairs of terms until nothing is joined any more.

use congruence_closure::{Lit, Node, TermId, Truths};
use no_memory::NoMemory;
use std::alloc::Global;
use term_core::Head;

/// Holds what a closure is about, and what it was about at each mark.
#[derive(Drop)]
pub(crate) struct PlainClosure {
    alloc: Global,
    truths: Truths,
    listed: Vec<TermId>,
    held: Vec<Lit>,
    marks: Vec<(usize, usize)>,
}

/// Gives the class of a term; a term that is not there is a class of its own.
fn class_of(classes: &[u64], t: TermId) -> u64 {
    match classes.get(t.0 as usize) {
        Some(class) => *class,
        None => t.0,
    }
}

/// Joins the classes of two terms; tells whether these were two.
fn join(classes: &mut [u64], a: TermId, b: TermId) -> bool {
    let from = class_of(classes, a);
    let into = class_of(classes, b);
    if from == into {
        return false;
    }
    for class in classes.iter_mut() {
        if *class == from {
            *class = into;
        }
    }
    true
}

/// Gives the sides of an equality.
fn sides(node: &Node) -> Option<(TermId, TermId)> {
    match (node.head, node.arguments.as_slice()) {
        (Head::Equal, [a, b]) => Some((*a, *b)),
        _ => None,
    }
}

/// Tells whether two terms have one head, and arguments of the same classes.
fn agree(classes: &[u64], one: &Node, other: &Node) -> bool {
    let first = one.arguments.as_slice();
    let second = other.arguments.as_slice();
    if one.head != other.head || first.len() != second.len() {
        return false;
    }
    for (a, b) in first.iter().zip(second) {
        if class_of(classes, *a) != class_of(classes, *b) {
            return false;
        }
    }
    true
}

impl PlainClosure {
    /// Makes one of nothing.
    pub(crate) fn new(alloc: Global, truths: Truths) -> PlainClosure {
        PlainClosure {
            alloc,
            truths,
            listed: Vec::new(alloc),
            held: Vec::new(alloc),
            marks: Vec::new(alloc),
        }
    }

    /// Lists a term.
    pub(crate) fn watch(&mut self, t: TermId) -> Result<(), NoMemory> {
        self.listed.push(t)?;
        Ok(())
    }

    /// Holds a literal.
    pub(crate) fn hold(&mut self, lit: Lit) -> Result<(), NoMemory> {
        self.held.push(lit)?;
        Ok(())
    }

    /// Sets a mark.
    pub(crate) fn mark(&mut self) -> Result<(), NoMemory> {
        self.marks.push((self.listed.len(), self.held.len()))?;
        Ok(())
    }

    /// Goes back over the newest mark.
    pub(crate) fn back(&mut self) {
        if let Some((listed, held)) = self.marks.pop() {
            self.listed.truncate(listed);
            self.held.truncate(held);
        }
    }

    /// Joins what a literal states; tells whether something was joined.
    fn give(&self, nodes: &[Node], classes: &mut [u64], lit: Lit) -> bool {
        let truth = if lit.positive {
            self.truths.true_term
        } else {
            self.truths.false_term
        };
        let mut joined = join(classes, lit.term, truth);
        if let Some(node) = nodes.get(lit.term.0 as usize) {
            if let Some((a, b)) = sides(node) {
                joined = (lit.positive && join(classes, a, b)) || joined;
            }
        }
        joined
    }

    /// Joins listed terms that agree; tells whether there were some.
    fn pass(&self, nodes: &[Node], classes: &mut [u64]) -> bool {
        let mut joined = false;
        for a in &self.listed {
            for b in &self.listed {
                if let (Some(one), Some(other)) = (
                    nodes.get(a.0 as usize),
                    nodes.get(b.0 as usize),
                ) {
                    if agree(classes, one, other) && join(classes, *a, *b) {
                        joined = true;
                    }
                }
            }
        }
        joined
    }

    /// Joins what held literals state, and listed terms that agree; tells whether something was joined.
    fn join_all(&self, nodes: &[Node], classes: &mut [u64]) -> bool {
        let mut joined = false;
        for lit in &self.held {
            joined = self.give(nodes, classes, *lit) || joined;
        }
        self.pass(nodes, classes) || joined
    }

    /// Joins classes until nothing is joined any more.
    fn close(&self, nodes: &[Node], classes: &mut [u64]) {
        for _ in 0..nodes.len() {
            if !self.join_all(nodes, classes) {
                return;
            }
        }
    }

    /// Gives the class of each of the terms, whose nodes these are.
    pub(crate) fn classes(&self, nodes: &[Node]) -> Result<Vec<u64>, NoMemory> {
        let mut classes = Vec::new(self.alloc);
        for n in 0..nodes.len() {
            classes.push(n as u64)?;
        }
        self.close(nodes, &mut classes);
        Ok(classes)
    }

    /// Tells whether what is held is refuted, by the classes of the terms.
    pub(crate) fn is_refuted(&self, nodes: &[Node], classes: &[u64]) -> bool {
        if class_of(classes, self.truths.true_term) == class_of(classes, self.truths.false_term) {
            return true;
        }
        for lit in &self.held {
            if let Some(node) = nodes.get(lit.term.0 as usize) {
                if let Some((a, b)) = sides(node) {
                    if !lit.positive && class_of(classes, a) == class_of(classes, b) {
                        return true;
                    }
                }
            }
        }
        false
    }
}
