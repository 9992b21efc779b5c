//! Calls by chance, with marks and going back, on a closure and on a plain one.

ghost use Rattle.std.specs.Prelude.{◌≤◌, length};

use crate::plain_closure::PlainClosure;
use congruence_closure::{Closure, Lit, Node, TermId, Truths};
use no_memory::NoMemory;
use std::alloc::Global;
use std::marker::Model;
use std::test::Fail;
use term_core::{Head, SymbolId};

/// How many cases there are, how many terms in each, and how many calls.
const CASES: u64 = 2_000;

const TERMS: u64 = 14;

const CALLS: u64 = 24;

/// Holds a closure, and counts the marks that can be gone back to.
#[derive(Drop)]
struct Marked {
    closure: Closure,
    marks: u32,
}

impl Model for Marked {
    ghost use Rattle.std.specs.Prelude.{ℕ, length, ◌≤◌};

    ghost Value = { ℕ };

    ghost view = { λ m. m.marks };

    ghost invariant = { λ m. m.marks ≤ length m.closure.marks };
}

impl Marked {
    /// Lists a term, if it is not listed and its arguments come before it; says so.
    fn watch(&mut self, t: TermId, node: &Node) -> Result<bool, NoMemory> {
        if self.closure.place_of(t).is_some()
            || !node.arguments.as_slice().iter().all(|a| a.0 < t.0)
        {
            return Ok(false);
        }
        self.closure.watch(t, node, true)?;
        Ok(true)
    }

    /// Holds a literal, if its term is listed and it is not held; says so.
    fn hold(&mut self, lit: Lit) -> bool {
        if self.closure.place_of(lit.term).is_none() || self.closure.held().contains(&lit) {
            return false;
        }
        self.closure.hold(lit);
        true
    }

    /// Sets a mark.
    fn mark(&mut self) -> Result<(), NoMemory> {
        self.closure.mark()?;
        self.marks = self.marks.saturating_add(1);
        Ok(())
    }

    /// Goes back over the newest mark, if there is one; says so.
    fn back(&mut self) -> bool {
        if self.marks == 0 {
            return false;
        }
        self.closure.back(1);
        self.marks -= 1;
        true
    }
}

/// Gives the next number of a sequence that looks random.
fn next_number(number: &mut u64) -> u64 {
    *number = number
        .wrapping_mul(6_364_136_223_846_793_005)
        .wrapping_add(1_442_695_040_888_963_407);
    *number >> 33
}

/// Makes the node of a term by chance: its arguments come before it.
fn node_of(alloc: Global, term: u64, seed: &mut u64) -> Result<Node, NoMemory> {
    let one = TermId(next_number(seed) % term.max(1));
    let other = TermId(next_number(seed) % term.max(1));
    match next_number(seed) % 5 {
        _ if term < 2 => Node::new(alloc, if term == 0 { Head::True } else { Head::False }, &[]),
        0 => Node::new(alloc, Head::Apply(SymbolId(term)), &[]),
        1 => Node::new(alloc, Head::Apply(SymbolId(100)), &[one]),
        2 => Node::new(alloc, Head::Apply(SymbolId(101)), &[one, other]),
        _ => Node::new(alloc, Head::Equal, &[one, other]),
    }
}

/// Makes the nodes of a case.
fn nodes_of(alloc: Global, seed: &mut u64) -> Result<Vec<Node>, NoMemory> {
    let mut nodes = Vec::new(alloc);
    for term in 0..TERMS {
        nodes.push(node_of(alloc, term, seed)?)?;
    }
    Ok(nodes)
}

/// Tells whether two terms are of one class in a closure exactly where they are so by classes, for each two terms.
fn are_same(closure: &Closure, classes: &[u64]) -> bool {
    for (a, one) in classes.iter().enumerate() {
        for (b, other) in classes.iter().enumerate() {
            if closure.same(TermId(a as u64), TermId(b as u64)) != (one == other) {
                return false;
            }
        }
    }
    true
}

/// Tells whether a closure that was saturated, and then found a conflict or none, answers as the plain one does: for each two terms,
/// or that there is a conflict.
fn answers_agree(
    closure: &Closure,
    clashes: bool,
    plain: &PlainClosure,
    nodes: &[Node],
) -> Result<bool, NoMemory> {
    let classes = plain.classes(nodes)?;
    Ok(plain.is_refuted(nodes, &classes) == clashes && (clashes || are_same(closure, &classes)))
}

/// Saturates both; tells whether the answers agree.
fn saturates_alike(
    marked: &mut Marked,
    plain: &PlainClosure,
    nodes: &[Node],
) -> Result<bool, NoMemory> {
    let found = marked.closure.saturate()?;
    answers_agree(&marked.closure, found.is_some(), plain, nodes)
}

/// Lists a term on both, if it can be.
fn watch_both(
    marked: &mut Marked,
    plain: &mut PlainClosure,
    nodes: &[Node],
    t: TermId,
) -> Result<(), NoMemory> {
    if let Some(node) = nodes.get(t.0 as usize) {
        if marked.watch(t, node)? {
            plain.watch(t)?;
        }
    }
    Ok(())
}

/// Holds a literal on both, if it can be.
fn hold_both(marked: &mut Marked, plain: &mut PlainClosure, lit: Lit) -> Result<(), NoMemory> {
    if marked.hold(lit) {
        plain.hold(lit)?;
    }
    Ok(())
}

/// Sets a mark on both.
fn mark_both(marked: &mut Marked, plain: &mut PlainClosure) -> Result<(), NoMemory> {
    marked.mark()?;
    plain.mark()
}

/// Goes back over the newest mark of both, if there is one.
fn back_both(marked: &mut Marked, plain: &mut PlainClosure) {
    if marked.back() {
        plain.back();
    }
}

/// Makes a call by chance on both; tells whether the answers agree.
fn call(
    marked: &mut Marked,
    plain: &mut PlainClosure,
    nodes: &[Node],
    seed: &mut u64,
) -> Result<bool, NoMemory> {
    let t = TermId(next_number(seed) % TERMS);
    let positive = next_number(seed) % 4 != 0;
    match next_number(seed) % 8 {
        0 | 1 => watch_both(marked, plain, nodes, t)?,
        2 | 3 | 4 => hold_both(marked, plain, Lit { term: t, positive })?,
        5 => mark_both(marked, plain)?,
        6 => back_both(marked, plain),
        _ => return saturates_alike(marked, plain, nodes),
    }
    Ok(true)
}

/// Lists some of the terms on both, by chance.
fn watch_some(
    marked: &mut Marked,
    plain: &mut PlainClosure,
    nodes: &[Node],
    seed: &mut u64,
) -> Result<(), NoMemory> {
    for n in 0..TERMS {
        if next_number(seed) % 3 != 0 {
            watch_both(marked, plain, nodes, TermId(n))?;
        }
    }
    Ok(())
}

/// Makes calls by chance on both, and saturates at the end; tells whether all answers agree.
fn calls_agree(
    marked: &mut Marked,
    plain: &mut PlainClosure,
    nodes: &[Node],
    seed: &mut u64,
) -> Result<bool, NoMemory> {
    for _ in 0..CALLS {
        if !call(marked, plain, nodes, seed)? {
            return Ok(false);
        }
    }
    saturates_alike(marked, plain, nodes)
}

/// Runs a case over some nodes; tells whether all answers agree.
fn case_agrees(alloc: Global, nodes: &[Node], seed: &mut u64) -> Result<bool, NoMemory> {
    let truths = Truths {
        true_term: TermId(0),
        false_term: TermId(1),
    };
    let mut marked = Marked {
        closure: Closure::new(alloc, truths)?,
        marks: 0,
    };
    let mut plain = PlainClosure::new(alloc, truths);
    watch_some(&mut marked, &mut plain, nodes, seed)?;
    calls_agree(&mut marked, &mut plain, nodes, seed)
}

/// Runs a case; tells whether all answers agree.
fn agrees(alloc: Global, seed: &mut u64) -> Result<bool, NoMemory> {
    let nodes = nodes_of(alloc, seed)?;
    case_agrees(alloc, &nodes, seed)
}

#[test]
fn closures_answer_as_a_plain_one(rt: HostRuntime) -> Result<(), Fail> {
    let mut seed = 1u64;
    for _ in 0..CASES {
        assert!(rt; agrees(rt.alloc(), &mut seed)?);
    }
    Ok(())
}
