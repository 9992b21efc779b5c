//! The path between two linked terms, part by part.

ghost use Rattle.std.specs.Prelude.{◌≡◌, ◌<◌, ◌++◌, length, reverse, IfOk, OnOk};
ghost use Rattle.explain_forest.specs.Forest.{Linked, path, numbered};
ghost use Rattle.explain_forest.specs.Kept.{ArraysShow};
ghost use Rattle.explain_forest.specs.Telling.{step_of, halves, Turns};

use crate::climb::top;
use crate::types::{Edge, PathPart, PathStep};
use no_memory::NoMemory;
use std::alloc::Global;
use term_core::TermId;

/// Gives the edge of a number.
fn edge_of(edges: &[Edge], k: u64) -> Edge
    requires { k < length edges.now }
    ensures { result ≡ numbered (reverse edges.now) k }
{
    edges[k as usize]
}

/// Puts a part's step last, if there is one.
fn tell(p: PathPart, out: &mut Vec<PathStep>) -> Result<(), NoMemory>
    ensures { OnOk result (out.new.items ≡ out.old.items ++ step_of p) }
{
    if let Some(step) = p.step {
        out.push(step)?;
    }
    Ok(())
}

/// Splits a part at the newest edge of its path, and puts the half that comes first last.
fn split(
    edges: &[Edge],
    p: PathPart,
    k: u64,
    along: bool,
    parts: &mut Vec<PathPart>,
) -> Result<(), NoMemory>
    requires { k < length edges.now }
    ensures { OnOk result (parts.new.items ≡ parts.old.items ++ halves (numbered (reverse edges.now) k) k along p) }
{
    let e = edge_of(edges, k);
    let (from, to) = if along { (e.a, e.b) } else { (e.b, e.a) };
    let step = PathStep {
        from,
        to,
        label: e.label,
        edge: k,
    };
    parts.push(PathPart {
        step: Some(step),
        from: to,
        to: p.to,
    })?;
    parts.push(PathPart {
        step: None,
        from: p.from,
        to: from,
    })?;
    Ok(())
}

/// Tells one part: its step, and where its path has an edge, puts back the two halves.
fn turn(
    parents: &[u64],
    stamps: &[u64],
    edges: &[Edge],
    p: PathPart,
    parts: &mut Vec<PathPart>,
    out: &mut Vec<PathStep>,
) -> Result<(), NoMemory>
    requires shows { ArraysShow parents.now stamps.now edges.now }
    requires part { (p.from.0 < length parents.now) × (p.to.0 < length parents.now)
        × Linked (reverse edges.now) p.from.0 p.to.0 }
    ensures { OnOk result (Turns (length parents.now) (reverse edges.now) p
        (record { parts = parts.old.items; out = out.old.items })
        (record { parts = parts.new.items; out = out.new.items })) }
{
    tell(p, out)?;
    if p.from == p.to {
        return Ok(());
    }
    let (k, along) = top(parents, stamps, edges, p.from.0, p.to.0);
    split(edges, p, k, along, parts)?;
    Ok(())
}

/// Gives the path from one term to another.
pub(crate) fn explain(
    alloc: Global,
    parents: &[u64],
    stamps: &[u64],
    edges: &[Edge],
    x: TermId,
    y: TermId,
) -> Result<Vec<PathStep>, NoMemory>
    requires shows { ArraysShow parents.now stamps.now edges.now }
    requires x { x.0 < length parents.now }
    requires y { y.0 < length parents.now }
    requires linked { Linked (reverse edges.now) x.0 y.0 }
    ensures { IfOk result (λ steps. steps.items ≡ path (reverse edges.now) x.0 y.0) }
{
    let mut out = Vec::new(alloc);
    let mut parts = Vec::new(alloc);
    parts.push(PathPart {
        step: None,
        from: x,
        to: y,
    })?;
    'parts: while let Some(p) = parts.pop() {
        turn(parents, stamps, edges, p, &mut parts, &mut out)?;
    }
    Ok(out)
}
