//! The arrays of a forest: more terms, fewer terms, fewer edges.

ghost use Rattle.std.specs.Prelude.{◌≡◌, ◌+◌, ◌-◌, ◌<◌, ◌≤◌, ◌^◌, List, length, take, reverse, get_or, vec_len, vec_capacity};
ghost use Rattle.explain_forest.specs.declared.types.Edge.{Edge as EdgeView};
ghost use Rattle.explain_forest.specs.Kept.{EdgesAreApart, ArraysShow};

use crate::types::Edge;

/// Adds terms that no edge is at, in spare room.
pub(crate) fn grow(parents: &mut Vec<u64>, stamps: &mut Vec<u64>, more: usize)
    requires parents { vec_len parents.old + more ≤ vec_capacity parents.old }
    requires stamps { vec_len stamps.old + more ≤ vec_capacity stamps.old }
    requires few { vec_len parents.old + more < 2 ^ 64 }
    ensures terms { length parents.new.items ≡ length parents.old.items + more }
    ensures shows { (edges : List EdgeView) → ArraysShow parents.old.items stamps.old.items edges
        → ArraysShow parents.new.items stamps.new.items edges }
{
    for _ in 0..more {
        parents.push_reserved(parents.len() as u64);
        stamps.push_reserved(0);
    }
}

/// Takes away the newest terms, which no edge is at.
pub(crate) fn shrink(parents: &mut Vec<u64>, stamps: &mut Vec<u64>, terms: usize)
    requires { terms ≤ length parents.old.items }
    ensures terms { length parents.new.items ≡ terms }
    ensures shows { (edges : List EdgeView) → EdgesAreApart terms (reverse edges)
        → ArraysShow parents.old.items stamps.old.items edges → ArraysShow parents.new.items stamps.new.items edges }
{
    parents.truncate(terms);
    stamps.truncate(terms);
}

/// Gives the term that the newest edge put under another.
fn below_of(parents: &[u64], stamps: &[u64], edges: &[Edge]) -> u64
    requires shows { ArraysShow parents.now stamps.now edges.now }
    requires some { 0 < length edges.now }
    ensures low { result < length parents.now }
    ensures stamp { get_or stamps.now result 0 ≡ length edges.now }
{
    let count = edges.len();
    let mut at = edges[count - 1].a.0;
    'climb: while stamps[at as usize] != count as u64 {
        at = parents[at as usize];
    }
    at
}

/// Takes the newest edge away.
fn undo(parents: &mut [u64], stamps: &mut [u64], edges: &mut Vec<Edge>)
    requires shows { ArraysShow parents.old stamps.old edges.old.items }
    requires some { 0 < vec_len edges.old }
    ensures edges { edges.new.items ≡ take (vec_len edges.old - 1) edges.old.items }
    ensures room { vec_capacity edges.new ≡ vec_capacity edges.old }
    ensures terms { length parents.new ≡ length parents.old }
    ensures shows { ArraysShow parents.new stamps.new edges.new.items }
{
    let below = below_of(parents, stamps, edges);
    parents[below as usize] = below;
    stamps[below as usize] = 0;
    edges.truncate(edges.len() - 1);
}

/// Takes all edges but the oldest away.
pub(crate) fn cut(parents: &mut [u64], stamps: &mut [u64], edges: &mut Vec<Edge>, floor: usize)
    requires shows { ArraysShow parents.old stamps.old edges.old.items }
    requires floor { floor ≤ vec_len edges.old }
    ensures edges { edges.new.items ≡ take floor edges.old.items }
    ensures room { vec_capacity edges.new ≡ vec_capacity edges.old }
    ensures terms { length parents.new ≡ length parents.old }
    ensures shows { ArraysShow parents.new stamps.new edges.new.items }
{
    'edges: while edges.len() > floor {
        undo(parents, stamps, edges);
    }
}
