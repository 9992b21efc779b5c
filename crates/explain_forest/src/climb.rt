//! Climbing from a term to its root, and to where two terms meet.

ghost use Rattle.std.specs.Prelude.{◌≡◌, ◌≢◌, ◌+◌, ◌<◌, length, reverse, MatchBool};
ghost use Rattle.explain_forest.specs.Forest.{root, Linked};
ghost use Rattle.explain_forest.specs.Kept.{ArraysShow, Tops, IsOlder};

use crate::types::Edge;

/// Gives the root of a term.
pub(crate) fn find(parents: &[u64], stamps: &[u64], edges: &[Edge], t: u64) -> u64
    requires shows { ArraysShow parents.now stamps.now edges.now }
    requires t { t < length parents.now }
    ensures value { result ≡ root (reverse edges.now) t }
    ensures low { result < length parents.now }
{
    let mut at = t;
    'climb: while stamps[at as usize] != 0 {
        at = parents[at as usize];
    }
    at
}

/// Tells whether the first of two stamps is the older, where 0 is none.
fn left_first(u: u64, v: u64) -> bool
    requires some { 0 < u + v }
    requires apart { u ≢ v }
    ensures { MatchBool result (IsOlder u v) (IsOlder v u) }
{
    if v == 0 {
        true
    } else if u == 0 {
        false
    } else {
        u < v
    }
}

/// Gives the number of the newest edge on the path between two terms, and whether the path goes from the edge's first end to its
/// second.
pub(crate) fn top(parents: &[u64], stamps: &[u64], edges: &[Edge], x: u64, y: u64) -> (u64, bool)
    requires shows { ArraysShow parents.now stamps.now edges.now }
    requires x { x < length parents.now }
    requires y { y < length parents.now }
    requires linked { Linked (reverse edges.now) x y }
    requires apart { x ≢ y }
    ensures { Tops (reverse edges.now) x y result.0 result.1 }
{
    let mut u = x;
    let mut v = y;
    'climb: loop {
        let stamp_u = stamps[u as usize];
        let stamp_v = stamps[v as usize];
        if left_first(stamp_u, stamp_v) {
            u = parents[u as usize];
            if u == v {
                return (stamp_u - 1, true);
            }
        } else {
            v = parents[v as usize];
            if u == v {
                return (stamp_v - 1, false);
            }
        }
    }
}
