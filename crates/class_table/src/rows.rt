//! Rows of numbers by terms: class numbers, successors in rings, and sizes.

ghost use Rattle.std.specs.Prelude.{◌≡◌, ◌+◌, ◌<◌, ◌≤◌, ◌++◌, length, map, replicate, All, IfOk, vec_len, vec_capacity};
ghost use Rattle.std.specs.List.{range_with_len};
ghost use Rattle.class_table.specs.Rings.{walk, set_each, swapped};

use no_memory::NoMemory;
use std::alloc::Global;
use term_core::TermId;

/// Puts so many new terms last: each is in the class of its own number, is its own successor, and counts one.
pub(crate) fn push_terms(
    numbers: &mut Vec<u64>,
    next: &mut Vec<u64>,
    sizes: &mut Vec<u64>,
    more: usize,
)
    requires numbers { vec_len numbers.old + more ≤ vec_capacity numbers.old }
    requires next { vec_len next.old + more ≤ vec_capacity next.old }
    requires sizes { vec_len sizes.old + more ≤ vec_capacity sizes.old }
    requires sized { vec_len next.old ≡ vec_len numbers.old }
    ensures numbers { numbers.new.items ≡ numbers.old.items ++ range_with_len (length numbers.old.items) more }
    ensures next { next.new.items ≡ next.old.items ++ range_with_len (length numbers.old.items) more }
    ensures sizes { sizes.new.items ≡ sizes.old.items ++ replicate more 1 }
{
    for _ in 0..more {
        let term = numbers.len() as u64;
        numbers.push_reserved(term);
        next.push_reserved(term);
        sizes.push_reserved(1);
    }
}

/// Gives a class number to so many terms of a ring, from one on.
pub(crate) fn renumber(numbers: &mut Vec<u64>, next: &Vec<u64>, start: u64, count: u64, into: u64)
    requires sized { length numbers.old.items ≡ length next.now.items }
    requires inside { All (λ t. t < length next.now.items) next.now.items }
    requires start { start < length next.now.items }
    ensures { numbers.new.items ≡ set_each numbers.old.items into (walk next.now.items count start) }
{
    let mut at = start;
    for _ in 0..count {
        numbers[at as usize] = into;
        at = next[at as usize];
    }
}

/// Exchanges the successors of two terms, which makes one ring of two, or two of one.
pub(crate) fn swap_next(next: &mut Vec<u64>, a: u64, b: u64)
    requires a { a < length next.old.items }
    requires b { b < length next.old.items }
    ensures { next.new.items ≡ swapped next.old.items a b }
{
    let first = next[a as usize];
    let second = next[b as usize];
    next[a as usize] = second;
    next[b as usize] = first;
}

/// Lists so many terms of a ring, from one on. `NoMemory` comes where the list finds no memory.
pub(crate) fn list_ring(
    alloc: Global,
    next: &Vec<u64>,
    start: u64,
    count: u64,
) -> Result<Vec<TermId>, NoMemory>
    requires inside { All (λ t. t < length next.now.items) next.now.items }
    requires start { start < length next.now.items }
    ensures { IfOk result (λ terms. terms.items ≡ map (λ n. record { 0 = n }) (walk next.now.items count start)) }
{
    let mut terms = Vec::new(alloc);
    terms.reserve(count as usize)?;
    let mut at = start;
    for _ in 0..count {
        terms.push_reserved(TermId(at));
        at = next[at as usize];
    }
    Ok(terms)
}
