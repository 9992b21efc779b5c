//! Puts terms of many arguments into the table: chains, pairs, and what is taken together to one side.

ghost use Rattle.std.specs.Prelude.{◌≡◌, ◌<◌, ◌++◌, length, map, IfOk, OnOk};
ghost use Rattle.spec_sorts.specs.Terms.{no_term, pair};
ghost use Rattle.spec_sorts.specs.Lists.{left, right, neighbours, all_pairs};
ghost use Rattle.spec_sorts.specs.Theory.{conjunction};
ghost use Rattle.term_core.specs.Tables.{clause_at};
ghost use Rattle.term_reader.specs.Building.{Builds, binary_head};
ghost use Rattle.term_reader.specs.Chains.{AreLinked, linked_terms, PutsAll, Folds};

use crate::building::{Binary, Link, conjoin, put_link, put_pair};
use no_memory::NoMemory;
use std::alloc::Global;
use term_core::{TermId, TermTable};

/// Pairs each with the next.
pub fn neighbour_pairs(alloc: Global, ids: &[TermId]) -> Result<Vec<(TermId, TermId)>, NoMemory>
    ensures { IfOk result (λ v. v.items ≡ neighbours ids.now) }
{
    let mut pairs = Vec::new(alloc);
    let mut rest = ids;
    'ids: while let Some((first, others)) = rest.split_first() {
        let Some(second) = others.first() else {
            return Ok(pairs);
        };
        pairs.push((*first, *second))?;
        rest = others;
    }
    Ok(pairs)
}

// The first with each of the others, after the pairs that there are.
fn pair_with_each(
    first: TermId,
    others: &[TermId],
    pairs: &mut Vec<(TermId, TermId)>,
) -> Result<(), NoMemory>
    ensures { OnOk result (pairs.new.items ≡ pairs.old.items ++ map (λ b. (first, b)) others.now) }
{
    let mut rest = others;
    'others: while let Some((other, after)) = rest.split_first() {
        pairs.push((first, *other))?;
        rest = after;
    }
    Ok(())
}

/// Pairs each with all after it: first with second, first with third, and so on, then second with third.
pub fn pairs_of_all(alloc: Global, ids: &[TermId]) -> Result<Vec<(TermId, TermId)>, NoMemory>
    ensures { IfOk result (λ v. v.items ≡ all_pairs ids.now) }
{
    let mut pairs = Vec::new(alloc);
    let mut rest = ids;
    'ids: while let Some((first, others)) = rest.split_first() {
        pair_with_each(*first, others, &mut pairs)?;
        rest = others;
    }
    Ok(pairs)
}

// A term for each pair.
fn put_links(
    alloc: Global,
    table: &mut TermTable,
    link: Link,
    pairs: &[(TermId, TermId)],
) -> Result<Vec<TermId>, NoMemory>
    requires { AreLinked table.old link pairs.now }
    ensures { PutsAll table.old table.new (linked_terms link table.old pairs.now) result }
{
    let mut parts = Vec::new(alloc);
    let mut rest = pairs;
    'pairs: while let Some((pair, after)) = rest.split_first() {
        let Ok(part) = put_link(alloc, table, link, pair.0, pair.1) else {
            return Err(NoMemory);
        };
        let Ok(()) = parts.push(part) else {
            return Err(NoMemory);
        };
        rest = after;
    }
    Ok(parts)
}

/// Puts the conjunction of a term for each pair, of which there is one at least.
pub fn put_chain(
    alloc: Global,
    table: &mut TermTable,
    link: Link,
    pairs: &[(TermId, TermId)],
) -> Result<TermId, NoMemory>
    requires some { 0 < length pairs.now }
    requires linked { AreLinked table.old link pairs.now }
    ensures { Builds table.old table.new (conjunction (linked_terms link table.old pairs.now)) result }
{
    match put_links(alloc, table, link, pairs) {
        Ok(parts) => conjoin(alloc, table, &parts),
        Err(error) => Err(error),
    }
}

/// Takes arguments together to the left: the first two, then the next one with them, and so on.
pub fn put_left(
    alloc: Global,
    table: &mut TermTable,
    head: Binary,
    ids: &[TermId],
) -> Result<TermId, NoMemory>
    requires some { 0 < length ids.now }
    requires folds { Folds table.old head ids.now }
    ensures { Builds table.old table.new
        (left no_term (pair (binary_head head)) (clause_at table.old ids.now)) result }
{
    let mut whole = ids[0];
    let mut rest = &ids[1..];
    'arguments: while let Some((next, after)) = rest.split_first() {
        let Ok(both) = put_pair(alloc, table, head, whole, *next) else {
            return Err(NoMemory);
        };
        whole = both;
        rest = after;
    }
    Ok(whole)
}

/// Takes arguments together to the right: the last two, then the one before them, and so on.
pub fn put_right(
    alloc: Global,
    table: &mut TermTable,
    head: Binary,
    ids: &[TermId],
) -> Result<TermId, NoMemory>
    requires some { 0 < length ids.now }
    requires folds { Folds table.old head ids.now }
    ensures { Builds table.old table.new
        (right no_term (pair (binary_head head)) (clause_at table.old ids.now)) result }
{
    let mut whole = ids[ids.len() - 1];
    let mut rest = &ids[..ids.len() - 1];
    'arguments: while let Some((last, before)) = rest.split_last() {
        let Ok(both) = put_pair(alloc, table, head, *last, whole) else {
            return Err(NoMemory);
        };
        whole = both;
        rest = before;
    }
    Ok(whole)
}
