//! Which terms all cases join.

use crate::forest::CaseForest;
use indexmap::IndexSet;
use no_memory::NoMemory;
use std::alloc::Global;
use term_core::TermId;

/// Holds two terms that each case joins.
#[derive(Clone, Copy, Debug, PartialEq, Eq, Hash)]
pub(crate) struct Pair {
    /// The one with the smaller number.
    pub(crate) left: TermId,
    /// The other.
    pub(crate) right: TermId,
}

/// Holds a term with the number of its class: two terms have one where all cases that were looked at join them.
#[derive(Clone, Copy, Debug, PartialEq, Eq)]
struct Member {
    term: TermId,
    class: u64,
}

/// Pairs the terms that all cases join, each but the first of a class with the first, by rising numbers of the second.
///
/// It takes time in proportion to the terms of the cases, but for sorting those of the first. `NoMemory` comes where memory ran out.
pub(crate) fn pairs_of(alloc: Global, forests: &[CaseForest]) -> Result<Vec<Pair>, NoMemory> {
    let Some((first, others)) = forests.split_first() else {
        return Ok(Vec::new(alloc));
    };
    let mut members = members_of(alloc, first)?;
    'cases: for forest in others.iter() {
        members = split(alloc, &members, forest)?;
    }
    paired(alloc, &members)
}

/// Lists the terms of a case by rising numbers. Their class is the number of the root.
fn members_of(alloc: Global, forest: &CaseForest) -> Result<Vec<Member>, NoMemory> {
    let mut members = Vec::new(alloc);
    'terms: for term in forest.terms().iter() {
        let Some(root) = forest.root(*term) else {
            continue;
        };
        members.push(Member {
            term: *term,
            class: root.0,
        })?;
    }
    members.sort_by_key(|member| member.term.0)?;
    Ok(members)
}

/// Splits classes by one case more, in the same order: what it is not about is left out.
fn split(alloc: Global, members: &[Member], forest: &CaseForest) -> Result<Vec<Member>, NoMemory> {
    let mut classes = IndexSet::new(alloc);
    let mut split = Vec::new(alloc);
    'members: for member in members.iter() {
        let Some(root) = forest.root(member.term) else {
            continue;
        };
        let (class, _) = classes.insert_full((member.class, root.0))?;
        split.push(Member {
            term: member.term,
            class: class as u64,
        })?;
    }
    Ok(split)
}

/// Pairs each member of a class but the first with the first.
fn paired(alloc: Global, members: &[Member]) -> Result<Vec<Pair>, NoMemory> {
    let mut classes = IndexSet::new(alloc);
    let mut firsts: Vec<TermId> = Vec::new(alloc);
    let mut pairs = Vec::new(alloc);
    'members: for member in members.iter() {
        let (class, is_new) = classes.insert_full(member.class)?;
        if is_new {
            firsts.push(member.term)?;
            continue;
        }
        let Some(left) = firsts.get(class) else {
            continue;
        };
        pairs.push(Pair {
            left: *left,
            right: member.term,
        })?;
    }
    Ok(pairs)
}
