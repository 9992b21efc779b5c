//! Puts terms of one or two arguments into the table, and conjunctions.

ghost use Rattle.std.specs.Prelude.{◌<◌, length};
ghost use Rattle.spec_sorts.specs.Terms.{Truth, of, negated, pair};
ghost use Rattle.spec_sorts.specs.Theory.{conjunction, unequal};
ghost use Rattle.term_core.specs.Tables.{head_meant, term_at, clause_at, ShapeFits};
ghost use Rattle.term_reader.specs.Building.{Builds, IsOf, AreOfSort, TakesBoth, HasPair, binary_head, link_term};
ghost use Rattle.term_reader.specs.declared.building.Binary.TheVariants.{Equal as equals};

use no_memory::NoMemory;
use std::alloc::Global;
use term_core::{Head, Node, TermId, TermTable};

/// Takes two terms of one sort. Source: SMT-LIB 2.6, theories Core and Reals.
#[derive(Clone, Copy, Debug, PartialEq, Eq)]
pub enum Binary {
    /// That exactly one of two is true.
    Xor,
    /// That the second is true where the first is.
    Implies,
    /// That both have the same value.
    Equal,
    /// The difference.
    Minus,
    /// The quotient.
    Divide,
    /// That the first is less than the second.
    Less,
    /// That the first is at most the second.
    AtMost,
}

/// Joins two terms in a chain, or tells them apart. Source: SMT-LIB 2.6, theories Core and Reals.
#[derive(Clone, Copy, Debug, PartialEq, Eq)]
pub enum Link {
    /// The first has the value of the second.
    Equal,
    /// The first has another value than the second.
    Unequal,
    /// The first is less than the second.
    Less,
    /// The first is at most the second.
    AtMost,
    /// The first is greater than the second.
    Greater,
    /// The first is at least the second.
    AtLeast,
}

/// Puts a term of a head before arguments that it takes.
#[tactic(auto, using(crate::proofs::Tables::keeps_same))]
pub fn put(
    alloc: Global,
    table: &mut TermTable,
    head: Head,
    arguments: &[TermId],
) -> Result<TermId, NoMemory>
    requires { ShapeFits table.old (record { head = head; arguments = arguments.now }) }
    ensures { Builds table.old table.new (of (head_meant table.old head) (clause_at table.old arguments.now)) result }
{
    match Node::new(alloc, head, arguments) {
        Ok(node) => table.put(node),
        Err(error) => Err(error),
    }
}

/// Puts a term of a head before two arguments.
pub fn put_pair(
    alloc: Global,
    table: &mut TermTable,
    head: Binary,
    first: TermId,
    second: TermId,
) -> Result<TermId, NoMemory>
    requires { TakesBoth table.old head first second }
    ensures { Builds table.old table.new
        (pair (binary_head head) (term_at table.old first) (term_at table.old second)) result }
{
    let arguments = [first, second];
    match head {
        Binary::Xor => put(alloc, table, Head::Xor, &arguments),
        Binary::Implies => put(alloc, table, Head::Implies, &arguments),
        Binary::Equal => put(alloc, table, Head::Equal, &arguments),
        Binary::Minus => put(alloc, table, Head::Minus, &arguments),
        Binary::Divide => put(alloc, table, Head::Divide, &arguments),
        Binary::Less => put(alloc, table, Head::Less, &arguments),
        Binary::AtMost => put(alloc, table, Head::AtMost, &arguments),
    }
}

/// Puts the negation of a truth value.
pub fn put_negated(alloc: Global, table: &mut TermTable, term: TermId) -> Result<TermId, NoMemory>
    requires { IsOf table.old Truth term }
    ensures { Builds table.old table.new (negated (term_at table.old term)) result }
{
    put(alloc, table, Head::Not, &[term])
}

// The negation of an equality.
fn put_unequal(
    alloc: Global,
    table: &mut TermTable,
    first: TermId,
    second: TermId,
) -> Result<TermId, NoMemory>
    requires { TakesBoth table.old equals first second }
    ensures { Builds table.old table.new (unequal (term_at table.old first) (term_at table.old second)) result }
{
    match put_pair(alloc, table, Binary::Equal, first, second) {
        Ok(equal) => put_negated(alloc, table, equal),
        Err(error) => Err(error),
    }
}

/// Puts that two terms are linked.
pub fn put_link(
    alloc: Global,
    table: &mut TermTable,
    link: Link,
    first: TermId,
    second: TermId,
) -> Result<TermId, NoMemory>
    requires { HasPair table.old link first second }
    ensures { Builds table.old table.new
        (link_term link (term_at table.old first) (term_at table.old second)) result }
{
    match link {
        Link::Equal => put_pair(alloc, table, Binary::Equal, first, second),
        Link::Unequal => put_unequal(alloc, table, first, second),
        Link::Less => put_pair(alloc, table, Binary::Less, first, second),
        Link::AtMost => put_pair(alloc, table, Binary::AtMost, first, second),
        Link::Greater => put_pair(alloc, table, Binary::Less, second, first),
        Link::AtLeast => put_pair(alloc, table, Binary::AtMost, second, first),
    }
}

/// Puts the conjunction of truth values, of which there is one at least, or gives the one that there is.
#[tactic(auto, using(crate::proofs::Tables::keeps_same, crate::proofs::Tables::one_part, crate::proofs::Tables::and_fits, crate::proofs::Tables::several))]
pub fn conjoin(alloc: Global, table: &mut TermTable, parts: &[TermId]) -> Result<TermId, NoMemory>
    requires some { 0 < length parts.now }
    requires truths { AreOfSort table.old Truth parts.now }
    ensures { Builds table.old table.new (conjunction (clause_at table.old parts.now)) result }
{
    if parts.len() == 1 {
        return Ok(parts[0]);
    }
    put(alloc, table, Head::And, parts)
}
