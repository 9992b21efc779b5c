//! Heads of the theories before terms: their faults, and the terms that they are read as.

ghost use Rattle.std.specs.Prelude.{◌≡◌, ◌+◌, ◌^◌, ◌<◌, not, suc, length, map, if◌then◌else◌};
ghost use Rattle.spec_sorts.specs.Terms.{sort_of};
ghost use Rattle.spec_sorts.specs.Lists.{neighbours, all_pairs};
ghost use Rattle.spec_sorts.specs.Theory.{alike, choice, sorts_fit, count_of, each_passes, is_constant, is_divisor, is_zero_divisor, product_fault, quotient_fault, conjunction, differences};
ghost use Rattle.spec_reading.specs.Reading.{by_rule};
ghost use Rattle.term_core.specs.Tables.{AreIn, clause_at};
ghost use Rattle.term_core.specs.TheoryHeads.{rule_of};
ghost use Rattle.term_reader.specs.Building.{Builds, link_term};
ghost use Rattle.term_reader.specs.Heads.{takes_meant, TakesArguments, AreAlike, ReturnsTerm, AreNumbers};
ghost use Rattle.term_reader.specs.declared.building.Link.TheVariants.{Unequal as unequal_link};

use crate::building::{Binary, Link, put};
use crate::chains::{neighbour_pairs, pairs_of_all, put_chain, put_left, put_right};
use crate::comparing::{all_have, are_alike};
use crate::faults::{ReadError, fault_at};
use no_memory::NoMemory;
use spec_text::Fault;
use std::alloc::Global;
use term_core::{Head, Sort, TermId, TermTable, TheoryHead};

/// How many arguments of `distinct` have at most 2^26 pairs.
const MOST_DISTINCT: usize = 11_585;

/// Says which sorts a head takes.
#[derive(Clone, Copy, Debug, PartialEq, Eq)]
enum Takes {
    /// Truth values.
    Truths,
    /// Numbers.
    Numbers,
    /// All of one sort.
    Alike,
    /// A truth value, and two of one sort.
    Choice,
}

#[tactic(auto, unfolding(term_core::specs::TheoryHeads::rule_of))]
fn takes_of(head: TheoryHead) -> Takes
    ensures { takes_meant result ≡ (rule_of head).takes }
{
    match head {
        TheoryHead::True | TheoryHead::False | TheoryHead::Equal | TheoryHead::Distinct => {
            Takes::Alike
        }
        TheoryHead::Not
        | TheoryHead::And
        | TheoryHead::Or
        | TheoryHead::Xor
        | TheoryHead::Implies => Takes::Truths,
        TheoryHead::Ite => Takes::Choice,
        _ => Takes::Numbers,
    }
}

// Whether terms have one sort.
fn have_one_sort(table: &TermTable, ids: &[TermId]) -> bool
    requires { AreIn table.now ids.now }
    ensures { result ≡ sorts_fit alike (map sort_of (clause_at table.now ids.now)) }
{
    match ids.split_first() {
        None => true,
        Some((first, others)) => all_have(table, table.sort(*first), others),
    }
}

// Whether there are a truth value and two terms of one sort.
fn are_choice(table: &TermTable, ids: &[TermId]) -> bool
    requires { AreIn table.now ids.now }
    ensures { result ≡ sorts_fit choice (map sort_of (clause_at table.now ids.now)) }
{
    if ids.len() != 3 {
        return false;
    }
    all_have(table, Sort::Bool, &ids[..1]) && are_alike(table, ids[1], ids[2])
}

fn takes_sorts(table: &TermTable, takes: Takes, ids: &[TermId]) -> bool
    requires { AreIn table.now ids.now }
    ensures { result ≡ sorts_fit (takes_meant takes) (map sort_of (clause_at table.now ids.now)) }
{
    match takes {
        Takes::Truths => all_have(table, Sort::Bool, ids),
        Takes::Numbers => all_have(table, Sort::Real, ids),
        Takes::Alike => have_one_sort(table, ids),
        Takes::Choice => are_choice(table, ids),
    }
}

fn sorts_fit(table: &TermTable, head: TheoryHead, ids: &[TermId]) -> bool
    requires { AreIn table.now ids.now }
    ensures { result ≡ sorts_fit (rule_of head).takes (map sort_of (clause_at table.now ids.now)) }
{
    takes_sorts(table, takes_of(head), ids)
}

// One more where a term is no constant.
fn counted(count: usize, constant: bool) -> usize
    requires { count + 1 < 2 ^ 64 }
    ensures { result ≡ (if not constant then suc count else count) }
{
    if constant { count } else { count + 1 }
}

fn count_variable(table: &TermTable, ids: &[TermId]) -> usize
    requires { AreIn table.now ids.now }
    ensures { result ≡ count_of (λ t. not (is_constant t)) (clause_at table.now ids.now) }
{
    let mut count = 0;
    let mut rest = ids;
    'ids: while let Some((id, after)) = rest.split_first() {
        count = counted(count, table.is_constant(*id));
        rest = after;
    }
    count
}

fn are_divisors(table: &TermTable, ids: &[TermId]) -> bool
    requires { AreIn table.now ids.now }
    ensures { result ≡ each_passes is_divisor (clause_at table.now ids.now) }
{
    let mut rest = ids;
    'ids: while let Some((id, after)) = rest.split_first() {
        if !table.is_divisor(*id) {
            return false;
        }
        rest = after;
    }
    true
}

fn are_not_zero(table: &TermTable, ids: &[TermId]) -> bool
    requires { AreIn table.now ids.now }
    ensures { result ≡ each_passes (λ d. not (is_zero_divisor d)) (clause_at table.now ids.now) }
{
    let mut rest = ids;
    'ids: while let Some((id, after)) = rest.split_first() {
        if table.is_zero_divisor(*id) {
            return false;
        }
        rest = after;
    }
    true
}

fn product_fault(table: &TermTable, ids: &[TermId]) -> Option<Fault>
    requires { AreIn table.now ids.now }
    ensures { result ≡ product_fault (clause_at table.now ids.now) }
{
    if count_variable(table, ids) <= 1 {
        return None;
    }
    Some(Fault::NotLinear)
}

fn quotient_fault(table: &TermTable, ids: &[TermId]) -> Option<Fault>
    requires { AreIn table.now ids.now }
    ensures { result ≡ quotient_fault (clause_at table.now ids.now) }
{
    let Some((_, divisors)) = ids.split_first() else {
        return None;
    };
    if !are_divisors(table, divisors) {
        return Some(Fault::NotLinear);
    }
    if !are_not_zero(table, divisors) {
        return Some(Fault::ZeroDivisor);
    }
    None
}

#[tactic(auto, unfolding(term_core::specs::TheoryHeads::rule_of))]
fn fault_of(table: &TermTable, head: TheoryHead, ids: &[TermId]) -> Option<Fault>
    requires { AreIn table.now ids.now }
    ensures { result ≡ (rule_of head).fault (clause_at table.now ids.now) }
{
    match head {
        TheoryHead::Times => product_fault(table, ids),
        TheoryHead::Divide => quotient_fault(table, ids),
        _ => None,
    }
}

// Each is linked to the next.
fn put_neighbours(
    alloc: Global,
    table: &mut TermTable,
    link: Link,
    ids: &[TermId],
) -> Result<TermId, NoMemory>
    requires two { 1 < length ids.now }
    requires alike { AreAlike table.old link ids.now }
    ensures { Builds table.old table.new
        (conjunction (map (λ p. link_term link p.0 p.1) (neighbours (clause_at table.old ids.now)))) result }
{
    match neighbour_pairs(alloc, ids) {
        Ok(pairs) => put_chain(alloc, table, link, &pairs),
        Err(error) => Err(error),
    }
}

// No two have the same value.
fn put_distinct(alloc: Global, table: &mut TermTable, ids: &[TermId]) -> Result<TermId, NoMemory>
    requires two { 1 < length ids.now }
    requires alike { AreAlike table.old unequal_link ids.now }
    ensures { Builds table.old table.new
        (conjunction (map (λ p. link_term unequal_link p.0 p.1) (all_pairs (clause_at table.old ids.now)))) result }
{
    if MOST_DISTINCT < ids.len() {
        return Err(NoMemory);
    }
    match pairs_of_all(alloc, ids) {
        Ok(pairs) => put_chain(alloc, table, Link::Unequal, &pairs),
        Err(error) => Err(error),
    }
}

// The negative of one, or differences to the left.
fn put_differences(alloc: Global, table: &mut TermTable, ids: &[TermId]) -> Result<TermId, NoMemory>
    requires some { 0 < length ids.now }
    requires numbers { AreNumbers table.old ids.now }
    ensures { Builds table.old table.new (differences (clause_at table.old ids.now)) result }
{
    if ids.len() == 1 {
        return put(alloc, table, Head::Minus, ids);
    }
    put_left(alloc, table, Binary::Minus, ids)
}

// The term of a head of theory Core or Reals before arguments that it takes.
#[tactic(auto, unfolding(term_core::specs::TheoryHeads::rule_of))]
fn build(
    alloc: Global,
    table: &mut TermTable,
    head: TheoryHead,
    ids: &[TermId],
) -> Result<TermId, NoMemory>
    requires { TakesArguments table.old head ids.now }
    ensures { Builds table.old table.new ((rule_of head).reads (clause_at table.old ids.now)) result }
{
    match head {
        TheoryHead::True => put(alloc, table, Head::True, ids),
        TheoryHead::False => put(alloc, table, Head::False, ids),
        TheoryHead::Not => put(alloc, table, Head::Not, ids),
        TheoryHead::And => put(alloc, table, Head::And, ids),
        TheoryHead::Or => put(alloc, table, Head::Or, ids),
        TheoryHead::Xor => put_left(alloc, table, Binary::Xor, ids),
        TheoryHead::Implies => put_right(alloc, table, Binary::Implies, ids),
        TheoryHead::Equal => put_neighbours(alloc, table, Link::Equal, ids),
        TheoryHead::Distinct => put_distinct(alloc, table, ids),
        TheoryHead::Ite => put(alloc, table, Head::Ite, ids),
        TheoryHead::Minus => put_differences(alloc, table, ids),
        TheoryHead::Plus => put(alloc, table, Head::Plus, ids),
        TheoryHead::Times => put(alloc, table, Head::Times, ids),
        TheoryHead::Divide => put_left(alloc, table, Binary::Divide, ids),
        TheoryHead::Less => put_neighbours(alloc, table, Link::Less, ids),
        TheoryHead::AtMost => put_neighbours(alloc, table, Link::AtMost, ids),
        TheoryHead::Greater => put_neighbours(alloc, table, Link::Greater, ids),
        TheoryHead::AtLeast => put_neighbours(alloc, table, Link::AtLeast, ids),
    }
}

/// Puts the term that a head of theory Core or Reals before arguments is read as, where the whole is at an offset.
///
/// - `Fault` comes at the offset: `WrongCount` where the head does not take so many arguments; then `WrongSort` where it
///   does not take their sorts. Then `NotLinear` comes of `*` before two factors that are not constant, and of `/` before
///   a divisor that is no number, quotient or negative of such; then `ZeroDivisor` where a divisor is zero.
/// - `Memory` comes where no memory is left, and for `distinct` where its arguments have more than 2^26 pairs.
///
/// The table keeps what it had; it may have more terms than before after `Memory` too.
/// Source: SMT-LIB 2.6, theories Core and Reals; what chains and `distinct` are read as, and what is linear, is own.
pub fn by_rule(
    alloc: Global,
    table: &mut TermTable,
    head: TheoryHead,
    at: u64,
    ids: &[TermId],
) -> Result<TermId, ReadError>
    requires { AreIn table.old ids.now }
    ensures { ReturnsTerm table.old table.new (by_rule (rule_of head) at (clause_at table.old ids.now)) result }
{
    if !head.takes_count(ids.len()) {
        return Err(ReadError::Fault(fault_at(at, Fault::WrongCount)));
    }
    if !sorts_fit(table, head, ids) {
        return Err(ReadError::Fault(fault_at(at, Fault::WrongSort)));
    }
    if let Some(fault) = fault_of(table, head, ids) {
        return Err(ReadError::Fault(fault_at(at, fault)));
    }
    match build(alloc, table, head, ids) {
        Ok(id) => Ok(id),
        Err(_) => Err(ReadError::Memory),
    }
}
