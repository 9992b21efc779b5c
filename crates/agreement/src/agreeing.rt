//! Shared terms with what both theories say of them, and whether these agree.

ghost use Rattle.std.specs.Prelude.{◌≡◌, ◌⊎◌, MatchBool, IfOk, OnOk};
ghost use Rattle.std.specs.List.Sorted.{IsPermutation};
ghost use Rattle.agreement.specs.Agreeing.{Concur, Clash, ArePairs, HasPairs, HasClashes, IsAgreementOn};

use delta_num::Delta;
use no_memory::NoMemory;
use ratio128::Ratio;
use std::alloc::Global;
use std::cmp::Ordering;
use term_core::{SymbolId, TermId};

/// A term that both theories speak of, with what each says of it.
#[derive(Clone, Copy, PartialEq, Eq, Debug)]
pub struct Shared {
    /// The term, by its number in the table.
    pub term: TermId,
    /// The number of its class. Congruence says that terms are equal where they have one class.
    pub class: u64,
    /// Its value. Simplex says that terms are equal where they have one value, infinitesimal part included.
    pub value: Delta,
    /// The place at which a function is applied to it; nothing where it comes as the value of one.
    pub place: Option<ArgumentPlace>,
}

/// Names a place of the arguments of a function.
#[derive(Clone, Copy, PartialEq, Eq, Debug)]
pub struct ArgumentPlace {
    /// The function.
    pub function: SymbolId,
    /// Which of its arguments, from 0.
    pub index: u64,
}

/// What is found of two theories and the terms that they share.
#[derive(Drop)]
pub enum Agreement {
    /// They agree on each two of the terms.
    Agreed,
    /// One says that the two terms of a pair are equal, and the other that they are not. These are such pairs, one or more.
    Pairs(Vec<(TermId, TermId)>),
}

/// Says whether two theories agree on each two of the terms, and lists pairs on which they do not, if there are such.
///
/// The terms are sorted by their values, and then by their classes. So neighbours tell of all, and it takes n log n comparisons of n
/// terms. Of two neighbours that differ the pair is listed, with the lesser number first; it may come twice. Pairs are urgent that
/// congruence says are equal, or of which one function takes both at one place. Where there are such, they are listed alone: the others
/// may turn out to differ by what follows, or it may not matter that they do. The terms are left in some order.
/// `NoMemory` comes where the list finds no memory.
pub fn agree(alloc: Global, shared: &mut [Shared]) -> Result<Agreement, NoMemory>
    ensures permutation { IsPermutation shared.old shared.new }
    ensures answer { IfOk result (IsAgreementOn shared.old) }
{
    let urgent = urgent_pairs(alloc, shared)?;
    if !urgent.is_empty() {
        return Ok(Agreement::Pairs(urgent));
    }
    let mut pairs = Vec::new(alloc);
    shared.sort_unstable_by(|a, b| Delta::cmp(a.value, b.value));
    add_clashes(shared, &mut pairs)?;
    shared.sort_unstable_by_key(|a| a.class);
    add_clashes(shared, &mut pairs)?;
    if pairs.is_empty() {
        return Ok(Agreement::Agreed);
    }
    Ok(Agreement::Pairs(pairs))
}

/// Lists pairs on which the theories do not agree and that are urgent. The terms are left in some order.
fn urgent_pairs(alloc: Global, shared: &mut [Shared]) -> Result<Vec<(TermId, TermId)>, NoMemory>
    ensures permutation { IsPermutation shared.old shared.new }
    ensures pairs { IfOk result (λ pairs. ArePairs shared.old pairs.items) }
{
    let mut pairs = Vec::new(alloc);
    shared.sort_unstable_by_key(|a| (place_key(a.place), value_key(a.value), a.class));
    add_urgent(shared, &mut pairs)?;
    shared.sort_unstable_by_key(|a| (a.class, value_key(a.value)));
    add_urgent(shared, &mut pairs)?;
    Ok(pairs)
}

/// Gives numbers that are the same only for one place.
fn place_key(place: Option<ArgumentPlace>) -> (bool, u64, u64) {
    match place {
        None => (false, 0, 0),
        Some(place) => (true, place.function.0, place.index),
    }
}

/// Gives the two parts of a value, in the order in which values compare.
fn value_key(value: Delta) -> (Ratio, Ratio) {
    (value.base, value.tilt)
}

/// Tells whether two terms on which the theories do not agree are of one class, or one function takes both at one place.
fn is_urgent(a: Shared, b: Shared) -> bool {
    a.class == b.class || (a.place.is_some() && a.place == b.place)
}

/// Adds to pairs the terms of each two neighbours on which the theories do not agree, where that is urgent.
fn add_urgent(shared: &[Shared], pairs: &mut Vec<(TermId, TermId)>) -> Result<(), NoMemory>
    ensures { OnOk result (HasPairs shared.now pairs.old.items pairs.new.items) }
{
    'places: for at in 1..shared.len() {
        let a = shared[at - 1];
        let b = shared[at];
        if concur(a, b) {
            continue;
        }
        if !is_urgent(a, b) {
            continue;
        }
        pairs.push(in_order(a.term, b.term))?;
    }
    Ok(())
}

/// Adds to pairs the terms of each two neighbours on which the theories do not agree.
fn add_clashes(shared: &[Shared], pairs: &mut Vec<(TermId, TermId)>) -> Result<(), NoMemory>
    ensures { OnOk result (HasClashes shared.now pairs.old.items pairs.new.items) }
{
    'places: for at in 1..shared.len() {
        let a = shared[at - 1];
        let b = shared[at];
        if concur(a, b) {
            continue;
        }
        pairs.push(in_order(a.term, b.term))?;
    }
    Ok(())
}

/// Puts the lesser number of two first.
fn in_order(s: TermId, t: TermId) -> (TermId, TermId)
    ensures { (result ≡ (s, t)) ⊎ (result ≡ (t, s)) }
{
    if s.0 < t.0 {
        return (s, t);
    }
    (t, s)
}

/// Says whether both theories say the same of two terms: that they are equal, or that they are not.
fn concur(a: Shared, b: Shared) -> bool
    ensures { MatchBool result (Concur a b) (Clash a b) }
{
    match Delta::cmp(a.value, b.value) {
        Ordering::Equal => a.class == b.class,
        Ordering::Less | Ordering::Greater => a.class != b.class,
    }
}
