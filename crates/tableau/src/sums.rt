//! Sums of ordered lists of entries.

ghost use Rattle.std.specs.Prelude.{◌≡◌, ◌==◌, ◌≤◌, ◌++◌, ◌∷◌, [], ℕ, false, Err, length, take, drop, OnOk, IfOk, IfErr};
ghost use Rattle.ratio128.specs.Meant.{fraction, overflow};
ghost use Rattle.spec_tableaux.specs.Rows as definitions;
ghost use Rattle.spec_tableaux.specs.SolvedForms.{IsTidy, AllVariables};
ghost use Rattle.spec_tableaux.specs.Numbers.{Number, numbers};
ghost use Rattle.tableau.specs.Numbers.{number_of};
ghost use Rattle.tableau.specs.Entries.{entry_of, entries_of};
ghost use Rattle.tableau.specs.Sums.{turned, operation, combined, Merges, Shrinks, IsLeft, OverflowsCombined, OverflowsPut};
ghost use Rattle.tableau.specs.Views.{OnRowOverflow};

use crate::entries::Entry;
use crate::numbers::{difference, is_zero, negative, product, sum};
use crate::stops::RowStop;
use no_memory::NoMemory;
use ratio128::{Ratio, Wide};
use std::alloc::Global;

// Gives a sum, or a difference.
fn total(a: Ratio, b: Ratio, minus: bool) -> Result<Ratio, Wide>
    ensures ok { IfOk result (λ r. number_of r ≡ numbers.plus (number_of a) (turned minus (number_of b))) }
    ensures wide { IfErr result (λ w. operation minus (fraction a) (fraction b) ≡ Err (overflow w)) }
{
    if minus { difference(a, b) } else { sum(a, b) }
}

// Gives a number, or minus it.
fn turned_by(a: Ratio, minus: bool) -> Ratio
    ensures { number_of result ≡ turned minus (number_of a) }
{
    if minus { negative(a) } else { a }
}

/// Puts an entry last, if its coefficient is not 0.
fn append(out: &mut Vec<Entry>, variable: u64, coefficient: Ratio) -> Result<(), NoMemory>
    ensures { OnOk result (entries_of out.new.items
        ≡ entries_of out.old.items ++ definitions.with_entry numbers variable (number_of coefficient) []) }
{
    if is_zero(coefficient) {
        return Ok(());
    }
    out.push(Entry {
        variable,
        coefficient,
    })?;
    Ok(())
}

// Adds k times one entry to what is left of a list, up to the variable of the entry, or takes it away. Says whether the
// entry was used.
fn merge_one<'a>(
    out: &mut Vec<Entry>,
    es: &'a [Entry],
    k: Ratio,
    g: Entry,
    minus: bool,
) -> Result<(&'a [Entry], bool), RowStop>
    requires tidy { (at : ℕ) × IsTidy numbers at (entries_of es.now) }
    ensures merges { IfOk result (λ r. Merges (record { minus = minus; factor = number_of k; entry = entry_of g })
        (entries_of out.old.items) (entries_of es.now) (entries_of out.new.items) (entries_of r.0.now) r.1) }
    ensures tidy { IfOk result (λ r. (at : ℕ) × IsTidy numbers at (entries_of r.0.now)) }
    ensures shrinks { IfOk result (λ r. Shrinks es.now r.0.now r.1) }
    ensures left { IfOk result (λ r. IsLeft (entries_of es.now) (entries_of r.0.now)) }
    ensures wide { IfErr result (OnRowOverflow (OverflowsCombined minus (entries_of es.now) (number_of k) (entry_of g
        ∷ []))) }
{
    let Some((e, rest)) = es.split_first() else {
        append(
            out,
            g.variable,
            turned_by(product(k, g.coefficient)?, minus),
        )?;
        return Ok((es, true));
    };
    if e.variable < g.variable {
        out.push(*e)?;
        return Ok((rest, false));
    }
    let taken = product(k, g.coefficient)?;
    if e.variable == g.variable {
        append(out, g.variable, total(e.coefficient, taken, minus)?)?;
        return Ok((rest, true));
    }
    append(out, g.variable, turned_by(taken, minus))?;
    Ok((es, true))
}

/// Adds k times the entries gs to the entries es, or takes them away.
///
/// Both lists are in the order of their variables, and so is the result. `Wide` comes where a product or a sum leaves
/// the bound, and `Memory` where there is no memory.
pub(crate) fn merge(
    alloc: Global,
    es: &[Entry],
    k: Ratio,
    gs: &[Entry],
    minus: bool,
) -> Result<Vec<Entry>, RowStop>
    requires es_tidy { IsTidy numbers 0 (entries_of es.now) }
    requires gs_tidy { IsTidy numbers 0 (entries_of gs.now) }
    ensures ok { IfOk result (λ v. entries_of v.items
        ≡ combined minus (entries_of es.now) (number_of k) (entries_of gs.now)) }
    ensures wide { IfErr result (OnRowOverflow (OverflowsCombined minus (entries_of es.now) (number_of k)
        (entries_of gs.now))) }
{
    let mut out = Vec::new(alloc);
    // One more is put in by a pivot.
    out.reserve(es.len().saturating_add(gs.len()).saturating_add(1))?;
    let mut left = es;
    let mut taken = gs;
    while let Some((g, later)) = taken.split_first() {
        let (rest, used) = merge_one(&mut out, left, k, *g, minus)?;
        left = rest;
        if used {
            taken = later;
        }
    }
    out.extend_from_slice(left)?;
    Ok(out)
}

/// Gives the entries of the other variables.
pub(crate) fn without(alloc: Global, entries: &[Entry], x: u64) -> Result<Vec<Entry>, NoMemory>
    ensures { IfOk result (λ v. entries_of v.items ≡ definitions.without x (entries_of entries.now)) }
{
    let mut out = Vec::new(alloc);
    out.reserve(entries.len())?;
    let mut rest = entries;
    while let Some((e, more)) = rest.split_first() {
        if e.variable == x {
            out.extend_from_slice(more)?;
            return Ok(out);
        }
        out.push(*e)?;
        rest = more;
    }
    Ok(out)
}

/// Gives the entries with c more of the variable x.
///
/// `Wide` comes where the sum with an entry of x leaves the bound, and `Memory` where there is no memory.
pub(crate) fn put(alloc: Global, entries: &[Entry], x: u64, c: Ratio) -> Result<Vec<Entry>, RowStop>
    ensures ok { IfOk result (λ v. entries_of v.items
        ≡ definitions.put numbers x (number_of c) (entries_of entries.now)) }
    ensures wide { IfErr result (OnRowOverflow (OverflowsPut (entries_of entries.now) x (number_of c))) }
{
    let mut out = Vec::new(alloc);
    out.reserve(entries.len().saturating_add(1))?;
    let mut rest = entries;
    while let Some((e, more)) = rest.split_first() {
        if x < e.variable {
            append(&mut out, x, c)?;
            out.extend_from_slice(rest)?;
            return Ok(out);
        }
        if x == e.variable {
            append(&mut out, x, sum(e.coefficient, c)?)?;
            out.extend_from_slice(more)?;
            return Ok(out);
        }
        out.push(*e)?;
        rest = more;
    }
    append(&mut out, x, c)?;
    Ok(out)
}

/// Counts the entries of variables below x, where there is none of x.
#[tactic(auto, using(crate::proofs::Putting::puts_between, crate::proofs::Putting::puts_last))]
fn place_of(entries: &[Entry], x: u64) -> usize
    requires { AllVariables (λ y. (y == x) ≡ false) (entries_of entries.now) }
    ensures low { result ≤ length entries.now }
    ensures place { (c : Number) → definitions.put numbers x c (entries_of entries.now)
        ≡ entries_of (take result entries.now)
        ++ definitions.with_entry numbers x c (entries_of (drop result entries.now)) }
{
    let mut rest = entries;
    while let Some((e, more)) = rest.split_first() {
        if x < e.variable {
            return entries.len() - rest.len();
        }
        rest = more;
    }
    entries.len()
}

/// Puts an entry of the variable x, of which there is none, to the others. Where there is room, nothing is copied.
///
/// `NoMemory` comes where there is no room and no memory.
#[tactic(auto, using(crate::proofs::Putting::put_there))]
pub(crate) fn put_new(entries: &mut Vec<Entry>, x: u64, c: Ratio) -> Result<(), NoMemory>
    requires { AllVariables (λ y. (y == x) ≡ false) (entries_of entries.old.items) }
    ensures { OnOk result (entries_of entries.new.items
        ≡ definitions.put numbers x (number_of c) (entries_of entries.old.items)) }
{
    let place = place_of(entries, x);
    if is_zero(c) {
        return Ok(());
    }
    let entry = Entry {
        variable: x,
        coefficient: c,
    };
    entries.insert(place, entry)?;
    Ok(())
}
