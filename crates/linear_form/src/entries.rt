//! The entries of a form: a variable with its coefficient each, and their index.
//!
//! An entry is dead where its coefficient became 0. A variable that comes again has a new entry, at the end. Among few
//! entries a variable is looked for one by one. Where there are more, the index has the places of those that are
//! not dead, by the numbers of their variables.

ghost use Rattle.std.specs.Prelude.{◌≡◌, ◌+◌, ◌<◌, ◌∷◌, ◌++◌, [], ℕ, Option, false, length, take, get_or, nat_eq, IfErr, OnOk, OnErr, MatchBool, MatchOption};
ghost use Rattle.std.specs.HashMap.{get};
ghost use Rattle.spec_arithmetic.specs.Forms.{joined, all_joined, each_number};
ghost use Rattle.spec_arithmetic.specs.Signs.{is_zero};
ghost use Rattle.ratio128.specs.Meant.{fraction, outcome};
ghost use Rattle.term_core.specs.Tables.{TableView, IsIn, AreDifferent, term_at};
ghost use Rattle.term_core.specs.declared.ids.TermId.{TermId as Number};
ghost use Rattle.linear_form.specs.Entries.{live, variables_meant, HasVariables, LacksNumber, IsLiveAt, IsIndex, IsKept};
ghost use Rattle.linear_form.specs.Making.{way_meant, change_meant, CanChange, Comes, with_front};

use crate::stop::FormStop;
use ratio128::{Ratio, Wide};
use std::collections::HashMap;
use term_core::TermId;

/// How many entries have no index.
const FEW: usize = 8;

/// Says how two forms are joined.
#[derive(Clone, Copy, Debug, PartialEq, Eq)]
pub enum FormJoin {
    /// The second is added to the first.
    Adding,
    /// The second is subtracted from the first.
    Subtracting,
}

/// Says what becomes of each number of a form.
#[derive(Clone, Copy, Debug, PartialEq, Eq)]
pub enum FormChange {
    /// It is multiplied by a factor, which is on the left.
    Times(Ratio),
    /// It is divided by a divisor.
    Over(Ratio),
    /// It is negated.
    Negative,
    /// It stays.
    Nothing,
}

/// Joins two numbers in one place.
pub fn both(way: FormJoin, a: Ratio, b: Ratio) -> Result<Ratio, Wide>
    ensures { outcome result ≡ (way_meant way).both (fraction a) (fraction b) }
{
    match way {
        FormJoin::Adding => a.add(b),
        FormJoin::Subtracting => a.sub(b),
    }
}

/// Says what becomes of a number of the second form that has none in the first.
pub fn alone(way: FormJoin, k: Ratio) -> Ratio
    ensures { fraction result ≡ (way_meant way).alone (fraction k) }
{
    match way {
        FormJoin::Adding => k,
        FormJoin::Subtracting => k.neg(),
    }
}

/// Tells whether a number is 0.
#[tactic(auto, unfolding(spec_arithmetic::specs::Signs::is_zero))]
pub fn is_zero(k: Ratio) -> bool
    ensures { result ≡ is_zero (fraction k) }
{
    k.num() == 0
}

/// Says what becomes of a number.
pub fn changed_number(change: FormChange, k: Ratio) -> Result<Ratio, Wide>
    requires { CanChange change }
    ensures { outcome result ≡ change_meant change (fraction k) }
{
    match change {
        FormChange::Times(c) => c.mul(k),
        FormChange::Over(d) => k.div(d),
        FormChange::Negative => Ok(k.neg()),
        FormChange::Nothing => Ok(k),
    }
}

/// Puts a variable that has no live entry after the entries.
pub fn push_entry(
    entries: &mut Vec<(TermId, Ratio)>,
    places: &mut HashMap<u64, usize>,
    id: TermId,
    k: Ratio,
) -> Result<(), FormStop>
    requires index { IsKept (get nat_eq places.old) entries.old.items }
    requires not_zero { is_zero (fraction k) ≡ false }
    requires new { LacksNumber id.0 (live entries.old.items) }
    ensures index { IsKept (get nat_eq places.new) entries.new.items }
    ensures pushed { OnOk result (entries.new.items ≡ entries.old.items ++ (id, k) ∷ []) }
    ensures memory { OnErr result (entries.new.items ≡ entries.old.items) }
    ensures stop { IfErr result (λ e. e ≡ FormStop.Memory) }
{
    entries.reserve(1)?;
    if entries.len() < FEW {
        entries.push_reserved((id, k));
        return Ok(());
    }
    index_all(places, entries.as_slice())?;
    places.insert(id.0, entries.len())?;
    entries.push_reserved((id, k));
    Ok(())
}

/// Makes the index of entries, unless it is there because they are many.
fn index_all(places: &mut HashMap<u64, usize>, entries: &[(TermId, Ratio)]) -> Result<(), FormStop>
    requires index { IsKept (get nat_eq places.old) entries.now }
    ensures kept { IsKept (get nat_eq places.new) entries.now }
    ensures made { OnOk result (IsIndex (get nat_eq places.new) entries.now) }
    ensures stop { IfErr result (λ e. e ≡ FormStop.Memory) }
{
    if entries.len() > FEW {
        return Ok(());
    }
    fill(places, entries)
}

/// Makes the index of entries anew.
fn fill(places: &mut HashMap<u64, usize>, entries: &[(TermId, Ratio)]) -> Result<(), FormStop>
    requires index { (g : ℕ → Option ℕ) × IsIndex g entries.now }
    ensures filled { OnOk result (IsIndex (get nat_eq places.new) entries.now) }
    ensures stop { IfErr result (λ e. e ≡ FormStop.Memory) }
{
    places.clear();
    'entries: for at in 0..entries.len() {
        fill_entry(places, entries, at, entries[at])?;
    }
    Ok(())
}

/// Puts an entry into the index of those before it, unless it is dead.
fn fill_entry(
    places: &mut HashMap<u64, usize>,
    entries: &[(TermId, Ratio)],
    at: usize,
    entry: (TermId, Ratio),
) -> Result<(), FormStop>
    requires low { at < length entries.now }
    requires here { entry ≡ get_or entries.now at entry }
    requires index { (g : ℕ → Option ℕ) × IsIndex g entries.now }
    requires before { IsIndex (get nat_eq places.old) (take at entries.now) }
    ensures filled { OnOk result (IsIndex (get nat_eq places.new) (take (at + 1) entries.now)) }
    ensures stop { IfErr result (λ e. e ≡ FormStop.Memory) }
{
    let (id, k) = entry;
    if is_zero(k) {
        return Ok(());
    }
    places.insert(id.0, at)?;
    Ok(())
}

/// Gives the place of a variable's live entry, if there is one.
fn place_of(entries: &[(TermId, Ratio)], places: &HashMap<u64, usize>, id: TermId) -> Option<usize>
    requires index { IsKept (get nat_eq places.now) entries.now }
    ensures { MatchOption result (LacksNumber id.0 (live entries.now)) (IsLiveAt id.0 entries.now) }
{
    if entries.len() <= FEW {
        return live_place(entries, id);
    }
    match places.get(&id.0) {
        Some(place) => Some(*place),
        None => None,
    }
}

/// Looks for a variable's live entry, one by one.
fn live_place(entries: &[(TermId, Ratio)], id: TermId) -> Option<usize>
    ensures { MatchOption result (LacksNumber id.0 (live entries.now)) (IsLiveAt id.0 entries.now) }
{
    'entries: for at in 0..entries.len() {
        if is_live_of(entries[at], id) {
            return Some(at);
        }
    }
    None
}

/// Tells whether an entry is a variable's, and not dead.
fn is_live_of(entry: (TermId, Ratio), id: TermId) -> bool
    ensures { MatchBool result ((entry.0.0 ≡ id.0) × (is_zero (fraction entry.1) ≡ false))
        (LacksNumber id.0 (live (entry ∷ []))) }
{
    if entry.0.0 != id.0 {
        return false;
    }
    !is_zero(entry.1)
}

/// Joins a variable with its coefficient to those that are there.
pub fn join(
    entries: &mut Vec<(TermId, Ratio)>,
    places: &mut HashMap<u64, usize>,
    way: FormJoin,
    id: TermId,
    k: Ratio,
) -> Result<(), FormStop>
    requires index { IsKept (get nat_eq places.old) entries.old.items }
    requires not_zero { is_zero (fraction k) ≡ false }
    ensures index { IsKept (get nat_eq places.new) entries.new.items }
    ensures comes { (t : TableView) → AreDifferent t.terms → IsIn t id → HasVariables t (live entries.old.items)
        → Comes (joined (way_meant way) (term_at t id) (fraction k) (variables_meant t (live entries.old.items)))
        result (variables_meant t (live entries.new.items)) }
    ensures there { OnOk result ((t : TableView) → IsIn t id → HasVariables t (live entries.old.items)
        → HasVariables t (live entries.new.items)) }
{
    match place_of(entries.as_slice(), places, id) {
        Some(at) => join_at(entries, places, way, at, k),
        None => push_entry(entries, places, id, alone(way, k)),
    }
}

/// Joins a number to the one of a live entry.
fn join_at(
    entries: &mut Vec<(TermId, Ratio)>,
    places: &mut HashMap<u64, usize>,
    way: FormJoin,
    at: usize,
    k: Ratio,
) -> Result<(), FormStop>
    requires index { IsKept (get nat_eq places.old) entries.old.items }
    requires live { (q : ℕ) × IsLiveAt q entries.old.items at }
    ensures index { IsKept (get nat_eq places.new) entries.new.items }
    ensures comes { (t : TableView) (id : Number) → IsLiveAt id.0 entries.old.items at
        → AreDifferent t.terms → IsIn t id → HasVariables t (live entries.old.items)
        → Comes (joined (way_meant way) (term_at t id) (fraction k) (variables_meant t (live entries.old.items)))
        result (variables_meant t (live entries.new.items)) }
    ensures there { OnOk result ((t : TableView) → HasVariables t (live entries.old.items)
        → HasVariables t (live entries.new.items)) }
{
    let (id, old) = entries[at];
    let sum = both(way, old, k)?;
    entries[at] = (id, sum);
    if !is_zero(sum) {
        return Ok(());
    }
    if entries.len() <= FEW {
        return Ok(());
    }
    places.remove(&id.0);
    Ok(())
}

/// Joins an entry to those that are there, unless it is dead.
fn join_entry(
    entries: &mut Vec<(TermId, Ratio)>,
    places: &mut HashMap<u64, usize>,
    way: FormJoin,
    entry: (TermId, Ratio),
) -> Result<(), FormStop>
    requires index { IsKept (get nat_eq places.old) entries.old.items }
    ensures index { IsKept (get nat_eq places.new) entries.new.items }
    ensures comes { (t : TableView) → AreDifferent t.terms → HasVariables t (live entries.old.items)
        → HasVariables t (live (entry ∷ []))
        → Comes (all_joined (way_meant way) (variables_meant t (live entries.old.items))
        (variables_meant t (live (entry ∷ [])))) result (variables_meant t (live entries.new.items)) }
    ensures there { OnOk result ((t : TableView) → HasVariables t (live entries.old.items)
        → HasVariables t (live (entry ∷ [])) → HasVariables t (live entries.new.items)) }
{
    let (id, k) = entry;
    if is_zero(k) {
        return Ok(());
    }
    join(entries, places, way, id, k)
}

/// Joins entries, in order, to those that are there.
pub fn join_all(
    entries: &mut Vec<(TermId, Ratio)>,
    places: &mut HashMap<u64, usize>,
    way: FormJoin,
    others: &[(TermId, Ratio)],
) -> Result<(), FormStop>
    requires index { IsKept (get nat_eq places.old) entries.old.items }
    ensures index { IsKept (get nat_eq places.new) entries.new.items }
    ensures comes { (t : TableView) → AreDifferent t.terms → HasVariables t (live entries.old.items)
        → HasVariables t (live others.now)
        → Comes (all_joined (way_meant way) (variables_meant t (live entries.old.items))
        (variables_meant t (live others.now))) result (variables_meant t (live entries.new.items)) }
    ensures there { OnOk result ((t : TableView) → HasVariables t (live entries.old.items)
        → HasVariables t (live others.now) → HasVariables t (live entries.new.items)) }
{
    'others: for at in 0..others.len() {
        join_entry(entries, places, way, others[at])?;
    }
    Ok(())
}

/// Puts an entry after those that are there with its number changed, unless it is dead or becomes so.
fn change_entry(
    entries: &mut Vec<(TermId, Ratio)>,
    places: &mut HashMap<u64, usize>,
    change: FormChange,
    entry: (TermId, Ratio),
) -> Result<(), FormStop>
    requires index { IsKept (get nat_eq places.old) entries.old.items }
    requires change { CanChange change }
    requires new { is_zero (fraction entry.1) ≡ false → LacksNumber entry.0.0 (live entries.old.items) }
    ensures index { IsKept (get nat_eq places.new) entries.new.items }
    ensures comes { (t : TableView) → Comes (with_front (variables_meant t (live entries.old.items))
        (each_number (change_meant change) (variables_meant t (live (entry ∷ [])))))
        result (variables_meant t (live entries.new.items)) }
    ensures new { OnOk result ((q : ℕ) → LacksNumber q (live entries.old.items) → LacksNumber q (live (entry ∷ []))
        → LacksNumber q (live entries.new.items)) }
    ensures there { OnOk result ((t : TableView) → HasVariables t (live entries.old.items)
        → HasVariables t (live (entry ∷ [])) → HasVariables t (live entries.new.items)) }
{
    let (id, k) = entry;
    if is_zero(k) {
        return Ok(());
    }
    let number = changed_number(change, k)?;
    if is_zero(number) {
        return Ok(());
    }
    push_entry(entries, places, id, number)
}

/// Puts entries into an empty list with their numbers changed, in order, without those that are dead or become so.
pub fn change_all(
    entries: &mut Vec<(TermId, Ratio)>,
    places: &mut HashMap<u64, usize>,
    change: FormChange,
    others: &[(TermId, Ratio)],
) -> Result<(), FormStop>
    requires empty { entries.old.items ≡ [] }
    requires index { IsKept (get nat_eq places.old) entries.old.items }
    requires change { CanChange change }
    requires others { (g : ℕ → Option ℕ) × IsIndex g others.now }
    ensures index { IsKept (get nat_eq places.new) entries.new.items }
    ensures comes { (t : TableView) → Comes (each_number (change_meant change) (variables_meant t (live others.now)))
        result (variables_meant t (live entries.new.items)) }
    ensures there { OnOk result ((t : TableView) → HasVariables t (live others.now)
        → HasVariables t (live entries.new.items)) }
{
    'others: for at in 0..others.len() {
        change_entry(entries, places, change, others[at])?;
    }
    Ok(())
}
