//! What is known, as long as it is used.

ghost use Rattle.std.specs.Prelude.{◌≡◌, ◌≢◌, ℕ, ◌+◌, ◌<◌, ◌≤◌, length, take, drop, OnOk, IfOk, get_or};
ghost use Rattle.term_core.specs.Tables.{TableView};
ghost use Rattle.linear_form.specs.Walks.{numbers_at, AreLast, IsKnown, AreKnownForms, SlotHolds, HoldsUsed};

use crate::known::{KnownForm, copy_known};
use crate::plan::WalkPlan;
use no_memory::NoMemory;
use std::alloc::Global;

/// Copies what is at a place.
fn copied(
    alloc: Global,
    slots: &Vec<Option<KnownForm>>,
    place: usize,
) -> Result<KnownForm, NoMemory>
    requires there { (t : TableView) × (k : ℕ) × SlotHolds t slots.now.items place k }
    ensures known { (t : TableView) (k : ℕ) → SlotHolds t slots.now.items place k → IfOk result (IsKnown t k) }
{
    match &slots[place] {
        Some(known) => copy_known(alloc, known),
        None => unreachable!(),
    }
}

/// Takes what is at a place.
fn taken(slots: &mut Vec<Option<KnownForm>>, place: usize) -> KnownForm
    requires there { (t : TableView) × (k : ℕ) × SlotHolds t slots.old.items place k }
    ensures known { (t : TableView) (k : ℕ) → SlotHolds t slots.old.items place k → IsKnown t k result }
    ensures len { length slots.new.items ≡ length slots.old.items }
    ensures others { (t : TableView) (j k : ℕ) → j ≢ place → SlotHolds t slots.old.items j k
        → SlotHolds t slots.new.items j k }
{
    match slots[place].take() {
        Some(known) => known,
        None => unreachable!(),
    }
}

/// Takes what is at the next place that is used, or copies it where it is used again.
pub fn fetch(
    alloc: Global,
    plan: &WalkPlan,
    slots: &mut Vec<Option<KnownForm>>,
    tick: usize,
) -> Result<KnownForm, NoMemory>
    requires tick { tick < length plan.now.uses.items }
    requires place { get_or plan.now.uses.items tick 0 < length slots.old.items }
    requires len { length slots.old.items ≤ length plan.now.last.items }
    requires last { AreLast plan.now.uses.items plan.now.last.items }
    requires ready { (t : TableView) × HoldsUsed t plan.now.order.items plan.now.last.items slots.old.items tick }
    ensures known { (t : TableView) → HoldsUsed t plan.now.order.items plan.now.last.items slots.old.items tick
        → IfOk result (IsKnown t (get_or plan.now.order.items (get_or plan.now.uses.items tick 0) 0)) }
    ensures len { length slots.new.items ≡ length slots.old.items }
    ensures ready { (t : TableView) → HoldsUsed t plan.now.order.items plan.now.last.items slots.old.items tick
        → OnOk result (HoldsUsed t plan.now.order.items plan.now.last.items slots.new.items (tick + 1)) }
{
    let place = plan.uses[tick];
    if plan.last[place] != tick {
        return copied(alloc, slots, place);
    }
    Ok(taken(slots, place))
}

/// Fetches what is known of some arguments, one after the other.
pub fn fetch_all(
    alloc: Global,
    plan: &WalkPlan,
    slots: &mut Vec<Option<KnownForm>>,
    first: usize,
    count: usize,
) -> Result<Vec<KnownForm>, NoMemory>
    requires tick { first + count ≤ length plan.now.uses.items }
    requires places { (i : ℕ) → first ≤ i → i < first + count
        → get_or plan.now.uses.items i 0 < length slots.old.items }
    requires len { length slots.old.items ≤ length plan.now.last.items }
    requires last { AreLast plan.now.uses.items plan.now.last.items }
    requires ready { (t : TableView) × HoldsUsed t plan.now.order.items plan.now.last.items slots.old.items first }
    ensures known { (t : TableView) → HoldsUsed t plan.now.order.items plan.now.last.items slots.old.items first
        → IfOk result (λ v. AreKnownForms t
        (take count (drop first (numbers_at plan.now.order.items plan.now.uses.items))) v.items) }
    ensures len { OnOk result (length slots.new.items ≡ length slots.old.items) }
    ensures ready { (t : TableView) → HoldsUsed t plan.now.order.items plan.now.last.items slots.old.items first
        → OnOk result (HoldsUsed t plan.now.order.items plan.now.last.items slots.new.items (first + count)) }
{
    let mut found = Vec::new(alloc);
    'uses: for done in 0..count {
        let known = fetch(alloc, plan, slots, first + done)?;
        found.push(known)?;
    }
    Ok(found)
}
