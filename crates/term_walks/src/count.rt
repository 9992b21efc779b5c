//! Whether terms have few subterms.

ghost use Rattle.std.specs.Prelude.{◌≡◌, [], length, nat_le, IfOk, OnOk};
ghost use Rattle.spec_sorts.specs.Subterms.{subterms_of};
ghost use Rattle.term_core.specs.Tables.{AreIn, clause_at};
ghost use Rattle.term_walks.specs.Counting.{AddsOnce};

use indexmap::IndexSet;
use no_memory::NoMemory;
use spec_sorts::subterms::{subterms_are_counted, subterms_are_least};
use std::alloc::Global;
use term_core::{TermId, TermTable};

/// Tells whether terms have no more than `room` different subterms, all together.
///
/// Where the table has no more terms it answers at once, and else as soon as more were seen; its time and memory go with
/// the number of these subterms and their arguments. `NoMemory` comes where they find no memory, and says nothing of
/// their number.
pub fn fit_in(alloc: Global, table: &TermTable, ids: &[TermId], room: u64) -> Result<bool, NoMemory>
    requires { AreIn table.now ids.now }
    ensures { IfOk result (λ yes. yes ≡ nat_le (length (subterms_of (clause_at table.now ids.now))) room) }
{
    table.terms_are_closed();
    subterms_are_counted();
    if table.len() <= room {
        return Ok(true);
    }
    let mut seen = IndexSet::new(alloc);
    see_all(&mut seen, ids)?;
    count(table, ids, room, &mut seen)
}

/// Sees the arguments of what is seen, until there are no others or too many.
fn count(
    table: &TermTable,
    ids: &[TermId],
    room: u64,
    seen: &mut IndexSet<TermId>,
) -> Result<bool, NoMemory>
    requires there { AreIn table.now ids.now }
    requires start { AddsOnce [] ids.now seen.old.keys }
    ensures { IfOk result (λ yes. yes ≡ nat_le (length (subterms_of (clause_at table.now ids.now))) room) }
{
    subterms_are_least();
    subterms_are_counted();
    table.ids_are_unique();
    let mut done = 0;
    'seen: while done < seen.len() {
        if seen.len() as u64 > room {
            return Ok(false);
        }
        let id = seen.as_slice()[done];
        see_all(seen, table.node(id).arguments.as_slice())?;
        done += 1;
    }
    Ok(seen.len() as u64 <= room)
}

/// Puts numbers after those that are there, each once.
fn see_all(seen: &mut IndexSet<TermId>, ids: &[TermId]) -> Result<(), NoMemory>
    ensures { OnOk result (AddsOnce seen.old.keys ids.now seen.new.keys) }
{
    'ids: for id in ids.iter() {
        seen.insert(*id)?;
    }
    Ok(())
}
