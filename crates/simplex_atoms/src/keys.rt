//! Keys of sums: equal sums have one key, and so have opposite ones.

ghost use Rattle.std.specs.Prelude.{◌≡◌, IfOk};
ghost use Rattle.tableau.specs.Numbers.{number_of};
ghost use Rattle.tableau.specs.Entries.{entries_of};
ghost use Rattle.simplex_atoms.specs.Sums.{with_sign, signed_entries, begins_negative, pairs_meant, IsKeyOf};

use no_memory::NoMemory;
use ratio128::Ratio;
use std::alloc::Global;
use tableau::Entry;
use tableau::numbers::{is_negative, negative};

/// Holds the entries of a sum, or those of its opposite, so that both have one list.
#[derive(Drop)]
pub(crate) struct Key {
    /// Variables with coefficients, in the order of the variables. The first coefficient is not below 0.
    pub(crate) entries: Vec<(u64, Ratio)>,
    /// Whether the entries are those of the opposite.
    pub(crate) opposite: bool,
}

/// Tells whether the first coefficient is below 0.
fn begins_negative(entries: &[Entry]) -> bool
    ensures { result ≡ begins_negative (entries_of entries.now) }
{
    match entries.first() {
        None => false,
        Some(entry) => is_negative(entry.coefficient),
    }
}

/// Gives a number, or the opposite one.
fn signed(number: Ratio, opposite: bool) -> Ratio
    ensures { number_of result ≡ with_sign opposite (number_of number) }
{
    if opposite { negative(number) } else { number }
}

/// Lists the entries, or those of the opposite sum, in their order.
fn listed(alloc: Global, entries: &[Entry], opposite: bool) -> Result<Vec<(u64, Ratio)>, NoMemory>
    ensures { IfOk result (λ v. pairs_meant v.items ≡ signed_entries opposite (entries_of entries.now)) }
{
    let mut pairs = Vec::new(alloc);
    'entries: for at in 0..entries.len() {
        let entry = entries[at];
        pairs.push((entry.variable, signed(entry.coefficient, opposite)))?;
    }
    Ok(pairs)
}

/// Makes the key of the sum of entries, which are in any order.
///
/// `NoMemory` comes where there is no memory.
pub(crate) fn key_of(alloc: Global, entries: &[Entry]) -> Result<Key, NoMemory>
    ensures { IfOk result (IsKeyOf entries.now) }
{
    let mut sorted = Vec::from_slice(alloc, entries)?;
    sorted.sort_by_key(|entry| entry.variable)?;
    let opposite = begins_negative(&sorted);
    let entries = listed(alloc, &sorted, opposite)?;
    Ok(Key { entries, opposite })
}
