//! Reads the two texts of a run.

ghost use Rattle.std.specs.Prelude.{◌≡◌, ◌≢◌, ℕ, ◌≤◌, List, IfOk, IfSome, IsSome, IsOk, IsErrOf};
ghost use Rattle.world_io.specs.Outside.{Rose};
ghost use Rattle.spec_text.specs.Readings.{prefix};
ghost use Rattle.script_run.specs.Scripts.{TakesText};

use crate::request::Names;
use smt_sexpr::TEXT_LIMIT;
use std::alloc::Global;
use world_io::{Bytes, ReadStop, Shelf, read_prefix};

/// How many bytes of a text are read: as many as a text may have, and one more, by which it has too many.
const FRONT: u64 = TEXT_LIMIT as u64 + 1;

/// Holds the prefixes of the two texts of a run.
#[derive(Drop)]
pub(crate) struct Texts {
    /// The script.
    pub(crate) script: Bytes,
    /// The text that is judged.
    pub(crate) judged: Bytes,
}

/// Reads the prefix of a name's text.
///
/// `Failed` comes only where the count of faults of the shelf rose in this call, `Memory` where an allocation was refused.
fn read_text<F: Shelf>(alloc: Global, shelf: &mut F, name: &str) -> Result<Bytes, ReadStop>
    ensures end { IfOk result (λ bytes. (text : List ℕ) × (bytes ≡ prefix text)
        × IfSome (F.holds shelf.old name.now) (λ t. t ≡ text)) }
    ensures found { ((s : F) → IsSome (F.left s)) → IsOk result → IsSome (F.holds shelf.old name.now) }
    ensures last { IsOk result → TakesText (F.holds shelf.old name.now) (F.left shelf.new) }
    ensures same { (n : List ℕ) → F.holds shelf.new n ≡ F.holds shelf.old n }
    ensures count { F.faults shelf.old ≤ F.faults shelf.new }
    ensures failed { IsErrOf result ReadStop.Failed → Rose (F.faults shelf.old) (F.faults shelf.new) }
    ensures sound { F.is_sound shelf.old → F.is_sound shelf.new
        × (IsSome (F.holds shelf.old name.now) → result ≢ Err ReadStop.Failed) }
{
    shelf.begin(name)?;
    read_prefix(alloc, shelf, FRONT)
}

/// Reads the prefixes of the texts of both names, the script's first.
///
/// `Failed` comes only where the count of faults of the shelf rose in this call, `Memory` where an allocation was refused.
pub(crate) fn read_both<F: Shelf>(
    alloc: Global,
    shelf: &mut F,
    names: Names<'_>,
) -> Result<Texts, ReadStop>
    ensures script { IfOk result (λ texts. (text : List ℕ) × (texts.script ≡ prefix text)
        × IfSome (F.holds shelf.old names.entry.script.now) (λ t. t ≡ text)) }
    ensures judged { IfOk result (λ texts. (text : List ℕ) × (texts.judged ≡ prefix text)
        × IfSome (F.holds shelf.old names.entry.text.now) (λ t. t ≡ text)) }
    ensures last { IsOk result → TakesText (F.holds shelf.old names.entry.text.now) (F.left shelf.new) }
    ensures found { ((s : F) → IsSome (F.left s)) → IsOk result
        → IsSome (F.holds shelf.old names.entry.script.now) × IsSome (F.holds shelf.old names.entry.text.now) }
    ensures same { (n : List ℕ) → F.holds shelf.new n ≡ F.holds shelf.old n }
    ensures count { F.faults shelf.old ≤ F.faults shelf.new }
    ensures failed { IsErrOf result ReadStop.Failed → Rose (F.faults shelf.old) (F.faults shelf.new) }
    ensures sound { F.is_sound shelf.old → F.is_sound shelf.new
        × (IsSome (F.holds shelf.old names.entry.script.now) → IsSome (F.holds shelf.old names.entry.text.now)
        → result ≢ Err ReadStop.Failed) }
{
    let script = read_text(alloc, shelf, names.script)?;
    let judged = read_text(alloc, shelf, names.text)?;
    Ok(Texts { script, judged })
}
