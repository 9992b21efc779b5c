//! Reads a text: all of it, as far as a limit allows, or its first bytes alone.

ghost use Rattle.std.specs.Prelude.{◌≡◌, ◌≢◌, ℕ, ◌+◌, ◌^◌, ◌<◌, ◌≤◌, List, length, take, IfOk, IfSome, IsErrOf};
ghost use Rattle.std.specs.Io.KnownBytes.{Consumes};
ghost use Rattle.world_io.specs.Outside.{Rose, TakesPrefix};
ghost use Rattle.world_io.specs.Ends.{IsReadTo, HasTaken, HasTakenPrefix};
ghost use Rattle.world_io.specs.declared.read.ReadStop.TheVariants as stops;

use crate::{Bytes, Failed, Shelf};
use std::alloc::{AllocError, Global};
use thiserror::Error;

/// How many bytes one read asks for at most.
const PIECE: usize = 1 << 16;

/// Holds a text as far as the limit allows.
#[derive(Drop)]
pub enum ReadEnd {
    /// The whole text. It has no more bytes than the limit says.
    Whole(Bytes),
    /// The prefix of a text that has more bytes than the limit says: as many bytes as the limit says.
    Cut(Bytes),
}

/// Says why reading stopped.
#[derive(Clone, Copy, Debug, PartialEq, Eq, Error)]
pub enum ReadStop {
    /// The shelf failed.
    #[error("I/O failed")]
    Failed,
    /// An allocation was refused.
    #[error("out of memory")]
    Memory,
}

impl From<AllocError> for ReadStop {
    ghost from_gives = { λ _ e. e ≡ stops.Memory };

    fn from(_error: AllocError) -> ReadStop {
        ReadStop::Memory
    }
}

impl From<Failed> for ReadStop {
    ghost from_gives = { λ _ e. e ≡ stops.Failed };

    fn from(_error: Failed) -> ReadStop {
        ReadStop::Failed
    }
}

/// Reads pieces of what is left of the text that was begun, until there are `n` bytes or more, or none is left.
///
/// No read is asked for once there are `n` bytes. Errors are those of `read_all`.
fn read_to<F: Shelf>(alloc: Global, shelf: &mut F, n: u64) -> Result<Vec<u8>, ReadStop>
    ensures taken { IfOk result (λ text. Consumes (F.left shelf.old) (F.left shelf.new) text.items) }
    ensures whole { IfOk result (λ text. length text.items < n → IfSome (F.left shelf.old) (λ t. t ≡ text.items)) }
    ensures few { IfOk result (λ text. length text.items < n + 2 ^ 16) }
    ensures prefix { TakesPrefix (F.left shelf.old) (F.left shelf.new) }
    ensures same { (n : List ℕ) → F.holds shelf.new n ≡ F.holds shelf.old n }
    ensures count { F.faults shelf.old ≤ F.faults shelf.new }
    ensures failed { IsErrOf result ReadStop.Failed → Rose (F.faults shelf.old) (F.faults shelf.new) }
    ensures sound { F.is_sound shelf.old → F.is_sound shelf.new × (result ≢ Err ReadStop.Failed) }
{
    let mut text = Vec::new(alloc);
    let mut piece = [0u8; PIECE];
    'turns: while (text.len() as u64) < n {
        let size = shelf.read(&mut piece)?;
        if size == 0 {
            return Ok(text);
        }
        text.extend_from_slice(&piece[..size])?;
    }
    Ok(text)
}

/// Reads what is left of the text that was begun, up to `limit` bytes.
///
/// `Whole` comes where no more than `limit` bytes were left, with all of them; then nothing is left.
/// `Cut` comes where more than `limit` bytes were left, with the first `limit` of them. No read is asked for once there is
/// a byte more, and so at most 2^16 bytes more than `limit` were taken.
/// `Failed` comes only where the count of faults of the shelf rose in this call, `Memory` where an allocation was refused.
/// After both a prefix of what was left is taken, any number of bytes from none to all, and its bytes are lost.
pub fn read_all<F: Shelf>(alloc: Global, shelf: &mut F, limit: u64) -> Result<ReadEnd, ReadStop>
    ensures end { IfOk result (λ end. (text : List ℕ) × IsReadTo limit end text
        × IfSome (F.left shelf.old) (λ t. t ≡ text)) }
    ensures prefix { TakesPrefix (F.left shelf.old) (F.left shelf.new) }
    ensures taken { IfOk result (λ end. HasTaken limit end (F.left shelf.old) (F.left shelf.new)) }
    ensures same { (n : List ℕ) → F.holds shelf.new n ≡ F.holds shelf.old n }
    ensures count { F.faults shelf.old ≤ F.faults shelf.new }
    ensures failed { IsErrOf result ReadStop.Failed → Rose (F.faults shelf.old) (F.faults shelf.new) }
    ensures sound { F.is_sound shelf.old → F.is_sound shelf.new × (result ≢ Err ReadStop.Failed) }
{
    let mut text = read_to(alloc, shelf, limit.saturating_add(1))?;
    if text.len() as u64 <= limit {
        return Ok(ReadEnd::Whole(Bytes::from(text)));
    }
    text.truncate(limit as usize);
    Ok(ReadEnd::Cut(Bytes::from(text)))
}

/// Reads the first `n` bytes of what is left of the text that was begun, or all of them where there are fewer.
///
/// No read is asked for once there are `n` bytes, and so fewer than 2^16 bytes more than `n` were taken.
/// `Failed` comes only where the count of faults of the shelf rose in this call, `Memory` where an allocation was refused.
/// After both a prefix of what was left is taken, any number of bytes from none to all, and its bytes are lost.
pub fn read_prefix<F: Shelf>(alloc: Global, shelf: &mut F, n: u64) -> Result<Bytes, ReadStop>
    ensures bytes { IfOk result (λ bytes. (text : List ℕ) × (bytes ≡ take n text)
        × IfSome (F.left shelf.old) (λ t. t ≡ text)) }
    ensures prefix { TakesPrefix (F.left shelf.old) (F.left shelf.new) }
    ensures taken { IfOk result (λ bytes. HasTakenPrefix n bytes (F.left shelf.old) (F.left shelf.new)) }
    ensures same { (n : List ℕ) → F.holds shelf.new n ≡ F.holds shelf.old n }
    ensures count { F.faults shelf.old ≤ F.faults shelf.new }
    ensures failed { IsErrOf result ReadStop.Failed → Rose (F.faults shelf.old) (F.faults shelf.new) }
    ensures sound { F.is_sound shelf.old → F.is_sound shelf.new × (result ≢ Err ReadStop.Failed) }
{
    let mut text = read_to(alloc, shelf, n)?;
    text.truncate(n as usize);
    Ok(Bytes::from(text))
}
