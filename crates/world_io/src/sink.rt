//! Where bytes go.

ghost use Rattle.std.specs.Prelude.{flat_map};
ghost use Rattle.world_io.specs.Writing.{SinkView, Sends, TakesPiece, Flushes, WritesPrefix};

use crate::Failed;

/// Takes bytes, piece by piece.
///
/// Contracts see what was written, where that is known, how many calls failed, which bytes wait in buffers, and for how many
/// bytes there is room.
pub trait Sink {
    /// What contracts see of the sink.
    ghost state: { Self → SinkView };

    /// Appends a prefix of the piece, and answers its length in bytes.
    ///
    /// Of a piece that is not empty it takes at least 1 byte.
    /// `Failed` comes only where the count of faults rose in this call; nothing was then appended.
    fn write(&mut self, buf: &[u8]) -> Result<usize, Failed>
        ensures { TakesPiece buf.now result (state self.old) (state self.new) };

    /// Passes on what waits in buffers, so that nothing waits. What was written stays the same.
    ///
    /// `Failed` comes only where the count of faults rose in this call; some bytes may then still wait.
    fn flush(&mut self) -> Result<(), Failed>
        ensures { Flushes result (state self.old) (state self.new) };
}

/// Writes as many of the bytes as the sink takes, and says how many. It takes no memory.
///
/// All are written but where the sink's count of faults rose in this call.
pub(crate) fn write_prefix<K: Sink>(out: &mut K, bytes: &[u8]) -> usize
    ensures { WritesPrefix bytes.now result (K.state out.old) (K.state out.new) }
{
    let mut count = 0;
    'pieces: while count < bytes.len() {
        match out.write(&bytes[count..]) {
            Ok(n) => count += n,
            Err(_) => return count,
        }
    }
    count
}

/// Writes all of the bytes. It takes no memory.
///
/// `Failed` comes only where the sink's count of faults rose in this call; a prefix of the bytes was then appended.
pub fn write_all<K: Sink>(out: &mut K, bytes: &[u8]) -> Result<(), Failed>
    ensures { Sends bytes.now result (K.state out.old) (K.state out.new) }
{
    if write_prefix(out, bytes) < bytes.len() {
        return Err(Failed);
    }
    Ok(())
}

/// Writes pieces one after the other, so that their concatenation is appended. It takes no memory.
///
/// `Failed` comes only where the sink's count of faults rose in this call; a prefix of the concatenation was then
/// appended.
pub fn write_pieces<K: Sink>(out: &mut K, pieces: &[&[u8]]) -> Result<(), Failed>
    ensures { Sends (flat_map (λ p. p.now) pieces.now) result (K.state out.old) (K.state out.new) }
{
    for piece in pieces {
        write_all(out, piece)?;
    }
    Ok(())
}
