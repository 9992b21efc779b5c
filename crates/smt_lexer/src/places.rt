//! Places in a text.

ghost use Rattle.std.specs.Prelude.{◌≡◌, ◌+◌, ◌<◌, ◌≤◌, ℕ, List, length};
ghost use Rattle.spec_text.specs.Places.{IsPlaceOf};

use spec_text::Place;

/// Gives the place of the first byte: offset 0, line 1 and column 1. It is one of every text, also of the empty one.
pub fn start() -> Place
    ensures offset { result.offset ≡ 0 }
    ensures place { (text : List ℕ) → IsPlaceOf text result }
{
    Place {
        offset: 0,
        line: 1,
        col: 1,
    }
}

/// Gives the place one byte further.
fn one_further(bytes: &[u8], place: Place) -> Place
    requires place { IsPlaceOf bytes.now place }
    requires within { place.offset < length bytes.now }
    ensures place { IsPlaceOf bytes.now result }
    ensures offset { result.offset ≡ place.offset + 1 }
{
    if bytes[place.offset as usize] == b'\n' {
        Place {
            offset: place.offset + 1,
            line: place.line + 1,
            col: 1,
        }
    } else {
        Place {
            offset: place.offset + 1,
            line: place.line,
            col: place.col + 1,
        }
    }
}

/// Gives the place so many bytes after a place of the bytes, which is a byte's or the end's. It takes time linear in
/// the number of bytes between them.
pub fn place_after(bytes: &[u8], from: Place, distance: usize) -> Place
    requires place { IsPlaceOf bytes.now from }
    requires within { from.offset + distance ≤ length bytes.now }
    ensures place { IsPlaceOf bytes.now result }
    ensures offset { result.offset ≡ from.offset + distance }
{
    let mut place = from;
    let end = from.offset + distance as u64;
    while place.offset < end {
        place = one_further(bytes, place);
    }
    place
}

/// Gives the place of an offset of the bytes, from 0 up to their number, which is that of their end. It takes time
/// linear in the offset.
pub fn place_at(bytes: &[u8], offset: usize) -> Place
    requires { offset ≤ length bytes.now }
    ensures place { IsPlaceOf bytes.now result }
    ensures offset { result.offset ≡ offset }
{
    place_after(bytes, start(), offset)
}
