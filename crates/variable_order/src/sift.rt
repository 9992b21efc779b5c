//! Variables that move in a heap to where their activity belongs.

ghost use Rattle.std.specs.Prelude.{◌≡◌, ◌<◌, ◌+◌, ◌*◌, length};

use crate::places::Places;
use crate::score::Score;

/// Says whether the variable of one place is more active than that of another.
fn is_more_active(places: &Places, scores: &[Score], one: usize, other: usize) -> bool
    requires sized { length scores.now ≡ length places.now.members }
    requires one { one < length places.now.row }
    requires other { other < length places.now.row }
{
    let one = places.at(one).0 as usize;
    let other = places.at(other).0 as usize;
    scores[one].activity > scores[other].activity
}

/// Moves the variable of a place up, until the one above it is as active.
pub(crate) fn sift_up(places: &mut Places, scores: &[Score], from: usize)
    requires sized { length scores.now ≡ length places.old.members }
    requires there { from < length places.old.row }
    ensures { places.new.members ≡ places.old.members }
{
    let mut at = from;
    'up: while at > 0 {
        let above = (at - 1) / 2;
        if !is_more_active(places, scores, at, above) {
            return;
        }
        places.swap(at, above);
        at = above;
    }
}

/// Gives the more active of the variables below a place, by its place; there must be one.
fn child_of(places: &Places, scores: &[Score], at: usize) -> usize
    requires sized { length scores.now ≡ length places.now.members }
    requires there { at * 2 + 1 < length places.now.row }
    ensures within { result < length places.now.row }
    ensures below { at < result }
{
    let len = places.len();
    let left = at * 2 + 1;
    let right = left + 1;
    if right < len && is_more_active(places, scores, right, left) {
        return right;
    }
    left
}

/// Moves the variable of a place down, until those below it are no more active.
pub(crate) fn sift_down(places: &mut Places, scores: &[Score], from: usize)
    requires sized { length scores.now ≡ length places.old.members }
    ensures { places.new.members ≡ places.old.members }
{
    let half = places.len() / 2;
    let mut at = from;
    'down: while at < half {
        let child = child_of(places, scores, at);
        if !is_more_active(places, scores, child, at) {
            return;
        }
        places.swap(at, child);
        at = child;
    }
}
