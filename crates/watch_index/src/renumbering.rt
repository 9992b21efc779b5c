//! Lists of numbers from which some go, while the others get new numbers.

ghost use Rattle.std.specs.Prelude.{◌≡◌, ◌<◌, ◌≤◌, [], length, map, set, get_or, All};
ghost use Rattle.clause_literals.specs.Literals.{lists};
ghost use Rattle.watch_index.specs.Indexes.{renumbered, RenumbersOne};

/// Puts the new number of the entry at a place at a place not after it, if it stays, and tells where the next one goes.
fn renumber_one(list: &mut Vec<u64>, kept: &[Option<u64>], at: usize, to: usize) -> usize
    requires to { to ≤ at }
    requires there { at < length list.old.items }
    requires below { get_or list.old.items at 0 < length kept.now }
    ensures { RenumbersOne kept.now at to list.old.items list.new.items result }
{
    match kept[list[at] as usize] {
        None => to,
        Some(number) => {
            list[to] = number;
            to + 1
        }
    }
}

/// Takes the numbers that have None here out of a list, and puts in the place of each other one its new number, in order. It takes no
/// memory.
pub fn renumber(list: &mut Vec<u64>, kept: &[Option<u64>])
    requires { All (λ n. n < length kept.now) list.old.items }
    ensures { list.new.items ≡ renumbered kept.now list.old.items }
{
    let mut to = 0;
    'entries: for at in 0..list.len() {
        to = renumber_one(list, kept, at, to);
    }
    list.truncate(to);
}

/// Does so with the list of a place.
fn renumber_at(all: &mut Vec<Vec<u64>>, place: usize, kept: &[Option<u64>])
    requires there { place < length all.old.items }
    requires below { All (λ n. n < length kept.now) (get_or (lists all.old.items) place []) }
    ensures { lists all.new.items ≡ set (lists all.old.items) place
        (renumbered kept.now (get_or (lists all.old.items) place [])) }
{
    renumber(&mut all[place], kept);
}

/// Does so with all lists.
pub(crate) fn renumber_all(all: &mut Vec<Vec<u64>>, kept: &[Option<u64>])
    requires { All (All (λ n. n < length kept.now)) (lists all.old.items) }
    ensures { lists all.new.items ≡ map (renumbered kept.now) (lists all.old.items) }
{
    let mut place = 0;
    'lists: while place < all.len() {
        renumber_at(all, place, kept);
        place += 1;
    }
}
