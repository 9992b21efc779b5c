//! The two literals of a clause that are watched.

ghost use Rattle.std.specs.Prelude.{◌≡◌, ◌≢◌};

use term_core::Lit;

/// Holds two different literals of a clause, which are watched; of a clause without two it holds the only one twice.
#[derive(Clone, Copy, Debug, PartialEq, Eq)]
pub struct Pair {
    /// One.
    pub first: Lit,
    /// The other.
    pub second: Lit,
}

/// Gives the literal of a pair that is not this one.
pub(crate) fn other_of(pair: Pair, l: Lit) -> Lit
    ensures first { pair.first ≡ l → result ≡ pair.second }
    ensures second { pair.first ≢ l → result ≡ pair.first }
{
    if pair.first == l {
        pair.second
    } else {
        pair.first
    }
}
