//! A list of bytes.

ghost use Rattle.std.specs.Prelude.{◌≡◌, length};

use std::marker::Model;

/// Owns a list of bytes, which contracts see as the list.
#[derive(Drop)]
pub struct Bytes {
    items: Vec<u8>,
}

impl Model for Bytes {
    ghost use Rattle.std.specs.Prelude.{ℕ, List};

    ghost Value = { List ℕ };

    ghost view = { λ b. b.items.items };
}

impl From<Vec<u8>> for Bytes {
    ghost from_gives = { λ v b. b ≡ v.items };

    fn from(items: Vec<u8>) -> Bytes {
        Bytes { items }
    }
}

impl Bytes {
    /// Gives the bytes back as a `Vec`. It takes no memory.
    pub fn into_vec(self) -> Vec<u8>
        ensures { result.items ≡ self }
    {
        self.items
    }

    /// Lends the bytes. It takes no memory.
    pub fn as_slice(&self) -> &[u8]
        ensures { result.now ≡ self.now }
    {
        self.items.as_slice()
    }

    /// Counts the bytes. It takes no memory.
    pub fn len(&self) -> usize
        ensures { result ≡ length self.now }
    {
        self.items.len()
    }
}
