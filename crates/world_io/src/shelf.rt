//! Where texts come from.

ghost use Rattle.std.specs.Prelude.{◌≡◌, ℕ, ◌<◌, ◌≤◌, List, length, take, Option, IfOk, IsOk, IsSome, OnOk, OnErr};
ghost use Rattle.std.specs.Io.KnownBytes.{Consumes, IsAtEnd, Keeps};
ghost use Rattle.world_io.specs.Outside.{Rose};

use crate::Failed;

/// Holds texts under names, and gives one of them bit by bit.
///
/// Contracts see what each name holds and what is left of the text that was begun, where these are known,
/// and how many calls failed.
pub trait Shelf {
    /// What a name holds, where that is known.
    ghost holds: { Self → List ℕ → Option (List ℕ) };

    /// What is left of the text that was begun, where that is known.
    ghost left: { Self → Option (List ℕ) };

    /// How many calls failed. It never falls.
    ghost faults: { Self → ℕ };

    /// No call fails from here on, but for a name that holds nothing.
    ghost is_sound: { Self → Type 0 };

    /// Begins the text of a name, so that all of it is left.
    ///
    /// `Failed` comes only where the count of faults rose in this call; what is left is then as before.
    fn begin(&mut self, name: &str) -> Result<(), Failed>
        ensures begun { OnOk result (left self.new ≡ holds self.old name.now) }
        ensures kept { OnErr result (Keeps (left self.old) (left self.new)) }
        ensures same { (n : List ℕ) → holds self.new n ≡ holds self.old n }
        ensures count { faults self.old ≤ faults self.new }
        ensures failed { OnErr result (Rose (faults self.old) (faults self.new)) }
        ensures sound { is_sound self.old → is_sound self.new }
        ensures found { is_sound self.old → IsSome (holds self.old name.now) → IsOk result };

    /// Moves a prefix of what is left into the buffer, from index 0 on, and answers its length in bytes.
    ///
    /// The buffer is not empty. The length is 0 at the end alone, where nothing is left.
    /// `Failed` comes only where the count of faults rose in this call; what is left is then as before.
    fn read(&mut self, buf: &mut [u8]) -> Result<usize, Failed>
        requires { 0 < length buf.old }
        ensures length { IfOk result (λ n. n ≤ length buf.old) }
        ensures moved { IfOk result (λ n. Consumes (left self.old) (left self.new) (take n buf.new)) }
        ensures end { IfOk result (λ n. n ≡ 0 → IsAtEnd (left self.old)) }
        ensures kept { OnErr result (Keeps (left self.old) (left self.new)) }
        ensures same { (n : List ℕ) → holds self.new n ≡ holds self.old n }
        ensures count { faults self.old ≤ faults self.new }
        ensures failed { OnErr result (Rose (faults self.old) (faults self.new)) }
        ensures sound { is_sound self.old → is_sound self.new × IsOk result };
}
