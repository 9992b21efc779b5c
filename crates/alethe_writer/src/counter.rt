//! Numbers that are given one after the other.

ghost use Rattle.std.specs.Prelude.{◌≡◌, ◌-◌, ◌<◌, ◌^◌};
ghost use Rattle.alethe_writer.specs.Counting.{IsNextNumber};

/// The next number.
#[derive(Drop)]
pub(crate) struct Counter {
    pub(crate) next: u64,
}

impl Counter {
    /// Begins with 1.
    pub(crate) fn new() -> Counter
        ensures { result.next ≡ 1 }
    {
        Counter { next: 1 }
    }

    /// Gives the next number, where one is wanted.
    pub(crate) fn number(&mut self, wanted: bool) -> Option<u64>
        requires { self.old.next < 2 ^ 64 - 1 }
        ensures { IsNextNumber self.old.next wanted result self.new.next }
    {
        if !wanted {
            return None;
        }
        let number = self.next;
        self.next = number + 1;
        Some(number)
    }
}
