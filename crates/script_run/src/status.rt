//! How a run ends.

ghost use Rattle.std.specs.Prelude.{◌≡◌};
ghost use Rattle.script_run.specs.Runs.{code_of};

/// Tells how a run ended.
#[derive(Clone, Copy, Debug, PartialEq, Eq)]
pub enum Status {
    /// The input was read to its end, or to `exit`, and nothing was refused; of a proof that is judged, it is accepted.
    Done,
    /// A command was refused, or the text has a fault after which it cannot be read on; of a proof that is judged, it is not
    /// accepted.
    Refused,
    /// The arguments are not those of a run, and the usage text was written.
    Words,
    /// Memory ran out, and the run ended at once.
    Memory,
    /// The shelf failed, and the run ended at once.
    ReadFault,
    /// The sink failed, and the run ended at once.
    WriteFault,
}

impl Status {
    /// Gives the number that the program ends with, from 0 to 5.
    pub fn code(self) -> u8
        ensures { result ≡ code_of self }
    {
        match self {
            Status::Done => 0,
            Status::Refused => 1,
            Status::Words => 2,
            Status::Memory => 3,
            Status::ReadFault => 4,
            Status::WriteFault => 5,
        }
    }
}
