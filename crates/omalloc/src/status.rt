ghost use Rattle.std.specs.Prelude.{◌≡◌};
ghost use Rattle.omalloc.specs.Answers.{code_of};

use crate::refusal::Refusal;

/// How a call of the program ended.
#[derive(Clone, Copy, Debug, PartialEq, Eq)]
pub enum Status {
    /// The script was run to its end, and the whole output was written.
    Finished,
    /// A fault ended the script, and the whole output was written.
    Faulted,
    /// The arguments or the text aren't accepted.
    Refused(Refusal),
    /// No memory was there.
    Memory,
    /// The input couldn't be read.
    ReadFault,
    /// The output couldn't be written.
    WriteFault,
}

impl Status {
    /// The status with which the program exits.
    pub fn code(&self) -> u8
        ensures { result ≡ code_of self.now }
    {
        match self {
            Status::Finished => 0,
            Status::Faulted => 1,
            Status::Refused(_) => 2,
            Status::Memory => 3,
            Status::ReadFault => 4,
            Status::WriteFault => 5,
        }
    }
}
