//! How a run of the program ends.
ghost use Rattle.std.specs.Prelude.{◌≡◌};
ghost use Rattle.command_status.specs.Codes.{status_code};

/// The status that the program ends with. docs/SCRIPT.md, "Statuses", says when each comes.
#[derive(Clone, Copy, Debug, PartialEq, Eq)]
pub enum Status {
    /// Nothing of the input is left, and everything that it asked for was carried out.
    Done,
    /// The input is too large, or a line of it is refused.
    InputRefused,
    /// The words of the command line are not the program's.
    WordsRefused,
    /// The source failed.
    ReadFault,
    /// The sink failed.
    WriteFault,
    /// The disk failed.
    DeviceFault,
    /// Memory ran out.
    NoMemory,
    /// The disk has no journal, or a damaged one, or bytes where one was to be made.
    JournalRefused,
}

impl Status {
    /// The code that the process ends with.
    pub fn code(self) -> u8
        ensures { result ≡ status_code self }
    {
        match self {
            Status::Done => 0,
            Status::InputRefused => 1,
            Status::WordsRefused => 2,
            Status::ReadFault => 3,
            Status::WriteFault => 4,
            Status::DeviceFault => 5,
            Status::NoMemory => 6,
            Status::JournalRefused => 7,
        }
    }
}
