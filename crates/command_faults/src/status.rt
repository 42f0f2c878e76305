ghost use Rattle.std.specs.Prelude.{◌≡◌};
ghost use Rattle.command_faults.specs.Statuses as statuses;

/// How a command ends: its number is the program's exit status.
#[derive(Clone, Copy, Drop, PartialEq, Eq)]
pub enum Status {
    /// All was read, checked and written.
    Done,
    /// A text breaks a rule; no file was written.
    Refused,
    /// The words are no command, or the name of an output is also another file's.
    Usage,
    /// Memory was refused.
    Memory,
    /// A file couldn't be read.
    ReadFault,
    /// A file, or standard output, couldn't be written.
    WriteFault,
    /// An expectation of an event text wasn't met.
    Missed,
}

impl Status {
    /// The number with which the program ends.
    pub fn exit_number(self) -> u8
        ensures { result ≡ statuses.exit_number self }
    {
        match self {
            Status::Done => 0,
            Status::Refused => 1,
            Status::Usage => 2,
            Status::Memory => 3,
            Status::ReadFault => 4,
            Status::WriteFault => 5,
            Status::Missed => 6,
        }
    }
}
