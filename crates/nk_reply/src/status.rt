//! How a run ends.
ghost use Rattle.std.specs.Prelude.{◌≡◌};
ghost use Rattle.nk_reply.specs.Status.{code_of};

/// How a run ends.
#[derive(Clone, Copy, Debug, PartialEq, Eq)]
pub enum Status {
    /// The command's answer is on `out`.
    Done,
    /// What was compared differs, what was checked isn't valid, or what was asked is broken; `out` says how.
    Differs,
    /// The words are not those of a command.
    Usage,
    /// The text of the input has a fault.
    Text,
    /// The policy, the packet or the query is refused.
    Refused,
    /// A call of the source failed.
    ReadFault,
    /// A call of a sink failed, and nothing more was written.
    WriteFault,
    /// There was not enough memory.
    NoMemory,
    /// The input has more bytes than the limit.
    TooLong,
}

impl Status {
    /// The number that the program ends with.
    pub fn code(self) -> u8
        ensures { result ≡ code_of self }
    {
        match self {
            Status::Done => 0,
            Status::Differs => 1,
            Status::Usage => 2,
            Status::Text => 3,
            Status::Refused => 4,
            Status::ReadFault => 5,
            Status::WriteFault => 6,
            Status::NoMemory => 7,
            Status::TooLong => 8,
        }
    }
}
