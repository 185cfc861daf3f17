//! Why a text is refused.
ghost use Rattle.std.specs.Prelude.{◌≡◌};
ghost use Rattle.nk_number_forms.specs.Faults.{message_of};

/// What is wrong with a malformed word.
#[derive(Clone, Copy, Debug, PartialEq, Eq)]
pub enum Cause {
    /// It isn't four decimal numbers up to 255, without leading zeros and with dots between them.
    Address,
    /// It isn't six pairs of hexadecimal digits with colons between them.
    HardwareAddress,
    /// No digit or something else than hexadecimal digits stands after `0x`.
    Hexadecimal,
    /// It is above 281474976710655.
    TooLarge,
    /// The length of the prefix isn't a decimal number up to 32.
    Length,
    /// The address has ones after the length of the prefix.
    Ones,
    /// The prefix doesn't stand right after the `=` of a test.
    Untested,
}

impl Cause {
    /// What the line of a fault says.
    pub fn message(self) -> &'static str
        ensures { result.now ≡ message_of self }
    {
        match self {
            Cause::Address => "bad IPv4 address",
            Cause::HardwareAddress => "bad hardware address",
            Cause::Hexadecimal => "bad hexadecimal number",
            Cause::TooLarge => "number too large",
            Cause::Length => "bad prefix length",
            Cause::Ones => "ones after the prefix length",
            Cause::Untested => "prefix without test",
        }
    }
}

/// A malformed word.
#[derive(Clone, Copy, Debug, PartialEq, Eq)]
pub struct Fault {
    /// Its line, from 1.
    pub line: u64,
    /// What is wrong.
    pub cause: Cause,
}

/// Why a translation ends early.
#[derive(Clone, Copy, Debug, PartialEq, Eq)]
pub enum Stop {
    /// A word is malformed.
    Refused(Fault),
    /// There was not enough memory.
    NoMemory,
}

/// Why a word isn't written.
#[derive(Clone, Copy)]
pub enum WordStop {
    /// It is malformed.
    Refused(Cause),
    /// There was not enough memory.
    NoMemory,
}
