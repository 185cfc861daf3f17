//! What a run answers, and how the answer is written.
ghost use Rattle.std.specs.Prelude.{◌≡◌};
ghost use Rattle.nk_io.specs.Reading.{IsCause};
ghost use Rattle.nk_reply.specs.Answer.{answer, limit};
ghost use Rattle.nk_reply.specs.Use.{Use, use_of};
ghost use Rattle.nk_reply.specs.Meant.{IsUnread};
ghost use Rattle.nk_reply.specs.Sent.{Delivers, LeavesAlone};
ghost use Rattle.nk_reply.specs.Reply.{answer_in, IsDelivered};

use crate::Status;
use nk_io::{ReadError, Sink, write_all};

/// The whole answer of a command, made before its first byte is written. Each line of a text ends
/// with a line feed.
#[derive(Drop)]
pub enum CommandAnswer {
    /// The command is done: its answer.
    Done(Vec<u8>),
    /// What was compared differs, what was checked isn't valid, or what was asked is broken: the
    /// text that says how.
    Differs(Vec<u8>),
    /// The text of the input has a fault: the message.
    Text(Vec<u8>),
    /// The policy, the packet or the query is refused: the message.
    Refused(Vec<u8>),
}

/// What a run answers.
#[derive(Drop)]
pub enum Reply {
    /// The command's own answer.
    CommandAnswer(CommandAnswer),
    /// The words are not those of a command.
    Usage,
    /// A call of the source failed.
    ReadFault,
    /// There was not enough memory.
    NoMemory,
    /// The input has more bytes than the limit.
    TooLong,
}

impl Reply {
    /// The answer where not all of the input was read.
    pub fn unread(error: ReadError) -> Reply
        ensures { (source : Use)
            → IsCause limit source.old source.new source.before source.now error
            → IsUnread source (answer_in result) }
    {
        match error {
            ReadError::ReadFault => Reply::ReadFault,
            ReadError::TooLong => Reply::TooLong,
            ReadError::NoMemory => Reply::NoMemory,
        }
    }
}

/// Writes the answer to its sink and makes no call on the other. Where a call of the sink fails
/// nothing more is written, and the status is `WriteFault`. It takes no memory.
pub fn deliver<O: Sink, E: Sink>(reply: &Reply, out: &mut O, err: &mut E) -> Status
    ensures delivered { Delivers (answer_in reply.now)
        (use_of O.taken O.faults out.old out.new)
        (use_of E.taken E.faults err.old err.new) result }
    ensures alone { LeavesAlone result (out.new ≡ out.old) (err.new ≡ err.old) }
{
    match reply {
        Reply::CommandAnswer(CommandAnswer::Done(text)) => deliver_text(
            Status::Done,
            text,
            out,
            err,
        ),
        Reply::CommandAnswer(CommandAnswer::Differs(text)) => {
            deliver_text(Status::Differs, text, out, err)
        }
        Reply::CommandAnswer(CommandAnswer::Text(text)) => deliver_text(
            Status::Text,
            text,
            out,
            err,
        ),
        Reply::CommandAnswer(CommandAnswer::Refused(text)) => {
            deliver_text(Status::Refused, text, out, err)
        }
        Reply::Usage => deliver_text(Status::Usage, b"usage: nk COMMAND ARGUMENTS\n", out, err),
        Reply::ReadFault => deliver_text(Status::ReadFault, b"read fault\n", out, err),
        Reply::NoMemory => deliver_text(Status::NoMemory, b"no memory\n", out, err),
        Reply::TooLong => deliver_text(Status::TooLong, b"too long\n", out, err),
    }
}

/// Writes the text of an answer to the sink that its status goes with: `out` for `Done` and `Differs`,
/// else `err`. It makes no call on the other sink. Where a call of the sink fails nothing more is
/// written, and the status is `WriteFault`. It takes no memory.
pub fn deliver_text<O: Sink, E: Sink>(
    status: Status,
    text: &[u8],
    out: &mut O,
    err: &mut E,
) -> Status
    ensures delivered { Delivers (answer status text.now)
        (use_of O.taken O.faults out.old out.new)
        (use_of E.taken E.faults err.old err.new) result }
    ensures alone { LeavesAlone result (out.new ≡ out.old) (err.new ≡ err.old) }
{
    match status {
        Status::Done | Status::Differs => send(out, text, status),
        _ => send(err, text, status),
    }
}

/// Sends the bytes, and answers the status where all of them went out.
fn send<K: Sink>(sink: &mut K, bytes: &[u8], status: Status) -> Status
    ensures { IsDelivered (use_of K.taken K.faults sink.old sink.new) bytes.now status result }
{
    match write_all(sink, bytes) {
        Ok(()) => status,
        Err(_) => Status::WriteFault,
    }
}
