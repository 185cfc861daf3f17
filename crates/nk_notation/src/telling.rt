//! What is told of a translation's end.
ghost use Rattle.std.specs.Prelude.{◌≡◌, ◌++◌, codes, decimal};
ghost use Rattle.nk_reply.specs.Reply.{IsDelivered};
ghost use Rattle.nk_reply.specs.Use.{use_of};
ghost use Rattle.nk_notation.specs.Answer.{AreBytesWritten, Tells};
ghost use Rattle.nk_number_forms.specs.Faults.{notation_fault_line, message_of};

use crate::pieces::Ending;
use itoa::Buffer;
use nk_io::{Sink, WriteFault, write_all};
use nk_number_forms::{Cause, Fault};
use nk_reply::Status;

/// Tells on `err` how a translation ended, and answers the status. It takes no memory.
pub(crate) fn tell<E: Sink>(ending: Ending, err: &mut E) -> Status
    ensures { Tells ending (use_of E.taken E.faults err.old err.new) result }
{
    match ending {
        Ending::Done => Status::Done,
        Ending::WriteFault => Status::WriteFault,
        Ending::Refused(fault) => match write_fault(err, fault) {
            Ok(()) => Status::Text,
            Err(WriteFault) => Status::WriteFault,
        },
        Ending::ReadFault => send(err, b"read fault\n", Status::ReadFault),
        Ending::NoMemory => send(err, b"no memory\n", Status::NoMemory),
        Ending::TooLong => send(err, b"too long\n", Status::TooLong),
    }
}

/// Sends the bytes, and answers the status where all of them went out.
pub(crate) fn send<K: Sink>(sink: &mut K, bytes: &[u8], status: Status) -> Status
    ensures { IsDelivered (use_of K.taken K.faults sink.old sink.new) bytes.now status result }
{
    match write_all(sink, bytes) {
        Ok(()) => status,
        Err(WriteFault) => Status::WriteFault,
    }
}

/// Writes the line that tells a fault.
fn write_fault<K: Sink>(sink: &mut K, fault: Fault) -> Result<(), WriteFault>
    ensures { AreBytesWritten (notation_fault_line fault)
        (use_of K.taken K.faults sink.old sink.new) result }
{
    match write_line(sink, fault.line) {
        Ok(()) => write_cause(sink, fault.cause),
        Err(error) => Err(error),
    }
}

/// Writes the number of a line, with the words around it.
fn write_line<K: Sink>(sink: &mut K, line: u64) -> Result<(), WriteFault>
    ensures { AreBytesWritten (codes "line " ++ decimal line)
        (use_of K.taken K.faults sink.old sink.new) result }
{
    let mut buffer = Buffer::new();
    write_both(sink, b"line ", buffer.format(line).as_bytes())
}

/// Writes what is wrong.
fn write_cause<K: Sink>(sink: &mut K, cause: Cause) -> Result<(), WriteFault>
    ensures { AreBytesWritten (codes ": " ++ message_of cause ++ codes "\n")
        (use_of K.taken K.faults sink.old sink.new) result }
{
    match write_both(sink, b": ", cause.message().as_bytes()) {
        Ok(()) => write(sink, b"\n"),
        Err(error) => Err(error),
    }
}

/// Writes the bytes.
fn write<K: Sink>(sink: &mut K, bytes: &[u8]) -> Result<(), WriteFault>
    ensures { AreBytesWritten bytes.now (use_of K.taken K.faults sink.old sink.new) result }
{
    match write_all(sink, bytes) {
        Ok(()) => Ok(()),
        Err(error) => Err(error),
    }
}

/// Writes bytes, and then others.
fn write_both<K: Sink>(sink: &mut K, first: &[u8], second: &[u8]) -> Result<(), WriteFault>
    ensures { AreBytesWritten (first.now ++ second.now)
        (use_of K.taken K.faults sink.old sink.new) result }
{
    match write(sink, first) {
        Ok(()) => write(sink, second),
        Err(error) => Err(error),
    }
}
