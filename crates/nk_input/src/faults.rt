//! The lines that tell the faults of texts.
ghost use Rattle.std.specs.Prelude.{◌≡◌, IfOk};
ghost use Rattle.nk_names.specs.Messages.{fault_line};
ghost use Rattle.nk_reply.specs.Outcome.{text_refused};
ghost use Rattle.nk_reply.specs.Reply.{outcome_of};

use itoa::Buffer;
use nk_reply::CommandAnswer;
use std::alloc::{AllocError, Global};

/// `line N: WORDS` with a line feed.
pub(crate) fn fault_message(alloc: Global, line: u64, words: &str) -> Result<Vec<u8>, AllocError>
    ensures { IfOk result (λ v. v.items ≡ fault_line line words.now) }
{
    let mut buffer = Buffer::new();
    let mut message = Vec::new(alloc);
    message.extend_from_slice(b"line ")?;
    message.extend_from_slice(buffer.format(line).as_bytes())?;
    message.extend_from_slice(b": ")?;
    message.extend_from_slice(words.as_bytes())?;
    message.extend_from_slice(b"\n")?;
    Ok(message)
}

/// The fault of a text.
pub fn text_fault(alloc: Global, line: u64, words: &str) -> Result<CommandAnswer, AllocError>
    ensures { IfOk result (λ s. outcome_of s ≡ text_refused (fault_line line words.now)) }
{
    Ok(CommandAnswer::Text(fault_message(alloc, line, words)?))
}
