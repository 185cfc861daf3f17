//! What is said of policies that are refused.
ghost use Rattle.std.specs.Prelude.{◌≡◌, ◌++◌, IfOk, codes, decimal};
ghost use Rattle.nk_compile_commands.specs.Messages.{refusal_line, static_fault_line};

use itoa::Buffer;
use nk_compile::Refusal;
use nk_field::Fields;
use nk_reply::messages::{found_message, no_policy_message};
use nk_static::StaticFault;
use std::alloc::{AllocError, Global};

/// The message for what a policy's text shows, with its line feed.
pub fn static_fault_message(alloc: Global, static_kind: StaticFault) -> Result<Vec<u8>, AllocError>
    ensures { IfOk result (λ v. v.items ≡ static_fault_line static_kind) }
{
    let message: &[u8] = match static_kind {
        StaticFault::TagUsed => b"refused C3: tag used\n",
        StaticFault::LooseDup => b"refused C4: loose dup\n",
        StaticFault::SwitchSet => b"refused C5: switch set\n",
        StaticFault::NoSuchLink => b"refused C6: no such link\n",
    };
    Vec::from_slice(alloc, message)
}

/// The message for a policy that needs too many tags.
fn tags_message(alloc: Global, found: u64) -> Result<Vec<u8>, AllocError>
    ensures { IfOk result (λ v. v.items
        ≡ codes "refused C8: too many tags, found " ++ decimal found ++ codes "\n") }
{
    let mut buffer = Buffer::new();
    let mut message = Vec::new(alloc);
    message.extend_from_slice(b"refused C8: too many tags, found ")?;
    message.extend_from_slice(buffer.format(found).as_bytes())?;
    message.extend_from_slice(b"\n")?;
    Ok(message)
}

/// The message for a policy that is refused, over these fields; each line has its line feed.
pub fn refusal_message(
    alloc: Global,
    fields: &Fields,
    reason: &Refusal,
) -> Result<Vec<u8>, AllocError>
    ensures { IfOk result (λ v. v.items ≡ refusal_line fields.now reason.now) }
{
    match reason {
        Refusal::NoPolicy => no_policy_message(alloc),
        Refusal::NoTag => Vec::from_slice(alloc, b"refused C2: no tag\n"),
        Refusal::Static(static_kind) => static_fault_message(alloc, *static_kind),
        Refusal::OffEdge { start, history } => {
            found_message(alloc, b"refused C7: off edge\n", fields, start, history)
        }
        Refusal::TooManyTags { found } => tags_message(alloc, *found),
    }
}
