//! What is said of names that have no physical policy.
ghost use Rattle.std.specs.Prelude.{◌≡◌, ◌++◌, IfOk, OnOk, codes, decimal};
ghost use Rattle.nk_reply.specs.Messages.{start_line, way_lines};
ghost use Rattle.nk_virtual_command.specs.Messages.{link_message_text, unphysical_line};

use itoa::Buffer;
use nk_compile_commands::static_fault_message;
use nk_field::{Fields, History, Packet};
use nk_reply::messages::{found_message, no_policy_message, push_start, too_large_message};
use nk_virtual::VirtualRefusal;
use std::alloc::{AllocError, Global};

/// The first line of a message about a virtual link, which tells the port where the link begins.
fn link_message(alloc: Global, head: &[u8], switch: u16, port: u16) -> Result<Vec<u8>, AllocError>
    ensures { IfOk result (λ v. v.items ≡ head.now ++ link_message_text switch port) }
{
    let mut message = Vec::from_slice(alloc, head)?;
    message.extend_from_slice(b"link ")?;
    push_number(&mut message, switch)?;
    message.extend_from_slice(b":")?;
    push_number(&mut message, port)?;
    message.extend_from_slice(b"\n")?;
    Ok(message)
}

/// Appends the number of a switch or a port.
fn push_number(out: &mut Vec<u8>, n: u16) -> Result<(), AllocError>
    ensures { OnOk result (out.new.items ≡ out.old.items ++ decimal n) }
{
    let mut buffer = Buffer::new();
    out.extend_from_slice(buffer.format(n).as_bytes())
}

/// The message for a virtual link that has a history off target.
fn off_target_message(
    alloc: Global,
    fields: &Fields,
    link: (u16, u16),
    start: &Packet,
    history: &History,
) -> Result<Vec<u8>, AllocError>
    ensures { IfOk result (λ v. v.items
        ≡ codes "refused C11: off target, " ++ link_message_text link.0 link.1
        ++ way_lines fields.now start.now history.now) }
{
    let head = link_message(alloc, b"refused C11: off target, ", link.0, link.1)?;
    found_message(alloc, &head, fields, start, history)
}

/// The message for a virtual link that doesn't carry a packet.
fn not_carried_message(
    alloc: Global,
    fields: &Fields,
    link: (u16, u16),
    start: &Packet,
) -> Result<Vec<u8>, AllocError>
    ensures { IfOk result (λ v. v.items
        ≡ codes "refused C12: not carried, " ++ link_message_text link.0 link.1
        ++ start_line fields.now start.now) }
{
    let mut message = link_message(alloc, b"refused C12: not carried, ", link.0, link.1)?;
    push_start(alloc, &mut message, fields, start)?;
    Ok(message)
}

/// The message for a name that has no physical policy, over these fields; each line has its line feed.
pub(crate) fn unphysical_message(
    alloc: Global,
    fields: &Fields,
    reason: &VirtualRefusal,
) -> Result<Vec<u8>, AllocError>
    ensures { IfOk result (λ v. v.items ≡ unphysical_line fields.now reason.now) }
{
    match reason {
        VirtualRefusal::NoPolicy => no_policy_message(alloc),
        VirtualRefusal::NoTag => Vec::from_slice(alloc, b"refused C2: no tag\n"),
        VirtualRefusal::Static(static_kind) => static_fault_message(alloc, *static_kind),
        VirtualRefusal::OffTarget {
            switch,
            port,
            start,
            history,
        } => off_target_message(alloc, fields, (*switch, *port), start, history),
        VirtualRefusal::NotCarried {
            switch,
            port,
            start,
        } => not_carried_message(alloc, fields, (*switch, *port), start),
        VirtualRefusal::TooLarge => too_large_message(alloc),
    }
}
