//! What is said of packets and histories, and of policies and queries that are refused before any packet is looked at.
ghost use Rattle.std.specs.Prelude.{◌≡◌, ◌++◌, IfOk, OnOk, codes};
ghost use Rattle.nk_reply.specs.Messages.{start_line, way_lines};

use nk_field::{Fields, History, Packet, history_text, packet_text};
use std::alloc::{AllocError, Global};

/// Appends the line of a packet that something starts at, with every field.
pub fn push_start(
    alloc: Global,
    out: &mut Vec<u8>,
    fields: &Fields,
    start: &Packet,
) -> Result<(), AllocError>
    ensures { OnOk result (out.new.items ≡ out.old.items ++ start_line fields.now start.now) }
{
    let packet = packet_text(alloc, fields, start, true)?;
    out.extend_from_slice(b"start ")?;
    out.extend_from_slice(&packet)?;
    out.extend_from_slice(b"\n")
}

/// Appends a packet and a history from it, with every field, each on a line of its own.
pub fn push_found(
    alloc: Global,
    out: &mut Vec<u8>,
    fields: &Fields,
    start: &Packet,
    history: &History,
) -> Result<(), AllocError>
    ensures { OnOk result (out.new.items
        ≡ out.old.items ++ way_lines fields.now start.now history.now) }
{
    push_start(alloc, out, fields, start)?;
    let packets = history_text(alloc, fields, history, true)?;
    out.extend_from_slice(b"history ")?;
    out.extend_from_slice(&packets)?;
    out.extend_from_slice(b"\n")
}

/// A message with this head that tells a history and the packet that it starts from.
pub fn found_message(
    alloc: Global,
    head: &[u8],
    fields: &Fields,
    start: &Packet,
    history: &History,
) -> Result<Vec<u8>, AllocError>
    ensures { IfOk result (λ v. v.items ≡ head.now ++ way_lines fields.now start.now history.now) }
{
    let mut message = Vec::from_slice(alloc, head)?;
    push_found(alloc, &mut message, fields, start, history)?;
    Ok(message)
}

/// The message for a name that is no policy's.
pub fn no_policy_message(alloc: Global) -> Result<Vec<u8>, AllocError>
    ensures { IfOk result (λ v. v.items ≡ codes "refused C1: no policy\n") }
{
    Vec::from_slice(alloc, b"refused C1: no policy\n")
}

/// The message for a policy that is too large once it is expanded.
pub fn too_large_message(alloc: Global) -> Result<Vec<u8>, AllocError>
    ensures { IfOk result (λ v. v.items ≡ codes "refused C13: expanded too large\n") }
{
    Vec::from_slice(alloc, b"refused C13: expanded too large\n")
}
