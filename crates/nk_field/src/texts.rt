//! The texts of packets and histories.
ghost use Rattle.std.specs.Prelude.{◌≡◌, ◌<◌, ◌++◌, [], codes, if◌then◌else◌, IfOk, OnOk};
ghost use Rattle.nk_field.specs.Texts.{packet_bytes, history_bytes, item_text, is_tag, is_shown};

use crate::fields::Fields;
use crate::history::History;
use crate::packet::{Fid, Packet};
use itoa::Buffer;
use std::alloc::{AllocError, Global};

/// The text of a packet, such as `sw=1,pt=2,dst=3`: its fields in order, the tag only where `with_tag` says so. The
/// only error is that memory ran out.
pub fn packet_text(
    alloc: Global,
    fields: &Fields,
    p: &Packet,
    with_tag: bool,
) -> Result<Vec<u8>, AllocError>
    ensures { IfOk result (λ text. text.items ≡ packet_bytes fields.now with_tag p.now) }
{
    let mut out = Vec::new(alloc);
    push_packet(&mut out, fields, p, with_tag)?;
    Ok(out)
}

/// The text of a history: the recorded packets and the last one, with spaces between them, each with its tag only
/// where `with_tag` says so. The only error is that memory ran out.
pub fn history_text(
    alloc: Global,
    fields: &Fields,
    h: &History,
    with_tag: bool,
) -> Result<Vec<u8>, AllocError>
    ensures { IfOk result (λ text. text.items ≡ history_bytes fields.now with_tag h.now) }
{
    let mut out = Vec::new(alloc);
    for record in h.records.as_slice() {
        push_packet(&mut out, fields, record, with_tag)?;
        out.push(b' ')?;
    }
    push_packet(&mut out, fields, &h.last, with_tag)?;
    Ok(out)
}

/// Appends the text of a packet.
fn push_packet(
    out: &mut Vec<u8>,
    fields: &Fields,
    p: &Packet,
    with_tag: bool,
) -> Result<(), AllocError>
    ensures { OnOk result (out.new.items
        ≡ out.old.items ++ packet_bytes fields.now with_tag p.now) }
{
    push_item(out, fields, p, Fid::SWITCH)?;
    for place in 1..fields.declared() + 2 {
        push_further(out, fields, p, Fid::new(place as u8), with_tag)?;
    }
    Ok(())
}

/// Appends a comma and the item of a field, where the field is shown.
fn push_further(
    out: &mut Vec<u8>,
    fields: &Fields,
    p: &Packet,
    f: Fid,
    with_tag: bool,
) -> Result<(), AllocError>
    ensures { OnOk result (out.new.items ≡ out.old.items
        ++ (if is_shown fields.now with_tag f then codes ","
        ++ item_text fields.now p.now f else [])) }
{
    if with_tag || !is_the_tag(fields, f) {
        out.push(b',')?;
        push_item(out, fields, p, f)?;
    }
    Ok(())
}

/// Appends the item of a field, as `dst=3`.
fn push_item(out: &mut Vec<u8>, fields: &Fields, p: &Packet, f: Fid) -> Result<(), AllocError>
    ensures { OnOk result (out.new.items ≡ out.old.items ++ item_text fields.now p.now f) }
{
    let mut buffer = Buffer::new();
    out.extend_from_slice(fields.name(f).as_bytes())?;
    out.push(b'=')?;
    out.extend_from_slice(buffer.format(p.get(f)).as_bytes())?;
    Ok(())
}

/// Whether a field is the tag.
pub(crate) fn is_the_tag(fields: &Fields, f: Fid) -> bool
    ensures { result ≡ is_tag fields.now f }
{
    match fields.tag() {
        Some(tag) => f == tag,
        None => false,
    }
}
