//! The match of a flow, put after a text.
ghost use Rattle.std.specs.Prelude.{◌≡◌, ◌++◌, ◌-◌, ◌≤◌, OnOk};
ghost use Rattle.std.specs.List.{flat_map};
ghost use Rattle.nk_prefix.specs.Prefix.{digits_of};
ghost use Rattle.nk_openflow.specs.Matches as specs;

use crate::mapping::{Mapping, mapped_at};
use crate::numbers::push_number;
use crate::values::{push_mask, push_value};
use crate::{Base, MatchField};
use nk_field::{Fid, Fields};
use nk_table::digits_at;
use std::alloc::AllocError;

/// How many of the last digits of a field a match leaves free.
pub(crate) fn free_digits(fs: &Fields, m: &(Fid, u64, u8)) -> u8
    ensures is { result ≡ specs.free_digits fs.now m.now }
    ensures small { result ≤ 64 }
{
    let (f, _, length) = *m;
    digits_at(fs, f).saturating_sub(length)
}

/// Puts the name of a match field.
pub(crate) fn push_name(out: &mut Vec<u8>, base: Base, field: MatchField) -> Result<(), AllocError>
    ensures { OnOk result (out.new.items ≡ out.old.items ++ specs.name_text base field) }
{
    match field {
        MatchField::Register(n) | MatchField::WideRegister(n) => {
            out.extend_from_slice(field.keyword().as_bytes())?;
            push_number(out, n)
        }
        MatchField::TpSrc => push_transport(out, base, "_src"),
        MatchField::TpDst => push_transport(out, base, "_dst"),
        _ => out.extend_from_slice(field.keyword().as_bytes()),
    }
}

/// Puts the name of a port of TCP or UDP.
fn push_transport(out: &mut Vec<u8>, base: Base, end: &str) -> Result<(), AllocError>
    ensures { OnOk result (out.new.items ≡ out.old.items ++ specs.transport_text base end.now) }
{
    if base.is_udp() {
        out.extend_from_slice(b"udp")?;
    } else {
        out.extend_from_slice(b"tcp")?;
    }
    out.extend_from_slice(end.as_bytes())
}

/// Puts the matches of a row, each with a comma after it.
pub(crate) fn push_matches(
    out: &mut Vec<u8>,
    fs: &Fields,
    mapping: &Mapping,
    matches: &[(Fid, u64, u8)],
) -> Result<(), AllocError>
    ensures { OnOk result (out.new.items
        ≡ out.old.items ++ flat_map (specs.flow_match_text fs.now mapping.now) matches.now) }
{
    for m in matches {
        push_match(out, fs, mapping, m)?;
    }
    Ok(())
}

/// Puts a match, if its field is mapped.
fn push_match(
    out: &mut Vec<u8>,
    fs: &Fields,
    mapping: &Mapping,
    m: &(Fid, u64, u8),
) -> Result<(), AllocError>
    ensures { OnOk result (out.new.items
        ≡ out.old.items ++ specs.flow_match_text fs.now mapping.now m.now) }
{
    let (f, value, _) = *m;
    match mapped_at(mapping, f) {
        Some(field) => push_mapped(out, mapping.base, field, value, free_digits(fs, m)),
        None => Ok(()),
    }
}

/// Puts the match of a match field.
fn push_mapped(
    out: &mut Vec<u8>,
    base: Base,
    field: MatchField,
    value: u64,
    free: u8,
) -> Result<(), AllocError>
    requires { free ≤ 64 }
    ensures { OnOk result (out.new.items
        ≡ out.old.items ++ specs.mapped_text base field value free) }
{
    if value == 0 && free == 0 && matches!(field, MatchField::VlanVid) {
        return out.extend_from_slice(b"vlan_tci=0/0x1fff,");
    }
    push_name(out, base, field)?;
    out.push(b'=')?;
    push_value(out, field, value)?;
    if free != 0 {
        out.push(b'/')?;
        push_mask(out, field, free)?;
    }
    out.push(b',')?;
    Ok(())
}
