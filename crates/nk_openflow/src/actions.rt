//! The actions of flows and buckets, put after a text.
ghost use Rattle.std.specs.Prelude.{◌≡◌, ◌++◌, ◌/◌, ◌^◌, ◌==◌, ◌≤◌, OnOk};
ghost use Rattle.std.specs.List.{flat_map};
ghost use Rattle.nk_openflow.specs.Actions as specs;

use crate::mapping::{Mapping, mapped_at};
use crate::matches::{free_digits, push_name};
use crate::numbers::push_number;
use crate::values::push_value;
use crate::{Base, MatchField};
use nk_field::{Fid, Fields};
use nk_table::{Bucket, Exit, Target};
use std::alloc::AllocError;

/// What is known of a packet's VLAN header before actions act on it.
#[derive(Clone, Copy, PartialEq, Eq, Debug)]
pub enum VlanHeader {
    /// There is none.
    Absent,
    /// There is one.
    Present,
    /// It isn't known whether there is one.
    Unknown,
}

/// Whether a prefix of values has 0.
pub(crate) fn has_zero(value: u64, free: u8) -> bool
    requires { free ≤ 64 }
    ensures { result ≡ specs.has_zero value free }
{
    (value as u128) >> (free as u32) == 0
}

/// What the matches of a row tell of the VLAN header.
pub(crate) fn header_of(fs: &Fields, mapping: &Mapping, matches: &[(Fid, u64, u8)]) -> VlanHeader
    ensures { result ≡ specs.header_of fs.now mapping.now matches.now }
{
    for m in matches {
        let (f, value, _) = *m;
        if let Some(MatchField::VlanVid) = mapped_at(mapping, f) {
            return header_by(value, free_digits(fs, m));
        }
    }
    VlanHeader::Unknown
}

/// What a match of the tag tells of it.
fn header_by(value: u64, free: u8) -> VlanHeader
    requires { free ≤ 64 }
    ensures { result ≡ specs.header_by value free }
{
    if !has_zero(value, free) {
        VlanHeader::Present
    } else if free == 0 {
        VlanHeader::Absent
    } else {
        VlanHeader::Unknown
    }
}

/// Puts what a row does.
pub(crate) fn push_target(
    out: &mut Vec<u8>,
    mapping: &Mapping,
    header: VlanHeader,
    target: &Target,
) -> Result<(), AllocError>
    ensures { OnOk result (out.new.items
        ≡ out.old.items ++ specs.target_actions mapping.now header target.now) }
{
    match target {
        Target::Bucket(bucket) => push_bucket(out, mapping, header, bucket),
        Target::Group(number) => {
            out.extend_from_slice(b"group:")?;
            push_number(out, *number)
        }
        Target::Discard => out.extend_from_slice(b"drop"),
    }
}

/// Puts what a bucket does.
pub(crate) fn push_bucket(
    out: &mut Vec<u8>,
    mapping: &Mapping,
    header: VlanHeader,
    bucket: &Bucket,
) -> Result<(), AllocError>
    ensures { OnOk result (out.new.items
        ≡ out.old.items ++ specs.bucket_actions mapping.now header bucket.now) }
{
    push_sets(out, mapping, header, bucket.sets.as_slice())?;
    push_exit(out, &bucket.exit)
}

/// Puts assignments, each with a comma after it.
fn push_sets(
    out: &mut Vec<u8>,
    mapping: &Mapping,
    header: VlanHeader,
    sets: &[(Fid, u64)],
) -> Result<(), AllocError>
    ensures { OnOk result (out.new.items
        ≡ out.old.items ++ flat_map (specs.set_actions mapping.now header) sets.now) }
{
    for (f, value) in sets {
        push_set(out, mapping, header, *f, *value)?;
    }
    Ok(())
}

/// Puts an assignment, if its field is mapped.
fn push_set(
    out: &mut Vec<u8>,
    mapping: &Mapping,
    header: VlanHeader,
    f: Fid,
    value: u64,
) -> Result<(), AllocError>
    ensures { OnOk result (out.new.items
        ≡ out.old.items ++ specs.set_actions mapping.now header (f, value)) }
{
    match mapped_at(mapping, f) {
        Some(MatchField::VlanVid) => push_vlan_set(out, mapping.base, header, value),
        Some(field) => push_field_set(out, mapping.base, field, value),
        None => Ok(()),
    }
}

/// Puts the assignment of a match field.
fn push_field_set(
    out: &mut Vec<u8>,
    base: Base,
    field: MatchField,
    value: u64,
) -> Result<(), AllocError>
    ensures { OnOk result (out.new.items ≡ out.old.items ++ specs.field_set_text base field value) }
{
    out.extend_from_slice(b"set_field:")?;
    push_value(out, field, value)?;
    out.extend_from_slice(b"->")?;
    push_name(out, base, field)?;
    out.push(b',')?;
    Ok(())
}

/// Puts what makes the VLAN header that of a tag.
fn push_vlan_set(
    out: &mut Vec<u8>,
    base: Base,
    header: VlanHeader,
    tag: u64,
) -> Result<(), AllocError>
    ensures { OnOk result (out.new.items ≡ out.old.items ++ specs.vlan_set_text base header tag) }
{
    match header {
        VlanHeader::Absent => push_new_header(out, base, tag),
        VlanHeader::Present => {
            if tag == 0 {
                out.extend_from_slice(b"pop_vlan,")
            } else {
                push_field_set(out, base, MatchField::VlanVid, tag)
            }
        }
        VlanHeader::Unknown => {
            out.extend_from_slice(b"pop_vlan,")?;
            push_new_header(out, base, tag)
        }
    }
}

/// Puts what gives a packet without a VLAN header that of a tag.
fn push_new_header(out: &mut Vec<u8>, base: Base, tag: u64) -> Result<(), AllocError>
    ensures { OnOk result (out.new.items ≡ out.old.items ++ specs.new_header_text base tag) }
{
    if tag == 0 {
        return Ok(());
    }
    out.extend_from_slice(b"push_vlan:0x8100,")?;
    push_field_set(out, base, MatchField::VlanVid, tag)
}

/// Puts where a copy is sent.
fn push_exit(out: &mut Vec<u8>, exit: &Exit) -> Result<(), AllocError>
    ensures { OnOk result (out.new.items ≡ out.old.items ++ specs.exit_action exit.now) }
{
    match exit {
        Exit::Back => out.extend_from_slice(b"in_port"),
        Exit::Port(n) => {
            out.extend_from_slice(b"output:")?;
            push_number(out, *n as u64)
        }
    }
}
