//! The lines of flows and groups, put after a text.
ghost use Rattle.std.specs.Prelude.{◌≡◌, ◌++◌, OnOk};
ghost use Rattle.std.specs.List.{flat_map};
ghost use Rattle.nk_openflow.specs.Lines as specs;

use crate::Base;
use crate::actions::{VlanHeader, header_of, push_bucket, push_target};
use crate::mapping::Mapping;
use crate::matches::{free_digits, push_matches};
use crate::numbers::push_number;
use nk_field::{Fid, Fields};
use nk_table::{Bucket, Group, Row, digits_at};
use std::alloc::AllocError;

/// Puts the lines of groups.
pub fn push_groups(out: &mut Vec<u8>, mapping: &Mapping, groups: &[Group]) -> Result<(), AllocError>
    ensures { OnOk result (out.new.items
        ≡ out.old.items ++ flat_map (specs.group_line mapping.now) groups.now) }
{
    for group in groups {
        push_group(out, mapping, group)?;
    }
    Ok(())
}

/// Puts the line of a group.
fn push_group(out: &mut Vec<u8>, mapping: &Mapping, group: &Group) -> Result<(), AllocError>
    ensures { OnOk result (out.new.items
        ≡ out.old.items ++ specs.group_line mapping.now group.now) }
{
    out.extend_from_slice(b"group_id=")?;
    push_number(out, group.number)?;
    out.extend_from_slice(b",type=all")?;
    push_buckets(out, mapping, group.buckets.as_slice())?;
    out.push(b'\n')?;
    Ok(())
}

/// Puts the buckets of a group.
fn push_buckets(out: &mut Vec<u8>, mapping: &Mapping, buckets: &[Bucket]) -> Result<(), AllocError>
    ensures { OnOk result (out.new.items
        ≡ out.old.items ++ flat_map (specs.bucket_part mapping.now) buckets.now) }
{
    for bucket in buckets {
        push_bucket_part(out, mapping, bucket)?;
    }
    Ok(())
}

/// Puts a bucket of a group.
#[tactic(auto, unfolding(crate::specs::Lines::bucket_part))]
fn push_bucket_part(out: &mut Vec<u8>, mapping: &Mapping, bucket: &Bucket) -> Result<(), AllocError>
    ensures { OnOk result (out.new.items
        ≡ out.old.items ++ specs.bucket_part mapping.now bucket.now) }
{
    out.extend_from_slice(b",bucket=actions=")?;
    push_bucket(out, mapping, VlanHeader::Unknown, bucket)
}

/// Puts the lines of rows at a switch with these ports.
pub fn push_rows(
    out: &mut Vec<u8>,
    fs: &Fields,
    mapping: &Mapping,
    ports: &[u16],
    rows: &[Row],
) -> Result<(), AllocError>
    ensures { OnOk result (out.new.items
        ≡ out.old.items ++ flat_map (specs.row_lines fs.now mapping.now ports.now) rows.now) }
{
    for row in rows {
        push_row(out, fs, mapping, ports, row)?;
    }
    Ok(())
}

/// Puts the lines of a row: one, or one for each port that agrees with a prefix.
fn push_row(
    out: &mut Vec<u8>,
    fs: &Fields,
    mapping: &Mapping,
    ports: &[u16],
    row: &Row,
) -> Result<(), AllocError>
    ensures { OnOk result (out.new.items
        ≡ out.old.items ++ specs.row_lines fs.now mapping.now ports.now row.now) }
{
    match port_match(row.matches.as_slice()) {
        Some(m) if free_digits(fs, &m) == 0 => {
            let (_, port, _) = m;
            push_flow(out, fs, mapping, row, Some(port))
        }
        Some(m) => push_ports(out, fs, mapping, ports, row, &m),
        None => push_flow(out, fs, mapping, row, None),
    }
}

/// The match of the port among a row's matches.
fn port_match(matches: &[(Fid, u64, u8)]) -> Option<(Fid, u64, u8)>
    ensures { result ≡ specs.port_match matches.now }
{
    for m in matches {
        if m.0 == Fid::PORT {
            return Some(*m);
        }
    }
    None
}

/// Puts a line of a row for each of these ports that agrees with the match.
fn push_ports(
    out: &mut Vec<u8>,
    fs: &Fields,
    mapping: &Mapping,
    ports: &[u16],
    row: &Row,
    m: &(Fid, u64, u8),
) -> Result<(), AllocError>
    ensures { OnOk result (out.new.items
        ≡ out.old.items ++ flat_map
        (specs.line_if_agrees fs.now mapping.now row.now m.now) ports.now) }
{
    for port in ports {
        push_port_line(out, fs, mapping, row, m, *port)?;
    }
    Ok(())
}

/// Puts the line for a port, if it agrees with the match.
fn push_port_line(
    out: &mut Vec<u8>,
    fs: &Fields,
    mapping: &Mapping,
    row: &Row,
    m: &(Fid, u64, u8),
    port: u16,
) -> Result<(), AllocError>
    ensures { OnOk result (out.new.items
        ≡ out.old.items ++ specs.line_if_agrees fs.now mapping.now row.now m.now port) }
{
    if agrees(fs, m, port as u64) {
        push_flow(out, fs, mapping, row, Some(port as u64))
    } else {
        Ok(())
    }
}

/// Whether a port agrees with a match of the port.
fn agrees(fs: &Fields, m: &(Fid, u64, u8), port: u64) -> bool
    ensures { result ≡ specs.port_agrees fs.now m.now port }
{
    let (f, value, length) = *m;
    let digits = digits_at(fs, f);
    nk_prefix::agrees(value, length.min(digits), digits, port)
}

/// Puts a line of a row, for a port or for all.
fn push_flow(
    out: &mut Vec<u8>,
    fs: &Fields,
    mapping: &Mapping,
    row: &Row,
    port: Option<u64>,
) -> Result<(), AllocError>
    ensures { OnOk result (out.new.items
        ≡ out.old.items ++ specs.flow_line fs.now mapping.now row.now port) }
{
    push_flow_head(out, mapping.base, row.priority, port)?;
    push_matches(out, fs, mapping, row.matches.as_slice())?;
    push_actions(out, fs, mapping, row)
}

/// Puts the actions of a row, and a line feed.
fn push_actions(
    out: &mut Vec<u8>,
    fs: &Fields,
    mapping: &Mapping,
    row: &Row,
) -> Result<(), AllocError>
    ensures { OnOk result (out.new.items
        ≡ out.old.items ++ specs.flow_actions fs.now mapping.now row.now) }
{
    let header = header_of(fs, mapping, row.matches.as_slice());
    out.extend_from_slice(b"actions=")?;
    push_target(out, mapping, header, &row.target)?;
    out.push(b'\n')?;
    Ok(())
}

/// Puts the priority, the base and the port.
fn push_flow_head(
    out: &mut Vec<u8>,
    base: Base,
    priority: u16,
    port: Option<u64>,
) -> Result<(), AllocError>
    ensures { OnOk result (out.new.items ≡ out.old.items ++ specs.flow_head base priority port) }
{
    out.extend_from_slice(b"priority=")?;
    push_number(out, priority as u64)?;
    out.push(b',')?;
    push_base(out, base)?;
    push_port(out, port)
}

/// Puts the base.
fn push_base(out: &mut Vec<u8>, base: Base) -> Result<(), AllocError>
    ensures { OnOk result (out.new.items ≡ out.old.items ++ specs.base_text base) }
{
    if matches!(base, Base::Any) {
        return Ok(());
    }
    out.extend_from_slice(base.keyword().as_bytes())?;
    out.push(b',')?;
    Ok(())
}

/// Puts the port.
fn push_port(out: &mut Vec<u8>, port: Option<u64>) -> Result<(), AllocError>
    ensures { OnOk result (out.new.items ≡ out.old.items ++ specs.port_text port) }
{
    match port {
        Some(port) => {
            out.extend_from_slice(b"in_port=")?;
            push_number(out, port)?;
            out.push(b',')?;
            Ok(())
        }
        None => Ok(()),
    }
}
