//! What of a switch's table can't be written for Open vSwitch.
ghost use Rattle.std.specs.Prelude.{◌≡◌, ◌≤◌, ◌+◌, ◌^◌, ◌<◌, length};
ghost use Rattle.nk_openflow.specs.Rules as specs;

use crate::MatchField;
use crate::actions::{VlanHeader, has_zero, header_of};
use crate::mapping::{Mapping, mapped_at};
use crate::matches::free_digits;
use crate::refusals::{Place, RuleFault};
use nk_field::{Fid, Fields};
use nk_table::{Bucket, Exit, Group, Row, Target};

/// The largest number of a port that OpenFlow doesn't keep for itself.
const LARGEST_PORT: u64 = 65_279;

/// The largest number of a group.
const LARGEST_GROUP: u64 = 4_294_967_040;

/// The first part that can't be written: of the ports, then of the groups, then of the rows.
pub fn first_fault(
    fs: &Fields,
    mapping: &Mapping,
    ports: &[u16],
    groups: &[Group],
    rows: &[Row],
) -> Option<(Place, RuleFault)>
    ensures { result ≡ specs.first_rule_fault fs.now mapping.now ports.now groups.now rows.now }
{
    if let Some(fault) = ports_fault(ports) {
        return Some((Place::Ports, fault));
    }
    match groups_fault(mapping, groups) {
        Some(found) => Some(found),
        None => rows_fault(fs, mapping, rows),
    }
}

/// The first port that isn't OpenFlow's.
fn ports_fault(ports: &[u16]) -> Option<RuleFault>
    ensures { result ≡ specs.port_numbers_fault ports.now }
{
    for port in ports {
        let fault = port_fault(*port as u64);
        if fault.is_some() {
            return fault;
        }
    }
    None
}

/// What is wrong with a port.
fn port_fault(n: u64) -> Option<RuleFault>
    ensures { result ≡ specs.port_number_fault n }
{
    if n == 0 || LARGEST_PORT < n {
        Some(RuleFault::Port(n))
    } else {
        None
    }
}

/// The first group at fault.
fn groups_fault(mapping: &Mapping, groups: &[Group]) -> Option<(Place, RuleFault)>
    ensures { result ≡ specs.groups_fault mapping.now groups.now }
{
    for group in groups {
        if let Some(fault) = group_fault(mapping, group) {
            return Some((Place::Group(group.number), fault));
        }
    }
    None
}

/// What is wrong with a group.
fn group_fault(mapping: &Mapping, group: &Group) -> Option<RuleFault>
    ensures { result ≡ specs.group_rule_fault mapping.now group.now }
{
    if LARGEST_GROUP < group.number {
        return Some(RuleFault::GroupNumber);
    }
    for bucket in group.buckets.as_slice() {
        let fault = bucket_fault(mapping, true, bucket);
        if fault.is_some() {
            return fault;
        }
    }
    None
}

/// The first row at fault, by its number from 1.
fn rows_fault(fs: &Fields, mapping: &Mapping, rows: &[Row]) -> Option<(Place, RuleFault)>
    ensures { result ≡ specs.row_rules_fault fs.now mapping.now 1 rows.now }
{
    for (i, row) in rows.iter().enumerate() {
        if let Some(fault) = row_fault(fs, mapping, row) {
            return Some((Place::Row(i as u64 + 1), fault));
        }
    }
    None
}

/// What is wrong with a row: with its matches first, then with what it does.
fn row_fault(fs: &Fields, mapping: &Mapping, row: &Row) -> Option<RuleFault>
    ensures { result ≡ specs.row_fault fs.now mapping.now row.now }
{
    let matches = row.matches.as_slice();
    let fault = matches_fault(fs, mapping, matches);
    if fault.is_some() {
        return fault;
    }
    let is_known = !matches!(header_of(fs, mapping, matches), VlanHeader::Unknown);
    match &row.target {
        Target::Bucket(bucket) => bucket_fault(mapping, is_known, bucket),
        Target::Group(_) => None,
        Target::Discard => None,
    }
}

/// The first match at fault.
fn matches_fault(fs: &Fields, mapping: &Mapping, matches: &[(Fid, u64, u8)]) -> Option<RuleFault>
    ensures { result ≡ specs.matches_fault fs.now mapping.now matches.now }
{
    for m in matches {
        let fault = match_fault(fs, mapping, m);
        if fault.is_some() {
            return fault;
        }
    }
    None
}

/// What is wrong with a match.
fn match_fault(fs: &Fields, mapping: &Mapping, m: &(Fid, u64, u8)) -> Option<RuleFault>
    ensures { result ≡ specs.match_rule_fault fs.now mapping.now m.now }
{
    let (f, value, _) = *m;
    let free = free_digits(fs, m);
    if f == Fid::PORT {
        return if free == 0 { port_fault(value) } else { None };
    }
    match mapped_at(mapping, f) {
        Some(field) => field_match_fault(f, field, value, free),
        None => Some(RuleFault::NotMapped(f)),
    }
}

/// What is wrong with a match of a match field.
fn field_match_fault(f: Fid, field: MatchField, value: u64, free: u8) -> Option<RuleFault>
    requires { free ≤ 64 }
    ensures { result ≡ specs.field_match_fault f field value free }
{
    if free == 0 {
        return None;
    }
    if !field.is_maskable() {
        return Some(RuleFault::NotMaskable(f));
    }
    if matches!(field, MatchField::VlanVid) && has_zero(value, free) {
        return Some(RuleFault::TagPrefix);
    }
    None
}

/// What is wrong with a bucket: with its assignments first, then with its exit.
fn bucket_fault(mapping: &Mapping, is_known: bool, bucket: &Bucket) -> Option<RuleFault>
    ensures { result ≡ specs.bucket_fault mapping.now is_known bucket.now }
{
    let fault = sets_fault(mapping, is_known, bucket.sets.as_slice());
    if fault.is_some() {
        return fault;
    }
    match bucket.exit {
        Exit::Back => None,
        Exit::Port(n) => port_fault(n as u64),
    }
}

/// The first assignment at fault.
fn sets_fault(mapping: &Mapping, is_known: bool, sets: &[(Fid, u64)]) -> Option<RuleFault>
    ensures { result ≡ specs.sets_fault mapping.now is_known sets.now }
{
    for (f, _) in sets {
        let fault = set_fault(mapping, is_known, *f);
        if fault.is_some() {
            return fault;
        }
    }
    None
}

/// What is wrong with an assignment to a field, where it is known or not whether there is a VLAN header.
fn set_fault(mapping: &Mapping, is_known: bool, f: Fid) -> Option<RuleFault>
    ensures { result ≡ specs.set_fault mapping.now is_known f }
{
    match mapped_at(mapping, f) {
        Some(field) if !field.is_writable() => Some(RuleFault::NotWritable(f)),
        Some(MatchField::VlanVid) if !is_known => Some(RuleFault::TagUnmatched),
        Some(_) => None,
        None => Some(RuleFault::NotMapped(f)),
    }
}
