//! What a switch sends for a packet.
ghost use Rattle.std.specs.Prelude.{◌≡◌, ◌==◌, [], ◌∷◌, ◌++◌, if◌then◌else◌, IfOk, OnOk, slice_index, slice_set};
ghost use Rattle.std.specs.Option.{option_copied};
ghost use Rattle.nk_table.specs.Rules.{sent_for, sent_by, buckets_for, buckets_in};
ghost use Rattle.nk_sim.specs.Emitted.{Finds, table_of, sent_by_all};
ghost use Rattle.nk_sim.specs.Emitted as emitted;

use crate::finder::Finder;
use nk_field::{Fid, Fields, Packet};
use nk_table::{Bucket, Exit, Group, Table, Tables, Target, acting_row};
use std::alloc::{AllocError, Global};

/// What the packet's switch sends for it, in the order of the buckets: the packets as they leave, each after the port
/// where it is sent. A packet whose switch has no table is dropped. The only error is that memory ran out. The switch's
/// table is looked for from the first on: for many packets there is `emit_by`.
pub fn emit(alloc: Global, t: &Tables, p: &Packet) -> Result<Vec<Packet>, AllocError>
    ensures { IfOk result (λ sent. sent.items ≡ sent_for t.now p.now) }
{
    match table_at(t.tables.as_slice(), p.get(Fid::SWITCH)) {
        Some(found) => sent_by_table(alloc, &t.fields, found, p),
        None => Ok(Vec::new(alloc)),
    }
}

/// What the packet's switch sends for it, as `emit` answers it, by the finder of these tables, so that the time does not
/// grow with the number of switches. The only error is that memory ran out.
pub fn emit_by(
    alloc: Global,
    finder: &Finder,
    t: &Tables,
    p: &Packet,
) -> Result<Vec<Packet>, AllocError>
    requires { Finds finder.now t.now.tables }
    ensures { IfOk result (λ sent. sent.items ≡ sent_for t.now p.now) }
{
    match finder.table(t.tables.as_slice(), p.get(Fid::SWITCH)) {
        Some(table) => sent_by_table(alloc, &t.fields, table, p),
        None => Ok(Vec::new(alloc)),
    }
}

/// What the switch with a table sends.
fn sent_by_table(
    alloc: Global,
    fields: &Fields,
    table: &Table,
    p: &Packet,
) -> Result<Vec<Packet>, AllocError>
    ensures { IfOk result (λ sent. sent.items
        ≡ emitted.sent_by_table fields.now.maxima p.now table.now) }
{
    match acting_row(fields, table.rows.as_slice(), p) {
        Some(row) => sent_by_target(alloc, table.groups.as_slice(), &row.target, p),
        None => Ok(Vec::new(alloc)),
    }
}

/// The table of a switch, if it has one.
fn table_at<'a>(tables: &'a [Table], switch: u64) -> Option<&'a Table>
    ensures { option_copied result ≡ table_of tables.now switch }
{
    for table in tables {
        if u64::from(table.switch) == switch {
            return Some(table);
        }
    }
    None
}

/// What a row's target sends.
fn sent_by_target(
    alloc: Global,
    groups: &[Group],
    target: &Target,
    p: &Packet,
) -> Result<Vec<Packet>, AllocError>
    ensures { IfOk result (λ sent. sent.items
        ≡ sent_by_all p.now (buckets_for groups.now target.now)) }
{
    let mut out = Vec::new(alloc);
    push_target(&mut out, groups, target, p)?;
    Ok(out)
}

/// Appends what a row's target sends.
fn push_target(
    out: &mut Vec<Packet>,
    groups: &[Group],
    target: &Target,
    p: &Packet,
) -> Result<(), AllocError>
    ensures { OnOk result (out.new.items
        ≡ out.old.items ++ sent_by_all p.now (buckets_for groups.now target.now)) }
{
    match target {
        Target::Bucket(bucket) => push_bucket(out, bucket, p),
        Target::Group(number) => push_buckets(out, buckets_at(groups, *number), p),
        Target::Discard => Ok(()),
    }
}

/// The buckets of the group with a number, none where there is no such group.
fn buckets_at<'a>(groups: &'a [Group], number: u64) -> &'a [Bucket]
    ensures { result.now ≡ buckets_in groups.now number }
{
    for group in groups {
        if group.number == number {
            return group.buckets.as_slice();
        }
    }
    &[]
}

/// Appends what buckets send.
fn push_buckets(out: &mut Vec<Packet>, buckets: &[Bucket], p: &Packet) -> Result<(), AllocError>
    ensures { OnOk result (out.new.items ≡ out.old.items ++ sent_by_all p.now buckets.now) }
{
    for bucket in buckets {
        push_bucket(out, bucket, p)?;
    }
    Ok(())
}

/// Appends what a bucket sends.
fn push_bucket(out: &mut Vec<Packet>, bucket: &Bucket, p: &Packet) -> Result<(), AllocError>
    ensures { OnOk result (out.new.items ≡ out.old.items ++ sent_by_all p.now (bucket.now ∷ [])) }
{
    if let Some(sent) = sent_by_bucket(bucket, p) {
        out.push(sent)?;
    }
    Ok(())
}

/// The packet that a bucket sends, if it sends one.
fn sent_by_bucket(bucket: &Bucket, p: &Packet) -> Option<Packet>
    ensures { result ≡ sent_by p.now bucket.now }
{
    let sent = bucket.sets.apply(p);
    match bucket.exit {
        Exit::Back => Some(sent),
        Exit::Port(port) => sent_to(u64::from(port), sent, p),
    }
}

/// The packet at the port where it is sent, unless that is where it came in.
fn sent_to(port: u64, sent: Packet, p: &Packet) -> Option<Packet>
    ensures { result ≡ (if port == slice_index p.now 1 then None else Some
        (slice_set sent 1 port)) }
{
    if port == p.get(Fid::PORT) {
        return None;
    }
    let mut sent = sent;
    sent.put(Fid::PORT, port);
    Some(sent)
}
