//! Copies in flight. Copies that came the same way share what they have recorded: each copy is held by its last
//! crossing, and each crossing by the one before it.
ghost use Rattle.std.specs.Prelude.{◌≡◌, ◌<◌, ◌++◌, ℕ, map, length, IfOk, OnOk};
ghost use Rattle.std.specs.List.{flat_map};
ghost use Rattle.nk_table.specs.Hops as hops;
ghost use Rattle.nk_field.specs.Packet.{erased};
ghost use Rattle.nk_sim.specs.Flights.{HasTrail, HaveTrails, AreCrossed, crossing_at, crossing_by, flying_by, left_by_hops, link_of_sent, sent_flying};
ghost use Rattle.nk_sim.specs.Flights as flights;
ghost use Rattle.nk_sim.specs.Emitted.{Finds};

use crate::finder::Finder;
use crate::links::{leaves_at, link_at};
use crate::sending::emit_by;
use nk_field::{Fid, Fields, History, List, Packet};
use nk_table::Tables;
use std::alloc::{AllocError, Global};

/// A crossing of a link.
#[derive(Clone, Copy)]
pub(crate) struct Crossing {
    /// The place of the crossing before it, 0 where there is none.
    earlier: usize,
    /// The packet before it, with tag 0.
    before: Packet,
    /// The packet after it, with tag 0.
    after: Packet,
}

/// A copy of the packet.
#[derive(Clone, Copy)]
pub(crate) struct Flying {
    /// The place of its last crossing, 0 where there is none.
    pub(crate) last: usize,
    /// Where it is.
    pub(crate) packet: Packet,
}

/// The copies that switches send for those that wait.
pub(crate) fn send(
    alloc: Global,
    finder: &Finder,
    t: &Tables,
    waiting: &[Flying],
) -> Result<Vec<Flying>, AllocError>
    requires { Finds finder.now t.now.tables }
    ensures { IfOk result (λ sent. sent.items ≡ flat_map (sent_flying t.now) waiting.now) }
{
    let mut sent = Vec::new(alloc);
    for copy in waiting {
        let packets = emit_by(alloc, finder, t, &copy.packet)?;
        push_sent(&mut sent, copy.last, packets.as_slice())?;
    }
    Ok(sent)
}

/// Appends copies of these packets.
fn push_sent(out: &mut Vec<Flying>, last: usize, packets: &[Packet]) -> Result<(), AllocError>
    ensures { OnOk result (out.new.items
        ≡ out.old.items ++ map (λ y. record { last = last; packet = y }) packets.now) }
{
    for packet in packets {
        out.push(Flying {
            last,
            packet: *packet,
        })?;
    }
    Ok(())
}

/// The copies after the links that sent copies cross, whose crossings are held too.
pub(crate) fn cross(
    alloc: Global,
    t: &Tables,
    crossings: &mut Vec<Crossing>,
    sent: &[Flying],
) -> Result<Vec<Flying>, AllocError>
    ensures { IfOk result (λ next. (k : ℕ) → HaveTrails crossings.old.items k sent.now
        → AreCrossed t.now crossings.old.items crossings.new.items k sent.now next.items) }
{
    let mut next = Vec::new(alloc);
    for copy in sent {
        cross_one(t, crossings, &mut next, copy)?;
    }
    Ok(next)
}

/// Appends a sent copy's crossing and the copy after it, if it crosses a link.
fn cross_one(
    t: &Tables,
    crossings: &mut Vec<Crossing>,
    next: &mut Vec<Flying>,
    sent: &Flying,
) -> Result<(), AllocError>
    ensures crossings { OnOk result (crossings.new.items
        ≡ crossings.old.items ++ crossing_by t.now sent.now (link_of_sent t.now sent.now)) }
    ensures next { OnOk result (next.new.items
        ≡ next.old.items ++ flying_by (length crossings.old.items) sent.now
        (link_of_sent t.now sent.now)) }
{
    match link_at(&t.topo, &sent.packet) {
        Some(to) => {
            let last = crossings.len();
            let packet = moved(&sent.packet, to);
            crossings.push(crossing_to(&t.fields, sent, &packet))?;
            next.push(Flying { last, packet })?;
            Ok(())
        }
        None => Ok(()),
    }
}

/// The packet at the other end of a link.
fn moved(p: &Packet, to: (u16, u16)) -> Packet
    ensures { result ≡ hops.moved_to to p.now }
{
    let mut moved = *p;
    moved.put(Fid::SWITCH, u64::from(to.0));
    moved.put(Fid::PORT, u64::from(to.1));
    moved
}

/// The crossing of a sent copy to a packet.
fn crossing_to(fields: &Fields, sent: &Flying, to: &Packet) -> Crossing
    ensures { result ≡ record {
      earlier = sent.now.last;
      before = erased fields.now sent.now.packet;
      after = erased fields.now to.now;
    } }
{
    let mut before = sent.packet;
    let mut after = *to;
    before.erase_tag(fields);
    after.erase_tag(fields);
    Crossing {
        earlier: sent.last,
        before,
        after,
    }
}

/// The histories of the sent copies that leave, after `k` crossings.
pub(crate) fn leave(
    alloc: Global,
    t: &Tables,
    crossings: &[Crossing],
    k: u64,
    sent: &[Flying],
) -> Result<Vec<History>, AllocError>
    requires { HaveTrails crossings.now k sent.now }
    ensures { IfOk result (λ left. left.items
        ≡ flat_map (left_by_hops t.now crossings.now k) sent.now) }
{
    let mut left = Vec::new(alloc);
    for copy in sent {
        leave_one(alloc, t, crossings, k, copy, &mut left)?;
    }
    Ok(left)
}

/// Appends the history of a sent copy, if it leaves.
fn leave_one(
    alloc: Global,
    t: &Tables,
    crossings: &[Crossing],
    k: u64,
    sent: &Flying,
    left: &mut Vec<History>,
) -> Result<(), AllocError>
    requires { HasTrail crossings.now k sent.now.last }
    ensures { OnOk result (left.new.items
        ≡ left.old.items ++ left_by_hops t.now crossings.now k sent.now) }
{
    if leaves_at(&t.topo, &sent.packet) {
        let records = trail(alloc, crossings, k, sent.last)?;
        left.push(History {
            records,
            last: sent.packet,
        })?;
    }
    Ok(())
}

/// The records of `k` crossings, the last of which is at a place.
fn trail(
    alloc: Global,
    crossings: &[Crossing],
    k: u64,
    last: usize,
) -> Result<List<Packet>, AllocError>
    requires { HasTrail crossings.now k last }
    ensures { IfOk result (λ records. records ≡ flights.trail crossings.now k last) }
{
    let mut backwards = Vec::new(alloc);
    let mut at = last;
    for _step in 0..k {
        let crossing = crossing_of(crossings, at);
        backwards.push(crossing.after)?;
        backwards.push(crossing.before)?;
        at = crossing.earlier;
    }
    backwards.reverse();
    Ok(List::from_vec(backwards))
}

/// The crossing at a place.
fn crossing_of(crossings: &[Crossing], at: usize) -> Crossing
    requires { at < length crossings.now }
    ensures { result ≡ crossing_at crossings.now at }
{
    crossings[at]
}
