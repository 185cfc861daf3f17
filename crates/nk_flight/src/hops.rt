//! Hops of copies: a copy is held by the place of its last hop, and each hop by that of the one before it. So copies that
//! came the same way share what they have recorded, and records are written out only where a copy leaves.
ghost use Rattle.std.specs.Prelude.{◌≡◌, ◌<◌, ◌≤◌, ◌++◌, ◌∷◌, [], length, IfOk, OnOk, All};
ghost use Rattle.std.specs.List.{flat_map};
ghost use Rattle.nk_field.specs.Packet.{erased};
ghost use Rattle.nk_table.specs.Hops as tables;
ghost use Rattle.nk_table.specs.Rules.{sent_for};
ghost use Rattle.nk_sim.specs.Emitted.{Finds};
ghost use Rattle.nk_flight.specs.Flights.{left_leaving, left_next};
ghost use Rattle.nk_flight.specs.Trails.{AreHops, hop_at, hop_of, records_at, copy_at, copies_at};
ghost use Rattle.nk_flight.specs.Trails as trails;

use crate::copies::{Flying, Left};
use crate::hop_list::HopList;
use nk_field::{Fid, Fields, History, List, Packet};
use nk_sim::{Finder, emit_by, leaves_at, link_at};
use nk_table::Tables;
use std::alloc::{AllocError, Global};

/// Where a copy came by crossing a link, or where its packet was injected. It is held in a `HopList`.
#[derive(Clone, Copy)]
pub(crate) struct Hop {
    /// The number of the packet's injection.
    pub(crate) number: u64,
    /// How many links the copy has crossed.
    pub(crate) crossings: u64,
    /// The place of the hop before, where a link was crossed.
    pub(crate) earlier: usize,
    /// The packet before the link, where one was crossed.
    pub(crate) before: Packet,
    /// Where the copy is.
    pub(crate) packet: Packet,
}

/// What a copy leads to when its switch handles it.
#[derive(Drop)]
pub(crate) struct Outcome {
    /// The hops of the copies after links.
    pub(crate) next: Vec<Hop>,
    /// The histories that leave.
    pub(crate) left: Vec<Left>,
}

/// The hop of an injected packet.
pub(crate) fn first_hop(number: u64, p: &Packet) -> Hop
    ensures { result ≡ trails.first_hop number p.now }
{
    Hop {
        number,
        crossings: 0,
        earlier: 0,
        before: *p,
        packet: *p,
    }
}

/// What the copy whose hop is at a place leads to when its switch handles it.
pub(crate) fn handle(
    alloc: Global,
    finder: &Finder,
    t: &Tables,
    hops: &HopList,
    place: usize,
) -> Result<Outcome, AllocError>
    requires finder { Finds finder.now t.now.tables }
    requires hops { AreHops hops.now }
    requires there { place < length hops.now }
    ensures next { IfOk result (λ all. all.next.items
        ≡ flat_map (hop_of t.now place (hop_at hops.now place))
        (sent_for t.now (hop_at hops.now place).packet)) }
    ensures left { IfOk result
        (λ all. all.left.items
        ≡ left_next t.now (copy_at t.now.fields hops.now (hop_at hops.now place))) }
{
    let hop = hops.at(place);
    let _held = hops.len();
    let sent = emit_by(alloc, finder, t, &hop.packet)?;
    let next = cross(alloc, t, place, &hop, sent.as_slice())?;
    let left = leave(alloc, t, hops, place, sent.as_slice())?;
    Ok(Outcome { next, left })
}

/// Hops are no more than a place can tell.
pub(crate) fn are_few(hops: &[Hop])
    ensures { length hops.now ≤ usize.MAX }
{
    let _held = hops.len();
}

/// The hops after the links that the packets sent for a copy cross.
fn cross(
    alloc: Global,
    t: &Tables,
    place: usize,
    hop: &Hop,
    sent: &[Packet],
) -> Result<Vec<Hop>, AllocError>
    requires { hop.now.crossings < u64.MAX }
    ensures { IfOk result (λ next. next.items ≡ flat_map (hop_of t.now place hop.now) sent.now) }
{
    let mut next = Vec::new(alloc);
    for packet in sent {
        cross_one(t, place, hop, packet, &mut next)?;
    }
    Ok(next)
}

/// Appends the hop after the link that a packet sent for a copy crosses, if it crosses one.
fn cross_one(
    t: &Tables,
    place: usize,
    hop: &Hop,
    sent: &Packet,
    next: &mut Vec<Hop>,
) -> Result<(), AllocError>
    requires { hop.now.crossings < u64.MAX }
    ensures { OnOk result (next.new.items ≡ next.old.items ++ hop_of t.now place hop.now sent.now) }
{
    match link_at(&t.topo, sent) {
        Some(to) => {
            next.push(Hop {
                number: hop.number,
                crossings: hop.crossings + 1,
                earlier: place,
                before: *sent,
                packet: moved(sent, to),
            })?;
            Ok(())
        }
        None => Ok(()),
    }
}

/// The packet at the other end of a link.
fn moved(p: &Packet, to: (u16, u16)) -> Packet
    ensures { result ≡ tables.moved_to to p.now }
{
    let mut moved = *p;
    moved.put(Fid::SWITCH, u64::from(to.0));
    moved.put(Fid::PORT, u64::from(to.1));
    moved
}

/// The histories of the packets sent for the copy whose hop is at a place that leave.
fn leave(
    alloc: Global,
    t: &Tables,
    hops: &HopList,
    place: usize,
    sent: &[Packet],
) -> Result<Vec<Left>, AllocError>
    requires hops { AreHops hops.now }
    requires there { place < length hops.now }
    ensures { IfOk result (λ left. left.items
        ≡ flat_map (left_leaving t.now
        (copy_at t.now.fields hops.now (hop_at hops.now place))) sent.now) }
{
    let mut left = Vec::new(alloc);
    for packet in sent {
        leave_one(alloc, t, hops, place, packet, &mut left)?;
    }
    Ok(left)
}

/// Appends the history of a packet sent for the copy whose hop is at a place, if it leaves.
fn leave_one(
    alloc: Global,
    t: &Tables,
    hops: &HopList,
    place: usize,
    sent: &Packet,
    left: &mut Vec<Left>,
) -> Result<(), AllocError>
    requires hops { AreHops hops.now }
    requires there { place < length hops.now }
    ensures { OnOk result (left.new.items ≡ left.old.items
        ++ left_leaving t.now (copy_at t.now.fields hops.now (hop_at hops.now place)) sent.now) }
{
    if leaves_at(&t.topo, sent) {
        let Flying {
            number,
            records,
            ..
        } = copy_in(alloc, &t.fields, hops, place)?;
        left.push(Left {
            number,
            history: History {
                records,
                last: *sent,
            },
        })?;
    }
    Ok(())
}

/// The copies whose hops are at these places, with all that they have recorded.
pub(crate) fn copies_in(
    alloc: Global,
    fields: &Fields,
    hops: &HopList,
    places: &[usize],
) -> Result<Vec<Flying>, AllocError>
    requires hops { AreHops hops.now }
    requires there { All (λ i. i < length hops.now) places.now }
    ensures { IfOk result (λ flying. flying.items ≡ copies_at fields.now hops.now places.now) }
{
    let mut flying = Vec::new(alloc);
    for place in places {
        flying.push(copy_in(alloc, fields, hops, *place)?)?;
    }
    Ok(flying)
}

/// The copy whose hop is at a place, with all that it has recorded.
fn copy_in(
    alloc: Global,
    fields: &Fields,
    hops: &HopList,
    place: usize,
) -> Result<Flying, AllocError>
    requires hops { AreHops hops.now }
    requires there { place < length hops.now }
    ensures { IfOk result (λ copy. copy ≡ copy_at fields.now hops.now (hop_at hops.now place)) }
{
    let records = records(alloc, fields, hops, place)?;
    let hop = hops.at(place);
    Ok(Flying {
        number: hop.number,
        records,
        packet: hop.packet,
    })
}

/// What the copy whose hop is at a place has recorded.
fn records(
    alloc: Global,
    fields: &Fields,
    hops: &HopList,
    place: usize,
) -> Result<List<Packet>, AllocError>
    requires hops { AreHops hops.now }
    requires there { place < length hops.now }
    ensures { IfOk result (λ records. records
        ≡ records_at fields.now hops.now (hop_at hops.now place).crossings
        (hop_at hops.now place)) }
{
    let crossings = hops.at(place).crossings;
    let mut backwards = Vec::new(alloc);
    let mut at = place;
    for _step in 0..crossings {
        let hop = hops.at(at);
        push_crossing(&mut backwards, fields, &hop)?;
        at = hop.earlier;
    }
    backwards.reverse();
    Ok(List::from_vec(backwards))
}

/// Appends the two records of a crossing, the later one first.
fn push_crossing(backwards: &mut Vec<Packet>, fields: &Fields, hop: &Hop) -> Result<(), AllocError>
    ensures { OnOk result (backwards.new.items
        ≡ (backwards.old.items ++ erased fields.now hop.now.packet ∷ [])
        ++ erased fields.now hop.now.before ∷ []) }
{
    let mut before = hop.before;
    let mut after = hop.packet;
    before.erase_tag(fields);
    after.erase_tag(fields);
    backwards.push(after)?;
    backwards.push(before)?;
    Ok(())
}
