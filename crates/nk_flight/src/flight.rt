//! Packets in flight.
ghost use Rattle.std.specs.Prelude.{◌≡◌, ◌<◌, ◌≤◌, ◌+◌, ◌++◌, ℕ, Some, List as Items, length, slice_get, IfOk, OnOk, OnErr};
ghost use Rattle.std.specs.List.{range_with_len};
ghost use Rattle.std.specs.List.Sorted.{IsPermutation};
ghost use Rattle.nk_table.specs.Hops.{left_after};
ghost use Rattle.nk_flight.specs.Owed.{left_or_owed};
ghost use Rattle.nk_flight.specs.Flights.{IsReached, nothing_in_flight, injected, stepped};

use crate::copies::{Flying, Left};
use crate::hop_list::HopList;
use crate::hops::{Hop, copies_in, first_hop, handle};
use crate::waiting::Waiting;
use nk_field::Packet;
use nk_sim::Finder;
use nk_table::Tables;
use std::alloc::{AllocError, Global};
use std::marker::Model;

/// Packets in flight through tables. Copies and histories bear the number of their packet's injection; a copy waits
/// until it is handled, and which one is handled next is up to the caller. A contract sees it as a `FlightState`.
pub struct Flight {
    tables: Tables,
    finder: Finder,
    packets: Vec<Packet>,
    hops: HopList,
    flying: Waiting,
    left: Vec<Left>,
}

impl Drop for Flight {
    fn drop(self) {
        let Self {
            tables: _,
            finder: _,
            packets: _,
            hops: _,
            flying: _,
            left: _,
        } = self;
    }
}

impl Model for Flight {
    ghost use Rattle.nk_sim.specs.Emitted.{Finds};
    ghost use Rattle.nk_flight.specs.Flights.{FlightState};
    ghost use Rattle.nk_flight.specs.Trails.{IsSound, state_of_trails};

    ghost Value = { FlightState };

    ghost view = { λ f. state_of_trails f.tables f.packets.items f.hops f.flying f.left.items };

    ghost invariant = { λ f. IsSound f.tables f.packets.items f.hops f.flying f.left.items
        × Finds f.finder f.tables.tables };
}

impl Flight {
    /// The flight through these tables before the first injection. The only error is that memory ran out.
    pub fn new(alloc: Global, t: &Tables) -> Result<Flight, AllocError>
        ensures { IfOk result (λ flight. flight ≡ nothing_in_flight t.now) }
    {
        let tables = t.copy()?;
        let finder = Finder::new(alloc, &tables)?;
        let hops = HopList::new(alloc)?;
        Ok(Flight {
            tables,
            finder,
            packets: Vec::new(alloc),
            hops,
            flying: Waiting::new(alloc),
            left: Vec::new(alloc),
        })
    }

    /// How many packets have been injected.
    pub fn injected(&self) -> u64
        ensures { result ≡ length self.now.packets }
    {
        self.packets.len() as u64
    }

    /// Injects a packet and answers its number: the first one's is 1. Its copy stands after the others. The only error
    /// is that memory ran out; then all is as it was.
    pub fn inject(&mut self, p: &Packet) -> Result<u64, AllocError>
        ensures number { IfOk result (λ number. number ≡ length self.old.packets + 1) }
        ensures ok { OnOk result (self.new ≡ injected p.now self.old) }
        ensures err { OnErr result (self.new ≡ self.old) }
    {
        let alloc = *self.packets.allocator();
        let number = self.packets.len() as u64 + 1;
        self.packets.reserve(1)?;
        let first = first_hop(number, p);
        put_after(alloc, &mut self.hops, &mut self.flying, &[first])?;
        self.packets.push(*p).unwrap();
        Ok(number)
    }

    /// Lets its switch handle the copy at a place of `flying`: the copy is taken out, and what it leads to comes last in
    /// `flying` and in `left`. The only error is that memory ran out; then all is as it was.
    pub fn step(&mut self, i: usize) -> Result<(), AllocError>
        requires { i < length self.old.flying }
        ensures ok { OnOk result (self.new ≡ stepped i self.old) }
        ensures err { OnErr result (self.new ≡ self.old) }
    {
        let alloc = *self.packets.allocator();
        let place = self.flying.at(i);
        let mut all = handle(alloc, &self.finder, &self.tables, &self.hops, place)?;
        self.left.reserve(all.left.len())?;
        put_after(alloc, &mut self.hops, &mut self.flying, all.next.as_slice())?;
        self.flying.take(i);
        self.left.append(&mut all.left).unwrap();
        Ok(())
    }

    /// How many copies are in flight.
    pub fn len(&self) -> usize
        ensures { result ≡ length self.now.flying }
    {
        self.flying.len()
    }

    /// The histories that have left, the first one first.
    pub fn left(&self) -> &[Left]
        ensures { result.now ≡ self.now.left }
    {
        self.left.as_slice()
    }

    /// The copies in flight, the one that came first at the front, with all that they have recorded, which is written
    /// out. The only error is that memory ran out.
    pub fn flying(&self) -> Result<Vec<Flying>, AllocError>
        ensures { IfOk result (λ flying. flying.items ≡ self.now.flying) }
    {
        let alloc = *self.packets.allocator();
        let places = self.flying.listed(alloc)?;
        copies_in(alloc, &self.tables.fields, &self.hops, places.as_slice())
    }

    /// Some injections and steps lead here from the start, so the laws of flights hold; and for each injection and any
    /// number of crossings the histories that have left, together with those that copies owe, are those that leave the
    /// tables from its packet, each as often.
    pub fn laws(&self)
        ensures reached { IsReached self.now }
        ensures counts { (i k : ℕ) (pk : Items ℕ) → slice_get self.now.packets i ≡ Some pk
            → IsPermutation (left_after self.now.tables k pk) (left_or_owed self.now (i + 1) k) }
    {
        let _tables = &self.tables;
    }
}

/// Puts hops after those that are held, and their places after those of the copies that wait. Where memory runs out all
/// stays as it was.
pub(crate) fn put_after(
    alloc: Global,
    hops: &mut HopList,
    flying: &mut Waiting,
    more: &[Hop],
) -> Result<(), AllocError>
    requires { length flying.old ≤ length hops.old }
    ensures hops { OnOk result (hops.new ≡ hops.old ++ more.now) }
    ensures flying { OnOk result
        (flying.new ≡ flying.old ++ range_with_len (length hops.old) (length more.now)) }
    ensures err { OnErr result ((hops.new ≡ hops.old) × (flying.new ≡ flying.old)) }
{
    let count = hops.len();
    let places = places_from(alloc, count, more.len())?;
    hops.append(more)?;
    if let Err(error) = flying.append(places) {
        hops.truncate(count);
        return Err(error);
    }
    Ok(())
}

/// So many places from one on.
pub(crate) fn places_from(
    alloc: Global,
    first: usize,
    count: usize,
) -> Result<Vec<usize>, AllocError>
    requires { first + count ≤ usize.MAX }
    ensures { IfOk result (λ places. places.items ≡ range_with_len first count) }
{
    let mut places = Vec::new(alloc);
    for i in 0..count {
        places.push(first + i)?;
    }
    Ok(places)
}
