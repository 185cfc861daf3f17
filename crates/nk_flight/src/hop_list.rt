//! Hops as they are held: packets that hops have in common are held once.
ghost use Rattle.std.specs.Prelude.{◌≡◌, ◌<◌, ◌*◌, ◌^◌, ◌++◌, ◌∷◌, [], length, take, IfOk, OnOk, OnErr};
ghost use Rattle.nk_flight.specs.Trails.{hop_at};

use crate::hops::Hop;
use crate::packet_pool::PacketPool;
use std::alloc::{AllocError, Global};
use std::marker::Model;

/// A hop with the places of its packets.
#[derive(Clone, Copy)]
pub(crate) struct HeldHop {
    /// The number of the packet's injection.
    number: u64,
    /// How many links the copy has crossed.
    crossings: u64,
    /// The place of the hop before, where a link was crossed.
    earlier: usize,
    /// The place of the packet before the link, where one was crossed.
    before: usize,
    /// The place of the packet where the copy is.
    packet: usize,
}

/// Hops, in order. A contract sees it as their list.
pub(crate) struct HopList {
    hops: Vec<HeldHop>,
    packets: PacketPool,
}

impl Drop for HopList {
    fn drop(self) {
        let Self {
            hops: _,
            packets: _,
        } = self;
    }
}

impl Model for HopList {
    ghost use Rattle.std.specs.Prelude.{List as Items, length, All};
    ghost use Rattle.nk_flight.specs.declared.hops.Hop.{Hop as WholeHop};
    ghost use Rattle.nk_flight.specs.HopLists.{IsHeldAmong, hops_held};

    ghost Value = { Items WholeHop };

    ghost view = { λ h. hops_held h.packets h.hops.items };

    ghost invariant = { λ h. All (IsHeldAmong (length h.packets)) h.hops.items };
}

impl HopList {
    /// No hops. The only error is that memory ran out.
    pub(crate) fn new(alloc: Global) -> Result<HopList, AllocError>
        ensures { IfOk result (λ hops. hops ≡ []) }
    {
        let packets = PacketPool::new(alloc)?;
        Ok(HopList {
            hops: Vec::new(alloc),
            packets,
        })
    }

    /// How many hops there are, which in memory take more than two bytes each.
    pub(crate) fn len(&self) -> usize
        ensures is { result ≡ length self.now }
        ensures few { 2 * result < 2 ^ 64 }
    {
        self.hops.len()
    }

    /// The hop at a place.
    pub(crate) fn at(&self, place: usize) -> Hop
        requires { place < length self.now }
        ensures { result ≡ hop_at self.now place }
    {
        let held = self.hops[place];
        Hop {
            number: held.number,
            crossings: held.crossings,
            earlier: held.earlier,
            before: self.packets.at(held.before),
            packet: self.packets.at(held.packet),
        }
    }

    /// Puts a hop after the others. Where memory runs out they stay as they were.
    pub(crate) fn push(&mut self, hop: &Hop) -> Result<(), AllocError>
        ensures ok { OnOk result (self.new ≡ self.old ++ hop.now ∷ []) }
        ensures err { OnErr result (self.new ≡ self.old) }
    {
        let before = self.packets.place_of(&hop.before)?;
        let packet = self.packets.place_of(&hop.packet)?;
        self.hops.push(HeldHop {
            number: hop.number,
            crossings: hop.crossings,
            earlier: hop.earlier,
            before,
            packet,
        })?;
        Ok(())
    }

    /// Puts these hops after the others. Where memory runs out they stay as they were.
    pub(crate) fn append(&mut self, more: &[Hop]) -> Result<(), AllocError>
        ensures ok { OnOk result (self.new ≡ self.old ++ more.now) }
        ensures err { OnErr result (self.new ≡ self.old) }
    {
        let count = self.len();
        for hop in more {
            if let Err(error) = self.push(hop) {
                self.truncate(count);
                return Err(error);
            }
        }
        Ok(())
    }

    /// Leaves only so many hops, the first ones.
    pub(crate) fn truncate(&mut self, count: usize)
        ensures { self.new ≡ take count self.old }
    {
        self.hops.truncate(count);
    }
}
