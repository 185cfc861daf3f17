//! Packets that are each held once, in the order in which they came.
ghost use Rattle.std.specs.Prelude.{◌≡◌, ℕ, ◌<◌, ◌++◌, List as Items, [], length, IfOk};
ghost use Rattle.std.proofs.Common.{ap};
ghost use Rattle.nk_flight.specs.HeldPackets.{packet_same, values_fed};
ghost use Rattle.nk_flight.specs.HopLists.{packet_at};

use indexmap::IndexSet;
use nk_field::{Fid, PLACES, Packet};
use std::alloc::{AllocError, Global};
use std::hash::{Hash, Hasher};
use std::marker::Model;

/// A packet that is hashed by its values. A contract sees it as the packet.
#[derive(Clone, Copy, PartialEq, Eq)]
struct HeldPacket {
    packet: Packet,
}

impl Model for HeldPacket {
    ghost use Rattle.std.specs.Prelude.{ℕ, List as Items};

    ghost Value = { Items ℕ };

    ghost view = { λ h. h.packet };

    ghost inverse = { λ p. record { packet = p } };
}

impl Hash for HeldPacket {
    ghost hash_input = { values_fed };

    ghost respects_eq = { λ p q h. ap values_fed (packet_same p q h) };

    fn hash<H: Hasher>(&self, state: &mut H) {
        for place in 0..PLACES {
            state.write_u64(self.packet.get(Fid::new(place as u8)));
        }
    }
}

/// Packets that are each held once. A contract sees it as the list of its packets.
pub(crate) struct PacketPool {
    packets: IndexSet<HeldPacket>,
}

impl Drop for PacketPool {
    fn drop(self) {
        let Self { packets: _ } = self;
    }
}

impl Model for PacketPool {
    ghost use Rattle.std.specs.Prelude.{ℕ, List as Items};

    ghost Value = { Items (Items ℕ) };

    ghost view = { λ p. p.packets.keys };
}

impl PacketPool {
    /// No packets. The only error is that memory ran out.
    pub(crate) fn new(alloc: Global) -> Result<PacketPool, AllocError>
        ensures { IfOk result (λ pool. pool ≡ []) }
    {
        Ok(PacketPool {
            packets: IndexSet::new(alloc),
        })
    }

    /// The packet at a place.
    pub(crate) fn at(&self, place: usize) -> Packet
        requires { place < length self.now }
        ensures { result ≡ packet_at self.now place }
    {
        self.packets[place].packet
    }

    /// The place of a packet, which is put after the others where it isn't held yet. The only error is that memory ran
    /// out.
    pub(crate) fn place_of(&mut self, p: &Packet) -> Result<usize, AllocError>
        ensures place { IfOk result
            (λ place. (place < length self.new) × (packet_at self.new place ≡ p.now)) }
        ensures more { (more : Items (Items ℕ)) × (self.new ≡ self.old ++ more) }
    {
        let (place, _) = self.packets.insert_full(HeldPacket { packet: *p })?;
        Ok(place)
    }
}
