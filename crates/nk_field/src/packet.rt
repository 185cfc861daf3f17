//! Fields by number, and packets.
ghost use Rattle.std.specs.Prelude.{◌≡◌, ℕ, ◌<◌, ◌≤◌, List, length, replicate, slice_index, slice_set};
ghost use Rattle.nk_field.specs.Packet.{IsPacket, erased};

use crate::fields::Fields;
use std::marker::Model;

/// How many values a packet has room for.
pub const PLACES: usize = 18;

/// The number of a field: 0 is the switch `sw`, 1 the port `pt`, and the declared ones follow.
#[derive(Clone, Copy, PartialEq, Eq, PartialOrd, Ord, Hash, Default, Debug)]
pub struct Fid {
    place: u8,
}

impl Model for Fid {
    ghost Value = { ℕ };

    ghost view = { λ f. f.place };

    ghost invariant = { λ f. f.place < 18 };

    ghost inverse = { λ n. record { place = n } };
}

impl Fid {
    /// The switch.
    pub const SWITCH: Fid = Fid { place: 0 };

    /// The port.
    pub const PORT: Fid = Fid { place: 1 };

    /// The field with this index, 0 to 17.
    pub fn new(place: u8) -> Fid
        requires { place < 18 }
        ensures { result ≡ place }
    {
        Fid { place }
    }

    /// The index of the field, 0 to 17.
    pub fn place(self) -> usize
        ensures is { result ≡ self }
        ensures below { result < 18 }
    {
        self.place as usize
    }
}

/// One value per field, and 0 at each index that no field has. A contract sees it as the list of its eighteen values,
/// and `IsPacket` says that they are in the ranges of some fields. Packets are ordered by the first field where they
/// differ.
#[derive(Clone, Copy, PartialEq, Eq, PartialOrd, Ord, Debug)]
pub struct Packet {
    values: [u64; 18],
}

impl Model for Packet {
    ghost Value = { List ℕ };

    ghost view = { λ p. p.values };

    ghost invariant = { λ p. length p.values ≡ 18 };

    ghost inverse = { λ d. record { values = d } };
}

impl Packet {
    /// The packet with 0 everywhere.
    pub fn zero() -> Packet
        ensures { result ≡ replicate 18 0 }
    {
        Packet { values: [0; 18] }
    }

    /// The value of a field.
    pub fn get(&self, f: Fid) -> u64
        ensures { result ≡ slice_index self.now f }
    {
        self.values[f.place()]
    }

    /// Sets a field to a value in its range.
    pub fn set(&mut self, fields: &Fields, f: Fid, n: u64)
        requires field { f < length fields.now.maxima }
        requires range { n ≤ slice_index fields.now.maxima f }
        ensures is { self.new ≡ slice_set self.old f n }
        ensures packet { IsPacket fields.now self.old → IsPacket fields.now self.new }
    {
        self.put(f, n);
    }

    /// Sets the tag to 0, where there is one.
    pub fn erase_tag(&mut self, fields: &Fields)
        ensures is { self.new ≡ erased fields.now self.old }
        ensures packet { IsPacket fields.now self.old → IsPacket fields.now self.new }
    {
        if let Some(tag) = fields.tag() {
            self.put(tag, 0);
        }
    }

    /// Sets a field to a value, which isn't checked against the field's range.
    pub fn put(&mut self, f: Fid, value: u64)
        ensures { self.new ≡ slice_set self.old f value }
    {
        self.values[f.place()] = value;
    }
}
