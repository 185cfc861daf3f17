//! The packet that a text gives.
ghost use Rattle.std.specs.Prelude.{◌≡◌, ◌==◌, ◌+◌, ◌<◌, ◌≤◌, ◌++◌, ℕ, MatchResult, List, ◌∷◌, false, filter, map, option_map, drop, length, replicate, slice_set, codes, IfOk};
ghost use Rattle.std.specs.List.{slice_split};
ghost use Rattle.nk_field.specs.Packet.{IsPacket, IsUntagged};
ghost use Rattle.nk_field.specs.Texts.{TextReturns, packet_of, read_items, shown, is_shown};
ghost use Rattle.nk_field.specs.Texts as texts;

use crate::fields::Fields;
use crate::packet::{Fid, Packet};
use crate::texts::is_the_tag;
use std::alloc::{AllocError, Global};
use thiserror::Error;

/// Why a text gives no packet.
#[derive(Clone, Copy, PartialEq, Eq, Debug, Error)]
pub enum PacketError {
    /// Memory ran out.
    #[error("no memory")]
    NoMemory,
    /// An item is wrong or missing, or there is one too many.
    #[error("bad packet")]
    BadPacket {
        /// The number of the first such item, from 1.
        item: u64,
    },
}

/// The packet that a text such as `sw=1,pt=2,dst=3` gives: items between commas, one `name=digits` for each field
/// but the tag, in the order of the fields, each value in its field's range. The tag is 0.
pub fn read_packet(alloc: Global, fields: &Fields, text: &str) -> Result<Packet, PacketError>
    ensures answer { TextReturns result (packet_of fields.now text.now) }
    ensures packet { IfOk result (λ p. IsPacket fields.now p × IsUntagged fields.now p) }
{
    match items_of(alloc, text) {
        Ok(items) => packet_in(fields, items.as_slice()),
        Err(AllocError) => Err(PacketError::NoMemory),
    }
}

/// The items of a text.
fn items_of<'a>(alloc: Global, text: &'a str) -> Result<Vec<&'a str>, AllocError>
    ensures { IfOk result (λ items. map (λ i. i.now) items.items
        ≡ slice_split (λ b. b == 44) text.now) }
{
    text.split(',').collect(alloc)
}

/// A packet of which some items are read.
#[derive(Clone, Copy)]
struct Reading {
    packet: Packet,
    read: usize,
}

/// The packet that the items give.
fn packet_in(fields: &Fields, items: &[&str]) -> Result<Packet, PacketError>
    ensures { result ≡ read_items fields.now (shown fields.now false) (map (λ i. i.now) items.now) 0
        (replicate 18 0) }
{
    let mut reading = Reading {
        packet: Packet::zero(),
        read: 0,
    };
    for place in 0..fields.declared() + 2 {
        match with_field(fields, items, Fid::new(place as u8), reading) {
            Ok(next) => reading = next,
            Err(fault) => return Err(fault),
        }
    }
    if reading.read < items.len() {
        return Err(PacketError::BadPacket {
            item: reading.read as u64 + 1,
        });
    }
    Ok(reading.packet)
}

/// What is read with the value of one more field, unless this field is the tag.
fn with_field(fields: &Fields, items: &[&str], f: Fid, at: Reading) -> Result<Reading, PacketError>
    requires field { f < length fields.now.maxima }
    requires few { at.read ≤ f }
    ensures few { IfOk result (λ r. r.read ≤ f + 1) }
    ensures on { MatchResult result
        (λ r. (fs : List ℕ) → read_items fields.now (filter (is_shown fields.now false) (f ∷ fs))
        (drop at.read (map (λ i. i.now) items.now)) at.read at.packet
        ≡ read_items fields.now (filter (is_shown fields.now false) fs)
        (drop r.read (map (λ i. i.now) items.now)) r.read r.packet)
        (λ e. (fs : List ℕ) → read_items fields.now (filter (is_shown fields.now false) (f ∷ fs))
        (drop at.read (map (λ i. i.now) items.now)) at.read at.packet ≡ Err e) }
{
    if is_the_tag(fields, f) {
        return Ok(at);
    }
    let fault = PacketError::BadPacket {
        item: at.read as u64 + 1,
    };
    match items.get(at.read) {
        Some(item) => match value_in(fields, f, item) {
            Some(n) => Ok(and_value(&at, f, n)),
            None => Err(fault),
        },
        None => Err(fault),
    }
}

/// What is read with one more value, this field's.
fn and_value(at: &Reading, f: Fid, n: u64) -> Reading
    requires { at.now.read < 18 }
    ensures read { result.read ≡ at.now.read + 1 }
    ensures packet { result.packet ≡ slice_set at.now.packet f n }
{
    let mut packet = at.packet;
    packet.put(f, n);
    Reading {
        packet,
        read: at.read + 1,
    }
}

/// The value that an item gives a field, if it gives one in the field's range.
fn value_in(fields: &Fields, f: Fid, item: &str) -> Option<u64>
    requires { f < length fields.now.maxima }
    ensures { result ≡ texts.value_in fields.now f item.now }
{
    match digits_in(fields.name(f), item) {
        Some(digits) => number_upto(fields.max(f), digits),
        None => None,
    }
}

/// What stands after a name and `=`, if the item begins so.
fn digits_in<'a>(name: &str, item: &'a str) -> Option<&'a str>
    ensures { option_map (λ d. d.now) result
        ≡ texts.rest_after_prefix (name.now ++ codes "=") item.now }
{
    match item.strip_prefix(name) {
        Some(rest) => rest.strip_prefix('='),
        None => None,
    }
}

/// The number that digits alone write, if it is at most `max`.
fn number_upto(max: u64, digits: &str) -> Option<u64>
    ensures { result ≡ texts.number_upto max digits.now }
{
    if digits.starts_with('+') {
        return None;
    }
    match digits.parse::<u64>() {
        Ok(n) if n <= max => Some(n),
        _ => None,
    }
}
