//! The least packet of a set.
ghost use Rattle.std.specs.Prelude.{◌≡◌, ◌<◌, ℕ, List as Items, false, slice_index, slice_set, IfSome, IfNone, IsOkAnd, MatchOption};
ghost use Rattle.nk_store.specs.StoreState.{IsId, IsWhole, IsCase, root_field};
ghost use Rattle.nk_sets.specs.PacketSets.{is_in, IsLeastPacket};

use nk_field::{Fid, Packet};
use nk_store::{Id, Node, Store};
use std::alloc::AllocError;

/// The least packet of a set, by the first field where packets differ; none exactly for the empty set. Any diagram will
/// do: its set has the packets with an out. It takes no memory and never fails.
pub fn least(st: &Store, s: Id) -> Result<Option<Packet>, AllocError>
    requires { IsId st.now s }
    ensures { IsOkAnd result (λ o. MatchOption o
        ((pk : Items ℕ) → IsWhole pk → is_in st.now s pk ≡ false) (IsLeastPacket st.now s)) }
{
    Ok(lowest(st, s))
}

/// The least packet of a set, if there is one; it has 0 at the fields that the set does not depend on.
#[cycle(lowest)]
fn lowest(st: &Store, s: Id) -> Option<Packet>
    requires { IsId st.now s }
    ensures some { IfSome result (IsLeastPacket st.now s) }
    ensures zeros { IfSome result (λ x. (k : ℕ) → k < root_field st.now s → slice_index x k ≡ 0) }
    ensures none { IfNone result ((pk : Items ℕ) → IsWhole pk → is_in st.now s pk ≡ false) }
{
    match st.view(s) {
        Node::Leaf(outs) => {
            if outs.len() == 0 {
                None
            } else {
                Some(Packet::zero())
            }
        }
        Node::Case(f, parts) => lowest_part(st, s, *f, parts.as_slice()),
    }
}

/// The least packet of a set that tests a field, from the first part that has one.
#[cycle(lowest)]
fn lowest_part(st: &Store, s: Id, f: Fid, parts: &[(u64, Id)]) -> Option<Packet>
    requires { IsCase st.now s f parts.now }
    ensures some { IfSome result (IsLeastPacket st.now s) }
    ensures zeros { IfSome result (λ x. (k : ℕ) → k < root_field st.now s → slice_index x k ≡ 0) }
    ensures none { IfNone result ((pk : Items ℕ) → IsWhole pk → is_in st.now s pk ≡ false) }
{
    let _laws = st.laws();
    let _most = st.max(f);
    let mut from: u128 = 0;
    for (end, child) in parts {
        if let Some(pk) = lowest(st, *child) {
            return Some(with_value(pk, f, from as u64));
        }
        from = *end as u128 + 1;
    }
    None
}

/// The packet with a value at a field.
fn with_value(pk: Packet, f: Fid, value: u64) -> Packet
    ensures { result ≡ slice_set pk f value }
{
    let mut to = pk;
    to.put(f, value);
    to
}
