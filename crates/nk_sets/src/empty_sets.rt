//! Whether a set has a packet.
ghost use Rattle.std.specs.Prelude.{◌≡◌, ℕ, List as Items, true, false};
ghost use Rattle.nk_store.specs.StoreState.{IsId, IsWhole, IsStorePacket};
ghost use Rattle.nk_sets.specs.PacketSets.{is_in};

use nk_store::{Id, Store};

/// Whether no packet is in the set. Any diagram will do: its set has the packets with an out.
pub fn is_empty(st: &Store, s: Id) -> bool
    requires { IsId st.now s }
    ensures yes { result ≡ true → (pk : Items ℕ) → IsWhole pk → is_in st.now s pk ≡ false }
    ensures no { result ≡ false → (pk : Items ℕ) × IsStorePacket st.now pk
        × (is_in st.now s pk ≡ true) }
{
    let _laws = st.laws();
    st.drops(s)
}
