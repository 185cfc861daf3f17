//! The difference of two sets.
ghost use Rattle.std.specs.Prelude.{◌&&◌, not, IfOk};
ghost use Rattle.nk_store.specs.StoreState.{IsId, Grows};
ghost use Rattle.nk_sets.specs.PacketSets.{is_in, IsSet, IsPacketSetOf};

use nk_apply::{both, negate};
use nk_store::{Id, Store};
use std::alloc::AllocError;

/// The packets of the first set that are not in the second. The only error is that memory ran out.
pub fn minus(st: &mut Store, a: Id, b: Id) -> Result<Id, AllocError>
    requires left { IsSet st.old a }
    requires right { IsId st.old b }
    ensures grows { Grows st.old st.new }
    ensures ok { IfOk result
        (λ r. IsPacketSetOf st.new r (λ pk. is_in st.old a pk && not (is_in st.old b pk))) }
{
    let others = negate(st, b)?;
    both(st, others, a)
}
