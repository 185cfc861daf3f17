//! The diagrams of small policies.
ghost use Rattle.nk_store.specs.StoreState.{IsId};

use crate::cases::DST;
use crate::policies::{complement, either, in_turn, star};
use nk_algebra::identity;
use nk_auto::{continued, silent};
use nk_field::{Fid, Packet};
use nk_policy::Pol;
use nk_store::{Id, Store};
use std::alloc::{AllocError, Global};

/// `dst=0;dst:=1 + ~dst=0`.
fn moved_or_kept(alloc: Global) -> Result<Pol, AllocError> {
    let dst = Fid::new(DST);
    let moved = in_turn(alloc, Pol::Test(dst, 0), Pol::Set(dst, 1))?;
    let kept = complement(alloc, Pol::Test(dst, 0))?;
    either(alloc, moved, kept)
}

/// The `dst` of the one packet that a diagram makes of one with this `dst`, to target 0; nothing where it makes another
/// number of packets.
fn dst_after(st: &Store, d: Id, n: u64) -> Option<u64>
    requires { IsId st.now d }
{
    let mut pk = Packet::zero();
    pk.put(Fid::new(DST), n);
    let outs = st.look(d, &pk);
    if outs.len() != 1 || outs[0].target != 0 {
        return None;
    }
    Some(outs[0].act.apply(&pk).get(Fid::new(DST)))
}

/// Whether the policy makes a `dst` of 0 one of 1, and leaves one of 2 as it is.
pub fn is_moved_or_kept(st: &mut Store) -> Result<bool, AllocError> {
    let d = silent(st, &moved_or_kept(st.alloc())?)?;
    Ok(dst_after(st, d, 0) == Some(1) && dst_after(st, d, 2) == Some(2))
}

/// Whether `dup*` ends at the packet itself, and goes on to its dup or ends with the packet as it is.
pub fn ends_or_records(st: &mut Store) -> Result<bool, AllocError> {
    let p = star(st.alloc(), Pol::Dup(1))?;
    let zero = Packet::zero();
    let without = silent(st, &p)?;
    let ends = st.look(without, &zero).len();
    let end = identity(st)?;
    let start = continued(st, &p, end)?;
    let outs = st.look(start, &zero);
    Ok(
        ends == 1
            && outs.len() == 2
            && outs
                .iter()
                .all(|out| out.target <= 1 && out.act.apply(&zero) == zero),
    )
}
