//! What an act makes of a set, and the set that it makes another of.
ghost use Rattle.std.specs.Prelude.{◌&&◌, IfOk};
ghost use Rattle.nk_field.specs.Act.{applied};
ghost use Rattle.nk_store.specs.Leaves.{IsActFrom};
ghost use Rattle.nk_store.specs.StoreState.{Grows};
ghost use Rattle.nk_sets.specs.PacketSets.{is_in, IsSet, IsPacketSetOf, IsImage};
ghost use Rattle.nk_sets.specs.Images.{IsFree, are_assigned};

use crate::forgets::forget;
use nk_apply::{both, shift, test};
use nk_field::Act;
use nk_store::{Id, Store};
use std::alloc::AllocError;

/// The packets that the act makes of those of a set: the act's fields are of the store, and the values that it assigns
/// are in range. The only error is that memory ran out.
pub fn image(st: &mut Store, a: &Act, s: Id) -> Result<Id, AllocError>
    requires act { IsActFrom st.old.maxes 0 a.now }
    requires set { IsSet st.old s }
    ensures grows { Grows st.old st.new }
    ensures ok { IfOk result (λ r. IsImage st.old a.now s st.new r) }
{
    let free = forget_all(st, a, s)?;
    assigned(st, a, free)
}

/// The set with all fields forgotten that the act assigns.
fn forget_all(st: &mut Store, a: &Act, s: Id) -> Result<Id, AllocError>
    requires { IsSet st.old s }
    ensures grows { Grows st.old st.new }
    ensures ok { IfOk result (λ r. IsFree st.old a.now s st.new r) }
{
    let mut free = s;
    for (f, _) in a.as_slice() {
        let _place = f.place();
        free = forget(st, free, *f)?;
    }
    Ok(free)
}

/// The packets of a set that have the values which the act assigns.
fn assigned(st: &mut Store, a: &Act, s: Id) -> Result<Id, AllocError>
    requires act { IsActFrom st.old.maxes 0 a.now }
    requires set { IsSet st.old s }
    ensures grows { Grows st.old st.new }
    ensures ok { IfOk result (λ r. IsPacketSetOf st.new r
        (λ pk. are_assigned st.old.maxes a.now pk && is_in st.old s pk)) }
{
    let mut kept = s;
    for (f, n) in a.as_slice() {
        let _place = f.place();
        let has = test(st, *f, *n)?;
        kept = both(st, has, kept)?;
    }
    Ok(kept)
}

/// The packets that the act brings into a set. The only error is that memory ran out.
pub fn preimage(st: &mut Store, a: &Act, s: Id) -> Result<Id, AllocError>
    requires { IsSet st.old s }
    ensures grows { Grows st.old st.new }
    ensures ok { IfOk result
        (λ r. IsPacketSetOf st.new r (λ pk. is_in st.old s (applied a.now pk))) }
{
    shift(st, s, a)
}
