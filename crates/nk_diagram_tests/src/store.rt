//! Leaves in a store.
ghost use Rattle.std.specs.Prelude.{◌≡◌, [], ◌∷◌, IfOk};
ghost use Rattle.nk_store.specs.StoreState.{Grows, IsId};

use nk_field::{Act, List, Packet};
use nk_store::{Id, Out, Store};
use std::alloc::{AllocError, Global};

/// The leaf with the packet itself to three targets.
fn leaf_to(st: &mut Store, a: u64, b: u64, c: u64) -> Result<Id, AllocError>
    ensures grows { Grows st.old st.new }
    ensures id { IfOk result (λ d. IsId st.new d) }
{
    let outs = outs_to(st.alloc(), a, b, c)?;
    st.leaf(outs)
}

/// The packet itself to three targets.
fn outs_to(alloc: Global, a: u64, b: u64, c: u64) -> Result<List<Out>, AllocError>
    ensures { IfOk result (λ os. os
        ≡ record { act = []; target = a } ∷ record { act = []; target = b }
        ∷ record { act = []; target = c } ∷ []) }
{
    let mut outs = List::new(alloc);
    outs.push(to(alloc, a))?;
    outs.push(to(alloc, b))?;
    outs.push(to(alloc, c))?;
    Ok(outs)
}

/// The packet itself to a target.
fn to(alloc: Global, target: u64) -> Out
    ensures { result ≡ record { act = []; target = target } }
{
    Out {
        act: Act::none(alloc),
        target,
    }
}

/// Whether outs in any order and number are one leaf, which stands once in a store that had nothing.
pub fn equal_leaves_are_one(st: &mut Store) -> Result<bool, AllocError> {
    let d = leaf_to(st, 5, 0, 5)?;
    let e = leaf_to(st, 0, 5, 0)?;
    Ok(st.same(d, e) && st.len() == 1 && st.look(d, &Packet::zero()).len() == 2)
}
