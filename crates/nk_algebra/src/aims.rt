//! Targets, and assignments.
ghost use Rattle.std.specs.Prelude.{◌≡◌, ◌<◌, ◌≤◌, [], ◌∷◌, map, IfOk, slice_index};
ghost use Rattle.nk_store.specs.StoreState.{IsId, look, root_field, Grows, HasLeaves};
ghost use Rattle.nk_apply.specs.Leaves.{out_to, aimed};
ghost use Rattle.nk_apply.specs.Predicates.{HasOnlyFinals};

use nk_apply::{LeafMap, map_leaves};
use nk_field::{Act, Fid, List};
use nk_store::{Id, Out, Store};
use std::alloc::{AllocError, Global};

/// Each out with one target.
#[derive(Drop)]
struct ToTarget {
    target: u64,
}

impl LeafMap for ToTarget {
    ghost mapped = { λ s os. aimed s.target os };

    ghost allowed = { λ _ _. Unit {0} };

    fn map(&self, alloc: Global, outs: &[Out]) -> Result<List<Out>, AllocError> {
        outs_to(alloc, self.target, outs)
    }
}

/// Each out with one target, in their order.
fn outs_to(alloc: Global, target: u64, outs: &[Out]) -> Result<List<Out>, AllocError>
    ensures { IfOk result (λ r. r ≡ map (out_to target) outs.now) }
{
    let mut all = List::with_capacity(alloc, outs.len())?;
    for o in outs {
        all.push(Out {
            act: o.act.copy()?,
            target,
        })?;
    }
    Ok(all)
}

/// The diagram with all of its targets replaced by one.
pub fn aim(st: &mut Store, d: Id, target: u64) -> Result<Id, AllocError>
    requires { IsId st.old d }
    ensures grows { Grows st.old st.new }
    ensures ok { IfOk result (λ r. HasLeaves st.new r (λ pk. aimed target (look st.old d pk))) }
    ensures later { IfOk result (λ r. root_field st.old d ≤ root_field st.new r) }
    ensures ends { IfOk result (λ r. target ≡ 0 → HasOnlyFinals (look st.new r)) }
{
    map_leaves(st, &ToTarget { target }, d)
}

/// The diagram that assigns a value in range to a field, and sends the packet to target 0.
pub fn assign(st: &mut Store, f: Fid, n: u64) -> Result<Id, AllocError>
    requires field { f < 18 }
    requires within { n ≤ slice_index st.old.maxes f }
    ensures grows { Grows st.old st.new }
    ensures ok { IfOk result
        (λ d. HasLeaves st.new d (λ pk. record { act = (f, n) ∷ []; target = 0 } ∷ [])) }
    ensures later { IfOk result (λ d. root_field st.new d ≡ 18) }
{
    let alloc = st.alloc();
    let mut outs = List::with_capacity(alloc, 1)?;
    outs.push(Out {
        act: Act::one(alloc, f, n)?,
        target: 0,
    })?;
    st.leaf_in_order(outs)
}
