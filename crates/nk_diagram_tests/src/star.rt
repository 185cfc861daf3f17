//! Copies of small diagrams, one after another.
ghost use Rattle.std.specs.Prelude.{◌<◌, ◌≤◌, IfOk, slice_index};
ghost use Rattle.nk_store.specs.StoreState.{IsId, look, Grows};
ghost use Rattle.nk_apply.specs.Predicates.{HasOnlyFinals};

use crate::cases::DST;
use nk_algebra::{assign, both, test, union};
use nk_field::{Fid, Packet};
use nk_star::star;
use nk_store::{Id, Store};
use std::alloc::AllocError;

/// Where the field has one value, it is given another one.
fn step(st: &mut Store, f: Fid, from: u64, to: u64) -> Result<Id, AllocError>
    requires field { f < 18 }
    requires from { from ≤ slice_index st.old.maxes f }
    requires to { to ≤ slice_index st.old.maxes f }
    ensures grows { Grows st.old st.new }
    ensures id { IfOk result (λ d. IsId st.new d) }
    ensures ends { IfOk result (λ d. HasOnlyFinals (look st.new d)) }
{
    let is = test(st, f, from)?;
    let set = assign(st, f, to)?;
    both(st, is, set)
}

/// Whether the steps from 0 to 1 and from 1 to 2 make three packets of one with `dst` 0.
pub fn steps_are_followed(st: &mut Store) -> Result<bool, AllocError> {
    let dst = Fid::new(DST);
    if st.max(dst) < 2 {
        return Ok(false);
    }
    let first = step(st, dst, 0, 1)?;
    let second = step(st, dst, 1, 2)?;
    let d = union(st, first, second)?;
    let all = star(st, d)?;
    Ok(st.look(all, &Packet::zero()).len() == 3)
}
