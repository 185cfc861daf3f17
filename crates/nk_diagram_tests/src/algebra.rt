//! Small diagrams put together.
ghost use Rattle.std.specs.Prelude.{IfOk};
ghost use Rattle.nk_store.specs.StoreState.{IsId};

use nk_algebra::{aim, assign, both, empty, negate, restrict, seq, test, union_all};
use nk_field::{Fid, Packet};
use nk_store::{Id, Store};
use std::alloc::AllocError;

/// `sw:=1` and then `sw=0`, and the other way round.
fn both_orders(st: &mut Store) -> Result<(Id, Id), AllocError>
    ensures { IfOk result (λ ds. IsId st.new ds.0 × IsId st.new ds.1) }
{
    let set = assign(st, Fid::SWITCH, st.max(Fid::SWITCH).min(1))?;
    let is = test(st, Fid::SWITCH, 0)?;
    let first = seq(st, set, is)?;
    let second = seq(st, is, set)?;
    Ok((first, second))
}

/// `sw=0` to the targets 0 and 5, and `~sw=0` where `sw` is 1.
fn united(st: &mut Store) -> Result<(Id, Id), AllocError>
    ensures { IfOk result (λ ds. IsId st.new ds.0 × IsId st.new ds.1) }
{
    let is = test(st, Fid::SWITCH, 0)?;
    let far = aim(st, is, 5)?;
    let all = union_all(st, &[is, far])?;
    let not = negate(st, is)?;
    let same = both(st, not, not)?;
    let part = restrict(st, same, Fid::SWITCH, 1)?;
    Ok((all, part))
}

/// Whether the first of both orders passes nothing, and the second one the packet with `sw` 0.
pub fn order_matters(st: &mut Store) -> Result<bool, AllocError> {
    let none = empty(st)?;
    let (first, second) = both_orders(st)?;
    Ok(first == none && st.look(second, &Packet::zero()).len() == 1)
}

/// Whether a packet with `sw` 0 goes to both targets, and where `sw` is set to 1 it passes once.
pub fn leaves_are_united(st: &mut Store) -> Result<bool, AllocError> {
    let (all, part) = united(st)?;
    let zero = Packet::zero();
    Ok(st.look(all, &zero).len() == 2 && st.look(part, &zero).len() == 1)
}
