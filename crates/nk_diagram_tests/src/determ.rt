//! Acts without what is there already, and what two states record together.
ghost use Rattle.std.specs.Prelude.{◌≡◌, ◌<◌, [], ◌∷◌, IfOk};
ghost use Rattle.std.specs.List.Sorted.{IsStrictlyIncreasing};
ghost use Rattle.nk_store.specs.StoreState.{IsId, Grows};
ghost use Rattle.nk_determ.specs.Sets.{IsSetOf};

use crate::cases::DST;
use nk_algebra::{aim, assign, identity, union};
use nk_determ::{SetId, Sets, mean_same, split, state};
use nk_field::{Fid, List, Packet};
use nk_store::{Id, Store};
use std::alloc::{AllocError, Global};

/// `id + dst:=1`.
fn kept_or_one(st: &mut Store) -> Result<Id, AllocError>
    ensures grows { Grows st.old st.new }
    ensures id { IfOk result (IsId st.new) }
{
    let dst = Fid::new(DST);
    let n = st.max(dst).min(1);
    let kept = identity(st)?;
    let one = assign(st, dst, n)?;
    union(st, kept, one)
}

/// Whether at `dst` 1 both acts are one that assigns nothing, and at `dst` 0 they are two.
pub fn unchanged_goes(st: &mut Store) -> Result<bool, AllocError> {
    let d = kept_or_one(st)?;
    let s = split(st, d)?;
    let zero = Packet::zero();
    let mut one = Packet::zero();
    one.put(Fid::new(DST), 1);
    Ok(st.look(s, &zero).len() == 2 && st.look(s, &one).len() == 1)
}

/// The two labels.
#[tactic(auto, using(crate::proofs::Pairs::two_ascend))]
fn two_labels(alloc: Global, a: u64, b: u64) -> Result<List<u64>, AllocError>
    requires { a < b }
    ensures is { IfOk result (λ ls. ls ≡ a ∷ b ∷ []) }
    ensures ascend { IfOk result (λ ls. IsStrictlyIncreasing ls) }
{
    let mut all = List::new(alloc);
    all.push(a)?;
    all.push(b)?;
    Ok(all)
}

/// The set state of the labels 0 and 1 over two states.
fn state_of_two(st: &mut Store, ss: &mut Sets, a: Id, b: Id, s: SetId) -> Result<Id, AllocError>
    requires first { IsId st.old a }
    requires second { IsId st.old b }
    requires set { IsSetOf ss.old s (0 ∷ 1 ∷ []) }
    ensures id { IfOk result (IsId st.new) }
{
    state(st, ss, &[a, b], s)
}

/// The set state of two states that record each packet as it is, as label 1 and as label 2.
fn both_record(alloc: Global, st: &mut Store, ss: &mut Sets) -> Result<Id, AllocError>
    ensures id { IfOk result (IsId st.new) }
{
    let same = identity(st)?;
    let first = aim(st, same, 1)?;
    let second = aim(st, same, 2)?;
    let s = ss.intern(two_labels(alloc, 0, 1)?)?;
    state_of_two(st, ss, first, second, s)
}

/// Whether what two states record is one out, to the set of both labels.
pub fn both_labels_follow(st: &mut Store, ss: &mut Sets) -> Result<bool, AllocError> {
    let alloc = st.alloc();
    let d = both_record(alloc, st, ss)?;
    let both = ss.intern(two_labels(alloc, 1, 2)?)?;
    let outs = st.look(d, &Packet::zero());
    Ok(outs.len() == 1 && outs[0].target > 0 && outs[0].target - 1 == both.place() as u64)
}

/// Whether a diagram whose acts are exact means the same as it does once they are made so again.
pub fn exact_stays(st: &mut Store) -> Result<bool, AllocError> {
    let d = kept_or_one(st)?;
    let first = split(st, d)?;
    let second = split(st, first)?;
    Ok(mean_same(st, first, second))
}
