//! Small sets of one field, what is made of them, and how they are printed.
ghost use Rattle.std.specs.Prelude.{IfOk};
ghost use Rattle.nk_store.specs.StoreState.{Grows, IsId};
ghost use Rattle.nk_store.specs.Leaves.{IsActFrom};
ghost use Rattle.nk_sets.specs.PacketSets.{IsSet};

use crate::cases::DST;
use nk_algebra::{negate, test, union};
use nk_field::{Act, Fid, Fields};
use nk_policy::pol_text;
use nk_sets::{image, is_empty, least, minus, preimage, set_pol};
use nk_store::{Id, Store};
use std::alloc::{AllocError, Global};

/// The packets with that `dst`.
fn with_dst(st: &mut Store, n: u64) -> Result<Id, AllocError>
    ensures grows { Grows st.old st.new }
    ensures set { IfOk result (IsSet st.new) }
{
    let dst = Fid::new(DST);
    let n = n.min(st.max(dst));
    test(st, dst, n)
}

/// The packets whose `dst` is neither 0 nor 2.
#[tactic(auto, using(nk_sets::proofs::SetLemmas::predicate_grows))]
fn odd(st: &mut Store) -> Result<Id, AllocError>
    ensures grows { Grows st.old st.new }
    ensures set { IfOk result (IsSet st.new) }
{
    let zero = with_dst(st, 0)?;
    let two = with_dst(st, 2)?;
    let even = union(st, zero, two)?;
    negate(st, even)
}

/// The predicate of a set as it is printed.
fn printed(alloc: Global, fields: &Fields, st: &Store, s: Id) -> Result<Vec<u8>, AllocError>
    requires { IsSet st.now s }
{
    let p = set_pol(st, s)?;
    pol_text(alloc, fields, &p)
}

/// `dst:=1`.
fn to_one(alloc: Global, st: &Store) -> Result<Act, AllocError>
    ensures { IfOk result (λ g. IsActFrom st.now.maxes 0 g) }
{
    let dst = Fid::new(DST);
    Act::one(alloc, dst, st.max(dst).min(1))
}

/// What an act makes of a set, and the packets of that which the act doesn't bring there.
fn made_and_left(st: &mut Store, act: &Act, s: Id) -> Result<(Id, Id), AllocError>
    requires act { IsActFrom st.old.maxes 0 act.now }
    requires set { IsSet st.old s }
    ensures { IfOk result (λ r. IsId st.new r.0 × IsId st.new r.1) }
{
    let made = image(st, act, s)?;
    let before = preimage(st, act, made)?;
    let left = minus(st, made, before)?;
    Ok((made, left))
}

/// Whether the odd values are printed one by one: on a tie the else-child is that of the least value.
pub fn odd_is_printed(fields: &Fields, st: &mut Store) -> Result<bool, AllocError> {
    let s = odd(st)?;
    let text = printed(st.alloc(), fields, st, s)?;
    Ok(text.as_slice() == b"dst=1 + dst=3".as_slice())
}

/// Whether `dst:=1` makes of the odd values the value 1, and brings each packet to it.
pub fn act_makes_a_set(st: &mut Store) -> Result<bool, AllocError> {
    let s = odd(st)?;
    let act = to_one(st.alloc(), st)?;
    let (made, left) = made_and_left(st, &act, s)?;
    let first = least(st, made)?;
    let is_one = first.is_some_and(|pk| pk.get(Fid::new(DST)) == 1);
    Ok(is_one && is_empty(st, left) && !is_empty(st, made))
}
