//! Diagrams whose acts assign exactly the fields that they change.
ghost use Rattle.std.specs.Prelude.{◌≡◌, ◌==◌, ℕ, ◌<◌, ◌↔◌, if◌then◌else◌, List as Items, Some, IfOk, true};
ghost use Rattle.std.specs.List.{list_any};
ghost use Rattle.nk_store.specs.StoreState.{IsId, IsStorePacket, look, recalled, Grows, HasLeaves};
ghost use Rattle.nk_store.specs.KeptAnswers.{GivesKept};
ghost use Rattle.nk_store.specs.declared.operation.Operation.TheVariants as operations;
ghost use Rattle.nk_determ.specs.Unchanged.{leaf_changing};
ghost use Rattle.nk_determ.specs.Exact.{split_leaf, AreExact, Sends};

use crate::assigned::{assigned_fields, is_among};
use crate::changing::drop_unchanged;
use nk_field::{Fid, List};
use nk_store::{Id, Operation, Store};
use std::alloc::AllocError;

/// The diagram with the same meaning whose acts assign exactly the fields that they change. The only error is that
/// memory ran out.
pub fn split(st: &mut Store, d: Id) -> Result<Id, AllocError>
    requires { IsId st.old d }
    ensures grows { Grows st.old st.new }
    ensures ok { IfOk result
        (λ r. HasLeaves st.new r (λ pk. split_leaf st.old.maxes pk (look st.old d pk))) }
    ensures exact { IfOk result (λ r. AreExact st.new r) }
    ensures means { IfOk result
        (λ r. (pk : Items ℕ) (y : Items ℕ) (t : ℕ) → IsStorePacket st.old pk
        → Sends st.new r pk y t ↔ Sends st.old d pk y t) }
    ensures kept { IfOk result (λ r. recalled st.new operations.Split d d ≡ Some r) }
    ensures again { GivesKept st.old st.new operations.Split d d result }
{
    let _tidy = st.view(d);
    divide(st, d)
}

/// The split diagram, made once: the answer is kept, and given again at each later call.
fn divide(st: &mut Store, d: Id) -> Result<Id, AllocError>
    requires { IsId st.old d }
    ensures grows { Grows st.old st.new }
    ensures ok { IfOk result
        (λ r. HasLeaves st.new r (λ pk. split_leaf st.old.maxes pk (look st.old d pk))) }
    ensures kept { IfOk result (λ r. recalled st.new operations.Split d d ≡ Some r) }
    ensures again { GivesKept st.old st.new operations.Split d d result }
{
    if let Some(r) = st.recall(Operation::Split, d, d) {
        return Ok(r);
    }
    let r = divide_fields(st, d)?;
    st.keep(Operation::Split, d, d, r)?;
    Ok(r)
}

/// The split diagram, made field by field. Only the fields that some act assigns take a walk over it.
fn divide_fields(st: &mut Store, d: Id) -> Result<Id, AllocError>
    requires { IsId st.old d }
    ensures grows { Grows st.old st.new }
    ensures ok { IfOk result
        (λ r. HasLeaves st.new r (λ pk. split_leaf st.old.maxes pk (look st.old d pk))) }
{
    st.laws();
    let fields = assigned_fields(st, d)?;
    let mut r = d;
    for place in 0..18 {
        r = drop_among(st, &fields, Fid::new(place), r)?;
    }
    Ok(r)
}

/// The diagram without the assignments to a field that don't change the packet, where the field's place is among these.
fn drop_among(st: &mut Store, fields: &List<u64>, f: Fid, d: Id) -> Result<Id, AllocError>
    requires id { IsId st.old d }
    requires field { f < 18 }
    ensures grows { Grows st.old st.new }
    ensures ok { IfOk result
        (λ r. HasLeaves st.new r
        (λ pk. if list_any (λ m. m == f) fields.now
        then leaf_changing st.old.maxes f pk (look st.old d pk) else look st.old d pk)) }
{
    if is_among(fields, f.place() as u64) {
        return drop_unchanged(st, f, d);
    }
    Ok(d)
}

/// Tells whether two diagrams whose acts are exact mean the same: their numbers are equal exactly then.
pub fn mean_same(st: &Store, d: Id, e: Id) -> bool
    requires left { IsId st.now d }
    requires right { IsId st.now e }
    requires left_exact { AreExact st.now d }
    requires right_exact { AreExact st.now e }
    ensures yes { result ≡ true → d ≡ e }
    ensures means { ((pk : Items ℕ) (y : Items ℕ) (t : ℕ) → IsStorePacket st.now pk
        → Sends st.now d pk y t ↔ Sends st.now e pk y t) → result ≡ true }
{
    let _tidy = st.view(d);
    st.same(d, e)
}
