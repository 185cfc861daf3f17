//! What tells classes of tag sets apart.
ghost use Rattle.std.specs.Prelude.{◌≡◌, ℕ, ◌<◌, ◌++◌, List as Items, All, IfOk, OnOk, length, slice_index};
ghost use Rattle.nk_store.specs.StoreState.{StoreState, Grows};
ghost use Rattle.nk_determ.specs.Sets.{SetsGrow};
ghost use Rattle.nk_merge.specs.Alike.{AreAlike};
ghost use Rattle.nk_merge.specs.DisjointCopies.{IsDisjointCopy};
ghost use Rattle.nk_compact.specs.Told.{number_on_side, first_member_set, IsDistinguished, AreDistinguished, IsBase, pairs_after, first_pairs};

use crate::compact::DistinguishingHistory;
use nk_determ::{SetId, Sets};
use nk_field::List;
use nk_merge::{DisjointCopy, distinguish};
use nk_store::{Id, Store};
use nk_witness::{Found, Side};
use std::alloc::AllocError;

/// What tells any two of the classes apart, in the order of the first and then of the second. `firsts` are the places of their
/// first members among the tags, which are alike to no other. The only error is that memory ran out.
pub fn distinguishing_histories(
    st: &mut Store,
    ss: &mut Sets,
    states: &[Id],
    disjoint: &mut DisjointCopy,
    tags: &[SetId],
    firsts: &[usize],
) -> Result<List<DistinguishingHistory>, AllocError>
    requires disjoint { IsDisjointCopy st.old states.now disjoint.old }
    requires base { IsBase st.old ss.old st.old ss.old states.now tags.now firsts.now }
    requires different { (i j : ℕ) → i < j → j < length firsts.now
        → AreAlike st.old states.now (first_member_set ss.old tags.now firsts.now i)
        (first_member_set ss.old tags.now firsts.now j) → ⊥ }
    ensures grows { Grows st.old st.new }
    ensures sets { SetsGrow ss.old ss.new }
    ensures told { IfOk result
        (λ r. AreDistinguished st.old states.now ss.old tags.now firsts.now
        (first_pairs (length firsts.now) (length firsts.now)) r) }
{
    let mut all = List::new(st.alloc());
    for i in 0..firsts.len() {
        distinguish_from_later(st, ss, states, disjoint, tags, firsts, i, &mut all)?;
    }
    Ok(all)
}

/// Appends what tells a class from each after it.
fn distinguish_from_later(
    st: &mut Store,
    ss: &mut Sets,
    states: &[Id],
    disjoint: &mut DisjointCopy,
    tags: &[SetId],
    firsts: &[usize],
    i: usize,
    all: &mut List<DistinguishingHistory>,
) -> Result<(), AllocError>
    requires disjoint { IsDisjointCopy st.old states.now disjoint.old }
    requires base { IsBase st.old ss.old st.old ss.old states.now tags.now firsts.now }
    requires within { i < length firsts.now }
    requires different { (j : ℕ) → i < j → j < length firsts.now
        → AreAlike st.old states.now (first_member_set ss.old tags.now firsts.now i)
        (first_member_set ss.old tags.now firsts.now j) → ⊥ }
    ensures grows { Grows st.old st.new }
    ensures sets { SetsGrow ss.old ss.new }
    ensures disjoint { OnOk result (IsDisjointCopy st.new states.now disjoint.new) }
    ensures told { OnOk result
        ((base : StoreState) (first : Items (Items ℕ)) (pairs : Items (ℕ × ℕ))
        → IsBase base first st.old ss.old states.now tags.now firsts.now
        → AreDistinguished base states.now first tags.now firsts.now pairs all.old
        → AreDistinguished base states.now first tags.now firsts.now
        (pairs ++ pairs_after i (length firsts.now)) all.new) }
{
    for j in i + 1..firsts.len() {
        let a = distinguishing_history(st, ss, states, disjoint, tags, firsts, i, j)?;
        all.push(a)?;
    }
    Ok(())
}

/// What tells the classes at two places apart.
fn distinguishing_history(
    st: &mut Store,
    ss: &mut Sets,
    states: &[Id],
    disjoint: &mut DisjointCopy,
    tags: &[SetId],
    firsts: &[usize],
    i: usize,
    j: usize,
) -> Result<DistinguishingHistory, AllocError>
    requires disjoint { IsDisjointCopy st.old states.now disjoint.old }
    requires base { IsBase st.old ss.old st.old ss.old states.now tags.now firsts.now }
    requires first { i < length firsts.now }
    requires second { j < length firsts.now }
    requires different { AreAlike st.old states.now (first_member_set ss.old tags.now firsts.now i)
        (first_member_set ss.old tags.now firsts.now j) → ⊥ }
    ensures grows { Grows st.old st.new }
    ensures sets { SetsGrow ss.old ss.new }
    ensures disjoint { OnOk result (IsDisjointCopy st.new states.now disjoint.new) }
    ensures told { IfOk result
        (λ a. IsDistinguished st.old states.now ss.old tags.now firsts.now i j a) }
{
    let s = set_of_first(tags, firsts, i);
    let t = set_of_first(tags, firsts, j);
    match distinguish(st, ss, states, disjoint, s, t)? {
        Some(found) => Ok(told(found, i as u64 + 1, j as u64 + 1)),
        None => unreachable!(),
    }
}

/// The set of a class's first member.
fn set_of_first(tags: &[SetId], firsts: &[usize], c: usize) -> SetId
    requires class { c < length firsts.now }
    requires within { All (λ i. i < length tags.now) firsts.now }
    ensures { result ≡ slice_index tags.now (slice_index firsts.now c) }
{
    tags[firsts[c]]
}

/// The history that tells two classes apart, with their numbers.
fn told(found: Found, first: u64, second: u64) -> DistinguishingHistory
    ensures { result ≡ record {
      first = first;
      second = second;
      alone = number_on_side found.side first second;
      start = found.start;
      history = found.history;
    } }
{
    let alone = match found.side {
        Side::Left => first,
        Side::Right => second,
    };
    DistinguishingHistory {
        first,
        second,
        alone,
        start: found.start,
        history: found.history,
    }
}
