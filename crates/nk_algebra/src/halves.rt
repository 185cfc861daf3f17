//! A choice by a field between diagrams that test any fields, by halves.
ghost use Rattle.std.specs.Prelude.{◌≡◌, ◌+◌, ◌<◌, ◌≤◌, IfOk, length, slice_index};
ghost use Rattle.nk_store.specs.Nodes.{child_at};
ghost use Rattle.nk_store.specs.StoreState.{look, Grows, HasLeaves};
ghost use Rattle.nk_algebra.specs.Choices.{AreChoices};
ghost use Rattle.nk_algebra.specs.Halves.{start, chosen};

use nk_apply::{both_later, range, union_later};
use nk_field::{Fid, List};
use nk_store::{Id, Store};
use std::alloc::AllocError;

/// The choice, by halves: each part is guarded by its interval, and all are united.
pub(crate) fn choose_all(st: &mut Store, f: Fid, parts: &List<(u64, Id)>) -> Result<Id, AllocError>
    requires { AreChoices st.old f parts.now }
    ensures grows { Grows st.old st.new }
    ensures ok { IfOk result
        (λ d. HasLeaves st.new d (λ pk. look st.old (child_at 0 parts.now (slice_index pk f)) pk)) }
{
    choose_some(st, f, parts, 0, parts.len())
}

/// The choice between some of the parts, by halves.
#[tactic(auto, using(crate::proofs::Chosen::choices_grown))]
fn choose_some(
    st: &mut Store,
    f: Fid,
    parts: &List<(u64, Id)>,
    from: usize,
    to: usize,
) -> Result<Id, AllocError>
    requires choices { AreChoices st.old f parts.now }
    requires some { from < to }
    requires within { to ≤ length parts.now }
    ensures grows { Grows st.old st.new }
    ensures ok { IfOk result
        (λ d. HasLeaves st.new d (λ pk. chosen st.old f parts.now from to pk)) }
{
    if to - from == 1 {
        return choose_one(st, f, parts, from);
    }
    let middle = from + (to - from) / 2;
    let left = choose_some(st, f, parts, from, middle)?;
    let right = choose_some(st, f, parts, middle, to)?;
    union_later(st, left, right)
}

/// The diagram of one part, for its values alone.
fn choose_one(st: &mut Store, f: Fid, parts: &List<(u64, Id)>, k: usize) -> Result<Id, AllocError>
    requires choices { AreChoices st.old f parts.now }
    requires within { k < length parts.now }
    ensures grows { Grows st.old st.new }
    ensures ok { IfOk result
        (λ d. HasLeaves st.new d (λ pk. chosen st.old f parts.now k (k + 1) pk)) }
{
    let from = first_value(st, f, parts, k);
    let (end, d) = *parts.at(k);
    let guard = range(st, f, from, end)?;
    both_later(st, guard, d)
}

/// The first value of a part.
fn first_value(st: &Store, f: Fid, parts: &List<(u64, Id)>, k: usize) -> u64
    requires choices { AreChoices st.now f parts.now }
    requires within { k < length parts.now }
    ensures { result ≡ start 0 parts.now k }
{
    let _max = st.max(f);
    if k == 0 { 0 } else { parts.at(k - 1).0 + 1 }
}
