//! Many diagrams together: leaves at once, others by halves.
ghost use Rattle.std.specs.Prelude.{◌≡◌, ℕ, ◌<◌, ◌≤◌, ◌-◌, ◌++◌, IfOk, OnOk, length};
ghost use Rattle.nk_store.specs.StoreState.{IsId, root_field, Grows, HasLeaves};
ghost use Rattle.nk_apply.specs.Seqs.{outs_of};
ghost use Rattle.nk_apply.specs.Unions.{AreIds, AreFrom, outs_in_turn, unions};

use crate::leaves::{copy_from, union_later};
use crate::part::tested;
use nk_field::{List, PLACES};
use nk_store::{Id, Node, Out, Store};
use std::alloc::AllocError;

/// The place of the field that a diagram tests first, after all fields for a leaf.
fn first_place(st: &Store, d: Id) -> usize
    requires { IsId st.now d }
    ensures is { result ≡ root_field st.now d }
    ensures few { result ≤ 18 }
{
    match tested(st, d) {
        Some(f) => f.place(),
        None => PLACES,
    }
}

/// The least of these places.
pub(crate) fn least_place(st: &Store, ds: &[Id]) -> usize
    requires { AreIds st.now ds.now }
    ensures few { result ≤ 18 }
    ensures least { AreFrom st.now result ds.now }
{
    let mut least = PLACES;
    for i in 0..ds.len() {
        least = least.min(first_place(st, ds[i]));
    }
    least
}

/// All leaves together: at once where the diagrams are more than two leaves, else by halves.
pub(crate) fn union_many(st: &mut Store, ds: &[Id]) -> Result<Id, AllocError>
    requires ids { AreIds st.old ds.now }
    requires some { 0 < length ds.now }
    ensures grows { Grows st.old st.new }
    ensures ok { IfOk result
        (λ r. HasLeaves st.new r (λ pk. unions st.old ds.now 0 (length ds.now) pk)) }
    ensures later { IfOk result
        (λ r. (p : ℕ) → p ≤ 18 → AreFrom st.old p ds.now → p ≤ root_field st.new r) }
{
    if ds.len() > 2 && least_place(st, ds) == PLACES {
        return union_leaves(st, ds);
    }
    union_some(st, ds, 0, ds.len())
}

/// All these leaves together: their outs are put in order once.
fn union_leaves(st: &mut Store, ds: &[Id]) -> Result<Id, AllocError>
    requires ids { AreIds st.old ds.now }
    requires leaves { AreFrom st.old 18 ds.now }
    ensures grows { Grows st.old st.new }
    ensures ok { IfOk result
        (λ r. HasLeaves st.new r (λ pk. unions st.old ds.now 0 (length ds.now) pk)) }
    ensures later { IfOk result
        (λ r. (p : ℕ) → p ≤ 18 → AreFrom st.old p ds.now → p ≤ root_field st.new r) }
{
    st.laws();
    let outs = outs_of_all(st, ds)?;
    st.leaf(outs)
}

/// The outs of all these leaves, one leaf's after the other's.
fn outs_of_all(st: &Store, ds: &[Id]) -> Result<List<Out>, AllocError>
    requires { AreIds st.now ds.now }
    ensures { IfOk result (λ os. os ≡ outs_in_turn st.now ds.now) }
{
    let mut all = List::with_capacity(st.alloc(), count_of_all(st, ds))?;
    for i in 0..ds.len() {
        push_outs(st, ds[i], &mut all)?;
    }
    Ok(all)
}

/// How many outs all these leaves have.
fn count_of_all(st: &Store, ds: &[Id]) -> usize
    requires { AreIds st.now ds.now }
{
    let mut count = 0usize;
    for i in 0..ds.len() {
        if let Node::Leaf(outs) = st.view(ds[i]) {
            count = count.saturating_add(outs.len());
        }
    }
    count
}

/// Appends the outs of a leaf.
fn push_outs(st: &Store, d: Id, all: &mut List<Out>) -> Result<(), AllocError>
    requires { IsId st.now d }
    ensures { OnOk result (all.new ≡ all.old ++ outs_of st.now d) }
{
    match st.view(d) {
        Node::Leaf(outs) => copy_from(all, outs.as_slice(), 0),
        Node::Case(_, _) => Ok(()),
    }
}

/// The leaves of some of the diagrams together, by halves.
fn union_some(st: &mut Store, ds: &[Id], from: usize, to: usize) -> Result<Id, AllocError>
    requires ids { AreIds st.old ds.now }
    requires some { from < to }
    requires within { to ≤ length ds.now }
    ensures grows { Grows st.old st.new }
    ensures ok { IfOk result
        (λ r. HasLeaves st.new r (λ pk. unions st.old ds.now from (to - from) pk)) }
    ensures later { IfOk result
        (λ r. (p : ℕ) → p ≤ 18 → AreFrom st.old p ds.now → p ≤ root_field st.new r) }
{
    let first = ds[from];
    let _tidy = st.view(first);
    if to - from == 1 {
        return Ok(first);
    }
    let middle = from + (to - from) / 2;
    let left = union_some(st, ds, from, middle)?;
    let right = union_some(st, ds, middle, to)?;
    union_later(st, left, right)
}
