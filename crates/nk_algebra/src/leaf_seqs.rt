//! One leaf, then another one.
ghost use Rattle.std.specs.Prelude.{◌≡◌, ◌<◌, ◌≤◌, ◌-◌, true, IfOk, length};
ghost use Rattle.nk_store.specs.StoreState.{IsId, look, root_field, Grows, HasLeaves};
ghost use Rattle.nk_apply.specs.Seqs.{seq_leaf, outs_of, out_made, outs_made};
ghost use Rattle.nk_apply.specs.Unions.{in_turn, over_places};

use crate::seqs::{out_count, push_after};
use nk_apply::union_later;
use nk_field::List;
use nk_store::{Id, Node, Out, Store};
use std::alloc::{AllocError, Global};

/// How many outs are made at once, at most, or as many as the second leaf has: they lie in memory before doubles are dropped.
const AT_ONCE: usize = 4096;

/// Whether a diagram tests no field.
pub(crate) fn is_leaf(st: &Store, d: Id) -> bool
    requires { IsId st.now d }
    ensures { result ≡ true → root_field st.now d ≡ 18 }
{
    match st.view(d) {
        Node::Leaf(_) => true,
        Node::Case(_, _) => false,
    }
}

/// The sequence of two leaves: the outs are put in order once, or once a block where they are very many.
pub(crate) fn seq_two_leaves(st: &mut Store, a: Id, b: Id) -> Result<Id, AllocError>
    requires left { IsId st.old a }
    requires right { IsId st.old b }
    requires left_leaf { root_field st.old a ≡ 18 }
    requires right_leaf { root_field st.old b ≡ 18 }
    ensures grows { Grows st.old st.new }
    ensures ok { IfOk result
        (λ d. HasLeaves st.new d (λ pk. seq_leaf (look st.old a pk) (look st.old b) pk)) }
{
    let n = out_count(st, a);
    let block = (AT_ONCE / out_count(st, b).max(1)).max(1);
    seq_blocks(st, a, b, 0, n, block)
}

/// The sequence for some of the first leaf's outs: at once where they are no more than a block, else by halves.
#[tactic(auto, using(nk_apply::proofs::OverPlaces::outs_within, crate::proofs::LeavesAtOnce::leaf_still))]
fn seq_blocks(
    st: &mut Store,
    a: Id,
    b: Id,
    from: usize,
    to: usize,
    block: usize,
) -> Result<Id, AllocError>
    requires left { IsId st.old a }
    requires right { IsId st.old b }
    requires left_leaf { root_field st.old a ≡ 18 }
    requires right_leaf { root_field st.old b ≡ 18 }
    requires order { from ≤ to }
    requires within { to ≤ length (outs_of st.old a) }
    requires some { 0 < block }
    ensures grows { Grows st.old st.new }
    ensures ok { IfOk result
        (λ d. HasLeaves st.new d
        (λ pk. over_places (out_made (outs_of st.old a) (look st.old b) pk) from (to - from))) }
{
    if to - from <= block {
        return seq_block(st, a, b, from, to);
    }
    let middle = from + (to - from) / 2;
    let left = seq_blocks(st, a, b, from, middle, block)?;
    let right = seq_blocks(st, a, b, middle, to, block)?;
    union_later(st, left, right)
}

/// The sequence for some of the first leaf's outs, at once: all outs are made, then put in order.
fn seq_block(st: &mut Store, a: Id, b: Id, from: usize, to: usize) -> Result<Id, AllocError>
    requires left { IsId st.old a }
    requires right { IsId st.old b }
    requires left_leaf { root_field st.old a ≡ 18 }
    requires right_leaf { root_field st.old b ≡ 18 }
    requires order { from ≤ to }
    requires within { to ≤ length (outs_of st.old a) }
    ensures grows { Grows st.old st.new }
    ensures ok { IfOk result
        (λ d. HasLeaves st.new d
        (λ pk. over_places (out_made (outs_of st.old a) (look st.old b) pk) from (to - from))) }
{
    st.laws();
    let outs = outs_after_all(st.alloc(), outs_at(st, a), outs_at(st, b), from, to)?;
    st.leaf(outs)
}

/// The outs of a leaf.
fn outs_at(st: &Store, d: Id) -> &[Out]
    requires { IsId st.now d }
    ensures { result.now ≡ outs_of st.now d }
{
    match st.view(d) {
        Node::Leaf(outs) => outs.as_slice(),
        Node::Case(_, _) => &[],
    }
}

/// The second outs after each of the first from one place to another, one's after the other's.
fn outs_after_all(
    alloc: Global,
    firsts: &[Out],
    seconds: &[Out],
    from: usize,
    to: usize,
) -> Result<List<Out>, AllocError>
    requires order { from ≤ to }
    requires within { to ≤ length firsts.now }
    ensures { IfOk result (λ os. os ≡ in_turn (outs_made firsts.now seconds.now) from (to - from)) }
{
    let mut all = List::with_capacity(alloc, (to - from).saturating_mul(seconds.len()))?;
    for i in from..to {
        push_after(&mut all, &firsts[i].act, seconds)?;
    }
    Ok(all)
}
