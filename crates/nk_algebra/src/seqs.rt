//! One diagram, then another one.
ghost use Rattle.std.specs.Prelude.{◌≡◌, ℕ, ◌≤◌, ◌<◌, List as Items, Some, IfOk, OnOk, ◌-◌, ◌++◌, map, slice_index_or, length};
ghost use Rattle.nk_field.specs.Act.{applied};
ghost use Rattle.nk_store.specs.Leaves.{IsActFrom};
ghost use Rattle.nk_store.specs.Nodes.{child_at};
ghost use Rattle.nk_store.specs.StoreState.{IsId, IsWhole, look, root_field, recalled, Grows, HasLeaves};
ghost use Rattle.nk_store.specs.KeptAnswers.{GivesKept};
ghost use Rattle.nk_store.specs.declared.operation.Operation.TheVariants as operations;
ghost use Rattle.nk_apply.specs.Cofactors.{cofactor, IsSplit};
ghost use Rattle.nk_apply.specs.Seqs.{out_after, prefixed, seq_leaf, outs_of, no_out, out_made};
ghost use Rattle.nk_apply.specs.Unions.{over_places};
ghost use Rattle.nk_algebra.specs.Choices.{AreChoices};
ghost use Rattle.nk_apply.specs.Predicates.{IsPredicate, HasOnlyFinals};

use crate::choices::choose;
use crate::leaf_seqs::{is_leaf, seq_two_leaves};
use crate::partition::seq_anew;
use nk_apply::{LeafMap, empty, map_leaves, part_near, shift, tested, union_later};
use nk_field::{Act, Fid, List};
use nk_store::{Id, Node, Operation, Out, Store};
use std::alloc::{AllocError, Global};

/// Each out after an act.
#[derive(Drop)]
struct Prefix<'a> {
    act: &'a Act,
}

impl<'a> LeafMap for Prefix<'a> {
    ghost mapped = { λ s os. prefixed s.act.now os };

    ghost allowed = { λ s maxes. IsActFrom maxes 0 s.act.now };

    fn map(&self, alloc: Global, outs: &[Out]) -> Result<List<Out>, AllocError> {
        outs_after(alloc, self.act, outs)
    }
}

/// Each out after an act, in their order.
fn outs_after(alloc: Global, act: &Act, outs: &[Out]) -> Result<List<Out>, AllocError>
    ensures { IfOk result (λ r. r ≡ map (out_after act.now) outs.now) }
{
    let mut all = List::with_capacity(alloc, outs.len())?;
    push_after(&mut all, act, outs)?;
    Ok(all)
}

/// Puts each out after an act at the end, in their order.
pub(crate) fn push_after(all: &mut List<Out>, act: &Act, outs: &[Out]) -> Result<(), AllocError>
    ensures { OnOk result (all.new ≡ all.old ++ map (out_after act.now) outs.now) }
{
    for o in outs {
        all.push(Out {
            act: act.then(&o.act)?,
            target: o.target,
        })?;
    }
    Ok(())
}

/// The diagram's leaf at the packet that an act makes, each out after the act.
pub fn after(st: &mut Store, d: Id, act: &Act) -> Result<Id, AllocError>
    requires id { IsId st.old d }
    requires suits { IsActFrom st.old.maxes 0 act.now }
    ensures grows { Grows st.old st.new }
    ensures ok { IfOk result
        (λ r. HasLeaves st.new r (λ pk. prefixed act.now (look st.old d (applied act.now pk)))) }
{
    if act.as_slice().is_empty() {
        st.laws();
        return Ok(d);
    }
    let to = shift(st, d, act)?;
    put_after(st, to, act)
}

/// Each out after an act.
pub fn put_after(st: &mut Store, d: Id, act: &Act) -> Result<Id, AllocError>
    requires id { IsId st.old d }
    requires suits { IsActFrom st.old.maxes 0 act.now }
    ensures grows { Grows st.old st.new }
    ensures ok { IfOk result (λ r. HasLeaves st.new r (λ pk. prefixed act.now (look st.old d pk))) }
    ensures later { IfOk result (λ r. root_field st.old d ≤ root_field st.new r) }
{
    map_leaves(st, &Prefix { act }, d)
}

/// The first diagram, then the second: each act of the first, whatever its target, followed by each act of the
/// second at the packet that it makes, to the second's target.
pub fn seq(st: &mut Store, a: Id, b: Id) -> Result<Id, AllocError>
    requires left { IsId st.old a }
    requires right { IsId st.old b }
    ensures grows { Grows st.old st.new }
    ensures ok { IfOk result
        (λ d. HasLeaves st.new d (λ pk. seq_leaf (look st.old a pk) (look st.old b) pk)) }
    ensures predicate { IfOk result
        (λ d. IsPredicate st.old a → IsPredicate st.old b → IsPredicate st.new d) }
    ensures ends { IfOk result
        (λ d. HasOnlyFinals (look st.old b) → HasOnlyFinals (look st.new d)) }
    ensures kept { IfOk result (λ d. recalled st.new operations.Seq a b ≡ Some d) }
    ensures again { GivesKept st.old st.new operations.Seq a b result }
{
    seq_once(st, a, b)
}

/// The sequence, made once: the answer is kept, and given again at each later call.
fn seq_once(st: &mut Store, a: Id, b: Id) -> Result<Id, AllocError>
    requires left { IsId st.old a }
    requires right { IsId st.old b }
    ensures grows { Grows st.old st.new }
    ensures ok { IfOk result
        (λ d. HasLeaves st.new d (λ pk. seq_leaf (look st.old a pk) (look st.old b) pk)) }
    ensures kept { IfOk result (λ d. recalled st.new operations.Seq a b ≡ Some d) }
    ensures again { GivesKept st.old st.new operations.Seq a b result }
{
    if let Some(made) = st.recall(Operation::Seq, a, b) {
        return Ok(made);
    }
    let made = seq_anew(st, a, b)?;
    st.keep(Operation::Seq, a, b, made)?;
    Ok(made)
}

/// The sequence, by its leaves.
#[cycle(seq)]
pub(crate) fn sequence(st: &mut Store, a: Id, b: Id) -> Result<Id, AllocError>
    requires left { IsId st.old a }
    requires right { IsId st.old b }
    ensures grows { Grows st.old st.new }
    ensures ok { IfOk result
        (λ d. HasLeaves st.new d (λ pk. seq_leaf (look st.old a pk) (look st.old b) pk)) }
{
    if st.drops(a) {
        return Ok(a);
    }
    if let Some(d) = st.recall(Operation::Seq, a, b) {
        return Ok(d);
    }
    let d = sequence_anew(st, a, b)?;
    st.keep(Operation::Seq, a, b, d)?;
    Ok(d)
}

/// The sequence, by its leaves, made anew: what is known of these two diagrams isn't looked up, and the answer isn't kept.
/// Below these two, answers are looked up and kept.
#[cycle(seq)]
pub(crate) fn sequence_anew(st: &mut Store, a: Id, b: Id) -> Result<Id, AllocError>
    requires left { IsId st.old a }
    requires right { IsId st.old b }
    ensures grows { Grows st.old st.new }
    ensures ok { IfOk result
        (λ d. HasLeaves st.new d (λ pk. seq_leaf (look st.old a pk) (look st.old b) pk)) }
{
    match tested(st, a) {
        None => seq_outs(st, a, b),
        Some(f) => seq_case(st, f, a, b),
    }
}

/// The sequence at a diagram that tests a field.
#[cycle(seq)]
fn seq_case(st: &mut Store, f: Fid, a: Id, b: Id) -> Result<Id, AllocError>
    requires left { IsId st.old a }
    requires right { IsId st.old b }
    requires field { f < 18 }
    requires first { root_field st.old a ≡ f }
    requires split { IsSplit st.old f a }
    ensures grows { Grows st.old st.new }
    ensures ok { IfOk result
        (λ d. HasLeaves st.new d (λ pk. seq_leaf (look st.old a pk) (look st.old b) pk)) }
{
    let parts = seq_parts(st, f, a, b)?;
    choose(st, f, parts)
}

/// How many outs a leaf has.
pub fn out_count(st: &Store, a: Id) -> usize
    requires id { IsId st.now a }
    requires leaf { root_field st.now a ≡ 18 }
    ensures count { result ≡ length (outs_of st.now a) }
    ensures outs { (pk : Items ℕ) → look st.now a pk ≡ outs_of st.now a }
{
    match st.view(a) {
        Node::Leaf(outs) => outs.len(),
        Node::Case(_, _) => unreachable!(),
    }
}

/// The act of one of a leaf's outs.
fn act_at(st: &Store, a: Id, i: usize) -> Result<Act, AllocError>
    requires id { IsId st.now a }
    requires within { i < length (outs_of st.now a) }
    ensures is { IfOk result (λ g. g ≡ (slice_index_or (outs_of st.now a) i no_out).act) }
    ensures suits { IfOk result (λ g. IsActFrom st.now.maxes 0 g) }
{
    match st.view(a) {
        Node::Leaf(outs) => outs.at(i).act.copy(),
        Node::Case(_, _) => unreachable!(),
    }
}

/// What the second diagram makes of one out of a leaf.
fn after_at(st: &mut Store, a: Id, i: usize, b: Id) -> Result<Id, AllocError>
    requires left { IsId st.old a }
    requires right { IsId st.old b }
    requires within { i < length (outs_of st.old a) }
    ensures grows { Grows st.old st.new }
    ensures ok { IfOk result
        (λ r. HasLeaves st.new r
        (λ pk. let g = (slice_index_or (outs_of st.old a) i no_out).act in prefixed g
        (look st.old b (applied g pk)))) }
{
    let act = act_at(st, a, i)?;
    after(st, b, &act)
}

/// The sequence at a leaf: at once where it has several outs and the second diagram is a leaf too.
fn seq_outs(st: &mut Store, a: Id, b: Id) -> Result<Id, AllocError>
    requires left { IsId st.old a }
    requires right { IsId st.old b }
    requires leaf { root_field st.old a ≡ 18 }
    ensures grows { Grows st.old st.new }
    ensures ok { IfOk result
        (λ d. HasLeaves st.new d (λ pk. seq_leaf (look st.old a pk) (look st.old b) pk)) }
{
    let n = out_count(st, a);
    if n == 0 {
        return empty(st);
    }
    if n > 1 && is_leaf(st, b) {
        return seq_two_leaves(st, a, b);
    }
    seq_some(st, a, b, 0, n)
}

/// The sequence for some of a leaf's outs, by halves.
#[tactic(auto, using(nk_apply::proofs::OverPlaces::outs_within))]
fn seq_some(st: &mut Store, a: Id, b: Id, from: usize, to: usize) -> Result<Id, AllocError>
    requires left { IsId st.old a }
    requires right { IsId st.old b }
    requires some { from < to }
    requires within { to ≤ length (outs_of st.old a) }
    ensures grows { Grows st.old st.new }
    ensures ok { IfOk result
        (λ d. HasLeaves st.new d
        (λ pk. over_places (out_made (outs_of st.old a) (look st.old b) pk) from (to - from))) }
{
    if to - from == 1 {
        return after_at(st, a, from, b);
    }
    let middle = from + (to - from) / 2;
    let left = seq_some(st, a, b, from, middle)?;
    let right = seq_some(st, a, b, middle, to)?;
    union_later(st, left, right)
}

/// The sequence at a diagram that tests a field, part by part.
#[cycle(seq)]
fn seq_parts(st: &mut Store, f: Fid, a: Id, b: Id) -> Result<List<(u64, Id)>, AllocError>
    requires left { IsId st.old a }
    requires right { IsId st.old b }
    requires field { f < 18 }
    requires first { root_field st.old a ≡ f }
    requires split { IsSplit st.old f a }
    ensures grows { Grows st.old st.new }
    ensures parts { IfOk result (λ ps. AreChoices st.new f ps) }
    ensures ok { IfOk result
        (λ ps. (v : ℕ) (pk : Items ℕ) → IsWhole pk
        → look st.new (child_at 0 ps v) pk
        ≡ seq_leaf (look st.old (cofactor st.old f v a) pk) (look st.old b) pk) }
{
    let max = st.max(f);
    let mut parts = List::new(st.alloc());
    let mut near = 0;
    let mut from = 0;
    loop {
        let (end, child) = part_near(st, a, f, from, &mut near);
        let made = sequence(st, child, b)?;
        parts.push((end, made))?;
        if end == max {
            return Ok(parts);
        }
        from = end + 1;
    }
}
