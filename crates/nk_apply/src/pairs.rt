//! Two diagrams put together leaf by leaf.
ghost use Rattle.std.specs.Prelude.{◌≡◌, ℕ, ◌≤◌, min, IfOk, IfSome, MatchOption, List as Items};
ghost use Rattle.nk_store.specs.declared.node.Out.{Out};
ghost use Rattle.nk_store.specs.Nodes.{child_at};
ghost use Rattle.nk_store.specs.Leaves.{Strict, Every, Suits};
ghost use Rattle.nk_store.specs.StoreState.{IsId, look, root_field, Grows, HasLeaves, IsWhole, AreParts};
ghost use Rattle.nk_apply.specs.Cofactors.{cofactor, IsFirst};

use crate::part::{part_count, part_near};
use nk_field::{Fid, List};
use nk_store::{Id, Node, Out, Store};
use std::alloc::{AllocError, Global};

/// How two leaves are put together.
pub trait Join {
    ghost joined: { Self → Items Out → Items Out → Items Out };

    /// Two diagrams put together, where that is known at once.
    fn known(&self, _st: &Store, _a: Id, _b: Id) -> Option<Id>
        requires left { IsId _st.now _a }
        requires right { IsId _st.now _b }
        ensures { IfSome result (λ d.
            HasLeaves _st.now d (λ pk. joined self.now (look _st.now _a pk) (look _st.now _b pk))) }
    {
        None
    }

    /// Keeps what two diagrams are when put together. No node is made.
    fn keep(&self, _st: &mut Store, _a: Id, _b: Id, _d: Id) -> Result<(), AllocError>
        requires left { IsId _st.old _a }
        requires right { IsId _st.old _b }
        requires leaves { HasLeaves _st.old _d
            (λ pk. joined self.now (look _st.old _a pk) (look _st.old _b pk)) }
        ensures grows { Grows _st.old _st.new }
        ensures nodes { _st.new.nodes ≡ _st.old.nodes }
    {
        Ok(())
    }

    /// Two leaves put together.
    fn join(&self, alloc: Global, a: &[Out], b: &[Out]) -> Result<List<Out>, AllocError>
        requires left { Strict a.now }
        requires right { Strict b.now }
        ensures is { IfOk result (λ r. r ≡ joined self.now a.now b.now) }
        ensures sorted { IfOk result (λ r. Strict r) }
        ensures suits { IfOk result
            (λ r. (maxes : Items ℕ) → Every (Suits maxes) a.now → Every (Suits maxes) b.now
            → Every (Suits maxes) r) };
}

/// The first field that one of two diagrams tests, if any.
pub fn first_field(st: &Store, a: Id, b: Id) -> Option<Fid>
    requires left { IsId st.now a }
    requires right { IsId st.now b }
    ensures { MatchOption result ((root_field st.now a ≡ 18) × (root_field st.now b ≡ 18))
        (λ f. IsFirst st.now a b f) }
{
    match (st.view(a), st.view(b)) {
        (Node::Leaf(_), Node::Leaf(_)) => None,
        (Node::Case(f, _), Node::Leaf(_)) => Some(*f),
        (Node::Leaf(_), Node::Case(g, _)) => Some(*g),
        (Node::Case(f, _), Node::Case(g, _)) => Some(if *f < *g { *f } else { *g }),
    }
}

/// The diagram whose leaf at each packet is both leaves put together: what is known of them, else made and then kept.
#[cycle(merge)]
pub fn merge<J: Join>(st: &mut Store, j: &J, a: Id, b: Id) -> Result<Id, AllocError>
    requires left { IsId st.old a }
    requires right { IsId st.old b }
    ensures grows { Grows st.old st.new }
    ensures ok { IfOk result
        (λ d. HasLeaves st.new d (λ pk. J.joined j.now (look st.old a pk) (look st.old b pk))) }
    ensures later { IfOk result
        (λ d. min (root_field st.old a) (root_field st.old b) ≤ root_field st.new d) }
{
    if let Some(d) = known_root_field(st, j, a, b) {
        return Ok(d);
    }
    let d = merge_anew(st, j, a, b)?;
    j.keep(st, a, b, d)?;
    Ok(d)
}

/// The diagram whose leaf at each packet is both leaves put together, made anew: what is known of these two diagrams isn't
/// looked up, and the answer isn't kept. Below these two, answers are looked up and kept.
#[cycle(merge)]
pub(crate) fn merge_anew<J: Join>(st: &mut Store, j: &J, a: Id, b: Id) -> Result<Id, AllocError>
    requires left { IsId st.old a }
    requires right { IsId st.old b }
    ensures grows { Grows st.old st.new }
    ensures ok { IfOk result
        (λ d. HasLeaves st.new d (λ pk. J.joined j.now (look st.old a pk) (look st.old b pk))) }
    ensures later { IfOk result
        (λ d. min (root_field st.old a) (root_field st.old b) ≤ root_field st.new d) }
{
    match first_field(st, a, b) {
        None => merge_leaves(st, j, a, b),
        Some(f) => merge_case(st, j, f, a, b),
    }
}

/// Two diagrams put together where one tests a field, by the parts.
#[cycle(merge)]
fn merge_case<J: Join>(st: &mut Store, j: &J, f: Fid, a: Id, b: Id) -> Result<Id, AllocError>
    requires left { IsId st.old a }
    requires right { IsId st.old b }
    requires first { IsFirst st.old a b f }
    ensures grows { Grows st.old st.new }
    ensures ok { IfOk result
        (λ d. HasLeaves st.new d (λ pk. J.joined j.now (look st.old a pk) (look st.old b pk))) }
    ensures later { IfOk result
        (λ d. min (root_field st.old a) (root_field st.old b) ≤ root_field st.new d) }
{
    let parts = merge_parts(st, j, f, a, b)?;
    st.case(f, parts)
}

/// What is known of two diagrams put together; it tests no field before both.
fn known_root_field<J: Join>(st: &Store, j: &J, a: Id, b: Id) -> Option<Id>
    requires left { IsId st.now a }
    requires right { IsId st.now b }
    ensures leaves { IfSome result
        (λ d. HasLeaves st.now d (λ pk. J.joined j.now (look st.now a pk) (look st.now b pk))) }
    ensures later { IfSome result
        (λ d. min (root_field st.now a) (root_field st.now b) ≤ root_field st.now d) }
{
    st.laws();
    j.known(st, a, b)
}

/// Both leaves put together, at diagrams that test nothing.
fn merge_leaves<J: Join>(st: &mut Store, j: &J, a: Id, b: Id) -> Result<Id, AllocError>
    requires left { IsId st.old a }
    requires right { IsId st.old b }
    requires left_leaf { root_field st.old a ≡ 18 }
    requires right_leaf { root_field st.old b ≡ 18 }
    ensures grows { Grows st.old st.new }
    ensures ok { IfOk result
        (λ d. HasLeaves st.new d (λ pk. J.joined j.now (look st.old a pk) (look st.old b pk))) }
    ensures later { IfOk result (λ d. root_field st.new d ≡ 18) }
{
    let outs = match (st.view(a), st.view(b)) {
        (Node::Leaf(x), Node::Leaf(y)) => j.join(st.alloc(), x.as_slice(), y.as_slice())?,
        _ => unreachable!(),
    };
    st.leaf_in_order(outs)
}

/// The parts of the merged diagram by the first field of both. There is room for as many as both have.
#[cycle(merge)]
fn merge_parts<J: Join>(
    st: &mut Store,
    j: &J,
    f: Fid,
    a: Id,
    b: Id,
) -> Result<List<(u64, Id)>, AllocError>
    requires left { IsId st.old a }
    requires right { IsId st.old b }
    requires first { IsFirst st.old a b f }
    ensures grows { Grows st.old st.new }
    ensures parts { IfOk result (λ ps. AreParts st.new f ps) }
    ensures ok { IfOk result
        (λ ps. (v : ℕ) (pk : Items ℕ) → IsWhole pk
        → look st.new (child_at 0 ps v) pk
        ≡ J.joined j.now (look st.old (cofactor st.old f v a) pk)
        (look st.old (cofactor st.old f v b) pk)) }
{
    let max = st.max(f);
    let count = part_count(st, a, f).saturating_add(part_count(st, b, f).saturating_sub(1));
    let mut parts = List::with_capacity(st.alloc(), count)?;
    let mut near_a = 0;
    let mut near_b = 0;
    let mut from = 0;
    loop {
        let (end_a, child_a) = part_near(st, a, f, from, &mut near_a);
        let (end_b, child_b) = part_near(st, b, f, from, &mut near_b);
        let end = end_a.min(end_b);
        let child = merge(st, j, child_a, child_b)?;
        parts.push((end, child))?;
        if end == max {
            return Ok(parts);
        }
        from = end + 1;
    }
}
