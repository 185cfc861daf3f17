//! What a diagram does at the packets of a set.
ghost use Rattle.std.specs.Prelude.{◌≡◌, ℕ, ◌≤◌, min, IfOk, IfSome, List as Items};
ghost use Rattle.nk_store.specs.Nodes.{child_at};
ghost use Rattle.nk_store.specs.StoreState.{IsId, IsWhole, look, root_field, Grows, HasLeaves, AreParts};
ghost use Rattle.nk_apply.specs.Leaves.{guarded};
ghost use Rattle.nk_apply.specs.Cofactors.{cofactor, IsFirst};
ghost use Rattle.nk_sets.specs.Cuts.{IsEnd};

use nk_apply::{first_field, part_near};
use nk_field::{Fid, List};
use nk_store::{Id, Node, Operation, Store};
use std::alloc::AllocError;

/// What the diagram does at the packets of a set, and nothing elsewhere. The walk goes along the parts of the set alone,
/// whatever the diagram does elsewhere. The only error is that memory ran out.
#[cycle(at_packets)]
pub fn at_packets(st: &mut Store, s: Id, d: Id) -> Result<Id, AllocError>
    requires set { IsId st.old s }
    requires diagram { IsId st.old d }
    ensures grows { Grows st.old st.new }
    ensures ok { IfOk result
        (λ r. HasLeaves st.new r (λ pk. guarded (look st.old s pk) (look st.old d pk))) }
    ensures later { IfOk result
        (λ r. min (root_field st.old s) (root_field st.old d) ≤ root_field st.new r) }
{
    if let Some(r) = known_later(st, s, d) {
        return Ok(r);
    }
    match first_field(st, s, d) {
        None => Ok(at_leaf(st, s, d)),
        Some(f) => cut_case(st, f, s, d),
    }
}

/// The second of two leaves where the first one isn't empty.
fn at_leaf(st: &Store, s: Id, d: Id) -> Id
    requires set { IsId st.now s }
    requires diagram { IsId st.now d }
    requires left { root_field st.now s ≡ 18 }
    requires right { root_field st.now d ≡ 18 }
    ensures leaves { HasLeaves st.now result (λ pk. guarded (look st.now s pk) (look st.now d pk)) }
    ensures later { 18 ≤ root_field st.now result }
{
    match st.view(s) {
        Node::Leaf(outs) => { if outs.is_empty() { s } else { d } }
        Node::Case(_, _) => unreachable!(),
    }
}

/// What the diagram does at the packets of a set, where one of both tests a field; it is kept.
#[cycle(at_packets)]
fn cut_case(st: &mut Store, f: Fid, s: Id, d: Id) -> Result<Id, AllocError>
    requires set { IsId st.old s }
    requires diagram { IsId st.old d }
    requires first { IsFirst st.old s d f }
    ensures grows { Grows st.old st.new }
    ensures ok { IfOk result
        (λ r. HasLeaves st.new r (λ pk. guarded (look st.old s pk) (look st.old d pk))) }
    ensures later { IfOk result
        (λ r. min (root_field st.old s) (root_field st.old d) ≤ root_field st.new r) }
{
    let parts = cut_parts(st, f, s, d)?;
    let r = st.case(f, parts)?;
    st.keep(Operation::Both, s, d, r)?;
    Ok(r)
}

/// What is known of it; it tests no field before both.
fn known_later(st: &Store, s: Id, d: Id) -> Option<Id>
    requires set { IsId st.now s }
    requires diagram { IsId st.now d }
    ensures leaves { IfSome result
        (λ r. HasLeaves st.now r (λ pk. guarded (look st.now s pk) (look st.now d pk))) }
    ensures later { IfSome result
        (λ r. min (root_field st.now s) (root_field st.now d) ≤ root_field st.now r) }
{
    st.laws();
    known(st, s, d)
}

/// What is known of it: where the set has no packet or all of them, where the diagram drops each packet, and where it was
/// made before.
fn known(st: &Store, s: Id, d: Id) -> Option<Id>
    requires set { IsId st.now s }
    requires diagram { IsId st.now d }
    ensures { IfSome result (λ r.
        HasLeaves st.now r (λ pk. guarded (look st.now s pk) (look st.now d pk))) }
{
    if s == d || st.drops(d) {
        return Some(d);
    }
    match st.view(s) {
        Node::Leaf(outs) => Some(if outs.is_empty() { s } else { d }),
        Node::Case(_, _) => st.recall(Operation::Both, s, d),
    }
}

/// The parts by a field. Where the set has no packet, the diagram's parts are one.
#[cycle(at_packets)]
fn cut_parts(st: &mut Store, f: Fid, s: Id, d: Id) -> Result<List<(u64, Id)>, AllocError>
    requires set { IsId st.old s }
    requires diagram { IsId st.old d }
    requires first { IsFirst st.old s d f }
    ensures grows { Grows st.old st.new }
    ensures parts { IfOk result (λ ps. AreParts st.new f ps) }
    ensures ok { IfOk result
        (λ ps. (v : ℕ) (pk : Items ℕ) → IsWhole pk
        → look st.new (child_at 0 ps v) pk
        ≡ guarded (look st.old (cofactor st.old f v s) pk)
        (look st.old (cofactor st.old f v d) pk)) }
{
    let max = st.max(f);
    let mut parts = List::new(st.alloc());
    let mut near_here = 0;
    let mut near_there = 0;
    let mut from = 0;
    loop {
        let (end_here, here) = part_near(st, s, f, from, &mut near_here);
        let (end_there, there) = part_near(st, d, f, from, &mut near_there);
        let end = end_of(st, here, end_here, end_there);
        let child = at_packets(st, here, there)?;
        parts.push((end, child))?;
        if end == max {
            return Ok(parts);
        }
        from = end + 1;
    }
}

/// Up to which value a part of the set and one of the diagram make one part: up to the end of the set's where that has no
/// packet, else up to the first end of both.
fn end_of(st: &Store, here: Id, end_here: u64, end_there: u64) -> u64
    requires { IsId st.now here }
    ensures { IsEnd (look st.now here) end_here end_there result }
{
    if st.drops(here) {
        end_here
    } else {
        end_here.min(end_there)
    }
}
