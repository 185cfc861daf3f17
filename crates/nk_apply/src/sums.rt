//! Many diagrams together, as parts by the first field of all: one node is made of them in the end, and none before.
ghost use Rattle.std.specs.Prelude.{◌<◌, ◌≤◌, ◌-◌, [], min, IfOk, length};
ghost use Rattle.nk_store.specs.Nodes.{child_at};
ghost use Rattle.nk_store.specs.StoreState.{IsId, look, root_field, Grows, HasLeaves, IsChild, AreParts};
ghost use Rattle.nk_apply.specs.Leaves.{merged};
ghost use Rattle.nk_apply.specs.Cofactors.{cofactor};
ghost use Rattle.nk_apply.specs.Unions.{AreIds, AreFrom, HaveParts, cofactor_leaf, over_places, unions};

use crate::constants::empty;
use crate::few::{are_few, few_parts};
use crate::leaves::union_later;
use crate::part::found_near;
use nk_field::{Fid, List};
use nk_store::{Id, Node, Store};
use std::alloc::AllocError;

/// All leaves together, of diagrams that test no field before this one.
pub(crate) fn union_at(st: &mut Store, f: Fid, ds: &[Id]) -> Result<Id, AllocError>
    requires field { f < 18 }
    requires ids { AreIds st.old ds.now }
    requires first { AreFrom st.old f ds.now }
    requires some { 0 < length ds.now }
    ensures grows { Grows st.old st.new }
    ensures ok { IfOk result
        (λ r. HasLeaves st.new r (λ pk. unions st.old ds.now 0 (length ds.now) pk)) }
{
    st.laws();
    let parts = all_parts(st, f, ds)?;
    st.case(f, parts)
}

/// The parts by the field of all these diagrams together: interval by interval where there are few, else by halves.
fn all_parts(st: &mut Store, f: Fid, ds: &[Id]) -> Result<List<(u64, Id)>, AllocError>
    requires field { f < 18 }
    requires ids { AreIds st.old ds.now }
    requires first { AreFrom st.old f ds.now }
    requires some { 0 < length ds.now }
    ensures grows { Grows st.old st.new }
    ensures ok { IfOk result
        (HaveParts st.new f (λ v pk.
        over_places (cofactor_leaf st.old f ds.now v pk) 0 (length ds.now))) }
{
    if are_few(st, f, ds) {
        return few_parts(st, f, ds);
    }
    sum_parts(st, f, ds, 0, ds.len())
}

/// The parts by the field of some of the diagrams together, by halves.
fn sum_parts(
    st: &mut Store,
    f: Fid,
    ds: &[Id],
    from: usize,
    to: usize,
) -> Result<List<(u64, Id)>, AllocError>
    requires field { f < 18 }
    requires ids { AreIds st.old ds.now }
    requires first { AreFrom st.old f ds.now }
    requires some { from < to }
    requires within { to ≤ length ds.now }
    ensures grows { Grows st.old st.new }
    ensures ok { IfOk result
        (HaveParts st.new f (λ v pk.
        over_places (cofactor_leaf st.old f ds.now v pk) from (to - from))) }
{
    st.laws();
    if to - from == 1 {
        return parts_of(st, f, ds[from]);
    }
    let middle = from + (to - from) / 2;
    let left = sum_parts(st, f, ds, from, middle)?;
    let right = sum_parts(st, f, ds, middle, to)?;
    join_parts(st, f, left.as_slice(), right.as_slice())
}

/// The parts by the field of a diagram that tests no field before it.
fn parts_of(st: &Store, f: Fid, d: Id) -> Result<List<(u64, Id)>, AllocError>
    requires id { IsId st.now d }
    requires field { f < 18 }
    requires first { f ≤ root_field st.now d }
    ensures { IfOk result (HaveParts st.now f (λ v pk. look st.now (cofactor st.now f v d) pk)) }
{
    match st.view(d) {
        Node::Case(g, parts) => {
            if *g == f {
                parts.copy()
            } else {
                one_part(st, f, d)
            }
        }
        Node::Leaf(_) => one_part(st, f, d),
    }
}

/// One part with this diagram for all values.
fn one_part(st: &Store, f: Fid, d: Id) -> Result<List<(u64, Id)>, AllocError>
    requires field { f < 18 }
    requires child { IsChild st.now f d }
    ensures { IfOk result (HaveParts st.now f (λ v pk. look st.now d pk)) }
{
    let mut parts = List::new(st.alloc());
    parts.push((st.max(f), d))?;
    Ok(parts)
}

/// The parts of both together. There is room for all of them.
fn join_parts(
    st: &mut Store,
    f: Fid,
    xs: &[(u64, Id)],
    ys: &[(u64, Id)],
) -> Result<List<(u64, Id)>, AllocError>
    requires left { AreParts st.old f xs.now }
    requires right { AreParts st.old f ys.now }
    ensures grows { Grows st.old st.new }
    ensures ok { IfOk result
        (HaveParts st.new f (λ v pk.
        merged (look st.old (child_at 0 xs.now v) pk) (look st.old (child_at 0 ys.now v) pk))) }
{
    let max = st.max(f);
    let none = empty(st)?;
    let mut parts = List::with_capacity(st.alloc(), xs.len().saturating_add(ys.len()))?;
    let mut near_x = 0;
    let mut near_y = 0;
    let mut from = 0;
    loop {
        let (end_x, x) = found_near(xs, max, from, &mut near_x);
        let (end_y, y) = found_near(ys, max, from, &mut near_y);
        let end = end_x.min(end_y);
        let child = union_beside(st, none, x, y)?;
        parts.push((end, child))?;
        if end == max {
            return Ok(parts);
        }
        from = end + 1;
    }
}

/// Both leaves together, where `none` is the diagram that drops each packet: most parts of sums stand beside none, and are looked for
/// nowhere.
fn union_beside(st: &mut Store, none: Id, x: Id, y: Id) -> Result<Id, AllocError>
    requires none { HasLeaves st.old none (λ pk. []) }
    requires left { IsId st.old x }
    requires right { IsId st.old y }
    ensures grows { Grows st.old st.new }
    ensures ok { IfOk result
        (λ d. HasLeaves st.new d (λ pk. merged (look st.old x pk) (look st.old y pk))) }
    ensures later { IfOk result
        (λ d. min (root_field st.old x) (root_field st.old y) ≤ root_field st.new d) }
{
    st.laws();
    if y == none {
        return Ok(x);
    }
    if x == none {
        return Ok(y);
    }
    union_later(st, x, y)
}
