//! Diagrams without the assignments to one field that don't change the packet.
ghost use Rattle.std.specs.Prelude.{◌≡◌, ℕ, ◌<◌, ◌≤◌, if◌then◌else◌, map, min, IfOk, List as Items, slice_index};
ghost use Rattle.std.specs.List.Sorted.{IsNonDecreasing};
ghost use Rattle.nk_store.specs.Nodes.{child_at};
ghost use Rattle.nk_store.specs.StoreState.{IsId, IsWhole, look, root_field, Grows, HasLeaves, AreParts};
ghost use Rattle.nk_apply.specs.Cofactors.{cofactor};
ghost use Rattle.nk_determ.specs.Unchanged.{assigns, act_without, out_without, leaf_without, leaf_changing, HasValues};

use crate::assigned::{assigned, next_cut};
use nk_apply::{LeafMap, NodeMap, map_leaves, map_nodes, part_near};
use nk_field::{Act, Fid, List};
use nk_store::{Id, Out, Store};
use std::alloc::{AllocError, Global};

/// A change of acts: an act that assigns the value to the field loses its assignments to the field, and others stay.
#[derive(Drop)]
struct Without {
    field: Fid,
    value: u64,
}

impl LeafMap for Without {
    ghost mapped = { λ s os. leaf_without s.field s.value os };

    ghost allowed = { λ _ _. Unit {0} };

    fn map(&self, alloc: Global, outs: &[Out]) -> Result<List<Out>, AllocError> {
        outs_without(alloc, self.field, self.value, outs)
    }
}

/// The outs, in order: an act that assigns the value to the field loses its assignments to the field.
fn outs_without(alloc: Global, f: Fid, n: u64, outs: &[Out]) -> Result<List<Out>, AllocError>
    ensures { IfOk result (λ r. r ≡ map (out_without f n) outs.now) }
{
    let mut all = List::with_capacity(alloc, outs.len())?;
    for o in outs {
        all.push(Out {
            act: act_without(alloc, f, n, &o.act)?,
            target: o.target,
        })?;
    }
    Ok(all)
}

/// The act, which loses its assignments to the field if it assigns the value to the field.
fn act_without(alloc: Global, f: Fid, n: u64, act: &Act) -> Result<Act, AllocError>
    ensures { IfOk result (λ a. a ≡ act_without f n act.now) }
{
    if assigns(f, n, act.as_slice()) {
        return act.without(alloc, f);
    }
    act.copy()
}

/// Whether a value is assigned to a field.
fn assigns(f: Fid, n: u64, sets: &[(Fid, u64)]) -> bool
    ensures { result ≡ assigns f n sets.now }
{
    sets.iter().any(|s| s.0 == f && s.1 == n)
}

/// Diagrams without the assignments to a field that don't change the packet keep the fields before it.
#[derive(Drop)]
struct Unchanged {
    field: Fid,
}

impl NodeMap for Unchanged {
    ghost taken = { λ _ pk. pk };

    ghost made = { λ s maxes pk os. leaf_changing maxes s.field pk os };

    ghost kept = { λ s. s.field };

    ghost first = { λ s t. min s.field t };

    ghost allowed = { λ _ _. Unit {0} };

    fn place(&self) -> usize {
        self.field.place()
    }

    fn is_quick(&self) -> bool {
        false
    }

    fn laws(&self) {}

    fn change(&self, st: &mut Store, d: Id) -> Result<Id, AllocError> {
        let _place = self.field.place();
        drop_here(st, self.field, d)
    }
}

/// The diagram without the assignments to a field that don't change the packet.
pub(crate) fn drop_unchanged(st: &mut Store, f: Fid, d: Id) -> Result<Id, AllocError>
    requires id { IsId st.old d }
    requires field { f < 18 }
    ensures grows { Grows st.old st.new }
    ensures ok { IfOk result
        (λ r. HasLeaves st.new r (λ pk. leaf_changing st.old.maxes f pk (look st.old d pk))) }
{
    map_nodes(st, &Unchanged { field: f }, d)
}

/// The diagram without those assignments, where it tests no field before that one.
fn drop_here(st: &mut Store, f: Fid, d: Id) -> Result<Id, AllocError>
    requires id { IsId st.old d }
    requires field { f < 18 }
    requires first { f ≤ root_field st.old d }
    ensures grows { Grows st.old st.new }
    ensures ok { IfOk result
        (λ r. HasLeaves st.new r (λ pk. leaf_changing st.old.maxes f pk (look st.old d pk))) }
    ensures later { IfOk result (λ r. f ≤ root_field st.new r) }
{
    st.laws();
    let values = assigned(st, f, d)?;
    if values.is_empty() {
        return Ok(d);
    }
    let pieces = pieces_of(st, f, values.as_slice(), d)?;
    st.case(f, pieces)
}

/// The parts of the diagram without those assignments, by the field itself: at each of the values that acts assign to it
/// without the assignments of that value.
fn pieces_of(st: &mut Store, f: Fid, values: &[u64], d: Id) -> Result<List<(u64, Id)>, AllocError>
    requires id { IsId st.old d }
    requires field { f < 18 }
    requires first { f ≤ root_field st.old d }
    requires has { HasValues f values.now st.old d }
    requires sorted { IsNonDecreasing values.now }
    ensures grows { Grows st.old st.new }
    ensures parts { IfOk result (λ ps. AreParts st.new f ps) }
    ensures ok { IfOk result
        (λ ps. (v : ℕ) (pk : Items ℕ) → IsWhole pk
        → look st.new (child_at 0 ps v) pk
        ≡ leaf_without f (min v (slice_index st.old.maxes f))
        (look st.old (cofactor st.old f v d) pk)) }
{
    st.laws();
    let max = st.max(f);
    let mut pieces = List::new(st.alloc());
    let mut near = 0;
    let mut from = 0;
    loop {
        let (last, child) = part_near(st, d, f, from, &mut near);
        let (end, alone) = next_cut(values, from, last);
        let made = piece(st, f, from, alone, child)?;
        pieces.push((end, made))?;
        if end == max {
            return Ok(pieces);
        }
        from = end + 1;
    }
}

/// The diagram without the assignments of a value to a field, or the diagram itself.
fn piece(st: &mut Store, f: Fid, n: u64, alone: bool, d: Id) -> Result<Id, AllocError>
    requires { IsId st.old d }
    ensures grows { Grows st.old st.new }
    ensures ok { IfOk result
        (λ r. HasLeaves st.new r
        (λ pk. if alone then leaf_without f n (look st.old d pk) else look st.old d pk)) }
    ensures later { IfOk result (λ r. root_field st.old d ≤ root_field st.new r) }
{
    if alone {
        return map_leaves(st, &Without { field: f, value: n }, d);
    }
    st.laws();
    Ok(d)
}
