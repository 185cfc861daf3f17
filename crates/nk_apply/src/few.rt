//! The parts of many diagrams together, interval by interval, where these are few.
ghost use Rattle.std.specs.Prelude.{◌≡◌, ◌<◌, ◌≤◌, IfOk, IfSome, length, slice_index};
ghost use Rattle.nk_store.specs.StoreState.{root_field, Grows, HasLeaves};
ghost use Rattle.nk_apply.specs.Unions.{AreIds, AreFrom, AreSteady, HaveParts, cofactor_leaf, over_places, cofactors};

use crate::many::union_many;
use crate::part::part_at;
use nk_field::{Fid, List};
use nk_store::{Id, Node, Store};
use std::alloc::AllocError;

/// Up to how many intervals are put together one by one.
const FEW: usize = 4;

/// Whether these diagrams have few intervals of the field's values between them.
pub(crate) fn are_few(st: &Store, f: Fid, ds: &[Id]) -> bool
    requires { AreIds st.now ds.now }
{
    let mut ends = [0; FEW];
    let mut count = 0;
    for i in 0..ds.len() {
        if let Node::Case(g, parts) = st.view(ds[i]) {
            if *g == f {
                match with_ends(&mut ends, count, parts.as_slice()) {
                    Some(more) => count = more,
                    None => return false,
                }
            }
        }
    }
    true
}

/// Puts the ends of these parts after the first so many, each once, and tells how many there are then: none where they are
/// more than few.
fn with_ends(ends: &mut [u64; 4], count: usize, parts: &[(u64, Id)]) -> Option<usize>
    requires { count ≤ 4 }
    ensures { IfSome result (λ more. more ≤ 4) }
{
    if parts.len() > FEW {
        return None;
    }
    let mut more = count;
    for (end, _) in parts {
        if !is_among(ends, more, *end) {
            if more == FEW {
                return None;
            }
            ends[more] = *end;
            more += 1;
        }
    }
    Some(more)
}

/// Whether an end is among the first so many.
fn is_among(ends: &[u64; 4], count: usize, end: u64) -> bool
    requires { count ≤ 4 }
{
    for i in 0..count {
        if ends[i] == end {
            return true;
        }
    }
    false
}

/// The parts by the field, at each interval all that these diagrams are there together.
pub(crate) fn few_parts(st: &mut Store, f: Fid, ds: &[Id]) -> Result<List<(u64, Id)>, AllocError>
    requires field { f < 18 }
    requires ids { AreIds st.old ds.now }
    requires first { AreFrom st.old f ds.now }
    requires some { 0 < length ds.now }
    ensures grows { Grows st.old st.new }
    ensures ok { IfOk result
        (HaveParts st.new f (λ v pk.
        over_places (cofactor_leaf st.old f ds.now v pk) 0 (length ds.now))) }
{
    st.laws();
    let max = st.max(f);
    let mut parts = List::new(st.alloc());
    let mut from = 0;
    loop {
        let (end, children) = interval_at(st, f, ds, from)?;
        let child = union_there(st, f, ds, from, children.as_slice())?;
        parts.push((end, child))?;
        if end == max {
            return Ok(parts);
        }
        from = end + 1;
    }
}

/// What these diagrams are at a value of the field, and up to which value from this one on none of them changes.
fn interval_at(st: &Store, f: Fid, ds: &[Id], v: u64) -> Result<(u64, List<Id>), AllocError>
    requires field { f < 18 }
    requires ids { AreIds st.now ds.now }
    requires first { AreFrom st.now f ds.now }
    requires within { v ≤ slice_index st.now.maxes f }
    ensures from { IfOk result (λ p. v ≤ p.0) }
    ensures within { IfOk result (λ p. p.0 ≤ slice_index st.now.maxes f) }
    ensures steady { IfOk result (λ p. AreSteady st.now f ds.now v p.0) }
    ensures children { IfOk result (λ p. p.1 ≡ cofactors st.now f v ds.now) }
{
    let mut end = st.max(f);
    let mut all = List::with_capacity(st.alloc(), ds.len())?;
    for i in 0..ds.len() {
        let (until, child) = part_at(st, ds[i], f, v);
        end = end.min(until);
        all.push(child)?;
    }
    Ok((end, all))
}

/// All that these diagrams are at a value of the field together.
fn union_there(st: &mut Store, f: Fid, ds: &[Id], v: u64, children: &[Id]) -> Result<Id, AllocError>
    requires field { f < 18 }
    requires ids { AreIds st.old ds.now }
    requires first { AreFrom st.old f ds.now }
    requires some { 0 < length ds.now }
    requires children { children.now ≡ cofactors st.old f v ds.now }
    ensures grows { Grows st.old st.new }
    ensures ok { IfOk result
        (λ r. HasLeaves st.new r
        (λ pk. over_places (cofactor_leaf st.old f ds.now v pk) 0 (length ds.now))) }
    ensures later { IfOk result (λ r. f < root_field st.new r) }
{
    st.laws();
    union_many(st, children)
}
