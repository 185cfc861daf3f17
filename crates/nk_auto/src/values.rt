//! A sum of tests and ranges of one field, as one node.
ghost use Rattle.std.specs.Prelude.{◌≡◌, ◌<◌, ◌++◌, [], ◌∷◌, min, slice_index, IfOk, IfSome, OnOk};
ghost use Rattle.nk_policy.specs.Policy.{sum_of};
ghost use Rattle.nk_policy.specs.Tree.{tree_of, trees_of};
ghost use Rattle.nk_store.specs.StoreState.{Grows, HasLeaves};
ghost use Rattle.nk_apply.specs.Predicates.{IsPredicate};
ghost use Rattle.nk_apply.specs.Seqs.{no_out};
ghost use Rattle.nk_apply.specs.Unions.{HaveParts};
ghost use Rattle.nk_auto.specs.Continued.{IsSilent};
ghost use Rattle.nk_auto.specs.Values.{KeepsWhere, HaveOneMore, value_leaf, IsConstant, gap};

use nk_algebra::{empty, identity};
use nk_field::{Fid, List};
use nk_policy::Pol;
use nk_store::{Id, Store};
use std::alloc::{AllocError, Global};

/// The diagram of a sum of three or more tests and ranges of one field, no two of which hold of one value: a predicate. None for
/// another policy.
#[tactic(auto, using(nk_policy::proofs::Trees::tree_of_sum))]
pub(crate) fn tests_of_sum(st: &mut Store, p: &Pol) -> Result<Option<Id>, AllocError>
    ensures grows { Grows st.old st.new }
    ensures ok { IfOk result (λ o. IfSome o (λ d. IsSilent st.new d (tree_of p.now))) }
    ensures predicate { IfOk result (λ o. IfSome o (λ d. IsPredicate st.new d)) }
{
    match p {
        Pol::Sum(ps) => tests_together(st, ps.as_slice()),
        _ => Ok(None),
    }
}

/// The diagram of the sum of these parts: three or more tests and ranges of one field, no two of which hold of one value. It is
/// a predicate. None for other parts.
pub(crate) fn tests_together(st: &mut Store, ps: &[Pol]) -> Result<Option<Id>, AllocError>
    ensures grows { Grows st.old st.new }
    ensures ok { IfOk result (λ o. IfSome o (λ d. IsSilent st.new d (sum_of (trees_of ps.now)))) }
    ensures predicate { IfOk result (λ o. IfSome o (λ d. IsPredicate st.new d)) }
{
    if ps.len() < 3 {
        return Ok(None);
    }
    match &ps[0] {
        Pol::Test(f, _) => tests_of(st, *f, ps),
        Pol::Range(f, _, _) => tests_of(st, *f, ps),
        _ => Ok(None),
    }
}

/// The diagram of the sum of these parts: tests and ranges of this field, no two of which hold of one value. It is a predicate.
/// None for other parts.
fn tests_of(st: &mut Store, f: Fid, ps: &[Pol]) -> Result<Option<Id>, AllocError>
    ensures grows { Grows st.old st.new }
    ensures ok { IfOk result (λ o. IfSome o (λ d. IsSilent st.new d (sum_of (trees_of ps.now)))) }
    ensures predicate { IfOk result (λ o. IfSome o (λ d. IsPredicate st.new d)) }
{
    match tested_values(st.alloc(), f, ps)? {
        Some(intervals) => values_where(st, f, intervals.as_slice()),
        None => Ok(None),
    }
}

/// The intervals of the values of tests and ranges of the field, by their ends, ascending; those of no value are left out.
fn tested_values(alloc: Global, f: Fid, ps: &[Pol]) -> Result<Option<List<(u64, u64)>>, AllocError>
    ensures { IfOk result (λ o.
        IfSome o (λ intervals. KeepsWhere f intervals (sum_of (trees_of ps.now)))) }
{
    let mut found = List::with_capacity(alloc, ps.len())?;
    let mut i = ps.len();
    while i > 0 {
        i -= 1;
        let Some(ends) = tested_value(&ps[i], f) else {
            return Ok(None);
        };
        push_values(&mut found, ends)?;
    }
    let mut intervals = found.into_vec();
    intervals.sort_unstable();
    Ok(Some(List::from_vec(intervals)))
}

/// The ends of the values of a test or a range of the field.
pub(crate) fn tested_value(p: &Pol, f: Fid) -> Option<(u64, u64)>
    ensures { IfSome result (λ ends. KeepsWhere f (ends ∷ []) (tree_of p.now)) }
{
    match p {
        Pol::Test(g, n) => { if *g == f { Some((*n, *n)) } else { None } }
        Pol::Range(g, lo, hi) => { if *g == f { Some((*lo, *hi)) } else { None } }
        _ => None,
    }
}

/// Puts the interval at the end, if it has a value.
fn push_values(found: &mut List<(u64, u64)>, ends: (u64, u64)) -> Result<(), AllocError>
    ensures { OnOk result (HaveOneMore found.old found.new ends) }
{
    if ends.0 <= ends.1 {
        found.push(ends)?;
    }
    Ok(())
}

/// The packet itself where the field's value is in one of the intervals. None where these don't ascend, each after the one
/// before, up to the field's largest value at most.
fn values_where(st: &mut Store, f: Fid, intervals: &[(u64, u64)]) -> Result<Option<Id>, AllocError>
    ensures grows { Grows st.old st.new }
    ensures ok { IfOk result (λ o. IfSome o (λ d. HasLeaves st.new d
        (λ pk. value_leaf intervals.now (min (slice_index pk f) (slice_index st.old.maxes f))))) }
{
    let _place = f.place();
    let outside = empty(st)?;
    let inside = identity(st)?;
    match value_parts(st, f, intervals, inside, outside)? {
        Some(parts) => {
            let d = st.case(f, parts)?;
            Ok(Some(d))
        }
        None => Ok(None),
    }
}

/// The parts by the field, with one child in these intervals and another one elsewhere, put in one pass.
fn value_parts(
    st: &Store,
    f: Fid,
    intervals: &[(u64, u64)],
    inside: Id,
    outside: Id,
) -> Result<Option<List<(u64, Id)>>, AllocError>
    requires field { f < 18 }
    requires inside { IsConstant st.now inside (no_out ∷ []) }
    requires outside { IsConstant st.now outside [] }
    ensures { IfOk result (λ o. IfSome o
        (HaveParts st.now f (λ v pk.
        value_leaf intervals.now (min v (slice_index st.now.maxes f))))) }
{
    let max = st.max(f);
    let most = intervals.len().saturating_mul(2).saturating_add(1);
    let mut parts = List::with_capacity(st.alloc(), most)?;
    let mut from = 0;
    for i in 0..intervals.len() {
        let (lo, hi) = intervals[i];
        if lo < from {
            return Ok(None);
        }
        if hi < lo {
            return Ok(None);
        }
        if hi > max {
            return Ok(None);
        }
        push_gap(&mut parts, from, lo, outside)?;
        parts.push((hi, inside))?;
        if hi == max {
            if i + 1 < intervals.len() {
                return Ok(None);
            }
            return Ok(Some(parts));
        }
        from = hi + 1;
    }
    parts.push((max, outside))?;
    Ok(Some(parts))
}

/// Puts the part for the values from low on that are below high, if there are any.
pub(crate) fn push_gap(
    parts: &mut List<(u64, Id)>,
    low: u64,
    high: u64,
    d: Id,
) -> Result<(), AllocError>
    ensures { OnOk result (parts.new ≡ parts.old ++ gap low high d) }
{
    if low < high {
        parts.push((high - 1, d))?;
    }
    Ok(())
}
