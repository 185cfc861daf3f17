//! Diagrams that test an interval of one field.
ghost use Rattle.std.specs.Prelude.{◌≡◌, ◌==◌, ◌<◌, ◌≤◌, [], ◌∷◌, if◌then◌else◌, min, IfOk, slice_index};
ghost use Rattle.nk_store.specs.StoreState.{IsChild, look, root_field, Grows, HasLeaves};
ghost use Rattle.nk_apply.specs.Spans.{spanned, span_list};
ghost use Rattle.nk_apply.specs.Seqs.{no_out, in_span};
ghost use Rattle.nk_apply.specs.Predicates.{IsPredicate};

use crate::constants::{empty, identity};
use nk_field::{Fid, List};
use nk_store::{Id, Store};
use std::alloc::{AllocError, Global};

/// The diagram `inside` where the field's value is from `lo` to `hi`, and `outside` elsewhere.
pub fn span(
    st: &mut Store,
    f: Fid,
    lo: u64,
    hi: u64,
    inside: Id,
    outside: Id,
) -> Result<Id, AllocError>
    requires field { f < 18 }
    requires order { lo ≤ hi }
    requires within { hi ≤ slice_index st.old.maxes f }
    requires inside { IsChild st.old f inside }
    requires outside { IsChild st.old f outside }
    ensures grows { Grows st.old st.new }
    ensures ok { IfOk result
        (λ d. HasLeaves st.new d
        (λ pk. look st.old (spanned (slice_index st.old.maxes f) lo hi inside outside
        (slice_index pk f)) pk)) }
    ensures later { IfOk result (λ d. f ≤ root_field st.new d) }
{
    let parts = span_parts(st.alloc(), st.max(f), lo, hi, inside, outside)?;
    st.case(f, parts)
}

/// The parts of such a diagram.
fn span_parts(
    alloc: Global,
    max: u64,
    lo: u64,
    hi: u64,
    inside: Id,
    outside: Id,
) -> Result<List<(u64, Id)>, AllocError>
    ensures { IfOk result (λ ps. ps ≡ span_list max lo hi inside outside) }
{
    let mut parts = List::with_capacity(alloc, 3)?;
    if lo != 0 {
        parts.push((lo - 1, outside))?;
    }
    parts.push((hi, inside))?;
    if hi != max {
        parts.push((max, outside))?;
    }
    Ok(parts)
}

/// The predicate that the field has this value.
pub fn test(st: &mut Store, f: Fid, n: u64) -> Result<Id, AllocError>
    requires field { f < 18 }
    requires within { n ≤ slice_index st.old.maxes f }
    ensures grows { Grows st.old st.new }
    ensures ok { IfOk result (λ d. HasLeaves st.new d
        (λ pk. if min (slice_index pk f) (slice_index st.old.maxes f) == n
        then no_out ∷ [] else [])) }
    ensures later { IfOk result (λ d. f ≤ root_field st.new d) }
    ensures predicate { IfOk result (λ d. IsPredicate st.new d) }
{
    at_value(st, f, n)
}

/// The packet itself where the field has the value, by its leaves.
fn at_value(st: &mut Store, f: Fid, n: u64) -> Result<Id, AllocError>
    requires field { f < 18 }
    requires within { n ≤ slice_index st.old.maxes f }
    ensures grows { Grows st.old st.new }
    ensures ok { IfOk result (λ d. HasLeaves st.new d
        (λ pk. if min (slice_index pk f) (slice_index st.old.maxes f) == n
        then no_out ∷ [] else [])) }
    ensures later { IfOk result (λ d. f ≤ root_field st.new d) }
{
    let inside = identity(st)?;
    let outside = empty(st)?;
    span(st, f, n, n, inside, outside)
}

/// The packet itself where the field's value is from lo to hi: nowhere where lo is above hi, and up to the field's largest
/// value where hi is above it.
pub fn range(st: &mut Store, f: Fid, lo: u64, hi: u64) -> Result<Id, AllocError>
    requires { f < 18 }
    ensures grows { Grows st.old st.new }
    ensures ok { IfOk result (λ d. HasLeaves st.new d
        (λ pk. in_span (slice_index st.old.maxes f) lo hi (slice_index pk f))) }
    ensures later { IfOk result (λ d. f ≤ root_field st.new d) }
    ensures predicate { IfOk result (λ d. IsPredicate st.new d) }
{
    in_interval(st, f, lo, hi)
}

/// The packet itself where the field's value is in the interval, by its leaves.
fn in_interval(st: &mut Store, f: Fid, lo: u64, hi: u64) -> Result<Id, AllocError>
    requires { f < 18 }
    ensures grows { Grows st.old st.new }
    ensures ok { IfOk result (λ d. HasLeaves st.new d
        (λ pk. in_span (slice_index st.old.maxes f) lo hi (slice_index pk f))) }
    ensures later { IfOk result (λ d. f ≤ root_field st.new d) }
{
    let end = hi.min(st.max(f));
    let outside = empty(st)?;
    if lo > end {
        return Ok(outside);
    }
    let inside = identity(st)?;
    span(st, f, lo, end, inside, outside)
}
