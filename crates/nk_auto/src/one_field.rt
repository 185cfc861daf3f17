//! The diagrams of a test, of a range and of an assignment, of a value past the field's highest too.
ghost use Rattle.std.specs.Prelude.{◌==◌, ◌∷◌, [], if◌then◌else◌, nat_le, min, slice_index, IfOk};
ghost use Rattle.nk_store.specs.StoreState.{Grows, HasLeaves};
ghost use Rattle.nk_apply.specs.Predicates.{IsPredicate};
ghost use Rattle.nk_apply.specs.Seqs.{in_span};
ghost use Rattle.nk_auto.specs.Values.{one_out};

use nk_algebra::{assign, empty, range, test};
use nk_field::Fid;
use nk_store::{Id, Store};
use std::alloc::AllocError;

/// The packet itself where the field has the value; nothing for a value past the field's highest.
pub(crate) fn test_where(st: &mut Store, f: Fid, n: u64) -> Result<Id, AllocError>
    ensures grows { Grows st.old st.new }
    ensures ok { IfOk result (λ d. HasLeaves st.new d
        (λ pk. if min (slice_index pk f) (slice_index st.old.maxes f) == n
        then record { act = []; target = 0 } ∷ [] else [])) }
    ensures predicate { IfOk result (λ d. IsPredicate st.new d) }
{
    let _place = f.place();
    if n <= st.max(f) {
        test(st, f, n)
    } else {
        nothing(st)
    }
}

/// The packet itself where the field's value is from the first to the second.
pub(crate) fn range_where(st: &mut Store, f: Fid, lo: u64, hi: u64) -> Result<Id, AllocError>
    ensures grows { Grows st.old st.new }
    ensures ok { IfOk result (λ d. HasLeaves st.new d
        (λ pk. in_span (slice_index st.old.maxes f) lo hi (slice_index pk f))) }
    ensures predicate { IfOk result (λ d. IsPredicate st.new d) }
{
    let _place = f.place();
    range(st, f, lo, hi)
}

/// The packet with the field set; nothing for a value past the field's highest.
pub(crate) fn set_where(st: &mut Store, f: Fid, n: u64) -> Result<Id, AllocError>
    ensures grows { Grows st.old st.new }
    ensures ok { IfOk result (λ d. HasLeaves st.new d
        (λ pk. if nat_le n (slice_index st.old.maxes f) then one_out f n ∷ [] else [])) }
{
    let _place = f.place();
    if n <= st.max(f) {
        assign(st, f, n)
    } else {
        nothing(st)
    }
}

/// No packet.
fn nothing(st: &mut Store) -> Result<Id, AllocError>
    ensures grows { Grows st.old st.new }
    ensures ok { IfOk result (λ d. HasLeaves st.new d (λ pk. [])) }
    ensures predicate { IfOk result (λ d. IsPredicate st.new d) }
{
    empty(st)
}
