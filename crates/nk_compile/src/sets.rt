//! Sets of packets as diagrams: where packets are.
ghost use Rattle.std.specs.Prelude.{◌≤◌, ◌==◌, ◌&&◌, not, slice_index, IfOk};
ghost use Rattle.nk_store.specs.StoreState.{IsId, Grows, look};
ghost use Rattle.nk_apply.specs.Predicates.{IsPredicate};
ghost use Rattle.nk_compile.specs.PacketSets.{has_some_out, IsSetInRange};

use nk_apply::{both, negate, test};
use nk_field::Fid;
use nk_store::{Id, Store};
use std::alloc::AllocError;

/// The packets with a value at a field.
pub(crate) fn with_value(st: &mut Store, f: Fid, n: u64) -> Result<Id, AllocError>
    requires { n ≤ slice_index st.old.maxes f }
    ensures grows { Grows st.old st.new }
    ensures set { IfOk result (λ d. IsSetInRange st.new d (λ pk. slice_index pk f == n)) }
{
    let _place = f.place();
    test(st, f, n)
}

/// The packets in both sets.
pub(crate) fn in_both(st: &mut Store, a: Id, b: Id) -> Result<Id, AllocError>
    requires left { IsId st.old a }
    requires right { IsId st.old b }
    ensures grows { Grows st.old st.new }
    ensures set { IfOk result
        (λ d. IsSetInRange st.new d
        (λ pk. has_some_out (look st.old a pk) && has_some_out (look st.old b pk))) }
{
    both(st, a, b)
}

/// The packets that are not in the set.
pub(crate) fn outside(st: &mut Store, a: Id) -> Result<Id, AllocError>
    requires { IsId st.old a }
    ensures grows { Grows st.old st.new }
    ensures set { IfOk result
        (λ d. IsSetInRange st.new d (λ pk. not (has_some_out (look st.old a pk)))) }
    ensures predicate { IfOk result (λ d. IsPredicate st.new d) }
{
    negate(st, a)
}

/// The packets of the set, which passes them as they are.
pub(crate) fn passing(st: &mut Store, a: Id) -> Result<Id, AllocError>
    requires { IsId st.old a }
    ensures grows { Grows st.old st.new }
    ensures set { IfOk result (λ d. IsSetInRange st.new d (λ pk. has_some_out (look st.old a pk))) }
    ensures predicate { IfOk result (λ d. IsPredicate st.new d) }
{
    let others = outside(st, a)?;
    outside(st, others)
}
