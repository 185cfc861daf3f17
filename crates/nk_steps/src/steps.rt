//! The steps of diagrams together: of their union, split field by field only where its leaves need it.
ghost use Rattle.std.specs.Prelude.{ℕ, ◌+◌, ◌<◌, List as Items, IfOk};
ghost use Rattle.nk_store.specs.StoreState.{IsId, IsStorePacket, Grows};
ghost use Rattle.nk_apply.specs.Unions.{AreIds};
ghost use Rattle.nk_determ.specs.Exact.{Sends};
ghost use Rattle.nk_determ.specs.Sets.{SetsGrow};
ghost use Rattle.nk_determ.specs.States.{SomeLeads, AreLedTo};

use crate::plain::is_plain;
use nk_apply::union_all;
use nk_determ::{Sets, regroup, state_of};
use nk_store::{Id, Store};
use std::alloc::AllocError;

/// The steps of these diagrams together: for each packet that some diagram records next an out with target 1 + the number of
/// the set of all labels with which some diagram records it. Sets that aren't there yet are put in. Nothing is said of
/// finals. The acts of the answer may assign what they don't change. The only error is that memory ran out.
pub(crate) fn steps_of(st: &mut Store, ss: &mut Sets, diagrams: &[Id]) -> Result<Id, AllocError>
    requires { AreIds st.old diagrams.now }
    ensures grows { Grows st.old st.new }
    ensures sets { SetsGrow ss.old ss.new }
    ensures id { IfOk result (λ r. IsId st.new r) }
    ensures leads { IfOk result
        (λ r. (pk y : Items ℕ) (i : ℕ) → IsStorePacket st.old pk → Sends st.new r pk y (i + 1) →
        AreLedTo ss.new st.old diagrams.now pk y i) }
    ensures led { IfOk result (λ r. (pk y : Items ℕ) (l : ℕ) → IsStorePacket st.old pk → 0 < l →
        SomeLeads st.old diagrams.now pk y l → (i : ℕ) × Sends st.new r pk y (i + 1)) }
{
    let d = union_all(st, diagrams)?;
    st.laws();
    if is_plain(st, d)? {
        regroup(st, ss, d)
    } else {
        state_of(st, ss, diagrams)
    }
}
