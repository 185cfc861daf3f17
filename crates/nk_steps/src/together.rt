//! The steps of diagrams together.
ghost use Rattle.std.specs.Prelude.{ℕ, ◌+◌, ◌<◌, List as Items, IfOk, IfSome};
ghost use Rattle.nk_store.specs.StoreState.{IsId, IsStorePacket, Grows};
ghost use Rattle.nk_apply.specs.Unions.{AreIds};
ghost use Rattle.nk_determ.specs.Exact.{Sends};
ghost use Rattle.nk_determ.specs.Sets.{SetsGrow};
ghost use Rattle.nk_determ.specs.States.{SomeLeads, AreLedTo};

use crate::single::steps_single;
use crate::steps::steps_of;
use nk_determ::Sets;
use nk_store::{Id, Store};
use std::alloc::AllocError;

/// The steps of these diagrams together: for each packet that some diagram records next an out with target 1 + the number
/// of the set of all labels with which some diagram records it. Nothing is said of finals. Sets that aren't there yet are put
/// in. The only error is that memory ran out.
pub(crate) fn steps_together(
    st: &mut Store,
    ss: &mut Sets,
    diagrams: &[Id],
) -> Result<Id, AllocError>
    requires { AreIds st.old diagrams.now }
    ensures grows { Grows st.old st.new }
    ensures sets { SetsGrow ss.old ss.new }
    ensures id { IfOk result (λ r. IsId st.new r) }
    ensures leads { IfOk result
        (λ r. (pk y : Items ℕ) (i : ℕ) → IsStorePacket st.old pk → Sends st.new r pk y (i + 1) →
        AreLedTo ss.new st.old diagrams.now pk y i) }
    ensures led { IfOk result (λ r. (pk y : Items ℕ) (l : ℕ) → IsStorePacket st.old pk → 0 < l →
        SomeLeads st.old diagrams.now pk y l → (i : ℕ) × Sends st.new r pk y (i + 1)) }
{
    let one = steps_of_one(st, ss, diagrams)?;
    match one {
        Some(r) => Ok(r),
        None => steps_of(st, ss, diagrams),
    }
}

/// The steps of these diagrams together, where they are one diagram whose leaves have one label each at most; else `None`.
fn steps_of_one(st: &mut Store, ss: &mut Sets, diagrams: &[Id]) -> Result<Option<Id>, AllocError>
    requires { AreIds st.old diagrams.now }
    ensures grows { Grows st.old st.new }
    ensures sets { SetsGrow ss.old ss.new }
    ensures id { IfOk result (λ o. IfSome o (λ r. IsId st.new r)) }
    ensures leads { IfOk result
        (λ o. IfSome o (λ r. (pk y : Items ℕ) (i : ℕ) → IsStorePacket st.old pk →
        Sends st.new r pk y (i + 1) → AreLedTo ss.new st.old diagrams.now pk y i)) }
    ensures led { IfOk result
        (λ o. IfSome o (λ r. (pk y : Items ℕ) (l : ℕ) → IsStorePacket st.old pk → 0 < l →
        SomeLeads st.old diagrams.now pk y l → (i : ℕ) × Sends st.new r pk y (i + 1))) }
{
    if diagrams.len() != 1 {
        return Ok(None);
    }
    let steps = steps_single(st, ss, diagrams[0])?;
    Ok(steps)
}
