//! What the states after a set of labels do together, as one diagram.
ghost use Rattle.std.specs.Prelude.{◌≡◌, ◌+◌, ◌<◌, [], IfOk, length, map, slice_index, slice_index_or};
ghost use Rattle.nk_store.specs.StoreState.{Grows};
ghost use Rattle.nk_apply.specs.Unions.{AreIds};
ghost use Rattle.nk_determ.specs.Pairs.{AreLabelsBelow};
ghost use Rattle.nk_merge.specs.Alike.{labels_after};
ghost use Rattle.nk_merge.specs.Seen.{DoesTogether};

use nk_apply::union_all;
use nk_determ::{SetId, Sets};
use nk_field::List;
use nk_store::{Id, Store};
use std::alloc::{AllocError, Global};

/// The diagram of what the states after a set of labels do together. Sets with one diagram are alike.
pub fn diagram_after(st: &mut Store, ss: &Sets, states: &[Id], s: SetId) -> Result<Id, AllocError>
    requires states { AreIds st.old states.now }
    requires known { s < length ss.now }
    requires places { AreLabelsBelow (length states.now)
        (labels_after (slice_index_or ss.now s [])) }
    ensures grows { Grows st.old st.new }
    ensures does { IfOk result
        (λ d. DoesTogether st.new states.now (labels_after (slice_index_or ss.now s [])) d) }
{
    let ds = states_after(st.alloc(), states, ss.members(s))?;
    let d = union_all(st, ds.as_slice())?;
    Ok(d)
}

/// The states after labels.
fn states_after(alloc: Global, states: &[Id], labels: &[u64]) -> Result<List<Id>, AllocError>
    requires { AreLabelsBelow (length states.now) (labels_after labels.now) }
    ensures { IfOk result (λ ds. ds ≡ map (λ l. slice_index states.now (l + 1)) labels.now) }
{
    let mut ds = List::with_capacity(alloc, labels.len())?;
    for l in labels {
        ds.push(state_after(states, *l))?;
    }
    Ok(ds)
}

/// The state after a label.
fn state_after(states: &[Id], l: u64) -> Id
    requires { l + 1 < length states.now }
    ensures { result ≡ slice_index states.now (l + 1) }
{
    states[l as usize + 1]
}
