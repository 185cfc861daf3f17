//! The diagram of a set state at some packets alone.
ghost use Rattle.std.specs.Prelude.{◌≡◌, ◌↔◌, ℕ, ◌<◌, [], Contains, IfOk, OnOk, length, slice_index, slice_index_or};
ghost use Rattle.std.specs.List.Sorted.{IsStrictlyIncreasing};
ghost use Rattle.nk_store.specs.StoreState.{IsId, look, Grows};
ghost use Rattle.nk_apply.specs.Leaves.{guarded};
ghost use Rattle.nk_apply.specs.Unions.{AreIds};
ghost use Rattle.nk_sets.specs.PacketSets.{IsSet};
ghost use Rattle.nk_determ.specs.Sets.{SetsGrow, HasEachSetOnce};
ghost use Rattle.nk_determ.specs.States.{HaveEach};
ghost use Rattle.nk_determ.specs.Pairs.{AreStates, AreLabelsBelow};
ghost use Rattle.nk_steps.specs.Local.{IsStateAt};

use crate::by_act::{acts_of, steps_by_act};
use crate::together::steps_together;
use nk_determ::{SetId, Sets, state_at, states_at};
use nk_field::List;
use nk_sets::at_packets;
use nk_store::{Id, Store};
use std::alloc::AllocError;

/// The diagram of a set of labels at some packets alone: each of its outs but the finals is a step of the set, and each
/// step of the set at these packets is an out. States that are leaves with few acts that assign the same fields are put together
/// act by act, each state once, and cut to these packets at the end. The only error is that memory ran out.
pub fn local_state(
    st: &mut Store,
    ss: &mut Sets,
    states: &[Id],
    s: SetId,
    x: Id,
) -> Result<Id, AllocError>
    requires states { AreStates st.old states.now }
    requires set { s < length ss.old }
    requires places { AreLabelsBelow (length states.now) (slice_index_or ss.old s []) }
    requires packets { IsSet st.old x }
    ensures grows { Grows st.old st.new }
    ensures sets { SetsGrow ss.old ss.new }
    ensures differ { OnOk result (HasEachSetOnce ss.new) }
    ensures ok { IfOk result
        (λ d. IsStateAt st.old states.now (slice_index_or ss.old s []) x st.new ss.new d) }
{
    let all = states_at(st.alloc(), states, ss.members(s))?;
    let once = each_once(all);
    let diagrams = once.as_slice();
    let Some(acts) = acts_of(st, diagrams)? else {
        return cut_first(st, ss, states, s, x);
    };
    let steps = steps_by_act(st, ss, diagrams, acts)?;
    let d = at_packets(st, x, steps)?;
    ss.differ();
    st.laws();
    Ok(d)
}

/// The diagram of a set of labels at some packets alone: each state is cut to the packets, and then all are put together.
fn cut_first(
    st: &mut Store,
    ss: &mut Sets,
    states: &[Id],
    s: SetId,
    x: Id,
) -> Result<Id, AllocError>
    requires states { AreStates st.old states.now }
    requires set { s < length ss.old }
    requires places { AreLabelsBelow (length states.now) (slice_index_or ss.old s []) }
    requires packets { IsSet st.old x }
    ensures grows { Grows st.old st.new }
    ensures sets { SetsGrow ss.old ss.new }
    ensures differ { OnOk result (HasEachSetOnce ss.new) }
    ensures ok { IfOk result
        (λ d. IsStateAt st.old states.now (slice_index_or ss.old s []) x st.new ss.new d) }
{
    let cut = cut_states(st, states, ss.members(s), x)?;
    let d = steps_together(st, ss, cut.as_slice())?;
    ss.differ();
    st.laws();
    Ok(d)
}

/// The states at some labels, each at some packets alone.
fn cut_states(st: &mut Store, states: &[Id], labels: &[u64], x: Id) -> Result<List<Id>, AllocError>
    requires states { AreIds st.old states.now }
    requires places { AreLabelsBelow (length states.now) labels.now }
    requires packets { IsSet st.old x }
    ensures grows { Grows st.old st.new }
    ensures len { IfOk result (λ ds. length ds ≡ length labels.now) }
    ensures ok { IfOk result (λ ds. HaveEach st.new ds
        (λ k pk. guarded (look st.old x pk)
        (look st.old (slice_index states.now (slice_index labels.now k)) pk)) (length ds)) }
{
    let mut ds = List::with_capacity(st.alloc(), labels.len())?;
    for l in labels {
        let d = at_packets(st, x, state_at(states, *l))?;
        ds.push(d)?;
    }
    Ok(ds)
}

/// The diagrams in order, each once.
pub fn each_once(ds: List<Id>) -> List<Id>
    ensures members { (d : ℕ) → Contains result d ↔ Contains ds d }
    ensures once { IsStrictlyIncreasing result }
{
    let mut all = ds.into_vec();
    all.sort_unstable();
    all.dedup();
    List::from_vec(all)
}
