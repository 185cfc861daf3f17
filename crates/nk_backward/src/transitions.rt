//! The transitions between sets of labels at packets.
ghost use Rattle.std.specs.Prelude.{◌≡◌, ◌<◌, [], IfOk, OnOk, length, slice_index_or};
ghost use Rattle.nk_store.specs.StoreState.{Grows};
ghost use Rattle.nk_sets.specs.PacketSets.{IsSet};
ghost use Rattle.nk_determ.specs.Sets.{SetsGrow, HasEachSetOnce};
ghost use Rattle.nk_determ.specs.Pairs.{AreStates, AreLabelsBelow, EachPair, IsPair};
ghost use Rattle.nk_backward.specs.Transitions.{explored_entries, AreStepsFrom, AreTransitions};

use crate::entries::all_entries;
use nk_determ::{Levels, SetId, Sets};
use nk_field::List;
use nk_sets::{OutPackets, packets_by_out};
use nk_steps::local_state;
use nk_store::{Id, Store};
use std::alloc::AllocError;

/// The transitions from a set of labels at some packets: each out leads its packets to the set of its target.
pub(crate) struct Transitions {
    /// The set.
    pub(crate) source: SetId,
    /// The outs, each with its packets.
    pub(crate) outs: List<OutPackets>,
}

impl Drop for Transitions {
    fn drop(self) {
        let Self { source: _, outs: _ } = self;
    }
}

/// The set states at packets that are visited, with all transitions from them.
pub(crate) struct Graph {
    /// Sets of labels with packets at which they are visited.
    pub(crate) entries: List<(SetId, Id)>,
    /// The transitions from these packets.
    pub(crate) transitions: List<Transitions>,
}

impl Drop for Graph {
    fn drop(self) {
        let Self {
            entries: _,
            transitions: _,
        } = self;
    }
}

/// The graph of all levels. The only error is that memory ran out.
pub(crate) fn graph_of(
    st: &mut Store,
    ss: &mut Sets,
    states: &[Id],
    l: &Levels,
) -> Result<Graph, AllocError>
    requires states { AreStates st.old states.now }
    requires entries { EachPair (IsPair st.old ss.old (length states.now))
        (explored_entries l.now.levels) }
    ensures grows { Grows st.old st.new }
    ensures sets { SetsGrow ss.old ss.new }
    ensures differ { OnOk result (HasEachSetOnce ss.new) }
    ensures entries { IfOk result (λ gr. gr.entries ≡ explored_entries l.now.levels) }
    ensures ok { IfOk result
        (λ gr. AreTransitions st.old ss.old states.now gr.entries st.new ss.new gr.transitions) }
{
    let entries = all_entries(st.alloc(), l)?;
    let transitions = transitions_of(st, ss, states, &entries)?;
    Ok(Graph {
        entries,
        transitions,
    })
}

/// The transitions from the packets of some entries.
fn transitions_of(
    st: &mut Store,
    ss: &mut Sets,
    states: &[Id],
    entries: &List<(SetId, Id)>,
) -> Result<List<Transitions>, AllocError>
    requires states { AreStates st.old states.now }
    requires entries { EachPair (IsPair st.old ss.old (length states.now)) entries.now }
    ensures grows { Grows st.old st.new }
    ensures sets { SetsGrow ss.old ss.new }
    ensures differ { OnOk result (HasEachSetOnce ss.new) }
    ensures ok { IfOk result
        (λ ts. AreTransitions st.old ss.old states.now entries.now st.new ss.new ts) }
{
    let mut all = List::new(st.alloc());
    for k in 0..entries.len() {
        let (s, x) = *entries.at(k);
        let outs = outs_from(st, ss, states, s, x)?;
        all.push(Transitions { source: s, outs })?;
    }
    ss.differ();
    Ok(all)
}

/// The outs of a set of labels at some packets.
fn outs_from(
    st: &mut Store,
    ss: &mut Sets,
    states: &[Id],
    s: SetId,
    x: Id,
) -> Result<List<OutPackets>, AllocError>
    requires states { AreStates st.old states.now }
    requires set { s < length ss.old }
    requires places { AreLabelsBelow (length states.now) (slice_index_or ss.old s []) }
    requires packets { IsSet st.old x }
    ensures grows { Grows st.old st.new }
    ensures sets { SetsGrow ss.old ss.new }
    ensures ok { IfOk result
        (λ es. AreStepsFrom st.old states.now (slice_index_or ss.old s []) x st.new ss.new es) }
{
    let d = local_state(st, ss, states, s, x)?;
    let outs = packets_by_out(st, d)?;
    Ok(outs)
}
