//! The diagrams of the tags of all switches.
ghost use Rattle.std.specs.Prelude.{◌<◌, ◌≤◌, All, IfOk, length};
ghost use Rattle.nk_store.specs.StoreState.{Grows};
ghost use Rattle.nk_apply.specs.Unions.{AreIds};
ghost use Rattle.nk_determ.specs.Sets.{SetsGrow};
ghost use Rattle.nk_group.specs.Matched.{Matched};
ghost use Rattle.nk_group.specs.States.{IsStateAtSwitch};
ghost use Rattle.nk_group.specs.Tagged.{members_of};
ghost use Rattle.nk_group.specs.Made.{AreStatesAt, TagsHaveLabelsBelow};

use crate::at_switch::switch_state;
use crate::members::members;
use crate::switch_tags::{SwitchStates, SwitchTags, TagState};
use nk_determ::{SetId, Sets};
use nk_field::List;
use nk_store::{Id, Store};
use std::alloc::AllocError;

/// The diagram of one tag's states at a switch.
pub fn tag_state(
    st: &mut Store,
    ss: &mut Sets,
    states: &[Id],
    tags: &[SetId],
    sw: u16,
    tag: u64,
) -> Result<Id, AllocError>
    requires states { AreIds st.old states.now }
    requires known { All (λ s. s < length ss.old) tags.now }
    requires within { tag ≤ length tags.now }
    requires places { All (λ l. l < length states.now) (members_of ss.old tags.now tag) }
    ensures grows { Grows st.old st.new }
    ensures sets { SetsGrow ss.old ss.new }
    ensures state { IfOk result
        (λ d. IsStateAtSwitch st.new ss.new states.now (members_of ss.old tags.now tag) sw d) }
{
    let places = members(st.alloc(), ss, tags, states.len(), tag)?;
    let d = switch_state(st, ss, states, places.as_slice(), sw)?;
    Ok(d)
}

/// The diagrams of a switch's tags.
fn switch_states(
    st: &mut Store,
    ss: &mut Sets,
    states: &[Id],
    tags: &[SetId],
    switch_entry: &SwitchTags,
) -> Result<SwitchStates, AllocError>
    requires states { AreIds st.old states.now }
    requires known { All (λ s. s < length ss.old) tags.now }
    requires places { TagsHaveLabelsBelow ss.old (length states.now) tags.now switch_entry.now }
    ensures grows { Grows st.old st.new }
    ensures sets { SetsGrow ss.old ss.new }
    ensures tag_states { IfOk result
        (AreStatesAt st.new ss.new states.now tags.now switch_entry.now) }
{
    let mut tag_states = List::new(st.alloc());
    for tag in switch_entry.tags.as_slice() {
        let diagram = tag_state(st, ss, states, tags, switch_entry.switch, *tag)?;
        tag_states.push(TagState { tag: *tag, diagram })?;
    }
    Ok(SwitchStates {
        switch: switch_entry.switch,
        tag_states,
    })
}

/// The diagrams of the tags of each switch.
pub fn all_states(
    st: &mut Store,
    ss: &mut Sets,
    states: &[Id],
    tags: &[SetId],
    by_switch: &[SwitchTags],
) -> Result<List<SwitchStates>, AllocError>
    requires states { AreIds st.old states.now }
    requires known { All (λ s. s < length ss.old) tags.now }
    requires places { All (TagsHaveLabelsBelow ss.old (length states.now) tags.now) by_switch.now }
    ensures grows { Grows st.old st.new }
    ensures sets { SetsGrow ss.old ss.new }
    ensures tag_states { IfOk result
        (Matched (AreStatesAt st.new ss.new states.now tags.now) by_switch.now) }
{
    let mut all = List::new(st.alloc());
    for switch_entry in by_switch {
        let tag_states = switch_states(st, ss, states, tags, switch_entry)?;
        all.push(tag_states)?;
    }
    Ok(all)
}
