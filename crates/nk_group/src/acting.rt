//! The diagrams of the classes of all switches.
ghost use Rattle.std.specs.Prelude.{◌<◌, ℕ, if◌then◌else◌, All, IfOk, length};
ghost use Rattle.nk_store.specs.StoreState.{IsId, Grows, HasLeaves, look};
ghost use Rattle.nk_apply.specs.PacketSets.{is_in};
ghost use Rattle.nk_apply.specs.Unions.{AreIds};
ghost use Rattle.nk_determ.specs.Sets.{SetsGrow};
ghost use Rattle.nk_group.specs.Matched.{Matched};
ghost use Rattle.nk_group.specs.States.{IsStateAtSwitch};
ghost use Rattle.nk_group.specs.Tagged.{members_of};
ghost use Rattle.nk_group.specs.Classed.{HaveActing, HaveClasses, IsActingTag, IsInFront, IsActingState, AreClassStates};

use crate::switch_tags::{ActingTag, ClassHere, SwitchClasses, SwitchStates, TagState};
use crate::tag_states::tag_state;
use nk_apply::{both, negate, restrict, union};
use nk_determ::{SetId, Sets};
use nk_field::{Fid, List};
use nk_store::{Id, Store};
use std::alloc::AllocError;

/// The first diagram at the packets of a set, the second elsewhere.
fn either(st: &mut Store, s: Id, first: Id, second: Id) -> Result<Id, AllocError>
    requires set { IsId st.old s }
    requires first { IsId st.old first }
    requires second { IsId st.old second }
    ensures grows { Grows st.old st.new }
    ensures ok { IfOk result
        (λ r. HasLeaves st.new r
        (λ pk. if is_in st.old s pk then look st.old first pk else look st.old second pk)) }
{
    let others = negate(st, s)?;
    let inside = both(st, s, first)?;
    let outside = both(st, others, second)?;
    union(st, inside, outside)
}

/// The diagram of a tag's states at its packets, and elsewhere another diagram.
fn in_front(
    st: &mut Store,
    ss: &mut Sets,
    states: &[Id],
    tags: &[SetId],
    tag: Fid,
    sw: u16,
    a: ActingTag,
    rest: Id,
) -> Result<Id, AllocError>
    requires states { AreIds st.old states.now }
    requires known { All (λ s. s < length ss.old) tags.now }
    requires acting { IsActingTag st.old ss.old (length states.now) tags.now a }
    requires rest { IsId st.old rest }
    requires field { tag < 18 }
    ensures grows { Grows st.old st.new }
    ensures sets { SetsGrow ss.old ss.new }
    ensures front { IfOk result
        (λ d. (e : ℕ) × IsStateAtSwitch st.new ss.new states.now
        (members_of ss.old tags.now a.tag) sw e × IsInFront st.new tag a e rest d) }
{
    let e = tag_state(st, ss, states, tags, sw, a.tag)?;
    let here = restrict(st, a.packets, tag, 0)?;
    either(st, here, e, rest)
}

/// The diagram of a class at a switch: at each packet what the states of the tag do that acts there.
fn acting_state(
    st: &mut Store,
    ss: &mut Sets,
    states: &[Id],
    tags: &[SetId],
    tag: Fid,
    sw: u16,
    h: &ClassHere,
) -> Result<Id, AllocError>
    requires states { AreIds st.old states.now }
    requires known { All (λ s. s < length ss.old) tags.now }
    requires acting { HaveActing st.old ss.old (length states.now) tags.now h.now }
    requires field { tag < 18 }
    ensures grows { Grows st.old st.new }
    ensures sets { SetsGrow ss.old ss.new }
    ensures state { IfOk result
        (λ d. IsActingState st.new ss.new states.now tags.now tag sw h.now.acting h.now.other d) }
{
    let acting = h.acting.as_slice();
    let mut d = tag_state(st, ss, states, tags, sw, h.other)?;
    let mut i = acting.len();
    while i > 0 {
        i -= 1;
        d = in_front(st, ss, states, tags, tag, sw, acting[i], d)?;
    }
    Ok(d)
}

/// The diagrams of a switch's classes.
fn class_states(
    st: &mut Store,
    ss: &mut Sets,
    states: &[Id],
    tags: &[SetId],
    tag: Fid,
    switch_entry: &SwitchClasses,
) -> Result<SwitchStates, AllocError>
    requires states { AreIds st.old states.now }
    requires known { All (λ s. s < length ss.old) tags.now }
    requires acting { HaveClasses st.old ss.old (length states.now) tags.now switch_entry.now }
    requires field { tag < 18 }
    ensures grows { Grows st.old st.new }
    ensures sets { SetsGrow ss.old ss.new }
    ensures tag_states { IfOk result
        (AreClassStates st.new ss.new states.now tags.now tag switch_entry.now) }
{
    let mut tag_states = List::new(st.alloc());
    for h in switch_entry.classes.as_slice() {
        let diagram = acting_state(st, ss, states, tags, tag, switch_entry.switch, h)?;
        tag_states.push(TagState {
            tag: h.class,
            diagram,
        })?;
    }
    Ok(SwitchStates {
        switch: switch_entry.switch,
        tag_states,
    })
}

/// The diagrams of the classes of each switch.
pub fn all_class_states(
    st: &mut Store,
    ss: &mut Sets,
    states: &[Id],
    tags: &[SetId],
    tag: Fid,
    by_switch: &[SwitchClasses],
) -> Result<List<SwitchStates>, AllocError>
    requires states { AreIds st.old states.now }
    requires known { All (λ s. s < length ss.old) tags.now }
    requires acting { All (HaveClasses st.old ss.old (length states.now) tags.now) by_switch.now }
    requires field { tag < 18 }
    ensures grows { Grows st.old st.new }
    ensures sets { SetsGrow ss.old ss.new }
    ensures tag_states { IfOk result
        (Matched (AreClassStates st.new ss.new states.now tags.now tag) by_switch.now) }
{
    let mut all = List::new(st.alloc());
    for switch_entry in by_switch {
        let tag_states = class_states(st, ss, states, tags, tag, switch_entry)?;
        all.push(tag_states)?;
    }
    Ok(all)
}
