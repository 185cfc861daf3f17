//! Two sets of labels compared.
ghost use Rattle.std.specs.Prelude.{◌≡◌, ◌<◌, ℕ, true, false, List as Items, [], IfOk, OnOk, length, slice_index_or};
ghost use Rattle.nk_store.specs.StoreState.{IsStorePacket, Grows};
ghost use Rattle.nk_sets.specs.PacketSets.{is_in, IsSet};
ghost use Rattle.nk_determ.specs.Sets.{SetsGrow};
ghost use Rattle.nk_determ.specs.Pairs.{AreLabelsBelow};
ghost use Rattle.nk_merge.specs.Alike.{labels_after, AreAlike};
ghost use Rattle.nk_merge.specs.Distinguish.{Distinguishes};
ghost use Rattle.nk_merge.specs.Joined.{AreLevelsOfTwo};
ghost use Rattle.nk_merge.specs.DisjointCopies.{IsDisjointCopy};

use crate::disjoint_copy::DisjointCopy;
use crate::joined::joined;
use nk_apply::identity;
use nk_determ::{Levels, SetId, Sets};
use nk_reach::levels;
use nk_store::{Id, Store};
use nk_witness::{Found, least_history};
use std::alloc::AllocError;

/// Whether what is left after two sets of labels gives the same histories from every packet in range. The only error is that
/// memory ran out; then the store and the sets have only grown, and `disjoint` keeps its states.
pub(crate) fn are_alike(
    st: &mut Store,
    ss: &mut Sets,
    states: &[Id],
    disjoint: &mut DisjointCopy,
    s: SetId,
    t: SetId,
) -> Result<bool, AllocError>
    requires disjoint { IsDisjointCopy st.old states.now disjoint.old }
    requires first { s < length ss.old }
    requires second { t < length ss.old }
    requires first_places { AreLabelsBelow (length states.now)
        (labels_after (slice_index_or ss.old s [])) }
    requires second_places { AreLabelsBelow (length states.now)
        (labels_after (slice_index_or ss.old t [])) }
    ensures grows { Grows st.old st.new }
    ensures sets { SetsGrow ss.old ss.new }
    ensures disjoint { OnOk result (IsDisjointCopy st.new states.now disjoint.new) }
    ensures rows { disjoint.new.rows ≡ disjoint.old.rows }
    ensures yes { IfOk result
        (λ b. b ≡ true → AreAlike st.old states.now (labels_after (slice_index_or ss.old s []))
        (labels_after (slice_index_or ss.old t []))) }
    ensures no { IfOk result
        (λ b. b ≡ false → AreAlike st.old states.now (labels_after (slice_index_or ss.old s []))
        (labels_after (slice_index_or ss.old t [])) → ⊥) }
{
    if s == t {
        return Ok(true);
    }
    let lv = levels_of_two(st, ss, states, disjoint, s, t)?;
    Ok(!lv.broken())
}

/// Where what is left after two sets of labels doesn't give the same histories from every packet in range, the least history
/// that one of them gives alone; its side is the left one where that is the first set. The only error is that memory ran out; then
/// the store and the sets have only grown, `disjoint` keeps its states, and nothing is said of its goal.
pub fn distinguish(
    st: &mut Store,
    ss: &mut Sets,
    states: &[Id],
    disjoint: &mut DisjointCopy,
    s: SetId,
    t: SetId,
) -> Result<Option<Found>, AllocError>
    requires disjoint { IsDisjointCopy st.old states.now disjoint.old }
    requires first { s < length ss.old }
    requires second { t < length ss.old }
    requires first_places { AreLabelsBelow (length states.now)
        (labels_after (slice_index_or ss.old s [])) }
    requires second_places { AreLabelsBelow (length states.now)
        (labels_after (slice_index_or ss.old t [])) }
    ensures grows { Grows st.old st.new }
    ensures sets { SetsGrow ss.old ss.new }
    ensures disjoint { OnOk result (IsDisjointCopy st.new states.now disjoint.new) }
    ensures rows { disjoint.new.rows ≡ disjoint.old.rows }
    ensures ok { IfOk result
        (λ r. Distinguishes st.old states.now (labels_after (slice_index_or ss.old s []))
        (labels_after (slice_index_or ss.old t [])) r) }
{
    let both = levels_of_two(st, ss, states, disjoint, s, t)?;
    if !both.broken() {
        return Ok(None);
    }
    let found = least_history(st, ss, disjoint.rows.as_slice(), &both, &mut disjoint.goal)?;
    Ok(Some(found))
}

/// The levels of both sets together, from all packets, up to an end of one of them alone.
fn levels_of_two(
    st: &mut Store,
    ss: &mut Sets,
    states: &[Id],
    disjoint: &mut DisjointCopy,
    s: SetId,
    t: SetId,
) -> Result<Levels, AllocError>
    requires disjoint { IsDisjointCopy st.old states.now disjoint.old }
    requires first { s < length ss.old }
    requires second { t < length ss.old }
    requires first_places { AreLabelsBelow (length states.now)
        (labels_after (slice_index_or ss.old s [])) }
    requires second_places { AreLabelsBelow (length states.now)
        (labels_after (slice_index_or ss.old t [])) }
    ensures grows { Grows st.old st.new }
    ensures sets { SetsGrow ss.old ss.new }
    ensures disjoint { OnOk result (IsDisjointCopy st.new states.now disjoint.new) }
    ensures rows { disjoint.new.rows ≡ disjoint.old.rows }
    ensures ok { IfOk result
        (λ lv. AreLevelsOfTwo st.new ss.new states.now (labels_after (slice_index_or ss.old s []))
        (labels_after (slice_index_or ss.old t [])) disjoint.new lv.levels lv.broken) }
{
    let set = joined(st.alloc(), ss, s, t, states.len())?;
    let from = every_packet(st)?;
    st.laws();
    let lv = levels(
        st,
        ss,
        disjoint.rows.as_slice(),
        set,
        from,
        &mut disjoint.goal,
    )?;
    st.laws();
    Ok(lv)
}

/// The set of all packets.
#[tactic(auto, using(crate::proofs::Marks::everywhere))]
fn every_packet(st: &mut Store) -> Result<Id, AllocError>
    ensures grows { Grows st.old st.new }
    ensures set { IfOk result (λ d. IsSet st.new d) }
    ensures each { IfOk result
        (λ d. (pk : Items ℕ) → IsStorePacket st.new pk → is_in st.new d pk ≡ true) }
{
    identity(st)
}
