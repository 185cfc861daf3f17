//! The classes of tags.
ghost use Rattle.std.specs.Prelude.{◌≡◌, ◌+◌, ◌^◌, ◌<◌, ◌≤◌, ℕ, suc, nat_eq, [], ◌∷◌, ◌++◌, All, IfOk, OnOk, length, slice_index, slice_index_or};
ghost use Rattle.std.specs.Map.{lookup};
ghost use Rattle.nk_store.specs.StoreState.{Grows};
ghost use Rattle.nk_determ.specs.Sets.{SetsGrow};
ghost use Rattle.nk_determ.specs.Pairs.{AreLabelsBelow};
ghost use Rattle.nk_merge.specs.Alike.{labels_after, tag_set, AreAlike, AreTagsAlike};
ghost use Rattle.nk_merge.specs.Classes.{AreClasses, AreFirsts, with_first_member};
ghost use Rattle.nk_merge.specs.Seen.{DoesTogether, AreSeenDiagrams};
ghost use Rattle.nk_merge.specs.DisjointCopies.{IsDisjointCopy};

use crate::disjoint_copy::DisjointCopy;
use crate::distinguishing::are_alike;
use crate::together::diagram_after;
use nk_determ::{SetId, Sets};
use nk_field::List;
use nk_store::{Id, Store};
use std::alloc::AllocError;
use std::collections::HashMap;

/// The classes of tags.
#[derive(Drop)]
pub struct Classes {
    /// By tag the number of its class: classes are numbered from 1 by their first tag.
    pub numbers: List<u64>,
    /// By class, from class 1 on, the place of its first tag.
    pub firsts: List<usize>,
}

/// The class of each tag: two tags are of one class where what is left after their sets gives the same histories from every
/// packet in range. `tags` are the tags' sets in their order. The only error is that memory ran out; then the store and the sets have
/// only grown, `disjoint` keeps its states, and nothing is said of its goal.
pub fn classes_of(
    st: &mut Store,
    ss: &mut Sets,
    states: &[Id],
    disjoint: &mut DisjointCopy,
    tags: &[SetId],
) -> Result<Classes, AllocError>
    requires disjoint { IsDisjointCopy st.old states.now disjoint.old }
    requires known { All (λ s. s < length ss.old) tags.now }
    requires places { All (λ s.
        AreLabelsBelow (length states.now) (labels_after (slice_index_or ss.old s []))) tags.now }
    ensures grows { Grows st.old st.new }
    ensures sets { SetsGrow ss.old ss.new }
    ensures disjoint { OnOk result (IsDisjointCopy st.new states.now disjoint.new) }
    ensures rows { disjoint.new.rows ≡ disjoint.old.rows }
    ensures classes { IfOk result
        (λ c. AreClasses (AreTagsAlike st.old states.now ss.old tags.now)
        (length tags.now) c.numbers) }
    ensures firsts { IfOk result (λ c. AreFirsts c.numbers c.firsts) }
{
    let mut all = Classes {
        numbers: List::new(st.alloc()),
        firsts: List::new(st.alloc()),
    };
    put_classes(st, ss, states, disjoint, tags, &mut all)?;
    Ok(all)
}

/// Puts each tag into its class, of which there is none before.
fn put_classes(
    st: &mut Store,
    ss: &mut Sets,
    states: &[Id],
    disjoint: &mut DisjointCopy,
    tags: &[SetId],
    all: &mut Classes,
) -> Result<(), AllocError>
    requires disjoint { IsDisjointCopy st.old states.now disjoint.old }
    requires known { All (λ s. s < length ss.old) tags.now }
    requires places { All (λ s.
        AreLabelsBelow (length states.now) (labels_after (slice_index_or ss.old s []))) tags.now }
    requires no_number { all.old.numbers ≡ [] }
    requires no_first { all.old.firsts ≡ [] }
    ensures grows { Grows st.old st.new }
    ensures sets { SetsGrow ss.old ss.new }
    ensures disjoint { OnOk result (IsDisjointCopy st.new states.now disjoint.new) }
    ensures rows { disjoint.new.rows ≡ disjoint.old.rows }
    ensures classes { OnOk result
        (AreClasses (AreTagsAlike st.old states.now ss.old tags.now)
        (length tags.now) all.new.numbers) }
    ensures firsts { OnOk result (AreFirsts all.new.numbers all.new.firsts) }
{
    let mut seen = HashMap::new(st.alloc());
    for i in 0..tags.len() {
        let s = tags[i];
        let d = diagram_after(st, ss, states, s)?;
        let firsts = all.firsts.as_slice();
        let c = class_by(st, ss, states, disjoint, tags, firsts, &seen, d, s)?;
        add(all, i, c)?;
        seen.insert(d, c)?;
    }
    Ok(())
}

/// The place of a tag's class: where its diagram was seen before, that one's, else by comparisons with the first tags.
fn class_by(
    st: &mut Store,
    ss: &mut Sets,
    states: &[Id],
    disjoint: &mut DisjointCopy,
    tags: &[SetId],
    firsts: &[usize],
    seen: &HashMap<Id, usize>,
    d: Id,
    s: SetId,
) -> Result<usize, AllocError>
    requires disjoint { IsDisjointCopy st.old states.now disjoint.old }
    requires known { All (λ s. s < length ss.old) tags.now }
    requires places { All (λ s.
        AreLabelsBelow (length states.now) (labels_after (slice_index_or ss.old s []))) tags.now }
    requires firsts { All (λ i. i < length tags.now) firsts.now }
    requires tag { s < length ss.old }
    requires tag_places { AreLabelsBelow (length states.now)
        (labels_after (slice_index_or ss.old s [])) }
    requires diagram { DoesTogether st.old states.now
        (labels_after (slice_index_or ss.old s [])) d }
    requires seen { AreSeenDiagrams st.old states.now ss.old tags.now firsts.now seen.now.entries }
    ensures grows { Grows st.old st.new }
    ensures sets { SetsGrow ss.old ss.new }
    ensures disjoint { OnOk result (IsDisjointCopy st.new states.now disjoint.new) }
    ensures rows { disjoint.new.rows ≡ disjoint.old.rows }
    ensures within { IfOk result (λ c. c ≤ length firsts.now) }
    ensures yes { IfOk result (λ c. c < length firsts.now →
        AreAlike st.old states.now
        (labels_after (tag_set ss.old tags.now (slice_index firsts.now c)))
        (labels_after (slice_index_or ss.old s []))) }
    ensures none { IfOk result (λ c. c ≡ length firsts.now → (b : ℕ) → b < c →
        AreAlike st.old states.now
        (labels_after (tag_set ss.old tags.now (slice_index firsts.now b)))
        (labels_after (slice_index_or ss.old s [])) → ⊥) }
{
    if let Some(place) = seen_at(seen, d) {
        return Ok(place);
    }
    class_of(st, ss, states, disjoint, tags, firsts, s)
}

/// What the table has for a diagram.
fn seen_at(seen: &HashMap<Id, usize>, d: Id) -> Option<usize>
    ensures { result ≡ lookup (nat_eq d) seen.now.entries }
{
    seen.get(&d).copied()
}

/// The place among the classes' first tags of the one that the tag is alike; how many there are where it is alike none.
fn class_of(
    st: &mut Store,
    ss: &mut Sets,
    states: &[Id],
    disjoint: &mut DisjointCopy,
    tags: &[SetId],
    firsts: &[usize],
    s: SetId,
) -> Result<usize, AllocError>
    requires disjoint { IsDisjointCopy st.old states.now disjoint.old }
    requires known { All (λ s. s < length ss.old) tags.now }
    requires places { All (λ s.
        AreLabelsBelow (length states.now) (labels_after (slice_index_or ss.old s []))) tags.now }
    requires firsts { All (λ i. i < length tags.now) firsts.now }
    requires tag { s < length ss.old }
    requires tag_places { AreLabelsBelow (length states.now)
        (labels_after (slice_index_or ss.old s [])) }
    ensures grows { Grows st.old st.new }
    ensures sets { SetsGrow ss.old ss.new }
    ensures disjoint { OnOk result (IsDisjointCopy st.new states.now disjoint.new) }
    ensures rows { disjoint.new.rows ≡ disjoint.old.rows }
    ensures within { IfOk result (λ c. c ≤ length firsts.now) }
    ensures yes { IfOk result (λ c. c < length firsts.now →
        AreAlike st.old states.now
        (labels_after (tag_set ss.old tags.now (slice_index firsts.now c)))
        (labels_after (slice_index_or ss.old s []))) }
    ensures none { IfOk result (λ c. c ≡ length firsts.now → (b : ℕ) → b < c →
        AreAlike st.old states.now
        (labels_after (tag_set ss.old tags.now (slice_index firsts.now b)))
        (labels_after (slice_index_or ss.old s [])) → ⊥) }
{
    for c in 0..firsts.len() {
        if are_alike(st, ss, states, disjoint, tags[firsts[c]], s)? {
            return Ok(c);
        }
    }
    Ok(firsts.len())
}

/// Puts the next tag into the class at that place, a new one after the last.
fn add(all: &mut Classes, i: usize, c: usize) -> Result<(), AllocError>
    requires within { c ≤ length all.old.firsts }
    requires few { length all.old.firsts ≤ i }
    requires place { i + 1 < 2 ^ 64 }
    ensures numbers { OnOk result (all.new.numbers ≡ all.old.numbers ++ suc c ∷ []) }
    ensures firsts { OnOk result (all.new.firsts ≡ with_first_member all.old.firsts i c) }
{
    if c == all.firsts.len() {
        all.firsts.push(i)?;
    }
    all.numbers.push(c as u64 + 1)
}
