//! The packets that are met after the links of tags.
ghost use Rattle.std.specs.Prelude.{◌≡◌, ℕ, ◌<◌, ◌+◌, ◌^◌, List as Items, [], ◌∷◌, ◌++◌, All, IfOk, OnOk, length, map, slice_index, slice_index_or};
ghost use Rattle.nk_store.specs.StoreState.{StoreState, IsId, Grows};
ghost use Rattle.nk_determ.specs.Sets.{IsSetOf, SetsGrow};
ghost use Rattle.nk_group.specs.Tagged.{set_of_tag};
ghost use Rattle.nk_merge.specs.Alike.{labels_after};
ghost use Rattle.nk_compact.specs.MetPackets.{entries_of, HaveIds, AreUnder, AreMet};

use nk_apply::{empty, union};
use nk_determ::{Levels, SetId, Sets};
use nk_field::List;
use nk_store::{Id, Store};
use std::alloc::{AllocError, Global};

/// For each tag the packets that some level has under the labels after those of its set. The only error is that memory ran out.
pub fn met_packets(
    st: &mut Store,
    ss: &mut Sets,
    lv: &Levels,
    tags: &[SetId],
) -> Result<List<Id>, AllocError>
    requires known { All (λ s. s < length ss.old) tags.now }
    requires ids { All (HaveIds st.old) lv.now.levels }
    requires sets { All (λ l. All (λ e. e.0 < length ss.old) l) lv.now.levels }
    requires room { All (λ s. All (λ l. l + 1 < 2 ^ 64) (slice_index_or ss.old s [])) tags.now }
    ensures grows { Grows st.old st.new }
    ensures sets { SetsGrow ss.old ss.new }
    ensures len { IfOk result (λ r. length r ≡ length tags.now) }
    ensures met { IfOk result (λ r. (i : ℕ) → i < length tags.now →
        AreMet st.old ss.old lv.now.levels (labels_after (set_of_tag ss.old tags.now i)) st.new
        (slice_index r i)) }
{
    let sets = sets_after(st.alloc(), ss, tags)?;
    ss.differ();
    let by_set = packets_by_set(st, ss.len(), lv)?;
    chosen(st.alloc(), by_set.as_slice(), sets.as_slice())
}

/// The sets of the labels after those of tags' sets.
fn sets_after(alloc: Global, ss: &mut Sets, tags: &[SetId]) -> Result<List<SetId>, AllocError>
    requires known { All (λ s. s < length ss.old) tags.now }
    requires room { All (λ s. All (λ l. l + 1 < 2 ^ 64) (slice_index_or ss.old s [])) tags.now }
    ensures sets { SetsGrow ss.old ss.new }
    ensures len { IfOk result (λ r. length r ≡ length tags.now) }
    ensures following { IfOk result
        (λ r. (i : ℕ) → i < length tags.now
        → IsSetOf ss.new (slice_index r i) (labels_after (set_of_tag ss.old tags.now i))) }
{
    let mut all = List::new(alloc);
    for s in tags {
        let b = set_after(alloc, ss, *s)?;
        all.push(b)?;
    }
    Ok(all)
}

/// The set of the labels after those of a set.
fn set_after(alloc: Global, ss: &mut Sets, s: SetId) -> Result<SetId, AllocError>
    requires known { s < length ss.old }
    requires room { All (λ l. l + 1 < 2 ^ 64) (slice_index_or ss.old s []) }
    ensures sets { SetsGrow ss.old ss.new }
    ensures following { IfOk result
        (λ b. IsSetOf ss.new b (labels_after (slice_index_or ss.old s []))) }
{
    let labels = labels_after(alloc, ss.members(s))?;
    ss.intern(labels)
}

/// Each label and one more.
fn labels_after(alloc: Global, labels: &[u64]) -> Result<List<u64>, AllocError>
    requires { All (λ l. l + 1 < 2 ^ 64) labels.now }
    ensures { IfOk result (λ r. r ≡ labels_after labels.now) }
{
    let mut all = List::new(alloc);
    for l in labels {
        all.push(*l + 1)?;
    }
    Ok(all)
}

/// By set the packets that some level has under it, for the first so many sets.
fn packets_by_set(st: &mut Store, sets: usize, lv: &Levels) -> Result<List<Id>, AllocError>
    requires ids { All (HaveIds st.old) lv.now.levels }
    requires sets { All (λ l. All (λ e. e.0 < sets) l) lv.now.levels }
    ensures grows { Grows st.old st.new }
    ensures len { IfOk result (λ r. length r ≡ sets) }
    ensures under { IfOk result (λ r. AreUnder st.old st.new (entries_of lv.now.levels) r) }
{
    let mut all = no_packets(st, sets)?;
    for level in lv.levels.as_slice() {
        put_level(st, &mut all, level.as_slice())?;
    }
    Ok(all)
}

/// No packet, so many times.
fn no_packets(st: &mut Store, sets: usize) -> Result<List<Id>, AllocError>
    ensures grows { Grows st.old st.new }
    ensures len { IfOk result (λ r. length r ≡ sets) }
    ensures under { IfOk result (λ r. (base : StoreState) → AreUnder base st.new [] r) }
{
    let none = empty(st)?;
    let mut all = List::new(st.alloc());
    for i in 0..sets {
        all.push(none)?;
    }
    Ok(all)
}

/// Puts in the packets of a level.
fn put_level(st: &mut Store, all: &mut List<Id>, level: &[(SetId, Id)]) -> Result<(), AllocError>
    requires all { (s : ℕ) → s < length all.old → IsId st.old (slice_index all.old s) }
    requires ids { HaveIds st.old level.now }
    requires sets { All (λ e. e.0 < length all.old) level.now }
    ensures grows { Grows st.old st.new }
    ensures len { OnOk result (length all.new ≡ length all.old) }
    ensures under { OnOk result
        ((base : StoreState) (before : Items (ℕ × ℕ)) → Grows base st.old → HaveIds base level.now
        → AreUnder base st.old before all.old
        → AreUnder base st.new (before ++ level.now) all.new) }
{
    for (s, packets) in level {
        put_entry(st, all, *s, *packets)?;
    }
    Ok(())
}

/// Puts in the packets of an entry.
fn put_entry(st: &mut Store, all: &mut List<Id>, s: SetId, packets: Id) -> Result<(), AllocError>
    requires all { (k : ℕ) → k < length all.old → IsId st.old (slice_index all.old k) }
    requires packets { IsId st.old packets }
    requires place { s < length all.old }
    ensures grows { Grows st.old st.new }
    ensures len { OnOk result (length all.new ≡ length all.old) }
    ensures ids { OnOk result ((k : ℕ) → k < length all.new → IsId st.new (slice_index all.new k)) }
    ensures under { OnOk result
        ((base : StoreState) (before : Items (ℕ × ℕ)) → Grows base st.old → IsId base packets
        → AreUnder base st.old before all.old
        → AreUnder base st.new (before ++ (s, packets) ∷ []) all.new) }
{
    let place = s.place();
    let d = union(st, id_at(all, place), packets)?;
    all.put(place, d);
    Ok(())
}

/// The diagram at a place.
fn id_at(all: &List<Id>, place: usize) -> Id
    requires { place < length all.now }
    ensures { result ≡ slice_index all.now place }
{
    *all.at(place)
}

/// The diagrams of these sets.
fn chosen(alloc: Global, by_set: &[Id], sets: &[SetId]) -> Result<List<Id>, AllocError>
    requires { All (λ s. s < length by_set.now) sets.now }
    ensures { IfOk result (λ r. r ≡ map (λ s. slice_index by_set.now s) sets.now) }
{
    let mut all = List::new(alloc);
    for s in sets {
        all.push(by_set[s.place()])?;
    }
    Ok(all)
}
