//! The sets at levels in order: numbers of those at odd levels, and those after the first level.
ghost use Rattle.std.specs.Prelude.{◌≡◌, ◌≤◌, ◌<◌, ◌+◌, ◌*◌, ◌^◌, false, IfOk, IfErr, OnOk, [], length, map, All, nat_eq, slice_index_or};
ghost use Rattle.std.specs.List.Sorted.{IsPermutation, IsSorted};
ghost use Rattle.nk_determ.specs.Pairs.{Once};
ghost use Rattle.indexmap.specs.IndexSet.{insert_all};
ghost use Rattle.nk_tag.specs.Numbers.{AreEntries, AreNumbers, AreLaterSets, IsNumberFault, IsFaultAfter};
ghost use Rattle.nk_tag.specs.Steps.{unseen, set_cmp, IsAdded};

use crate::error::NumberError;
use indexmap::IndexSet;
use nk_determ::{Levels, SetId, Sets};
use nk_field::List;
use nk_store::Id;
use std::alloc::{AllocError, Global};

/// The sets that tags stand for: tag t's at place t - 1, or, after `first` other tags, at place t - 1 - `first`.
#[derive(Drop)]
pub struct Tags {
    /// The sets in the order of the tags, each once.
    pub sets: List<SetId>,
}

/// The sets at odd levels, each once: by the first odd level that names them, inside a level by their members in
/// dictionary order. Where there are more than `max`, the error is `TooManyTags` with `max` + 1.
pub fn number(ss: &Sets, lv: &Levels, max: u64) -> Result<Tags, NumberError>
    requires not_broken { lv.now.broken ≡ false }
    requires entries { AreEntries ss.now lv.now.levels }
    requires below_last { max + 1 < 2 ^ 64 }
    ensures ok { IfOk result (λ t. AreNumbers ss.now lv.now.levels t.sets) }
    ensures few { IfOk result (λ t. length t.sets ≤ max) }
    ensures err { IfErr result (λ e. IsNumberFault lv.now.levels max e) }
{
    number_from(ss, lv, 0, max)
}

/// The sets at odd levels as `number` gives them, for tags after `first` others: the set of tag t stands at place
/// t - 1 - `first`. Where `first` and they together are more than `max`, the error is `TooManyTags` with `max` + 1.
pub fn number_from(ss: &Sets, lv: &Levels, first: u64, max: u64) -> Result<Tags, NumberError>
    requires not_broken { lv.now.broken ≡ false }
    requires entries { AreEntries ss.now lv.now.levels }
    requires first { first ≤ max }
    requires below_last { max + 1 < 2 ^ 64 }
    ensures ok { IfOk result (λ t. AreNumbers ss.now lv.now.levels t.sets) }
    ensures few { IfOk result (λ t. first + length t.sets ≤ max) }
    ensures err { IfErr result (λ e. IsFaultAfter lv.now.levels first max e) }
{
    let alloc = lv.levels.alloc();
    let mut all = IndexSet::new(alloc);
    for j in 0..lv.levels.len() / 2 {
        add_level(alloc, ss, lv, 2 * j + 1, &mut all)?;
        if all.len() as u64 > max - first {
            return Err(NumberError::TooManyTags { found: max + 1 });
        }
    }
    let sets = set_ids(alloc, all.as_slice())?;
    Ok(Tags { sets })
}

/// The sets at odd levels as `number` gives them, as many as there are. The only error is that memory ran out.
pub fn odd_sets(ss: &Sets, lv: &Levels) -> Result<List<SetId>, AllocError>
    requires { AreEntries ss.now lv.now.levels }
    ensures { IfOk result (λ r. AreNumbers ss.now lv.now.levels r) }
{
    let alloc = lv.levels.alloc();
    let mut all = IndexSet::new(alloc);
    for k in 0..lv.levels.len() / 2 {
        add_level(alloc, ss, lv, 2 * k + 1, &mut all)?;
    }
    let sets = set_ids(alloc, all.as_slice())?;
    Ok(sets)
}

/// The sets at levels after the first one, each once: by the first of these levels that names them, inside a level by their
/// members in dictionary order. The only error is that memory ran out.
pub fn later_sets(ss: &Sets, lv: &Levels) -> Result<List<SetId>, AllocError>
    requires { AreEntries ss.now lv.now.levels }
    ensures { IfOk result (λ r. AreLaterSets ss.now lv.now.levels r) }
{
    let alloc = lv.levels.alloc();
    let mut all = IndexSet::new(alloc);
    for i in 1..lv.levels.len() {
        add_level(alloc, ss, lv, i, &mut all)?;
    }
    let sets = set_ids(alloc, all.as_slice())?;
    Ok(sets)
}

/// The numbers with those of the level at a place.
fn add_level(
    alloc: Global,
    ss: &Sets,
    lv: &Levels,
    i: usize,
    all: &mut IndexSet<usize>,
) -> Result<(), AllocError>
    requires place { i < length lv.now.levels }
    requires entries { AreEntries ss.now lv.now.levels }
    ensures { OnOk result (IsAdded ss.now
        (slice_index_or lv.now.levels i []) all.old.keys all.new.keys) }
{
    let level = lv.levels.at(i);
    add_sets(alloc, ss, level.as_slice(), all)
}

/// The numbers with those of a level.
fn add_sets(
    alloc: Global,
    ss: &Sets,
    level: &[(SetId, Id)],
    all: &mut IndexSet<usize>,
) -> Result<(), AllocError>
    requires known { All (λ p. p.0 < length ss.now) level.now }
    requires once { Once level.now }
    ensures { OnOk result (IsAdded ss.now level.now all.old.keys all.new.keys) }
{
    ss.differ();
    let mut sets = unseen_sets(alloc, ss, level, all)?;
    sort_sets(&mut sets);
    append(sets.as_slice(), all)?;
    Ok(())
}

/// The sets of a level that have no number yet, with their members.
fn unseen_sets(
    alloc: Global,
    ss: &Sets,
    level: &[(SetId, Id)],
    all: &IndexSet<usize>,
) -> Result<Vec<(List<u64>, usize)>, AllocError>
    requires { All (λ p. p.0 < length ss.now) level.now }
    ensures { IfOk result (λ v. v.items ≡ unseen ss.now all.now.keys level.now) }
{
    let mut sets = Vec::new(alloc);
    for entry in level {
        let id = entry.0;
        if !all.contains(&id.place()) {
            sets.push((members_of(alloc, ss, id)?, id.place()))?;
        }
    }
    Ok(sets)
}

/// The members of a set.
fn members_of(alloc: Global, ss: &Sets, id: SetId) -> Result<List<u64>, AllocError>
    requires { id < length ss.now }
    ensures { IfOk result (λ v. v ≡ slice_index_or ss.now id []) }
{
    let members = Vec::from_slice(alloc, ss.members(id))?;
    Ok(List::from_vec(members))
}

/// Puts sets in order, by their members.
fn sort_sets(sets: &mut Vec<(List<u64>, usize)>)
    ensures same { IsPermutation sets.old.items sets.new.items }
    ensures sorted { IsSorted set_cmp sets.new.items }
{
    sets.sort_unstable();
}

/// Gives the sets numbers after all others.
fn append(sets: &[(List<u64>, usize)], all: &mut IndexSet<usize>) -> Result<(), AllocError>
    ensures { OnOk result (all.new.keys
        ≡ insert_all nat_eq all.old.keys (map (λ x. x.1) sets.now)) }
{
    for set in sets {
        all.insert(set.1)?;
    }
    Ok(())
}

/// The numbers as sets.
fn set_ids(alloc: Global, places: &[usize]) -> Result<List<SetId>, AllocError>
    ensures { IfOk result (λ r. r ≡ places.now) }
{
    let mut ids = List::new(alloc);
    for place in places {
        ids.push(SetId::new(*place))?;
    }
    Ok(ids)
}
