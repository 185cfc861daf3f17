//! The states that a tag stands for, and the tags of targets.
ghost use Rattle.std.specs.Prelude.{◌≡◌, ℕ, ◌+◌, ◌<◌, ◌≤◌, None, [], ◌∷◌, All, IfOk, length, map, slice_index_or};
ghost use Rattle.nk_group.specs.Tagged.{members_of, IsTagTable, AreOnce};

use nk_determ::{SetId, Sets};
use nk_field::List;
use std::alloc::{AllocError, Global};

/// The places of a tag's states: for tag 0 that of the start, for another tag the one after each label of its
/// set. The only error is that memory ran out.
pub fn members(
    alloc: Global,
    ss: &Sets,
    tags: &[SetId],
    count: usize,
    tag: u64,
) -> Result<List<u64>, AllocError>
    requires within { tag ≤ length tags.now }
    requires known { All (λ s. s < length ss.now) tags.now }
    requires places { All (λ l. l < count) (members_of ss.now tags.now tag) }
    ensures { IfOk result (λ ls. ls ≡ members_of ss.now tags.now tag) }
{
    if tag == 0 {
        first(alloc)
    } else {
        following(alloc, ss, tags[tag as usize - 1], count)
    }
}

/// The place of the start.
fn first(alloc: Global) -> Result<List<u64>, AllocError>
    ensures { IfOk result (λ ls. ls ≡ 0 ∷ []) }
{
    let mut ls = List::new(alloc);
    ls.push(0)?;
    Ok(ls)
}

/// The place after each label of a set.
fn following(alloc: Global, ss: &Sets, s: SetId, count: usize) -> Result<List<u64>, AllocError>
    requires known { s < length ss.now }
    requires places { All (λ l. l < count) (map (λ l. l + 1) (slice_index_or ss.now s [])) }
    ensures { IfOk result (λ ls. ls ≡ map (λ l. l + 1) (slice_index_or ss.now s [])) }
{
    let mut ls = List::new(alloc);
    for l in ss.members(s) {
        ls.push(*l + 1)?;
    }
    Ok(ls)
}

/// The tag of each target, by place: 0 for target 0; tag t + 1 for the target of the set at place t of `tags`, where that
/// set has labels; none for a set without a tag. The only error is that memory ran out.
pub fn tag_table(alloc: Global, ss: &Sets, tags: &[SetId]) -> Result<List<Option<u64>>, AllocError>
    requires known { All (λ s. s < length ss.now) tags.now }
    requires once { AreOnce ss.now tags.now }
    ensures { IfOk result (λ table. IsTagTable (length tags.now) ss.now tags.now table) }
{
    let mut table = untagged(alloc, ss.len())?;
    let mut tag = 0;
    for s in tags {
        tag += 1;
        table.put(s.target() as usize, Some(tag));
    }
    Ok(table)
}

/// The tags of so many sets without one.
fn untagged(alloc: Global, sets: usize) -> Result<List<Option<u64>>, AllocError>
    ensures len { IfOk result (λ table. length table ≡ sets + 1) }
    ensures zero { IfOk result (λ table. slice_index_or table 0 None ≡ Some 0) }
    ensures none { IfOk result (λ table. (u : ℕ) → 0 < u → slice_index_or table u None ≡ None) }
{
    let mut table = List::new(alloc);
    table.push(Some(0))?;
    for i in 0..sets {
        table.push(None)?;
    }
    Ok(table)
}
