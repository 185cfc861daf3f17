//! Which tags have rows at which switch.
ghost use Rattle.std.specs.Prelude.{◌≡◌, ℕ, ◌<◌, ◌≤◌, None, [], ◌∷◌, nat_lt, map, All, AllPairs, IfOk, OnOk, IfSome, IfNone, length, slice_index, slice_index_or, slice_set};
ghost use Rattle.std.specs.List.{prefix_len};
ghost use Rattle.nk_topo.specs.Topology.{numbers_of};
ghost use Rattle.nk_group.specs.declared.switch_tags.SwitchTags.{SwitchTags};
ghost use Rattle.nk_compile.specs.Comings.{first_end, HasComing, longer, with_tag, with_end};

use nk_determ::{SetId, Sets};
use nk_field::List;
use nk_group::SwitchTags;
use nk_topo::Topo;
use std::alloc::{AllocError, Global};

/// For each switch its tags with rows there, ascending: tag 0, and each tag whose link ends there.
pub fn tags_at_switches(
    alloc: Global,
    topo: &Topo,
    ends: &[Option<u16>],
    ss: &Sets,
    tags: &[SetId],
) -> Result<Vec<SwitchTags>, AllocError>
    requires known { All (λ s. s < length ss.now) tags.now }
    ensures switches { IfOk result (λ v. map (λ s. s.switch) v.items ≡ numbers_of topo.now) }
    ensures coming { IfOk result
        (λ v. All (HasComing ends.now ss.now tags.now (length tags.now)) v.items) }
{
    let switches = topo.switches();
    let mut all = start_tags(alloc, switches)?;
    let mut tag = 0;
    for s in tags {
        tag += 1;
        add_tag(&mut all, switches, end_of(ends, ss.members(*s)), tag)?;
    }
    Ok(all)
}

/// Each switch with tag 0 alone.
fn start_tags(alloc: Global, switches: &[u16]) -> Result<Vec<SwitchTags>, AllocError>
    ensures switches { IfOk result (λ v. map (λ s. s.switch) v.items ≡ switches.now) }
    ensures tags { IfOk result (λ v. All (λ s. s.tags ≡ 0 ∷ []) v.items) }
{
    let mut all = Vec::new(alloc);
    for sw in switches {
        let mut tags = List::new(alloc);
        tags.push(0)?;
        all.push(SwitchTags { switch: *sw, tags })?;
    }
    Ok(all)
}

/// Where the link of the first of these marks ends.
fn end_of(ends: &[Option<u16>], marks: &[u64]) -> Option<u16>
    ensures { result ≡ first_end ends.now marks.now }
{
    match marks.first() {
        Some(l) => end_at(ends, *l),
        None => None,
    }
}

/// What stands at a mark.
fn end_at(ends: &[Option<u16>], mark: u64) -> Option<u16>
    ensures { result ≡ slice_index_or ends.now mark None }
{
    let place = mark as usize;
    if place < ends.len() {
        ends[place]
    } else {
        None
    }
}

/// Puts the tag at the end of the tags of the switch where it comes, if there is such a switch.
fn add_tag(
    all: &mut Vec<SwitchTags>,
    switches: &[u16],
    end: Option<u16>,
    tag: u64,
) -> Result<(), AllocError>
    requires switches { map (λ s. s.switch) all.old.items ≡ switches.now }
    requires ascend { AllPairs (λ p q. p < q) switches.now }
    ensures { OnOk result (all.new.items ≡ with_end end tag all.old.items) }
{
    match end {
        Some(sw) => add_at(all, switches, sw, tag),
        None => Ok(()),
    }
}

/// Puts the tag at the end of the tags of a switch, if the switch is there.
fn add_at(all: &mut Vec<SwitchTags>, switches: &[u16], sw: u16, tag: u64) -> Result<(), AllocError>
    requires switches { map (λ s. s.switch) all.old.items ≡ switches.now }
    requires ascend { AllPairs (λ p q. p < q) switches.now }
    ensures { OnOk result (all.new.items ≡ map (with_tag sw tag) all.old.items) }
{
    match place_of(switches, sw) {
        Some(place) => push_tag(all, place, tag),
        None => Ok(()),
    }
}

/// Puts the tag at the end of the tags at a place.
fn push_tag(all: &mut Vec<SwitchTags>, place: usize, tag: u64) -> Result<(), AllocError>
    requires { place < length all.old.items }
    ensures { OnOk result ((s : SwitchTags)
        → all.new.items ≡ slice_set all.old.items place
        (longer (slice_index_or all.old.items place s) tag)) }
{
    all[place].tags.push(tag)?;
    Ok(())
}

/// How many of the ascending numbers are below `n`.
fn count_below(numbers: &[u16], n: u16) -> usize
    requires { AllPairs (λ p q. p < q) numbers.now }
    ensures place { result ≡ prefix_len (λ m. nat_lt m n) numbers.now }
    ensures within { result ≤ length numbers.now }
{
    numbers.partition_point(|m| *m < n)
}

/// The place of `n` among the ascending numbers.
fn place_of(numbers: &[u16], n: u16) -> Option<usize>
    requires { AllPairs (λ p q. p < q) numbers.now }
    ensures found { IfSome result
        (λ i. (i < length numbers.now) × (slice_index numbers.now i ≡ n)) }
    ensures none { IfNone result
        ((k : ℕ) → k < length numbers.now → slice_index numbers.now k ≡ n → ⊥) }
{
    let place = count_below(numbers, n);
    if place < numbers.len() && numbers[place] == n {
        Some(place)
    } else {
        None
    }
}
