//! Two sets of labels as one, the second one's labels marked again.
ghost use Rattle.std.specs.Prelude.{◌≡◌, ◌+◌, ◌-◌, ◌<◌, ◌^◌, ◌++◌, [], All, IfOk, OnOk, map, length, slice_index_or};
ghost use Rattle.std.specs.List.Sorted.{IsStrictlyIncreasing};
ghost use Rattle.nk_determ.specs.Sets.{SetsGrow, IsSetOf};
ghost use Rattle.nk_determ.specs.Pairs.{AreLabelsBelow};
ghost use Rattle.nk_merge.specs.Alike.{labels_after};
ghost use Rattle.nk_merge.specs.Joined.{both_sets};

use nk_determ::{SetId, Sets};
use nk_field::List;
use std::alloc::{AllocError, Global};

/// The labels after two sets as one set, those after the second one marked again after so many states.
pub fn joined(
    alloc: Global,
    ss: &mut Sets,
    s: SetId,
    t: SetId,
    count: usize,
) -> Result<SetId, AllocError>
    requires first { s < length ss.old }
    requires second { t < length ss.old }
    requires first_places { AreLabelsBelow count (labels_after (slice_index_or ss.old s [])) }
    requires second_places { AreLabelsBelow count (labels_after (slice_index_or ss.old t [])) }
    requires few { count + count < 2 ^ 64 }
    ensures sets { SetsGrow ss.old ss.new }
    ensures is { IfOk result
        (λ i. IsSetOf ss.new i
        (both_sets (count - 1) (labels_after (slice_index_or ss.old s []))
        (labels_after (slice_index_or ss.old t [])))) }
{
    let labels = both_labels(alloc, ss, s, t, count)?;
    ss.intern(labels)
}

/// The labels of that set.
fn both_labels(
    alloc: Global,
    ss: &Sets,
    s: SetId,
    t: SetId,
    count: usize,
) -> Result<List<u64>, AllocError>
    requires first { s < length ss.now }
    requires second { t < length ss.now }
    requires first_places { AreLabelsBelow count (labels_after (slice_index_or ss.now s [])) }
    requires second_places { AreLabelsBelow count (labels_after (slice_index_or ss.now t [])) }
    requires few { count + count < 2 ^ 64 }
    ensures is { IfOk result
        (λ r. r ≡ both_sets (count - 1) (labels_after (slice_index_or ss.now s []))
        (labels_after (slice_index_or ss.now t []))) }
    ensures ascend { IfOk result (λ r. IsStrictlyIncreasing r) }
{
    let mut labels = List::new(alloc);
    push_raised(&mut labels, ss.members(s), 1)?;
    push_raised(&mut labels, ss.members(t), count as u64)?;
    Ok(labels)
}

/// Appends labels, each raised by a number.
fn push_raised(all: &mut List<u64>, labels: &[u64], by: u64) -> Result<(), AllocError>
    requires { All (λ l. l + by < 2 ^ 64) labels.now }
    ensures { OnOk result (all.new ≡ all.old ++ map (λ l. l + by) labels.now) }
{
    for l in labels {
        all.push(*l + by)?;
    }
    Ok(())
}
