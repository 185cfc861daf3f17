//! The rows of a certificate as sets of labels and of packets.
ghost use Rattle.std.specs.Prelude.{◌≡◌, ◌↔◌, ◌<◌, ℕ, true, false, IfOk, All, Contains};
ghost use Rattle.std.specs.List.Sorted.{IsStrictlyIncreasing};
ghost use Rattle.nk_policy.specs.Policy.{is_predicate};
ghost use Rattle.nk_policy.specs.Tree.{tree_of};
ghost use Rattle.nk_store.specs.StoreState.{Grows};
ghost use Rattle.nk_determ.specs.Sets.{SetsGrow};
ghost use Rattle.nk_cert.specs.Values.{row_values};
ghost use Rattle.nk_check.specs.Judged.{AreLabels, IsEntryOf, IsStartEntryOf, AreEntriesOf};

use crate::packets::packets_of;
use nk_apply::empty;
use nk_cert::start_alone;
use nk_determ::{SetId, Sets};
use nk_field::List;
use nk_policy::Pol;
use nk_store::{Id, Store};
use std::alloc::{AllocError, Global};

/// The entry of each row, in their order: the number of the set of its positions, and its packets. There are `count`
/// labels, 0 among them.
pub(crate) fn row_entries(
    st: &mut Store,
    ss: &mut Sets,
    rows: &[(List<u64>, Pol)],
    count: usize,
) -> Result<List<(SetId, Id)>, AllocError>
    requires { All (λ r. is_predicate (tree_of r.1) ≡ true) rows.now }
    ensures grows { Grows st.old st.new }
    ensures sets { SetsGrow ss.old ss.new }
    ensures ok { IfOk result (λ es. AreEntriesOf st.new ss.new count (row_values rows.now) es) }
{
    let mut entries = List::new(st.alloc());
    for row in rows {
        let entry = row_entry(st, ss, row.0.as_slice(), &row.1, count)?;
        entries.push(entry)?;
    }
    Ok(entries)
}

/// The start row's entry: the set of the start alone, and the row's packets. There are `count` labels, 0 among them.
pub(crate) fn start_entry(
    st: &mut Store,
    ss: &mut Sets,
    predicate: &Pol,
    count: usize,
) -> Result<(SetId, Id), AllocError>
    requires predicate { is_predicate (tree_of predicate.now) ≡ true }
    requires some { 0 < count }
    ensures grows { Grows st.old st.new }
    ensures sets { SetsGrow ss.old ss.new }
    ensures ok { IfOk result (λ e. IsStartEntryOf st.new ss.new count (tree_of predicate.now) e) }
{
    let set = ss.intern(start_alone(st.alloc())?)?;
    let packets = packets_of(st, predicate)?;
    Ok((set, packets))
}

/// The entry of a row. A row with a position that is no label has no packets here, since no step leads to it.
fn row_entry(
    st: &mut Store,
    ss: &mut Sets,
    positions: &[u64],
    predicate: &Pol,
    count: usize,
) -> Result<(SetId, Id), AllocError>
    requires { is_predicate (tree_of predicate.now) ≡ true }
    ensures grows { Grows st.old st.new }
    ensures sets { SetsGrow ss.old ss.new }
    ensures ok { IfOk result
        (λ e. IsEntryOf st.new ss.new count
        (record { positions = positions.now; predicate = tree_of predicate.now }) e) }
{
    let alloc = st.alloc();
    if !are_labels(positions, count) {
        let nowhere = ss.intern(List::new(alloc))?;
        let none = empty(st)?;
        return Ok((nowhere, none));
    }
    let set = ss.intern(ascending(alloc, positions)?)?;
    let packets = packets_of(st, predicate)?;
    Ok((set, packets))
}

/// Whether each position is a label above 0; there are `count` labels.
#[tactic(auto, using(crate::proofs::RowSets::label_at))]
pub(crate) fn are_labels(positions: &[u64], count: usize) -> bool
    ensures yes { result ≡ true → AreLabels count positions.now }
    ensures no { result ≡ false → AreLabels count positions.now → ⊥ }
{
    for label in positions {
        if *label == 0 {
            return false;
        }
        if *label >= count as u64 {
            return false;
        }
    }
    true
}

/// The numbers ascending, each once.
fn ascending(alloc: Global, numbers: &[u64]) -> Result<List<u64>, AllocError>
    ensures ascend { IfOk result (λ r. IsStrictlyIncreasing r) }
    ensures same { IfOk result (λ r. (l : ℕ) → Contains r l ↔ Contains numbers.now l) }
{
    let mut all = Vec::from_slice(alloc, numbers)?;
    all.sort_unstable();
    all.dedup();
    Ok(List::from_vec(all))
}
