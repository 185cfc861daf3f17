//! The certificate that is made of levels.
ghost use Rattle.std.specs.Prelude.{◌≡◌, ◌<◌, ◌-◌, ℕ, [], IfOk, All, length, slice_index_or};
ghost use Rattle.nk_policy.specs.After.{id_policy};
ghost use Rattle.nk_policy.specs.Tree.{tree_of};
ghost use Rattle.nk_store.specs.StoreState.{Grows};
ghost use Rattle.nk_sets.specs.PacketSets.{IsSet};
ghost use Rattle.nk_goal.specs.Entries.{HaveSets};
ghost use Rattle.nk_tag.specs.Numbers.{AreEntries};
ghost use Rattle.nk_cert.specs.FromLevels.{HaveRows, IsCertificateOf};
ghost use Rattle.nk_cert.specs.Values.{held_row_value, row_values, certificate_value};
ghost use Rattle.nk_cert.specs.Later.{packets_at, IsRowBy, AreLaterPackets};

use crate::certificate::Certificate;
use nk_apply::empty;
use nk_determ::{Levels, SetId, Sets};
use nk_field::List;
use nk_goal::Entries;
use nk_policy::{Pol, Pols};
use nk_sets::set_pol;
use nk_store::{Id, Store};
use nk_tag::later_sets;
use std::alloc::{AllocError, Global};

/// The certificate that levels make: the start row has all packets; then there is a row for each set that a level after
/// the first one names, by the first of these levels that does and inside a level by its members in dictionary order, with
/// the predicate of all packets that stand under it on these levels. Of levels of two policies from all packets, without an end
/// of one of them alone, this is the printed certificate. The only error is that memory ran out.
pub fn certificate_of(st: &mut Store, ss: &Sets, lv: &Levels) -> Result<Certificate, AllocError>
    requires entries { AreEntries ss.now lv.now.levels }
    requires packets { (i : ℕ) → i < length lv.now.levels
        → HaveSets st.old (slice_index_or lv.now.levels i []) }
    ensures grows { Grows st.old st.new }
    ensures ok { IfOk result
        (λ c. IsCertificateOf st.old st.new ss.now lv.now.levels (certificate_value c)) }
{
    let sets = later_sets(ss, lv)?;
    let none = empty(st)?;
    let visited = later_packets(st, lv)?;
    let rows = set_rows(st, ss, &visited, none, sets.as_slice())?;
    Ok(Certificate {
        start: everything(st.alloc()),
        rows,
    })
}

/// All packets under sets of the levels after the first one.
fn later_packets(st: &mut Store, lv: &Levels) -> Result<Entries, AllocError>
    requires { (i : ℕ) → i < length lv.now.levels
        → HaveSets st.old (slice_index_or lv.now.levels i []) }
    ensures grows { Grows st.old st.new }
    ensures ok { IfOk result
        (λ visited. AreLaterPackets st.old lv.now.levels
        (length lv.now.levels - 1) st.new visited) }
{
    let mut visited = Entries::new(st.alloc());
    for i in 1..lv.levels.len() {
        let level = lv.levels.at(i);
        visited.add_level(st, level)?;
    }
    Ok(visited)
}

/// The rows of some sets, in their order.
fn set_rows(
    st: &Store,
    ss: &Sets,
    visited: &Entries,
    none: Id,
    sets: &[SetId],
) -> Result<List<(List<u64>, Pol)>, AllocError>
    requires sets { All (λ s. s < length ss.now) sets.now }
    requires packets { HaveSets st.now visited.now }
    requires none { IsSet st.now none }
    ensures { IfOk result (λ rs.
        HaveRows (IsRowBy st.now ss.now visited.now none) sets.now (row_values rs)) }
{
    let mut rows = List::new(st.alloc());
    for set in sets {
        let row = set_row(st, ss, visited, none, *set)?;
        rows.push(row)?;
    }
    Ok(rows)
}

/// The row of a set.
fn set_row(
    st: &Store,
    ss: &Sets,
    visited: &Entries,
    none: Id,
    set: SetId,
) -> Result<(List<u64>, Pol), AllocError>
    requires set { set < length ss.now }
    requires packets { HaveSets st.now visited.now }
    requires none { IsSet st.now none }
    ensures { IfOk result (λ r.
        IsRowBy st.now ss.now visited.now none set (held_row_value r)) }
{
    let members = Vec::from_slice(st.alloc(), ss.members(set))?;
    let packets = packets_under(visited, none, set);
    let predicate = set_pol(st, packets)?;
    Ok((List::from_vec(members), predicate))
}

/// The packets under a set.
fn packets_under(visited: &Entries, none: Id, set: SetId) -> Id
    ensures { result ≡ packets_at visited.now none set }
{
    match visited.packets_of_set(set) {
        Some(packets) => packets,
        None => none,
    }
}

/// The predicate of all packets.
#[tactic(auto, using(nk_policy::proofs::Trees::tree_of_seq))]
fn everything(alloc: Global) -> Pol
    ensures { tree_of result ≡ id_policy }
{
    Pol::Seq(Pols::new(Vec::new(alloc)))
}
