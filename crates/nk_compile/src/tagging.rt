//! The tables of all switches, by a policy's states and tag sets.
ghost use Rattle.std.specs.Prelude.{◌≡◌, ◌<◌, ℕ, All, IfOk, List as Items, OnOk, length, ◌++◌, replicate};
ghost use Rattle.nk_field.specs.Packet.{FieldTable};
ghost use Rattle.nk_policy.specs.Policy.{Policy};
ghost use Rattle.nk_policy.specs.Tree.{tree_of};
ghost use Rattle.nk_table.specs.declared.Table.{Table};
ghost use Rattle.nk_table.specs.declared.Tables.{Tables};
ghost use Rattle.nk_names.specs.Accepted.{IsStartPacket};
ghost use Rattle.nk_determ.specs.Sets.{SetsGrow};
ghost use Rattle.nk_tag.specs.Numbers.{AreNumbers};
ghost use Rattle.nk_compile.specs.NumberedAfter.{tags_after, IsTableAfter};
ghost use Rattle.nk_compile.specs.Preparing.{AreLinkEnds, IsPrepared};
ghost use Rattle.nk_compile.specs.Ready.{sets_of, IsClear, IsReady};

use crate::ends::link_ends;
use crate::prepared::Prepared;
use crate::switch_tags::tags_at_switches;
use nk_determ::{SetId, Sets};
use nk_field::{Fields, List};
use nk_group::{TableList, TableSink, switch_tables};
use nk_policy::Pol;
use nk_store::{Id, Store};
use nk_table::{Table, Tables};
use nk_topo::Topo;
use std::alloc::{AllocError, Global};

/// The printed tables of all switches for a policy, one after the other, by its automaton's states, where its links end, and the
/// numbers of its tags' sets: the set without labels for the first so many tags, and after them the tag sets.
fn tag_tables<S: TableSink>(
    st: &mut Store,
    ss: &mut Sets,
    topo: &Topo,
    ends: &[Option<u16>],
    states: &[Id],
    tags: &[SetId],
    sink: &mut S,
) -> Result<(), AllocError>
    requires ready { (first : ℕ) × (fields : FieldTable) × (p : Policy) × (tag : ℕ)
        × IsClear fields topo.now tag p
        × AreLinkEnds p (length states.now) ends.now
        × IsReady first fields topo.now p st.old ss.old states.now tags.now }
    ensures { OnOk result ((ts : Items Table) × S.takes sink.old ts sink.new
        × ((first : ℕ) (fields : FieldTable) (p : Policy) (tag : ℕ) → IsClear fields topo.now tag p
        → AreLinkEnds p (length states.now) ends.now
        → IsReady first fields topo.now p st.old ss.old states.now tags.now
        → (t : Tables) → t.fields ≡ fields → t.topo ≡ topo.now → t.tables ≡ ts
        → IsTableAfter first fields topo.now (IsStartPacket fields topo.now) p t)) }
{
    let by_switch = tags_at_switches(st.alloc(), topo, ends, ss, tags)?;
    switch_tables(st, ss, states, tags, by_switch.as_slice(), sink)
}

/// So many times one set, and these after.
fn padded(alloc: Global, none: SetId, first: u64, tags: &[SetId]) -> Result<List<SetId>, AllocError>
    ensures { IfOk result (λ r. r ≡ replicate first none ++ tags.now) }
{
    let mut all = List::new(alloc);
    for i in 0..first {
        all.push(none)?;
    }
    for s in tags {
        all.push(*s)?;
    }
    Ok(all)
}

/// The numbers of the sets of so many tags that stand for none, and of these sets after them.
fn following(
    alloc: Global,
    ss: &mut Sets,
    first: u64,
    tags: &[SetId],
) -> Result<List<SetId>, AllocError>
    requires { All (λ s. s < length ss.old) tags.now }
    ensures grows { SetsGrow ss.old ss.new }
    ensures known { IfOk result (λ r. All (λ s. s < length ss.new) r) }
    ensures sets { IfOk result
        (λ r. sets_of ss.new r ≡ tags_after first (sets_of ss.old tags.now)) }
{
    let none = ss.intern(List::new(alloc))?;
    padded(alloc, none, first, tags)
}

/// The printed tables of a prepared policy, one after the other, its tags after so many others. These are where its links end, and
/// the numbers of its tag sets in order.
pub fn print_to<S: TableSink>(
    prepared: Prepared,
    ends: &[Option<u16>],
    topo: &Topo,
    first: u64,
    tags: &[SetId],
    sink: &mut S,
) -> Result<(), AllocError>
    requires prepared { (fields : FieldTable) × (p : Policy) × (tag : ℕ)
        × IsPrepared fields topo.now tag p prepared
        × AreLinkEnds p (length prepared.states) ends.now }
    requires numbers { AreNumbers prepared.sets prepared.levels.levels tags.now }
    ensures { OnOk result ((ts : Items Table) × S.takes sink.old ts sink.new
        × ((fields : FieldTable) (p : Policy) (tag : ℕ) → IsPrepared fields topo.now tag p prepared
        → AreLinkEnds p (length prepared.states) ends.now → (t : Tables) → t.fields ≡ fields
        → t.topo ≡ topo.now → t.tables ≡ ts
        → IsTableAfter first fields topo.now (IsStartPacket fields topo.now) p t)) }
{
    let mut st = prepared.store;
    let mut ss = prepared.sets;
    let all = following(st.alloc(), &mut ss, first, tags)?;
    ss.differ();
    st.laws();
    let states = prepared.states.as_slice();
    tag_tables(&mut st, &mut ss, topo, ends, states, all.as_slice(), sink)
}

/// Tables over copies of these fields and of this topology.
pub fn tables_over(fields: &Fields, topo: &Topo, tables: List<Table>) -> Result<Tables, AllocError>
    ensures { IfOk result (λ t. t
        ≡ record { fields = fields.now; topo = topo.now; tables = tables }) }
{
    let fields = fields.copy()?;
    let topo = topo.copy()?;
    Ok(Tables {
        fields,
        topo,
        tables,
    })
}

/// The printed tables of a prepared policy, its tags after so many others. These are the numbers of its tag sets in order.
pub fn printed(
    prepared: Prepared,
    fields: &Fields,
    topo: &Topo,
    p: &Pol,
    first: u64,
    tags: &[SetId],
) -> Result<Tables, AllocError>
    requires prepared { (tag : ℕ) × IsPrepared fields.now topo.now tag (tree_of p.now) prepared }
    requires numbers { AreNumbers prepared.sets prepared.levels.levels tags.now }
    ensures { IfOk result (IsTableAfter first fields.now topo.now
        (IsStartPacket fields.now topo.now) (tree_of p.now)) }
{
    let alloc = prepared.store.alloc();
    let ends = link_ends(alloc, p, prepared.states.len())?;
    let mut tables = TableList::new(alloc);
    print_to(prepared, ends.as_slice(), topo, first, tags, &mut tables)?;
    tables_over(fields, topo, tables.into_tables())
}
