//! The tables of all switches, by a policy's states and the classes of its tag sets.
ghost use Rattle.std.specs.Prelude.{◌≡◌, ℕ, IfOk};
ghost use Rattle.nk_field.specs.Packet.{FieldTable};
ghost use Rattle.nk_policy.specs.Tree.{tree_of};
ghost use Rattle.nk_table.specs.declared.Tables.{Tables};
ghost use Rattle.nk_names.specs.Accepted.{IsStartPacket};
ghost use Rattle.nk_compile.specs.Ready.{sets_of};
ghost use Rattle.nk_compact.specs.Mergeable.{IsMergeable};
ghost use Rattle.nk_compact.specs.MergedTable.{IsMergedTable};

use crate::switch_classes::classes_at_switches;
use nk_compile::{link_ends, tags_at_switches};
use nk_determ::{SetId, Sets};
use nk_field::List;
use nk_group::class_tables;
use nk_merge::Classes;
use nk_policy::Pol;
use nk_store::{Id, Store};
use nk_table::Table;
use nk_topo::Topo;
use std::alloc::AllocError;

/// The tables of all switches for a policy, by its automaton's states, the numbers of its tag sets in order with their classes,
/// and the packets that are met under each. The only error is that memory ran out.
pub fn merged_tables(
    st: &mut Store,
    ss: &mut Sets,
    topo: &Topo,
    p: &Pol,
    states: &[Id],
    tags: &[SetId],
    classes: &Classes,
    met: &[Id],
) -> Result<List<Table>, AllocError>
    requires mergeable { (fields : FieldTable) × (tag : ℕ)
        × IsMergeable fields topo.now tag
        (tree_of p.now) st.old ss.old states.now tags.now classes.now.numbers classes.now.firsts
        met.now }
    ensures { IfOk result (λ ts. (fields : FieldTable) (tag : ℕ)
        → IsMergeable fields topo.now tag
        (tree_of p.now) st.old ss.old states.now tags.now classes.now.numbers classes.now.firsts
        met.now
        → (t : Tables) → t.fields ≡ fields → t.topo ≡ topo.now → t.tables ≡ ts
        → IsMergedTable fields topo.now (IsStartPacket fields topo.now) (tree_of p.now)
        (sets_of ss.old tags.now) classes.now.numbers t) }
{
    let ends = link_ends(st.alloc(), p, states.len())?;
    let by_switch = tags_at_switches(st.alloc(), topo, ends.as_slice(), ss, tags)?;
    let numbers = classes.numbers.as_slice();
    let firsts = classes.firsts.as_slice();
    let here = classes_at_switches(st.alloc(), by_switch.as_slice(), numbers, firsts, met)?;
    class_tables(st, ss, states, tags, numbers, here.as_slice())
}
