//! The tables of all switches.
ghost use Rattle.std.specs.Prelude.{◌≡◌, ℕ, ◌<◌, Some, All, List as Items, OnOk, length};
ghost use Rattle.nk_table.specs.declared.Table.{Table};
ghost use Rattle.nk_apply.specs.Unions.{AreIds};
ghost use Rattle.nk_extract.specs.RowsOf.{IsFrame};
ghost use Rattle.nk_group.specs.Matched.{Matched};
ghost use Rattle.nk_group.specs.Made.{AreSwitchTags, IsTableAt};
ghost use Rattle.nk_group.specs.Tagged.{AreOnce};

use crate::members::tag_table;
use crate::sink::TableSink;
use crate::switch_tags::SwitchTags;
use crate::tables::all_tables;
use crate::tag_states::all_states;
use nk_determ::{SetId, Sets};
use nk_store::{Id, Store};
use std::alloc::AllocError;

/// The table of each switch, row by row, so that neither tables nor rows need be kept. Its rows do for each of its tags what
/// the tag's states do together at the switch. A copy at which they end leaves with tag 0; one that they record next leaves
/// with the tag of the set of all labels that record it, and is left out where that set has no tag. Equal bucket lists of a
/// switch are one group.
///
/// `states` are the diagrams of an automaton, `tags` the numbers of the tags' sets of labels in order: a set with labels
/// once, the one without any as often as tags are left free. The only error is that memory ran out.
pub fn switch_tables<S: TableSink>(
    st: &mut Store,
    ss: &mut Sets,
    states: &[Id],
    tags: &[SetId],
    by_switch: &[SwitchTags],
    sink: &mut S,
) -> Result<(), AllocError>
    requires frame { (tag : ℕ) × (st.old.tag ≡ Some tag) × IsFrame st.old st.old.width tag }
    requires states { AreIds st.old states.now }
    requires known { All (λ s. s < length ss.old) tags.now }
    requires once { AreOnce ss.old tags.now }
    requires by_switch { (tag : ℕ) → st.old.tag ≡ Some tag
        → All (AreSwitchTags st.old ss.old states.now tags.now tag) by_switch.now }
    ensures { OnOk result ((ts : Items Table) × S.takes sink.old ts sink.new
        × ((tag : ℕ) → st.old.tag ≡ Some tag
        → Matched (IsTableAt st.old ss.old states.now tags.now tag) by_switch.now ts)) }
{
    let tag_states = all_states(st, ss, states, tags, by_switch)?;
    let table = tag_table(st.alloc(), ss, tags)?;
    ss.differ();
    st.laws();
    all_tables(st, table.as_slice(), tag_states.as_slice(), sink)
}
