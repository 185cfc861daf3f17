//! The tables of all switches, where tags share the numbers of their classes.
ghost use Rattle.std.specs.Prelude.{◌≡◌, ℕ, ◌<◌, Some, All, IfOk, length};
ghost use Rattle.nk_apply.specs.Unions.{AreIds};
ghost use Rattle.nk_extract.specs.RowsOf.{IsFrame};
ghost use Rattle.nk_group.specs.Matched.{Matched};
ghost use Rattle.nk_group.specs.Tagged.{AreOnce};
ghost use Rattle.nk_group.specs.Classed.{AreSwitchClasses, IsClassTableAt};

use crate::acting::all_class_states;
use crate::members::tag_table;
use crate::sink::TableList;
use crate::switch_tags::SwitchClasses;
use crate::tables::all_tables;
use crate::targets::class_targets;
use nk_determ::{SetId, Sets};
use nk_field::List;
use nk_store::{Id, Store};
use nk_table::Table;
use std::alloc::AllocError;

/// The table of each switch, where tags share the numbers of their classes. The rows of a class do at each packet what the states
/// of the tag do together that acts for it there. A copy at which they end leaves with tag 0; one that they record next leaves
/// with the number of the class of the tag whose set is that of all labels that record it, and is left out where that set has no
/// tag. Equal bucket lists of a switch are one group.
///
/// `states` are the diagrams of an automaton, `tags` the numbers of the tags' sets of labels in order, and `classes` the numbers of
/// their classes. The only error is that memory ran out.
pub fn class_tables(
    st: &mut Store,
    ss: &mut Sets,
    states: &[Id],
    tags: &[SetId],
    classes: &[u64],
    by_switch: &[SwitchClasses],
) -> Result<List<Table>, AllocError>
    requires frame { (tag : ℕ) × (st.old.tag ≡ Some tag) × IsFrame st.old st.old.width tag }
    requires states { AreIds st.old states.now }
    requires known { All (λ s. s < length ss.old) tags.now }
    requires once { AreOnce ss.old tags.now }
    requires classes { length classes.now ≡ length tags.now }
    requires by_switch { (tag : ℕ) → st.old.tag ≡ Some tag
        → All (AreSwitchClasses st.old ss.old states.now tags.now tag) by_switch.now }
    ensures { IfOk result (λ ts. (tag : ℕ) → st.old.tag ≡ Some tag →
        Matched (IsClassTableAt st.old ss.old states.now tags.now classes.now tag) by_switch.now
        ts) }
{
    let Some(tag) = st.tag() else { unreachable!() };
    let class_states = all_class_states(st, ss, states, tags, tag, by_switch)?;
    let by_tag = tag_table(st.alloc(), ss, tags)?;
    let table = class_targets(st.alloc(), by_tag.as_slice(), classes)?;
    ss.differ();
    st.laws();
    let mut tables = TableList::new(st.alloc());
    all_tables(st, table.as_slice(), class_states.as_slice(), &mut tables)?;
    Ok(tables.into_tables())
}
