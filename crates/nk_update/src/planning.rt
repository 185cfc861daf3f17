//! The plan of an update.
ghost use Rattle.std.specs.Prelude.{◌≡◌, IfOk, Some, map};
ghost use Rattle.nk_update.specs.Plans.{NumbersInOrder, IsPlannable, pair_of, switches_of};
ghost use Rattle.nk_update.specs.Steps.{plan_steps_of, plan_of};

use crate::plans::{Plan, PlanTables};
use crate::tables::plan_table;
use nk_field::{Fid, List};
use nk_table::Tables;
use std::alloc::{AllocError, Global};

/// The plan by which new tables take the old ones' place: the four tables of each declared switch. Both have the same
/// fields with a tag and the same topology; each row matches the tag exactly, in the old tables with a value up to the
/// old tags, in the new ones with 0 or a greater value; and the groups of each switch are numbered from 1 in order, and
/// its rows name none but these; and none but declared switches have rows. The only error is that memory ran out.
pub fn plan(alloc: Global, old: &Tables, new: &Tables, old_tags: u64) -> Result<Plan, AllocError>
    requires { IsPlannable (pair_of old.now new.now old_tags) }
    ensures { IfOk result (λ plan. plan ≡ plan_of (pair_of old.now new.now old_tags)) }
{
    let switches = match old.fields.tag() {
        Some(tag) => each_switch(alloc, old, new, tag)?,
        None => unreachable!(),
    };
    let fields = old.fields.copy()?;
    let topo = old.topo.copy()?;
    Ok(Plan {
        fields,
        topo,
        old_tags,
        switches,
    })
}

/// The four tables of each declared switch.
fn each_switch(
    alloc: Global,
    old: &Tables,
    new: &Tables,
    tag: Fid,
) -> Result<List<PlanTables>, AllocError>
    requires { NumbersInOrder new.now }
    ensures { IfOk result (λ all. all
        ≡ map (plan_steps_of old.now new.now tag) (switches_of old.now)) }
{
    let mut all = List::new(alloc);
    for switch in old.topo.switches() {
        all.push(four(alloc, old, new, tag, *switch)?)?;
    }
    Ok(all)
}

/// The four tables of a switch.
fn four(
    alloc: Global,
    old: &Tables,
    new: &Tables,
    tag: Fid,
    switch: u16,
) -> Result<PlanTables, AllocError>
    requires { NumbersInOrder new.now }
    ensures { IfOk result (λ s. s ≡ plan_steps_of old.now new.now tag switch) }
{
    let before = plan_table(alloc, old, new, tag, 0, switch)?;
    let added = plan_table(alloc, old, new, tag, 1, switch)?;
    let replaced = plan_table(alloc, old, new, tag, 2, switch)?;
    let removed = plan_table(alloc, old, new, tag, 3, switch)?;
    Ok(PlanTables {
        switch,
        before,
        added,
        replaced,
        removed,
    })
}
