//! The table of a switch while plan steps are done.
ghost use Rattle.std.specs.Prelude.{◌≡◌, IfOk};
ghost use Rattle.nk_table.specs.Rules.{groups_at_switch};
ghost use Rattle.nk_update.specs.Plans as plans;
ghost use Rattle.nk_update.specs.Plans.{NumbersInOrder};

use crate::groups::groups_after;
use crate::rows::rows_after;
use nk_field::Fid;
use nk_table::{Group, Table, Tables, digits_at, rows_at};
use std::alloc::{AllocError, Global};

/// The groups of a switch, none where it has no table.
fn groups_at<'a>(tables: &'a [Table], switch: u16) -> &'a [Group]
    ensures { result.now ≡ groups_at_switch tables.now switch }
{
    for table in tables {
        if table.switch == switch {
            return table.groups.as_slice();
        }
    }
    &[]
}

/// The table of a switch after so many plan steps: the old one before the first, the new one after the third. The only
/// error is that memory ran out.
#[tactic(auto, using(crate::proofs::Numbers::numbers_within))]
pub(crate) fn plan_table(
    alloc: Global,
    old: &Tables,
    new: &Tables,
    tag: Fid,
    steps: u64,
    switch: u16,
) -> Result<Table, AllocError>
    requires { NumbersInOrder new.now }
    ensures { IfOk result (λ t. t ≡ plans.plan_table old.now new.now tag steps switch) }
{
    let old_groups = groups_at(old.tables.as_slice(), switch);
    let new_groups = groups_at(new.tables.as_slice(), switch);
    let old_rows = rows_at(old.tables.as_slice(), switch);
    let new_rows = rows_at(new.tables.as_slice(), switch);
    let n = old_groups.len() as u64;
    let most = new_groups.len() as u64;
    let digits = digits_at(&old.fields, tag);
    let groups = groups_after(alloc, old_groups, new_groups, steps, n, most)?;
    let rows = rows_after(alloc, old_rows, new_rows, digits, tag, steps, n, most)?;
    Ok(Table {
        switch,
        groups,
        rows,
    })
}
