//! Targets by a table.
ghost use Rattle.std.specs.Prelude.{◌≡◌, ◌≤◌, ◌++◌, None, IfOk, OnOk, flat_map, slice_index_or};
ghost use Rattle.nk_store.specs.StoreState.{IsId, look, root_field, Grows, HasLeaves};
ghost use Rattle.nk_determ.specs.Targets.{out_by_table, retargeted};

use nk_apply::{LeafMap, map_leaves};
use nk_field::List;
use nk_store::{Id, Out, Store};
use std::alloc::{AllocError, Global};

/// Each out with the target that the table has at its target's place, if any.
#[derive(Drop)]
struct ByTable<'a> {
    table: &'a [Option<u64>],
}

impl<'a> LeafMap for ByTable<'a> {
    ghost mapped = { λ s os. retargeted s.table.now os };

    ghost allowed = { λ _ _. Unit {0} };

    fn map(&self, alloc: Global, outs: &[Out]) -> Result<List<Out>, AllocError> {
        outs_by_table(alloc, self.table, outs)
    }
}

/// The outs with their new targets, in their order.
fn outs_by_table(
    alloc: Global,
    table: &[Option<u64>],
    outs: &[Out],
) -> Result<List<Out>, AllocError>
    ensures { IfOk result (λ r. r ≡ flat_map (out_by_table table.now) outs.now) }
{
    let mut all = List::new(alloc);
    for o in outs {
        push_by_table(&mut all, table, o)?;
    }
    Ok(all)
}

/// Appends the out with its new target, if it has one.
fn push_by_table(all: &mut List<Out>, table: &[Option<u64>], o: &Out) -> Result<(), AllocError>
    ensures { OnOk result (all.new ≡ all.old ++ out_by_table table.now o.now) }
{
    if let Some(target) = new_target(table, o.target) {
        all.push(Out {
            act: o.act.copy()?,
            target,
        })?;
    }
    Ok(())
}

/// What the table has at a place, if it has it.
fn new_target(table: &[Option<u64>], target: u64) -> Option<u64>
    ensures { result ≡ slice_index_or table.now target None }
{
    let place = target as usize;
    if place < table.len() {
        table[place]
    } else {
        None
    }
}

/// The diagram with each target replaced by what the table has at that place. Where the table has none there,
/// or is shorter, the out is left out. The only error is that memory ran out.
pub fn retarget(st: &mut Store, d: Id, table: &[Option<u64>]) -> Result<Id, AllocError>
    requires { IsId st.old d }
    ensures grows { Grows st.old st.new }
    ensures ok { IfOk result
        (λ r. HasLeaves st.new r (λ pk. retargeted table.now (look st.old d pk))) }
    ensures later { IfOk result (λ r. root_field st.old d ≤ root_field st.new r) }
{
    map_leaves(st, &ByTable { table }, d)
}
