//! A policy whose tag sets have their numbers: all that its tables are made of, and its tables.
ghost use Rattle.std.specs.Prelude.{◌+◌, ◌<◌, ◌^◌, ℕ, List as Items, slice_index, IfOk, IfErr, OnOk};
ghost use Rattle.nk_field.specs.Packet.{FieldTable};
ghost use Rattle.nk_policy.specs.Policy.{Policy};
ghost use Rattle.nk_policy.specs.Tree.{tree_of};
ghost use Rattle.nk_table.specs.declared.Table.{Table};
ghost use Rattle.nk_names.specs.WellFormed.{IsWellFormed};
ghost use Rattle.nk_compile.specs.Answers.{IsMade, IsError};
ghost use Rattle.nk_compile.specs.Counted.{HasTagSets};
ghost use Rattle.nk_compile.specs.Preparing.{IsNumberedPolicy};

use crate::counted::Counted;
use crate::ends::link_ends;
use crate::prepared::Prepared;
use crate::refusal::{CompileError, Refusal};
use crate::tables::{numbers, prepare};
use crate::tagging::{print_to, tables_over};
use nk_determ::SetId;
use nk_field::{Fields, List};
use nk_group::{TableList, TableSink};
use nk_policy::Pol;
use nk_topo::Topo;
use std::alloc::{AllocError, Global};

/// A prepared policy with the numbers of its tag sets. The policy itself isn't needed any more.
#[derive(Drop)]
pub struct Numbered {
    /// The prepared policy.
    pub prepared: Prepared,
    /// For each mark the switch where the link literal with it ends, if there is one.
    pub ends: List<Option<u16>>,
    /// The numbers of the tag sets, in order.
    pub tags: List<SetId>,
}

/// A policy with the numbers of its tag sets, or the first reason to refuse it.
pub fn number_tags(
    alloc: Global,
    fields: &Fields,
    topo: &Topo,
    p: &Pol,
) -> Result<Numbered, CompileError>
    requires held { IsWellFormed fields.now (tree_of p.now) }
    requires room { (f : ℕ) → slice_index fields.now.maxima f + 1 < 2 ^ 64 }
    ensures ok { IfOk result (IsNumberedPolicy fields.now topo.now (tree_of p.now)) }
    ensures error { IfErr result (IsError fields.now topo.now (tree_of p.now)) }
{
    let Some(tag) = fields.tag() else {
        return Err(CompileError::Refused(Refusal::NoTag));
    };
    let _few = fields.declared();
    let prepared = prepare(alloc, fields, topo, tag, p)?;
    let tags = numbers(&prepared, 0, fields.max(tag))?;
    let ends = link_ends(alloc, p, prepared.states.len())?;
    Ok(Numbered {
        prepared,
        ends,
        tags,
    })
}

/// Its printed tables, one after the other, and the number of its tag sets.
pub fn tables_to<S: TableSink>(
    numbered: Numbered,
    topo: &Topo,
    sink: &mut S,
) -> Result<u64, AllocError>
    requires numbered { (fields : FieldTable) × (p : Policy)
        × IsNumberedPolicy fields topo.now p numbered }
    ensures made { (fields : FieldTable) (p : Policy) → IsNumberedPolicy fields topo.now p numbered
        → OnOk result ((ts : Items Table)
        × S.takes sink.old ts sink.new
        × IsMade fields topo.now p (record { fields = fields; topo = topo.now; tables = ts })) }
    ensures counted { (fields : FieldTable) (p : Policy)
        → IsNumberedPolicy fields topo.now p numbered → IfOk result (HasTagSets fields topo.now p) }
{
    let ends = numbered.ends;
    let tags = numbered.tags;
    let count = tags.len() as u64;
    print_to(
        numbered.prepared,
        ends.as_slice(),
        topo,
        0,
        tags.as_slice(),
        sink,
    )?;
    Ok(count)
}

/// The printed tables of a policy and the number of its tag sets, or the first reason to refuse it.
pub fn policy_tables(
    alloc: Global,
    fields: &Fields,
    topo: &Topo,
    p: &Pol,
) -> Result<Counted, CompileError>
    requires held { IsWellFormed fields.now (tree_of p.now) }
    requires room { (f : ℕ) → slice_index fields.now.maxima f + 1 < 2 ^ 64 }
    ensures made { IfOk result (λ c. IsMade fields.now topo.now (tree_of p.now) c.tables) }
    ensures counted { IfOk result (λ c. HasTagSets fields.now topo.now (tree_of p.now) c.tag_sets) }
    ensures error { IfErr result (IsError fields.now topo.now (tree_of p.now)) }
{
    let numbered = number_tags(alloc, fields, topo, p)?;
    let mut tables = TableList::new(alloc);
    let tag_sets = tables_to(numbered, topo, &mut tables)?;
    let tables = tables_over(fields, topo, tables.into_tables())?;
    Ok(Counted { tables, tag_sets })
}
