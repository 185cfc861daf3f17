//! Merged tables with what tells their classes apart.
ghost use Rattle.std.specs.Prelude.{◌≡◌, ◌<◌, ◌+◌, ◌^◌, ℕ, Some, slice_index, IfOk, IfErr};
ghost use Rattle.nk_field.specs.Packet.{FieldTable};
ghost use Rattle.nk_topo.specs.Topology.{Topology};
ghost use Rattle.nk_policy.specs.Tree.{tree_of};
ghost use Rattle.nk_policy.specs.Policy.{Policy};
ghost use Rattle.nk_names.specs.WellFormed.{IsWellFormed};
ghost use Rattle.nk_tag.specs.Numbers.{AreNumbers};
ghost use Rattle.nk_compile.specs.Preparing.{IsPrepared};
ghost use Rattle.nk_compact.specs.Compacted.{IsCompactOf, IsCompactError, AnswersCompact};

use crate::histories::distinguishing_histories;
use crate::merged::merged_tables;
use crate::met::met_packets;
use nk_compile::{CompileError, Prepared, Refusal, prepare};
use nk_determ::{Levels, SetId, Sets};
use nk_field::{Fields, History, List, Packet};
use nk_merge::{DisjointCopy, classes_of};
use nk_names::Program;
use nk_policy::Pol;
use nk_store::{Id, Store};
use nk_table::Tables;
use nk_tag::odd_sets;
use nk_topo::Topo;
use std::alloc::{AllocError, Global};

/// Why two classes of tag sets are no single one: a packet from which the states of one of them give a history that those of the
/// other don't.
#[derive(Drop)]
pub struct DistinguishingHistory {
    /// The lesser class.
    pub first: u64,
    /// The other class.
    pub second: u64,
    /// That of both whose states give the history.
    pub alone: u64,
    /// The packet that it starts at.
    pub start: Packet,
    /// The history, the least that the states of one of both give alone.
    pub history: History,
}

/// The tables of a policy where tag sets whose states give the same histories share a tag, and what tells the tags apart.
#[derive(Drop)]
pub struct Compact {
    /// The tables; tags in them are the numbers of classes of tag sets.
    pub tables: Tables,
    /// For each two classes, in order, why they are no single one.
    pub aparts: List<DistinguishingHistory>,
}

/// The tables of a named policy in which tag sets after which the same histories are left share a tag.
/// They carry the policy; and for each two tags there is a packet and a history that tell them apart.
///
/// A policy is refused for the first reason in the order of `Refusal`, where too many tags are too many classes of tag sets; the
/// only other error is that memory ran out.
pub fn compile_compact(
    alloc: Global,
    program: &Program,
    name: &str,
) -> Result<Compact, CompileError>
    ensures { AnswersCompact program.now name.now result }
{
    let Some(named) = program.find(name) else {
        return Err(CompileError::Refused(Refusal::NoPolicy));
    };
    let p = named.written(alloc)?;
    policy_compact(alloc, &program.fields, &program.topo, &p)
}

/// The merged tables of a policy with what tells their tags apart, or the first reason to refuse it.
fn policy_compact(
    alloc: Global,
    fields: &Fields,
    topo: &Topo,
    p: &Pol,
) -> Result<Compact, CompileError>
    requires held { IsWellFormed fields.now (tree_of p.now) }
    requires room { (f : ℕ) → slice_index fields.now.maxima f + 1 < 2 ^ 64 }
    ensures made { IfOk result (IsCompactOf fields.now topo.now (tree_of p.now)) }
    ensures error { IfErr result (IsCompactError fields.now topo.now (tree_of p.now)) }
{
    let Some(tag) = fields.tag() else {
        return Err(CompileError::Refused(Refusal::NoTag));
    };
    let _few = fields.declared();
    let prepared = prepare(alloc, fields, topo, tag, p)?;
    let tags = all_numbers(&prepared)?;
    compact_of(prepared, fields, topo, p, tags.as_slice(), fields.max(tag))
}

/// The numbers of all of a prepared policy's sets at odd levels in order, as many as there are.
fn all_numbers(b: &Prepared) -> Result<List<SetId>, AllocError>
    requires prepared { (fields : FieldTable) × (topo : Topology) × (tag : ℕ) × (p : Policy)
        × IsPrepared fields topo tag p b.now }
    ensures ok { IfOk result (λ r. AreNumbers b.now.sets b.now.levels.levels r) }
{
    odd_sets(&b.sets, &b.levels)
}

/// The merged tables of a prepared policy, by the numbers of its tag sets in order; its classes are at most `max`, the tag's
/// largest value.
fn compact_of(
    prepared: Prepared,
    fields: &Fields,
    topo: &Topo,
    p: &Pol,
    tags: &[SetId],
    max: u64,
) -> Result<Compact, CompileError>
    requires prepared { (tag : ℕ) × (max ≡ slice_index fields.now.maxima tag)
        × IsPrepared fields.now topo.now tag (tree_of p.now) prepared }
    requires held { IsWellFormed fields.now (tree_of p.now) }
    requires numbers { AreNumbers prepared.sets prepared.levels.levels tags.now }
    requires room { max + 1 < 2 ^ 64 }
    ensures made { IfOk result (IsCompactOf fields.now topo.now (tree_of p.now)) }
    ensures error { IfErr result (IsCompactError fields.now topo.now (tree_of p.now)) }
{
    let mut st = prepared.store;
    let mut ss = prepared.sets;
    let states = prepared.states.as_slice();
    compact_tables(
        &mut st,
        &mut ss,
        &prepared.levels,
        states,
        fields,
        topo,
        p,
        tags,
        max,
    )
}

/// The merged tables of a policy, by its automaton's states, its sets and its levels, and by the numbers of its tag sets in
/// order.
fn compact_tables(
    st: &mut Store,
    ss: &mut Sets,
    lv: &Levels,
    states: &[Id],
    fields: &Fields,
    topo: &Topo,
    p: &Pol,
    tags: &[SetId],
    max: u64,
) -> Result<Compact, CompileError>
    requires prepared { (tag : ℕ) × (max ≡ slice_index fields.now.maxima tag)
        × IsPrepared fields.now topo.now tag (tree_of p.now)
        (record { store = st.old; states = states.now; sets = ss.old; levels = lv.now }) }
    requires held { IsWellFormed fields.now (tree_of p.now) }
    requires numbers { AreNumbers ss.old lv.now.levels tags.now }
    requires room { max + 1 < 2 ^ 64 }
    ensures made { IfOk result (IsCompactOf fields.now topo.now (tree_of p.now)) }
    ensures error { IfErr result (IsCompactError fields.now topo.now (tree_of p.now)) }
{
    let met = met_packets(st, ss, lv, tags)?;
    let mut disjoint = DisjointCopy::new(st, states)?;
    st.laws();
    let classes = classes_of(st, ss, states, &mut disjoint, tags)?;
    if classes.firsts.len() as u64 > max {
        return Err(CompileError::Refused(Refusal::TooManyTags { found: max + 1 }));
    }
    st.laws();
    let aparts = distinguishing_histories(
        st,
        ss,
        states,
        &mut disjoint,
        tags,
        classes.firsts.as_slice(),
    )?;
    st.laws();
    ss.differ();
    let tables = merged_tables(st, ss, topo, p, states, tags, &classes, met.as_slice())?;
    let fields = fields.copy()?;
    let topo = topo.copy()?;
    Ok(Compact {
        tables: Tables {
            fields,
            topo,
            tables,
        },
        aparts,
    })
}
